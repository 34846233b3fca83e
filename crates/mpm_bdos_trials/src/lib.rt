//! Worked examples of calls on files and drives, by subject, below proofs/examples/: single values of the definitions of
//! mpm_bdos, as worked by hand from the guides. They stand above that crate, so that they are proved once, and nothing
//! waits for them.
#![tactic(auto)]
