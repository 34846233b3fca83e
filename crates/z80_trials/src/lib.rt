//! Tests of the Z80: its results and flags, its decoding, and whole instructions of the main page over a memory. They stand above the
//! crates that they try, so that none of these is proved once more for its tests; each sees what any caller of them does.
#![tactic(auto)]

#[cfg(test)]
mod calculating;
#[cfg(test)]
mod decoding;
#[cfg(test)]
mod running;
