//! The flags on which processes wait for interrupts and for one another.
#![tactic(auto)]

mod flags;

pub use flags::{FlagSet, FlagWait, Flags};
