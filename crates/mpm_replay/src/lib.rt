//! What the instructions of one process make of it alone: its registers, its segment and common memory.
#![tactic(auto)]

mod ports;
mod replaying;
mod stopping;

pub use replaying::{Replayed, replay};
pub use stopping::Why;
