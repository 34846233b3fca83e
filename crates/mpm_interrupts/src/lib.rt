//! The interrupts that are to come: periodic ticks and the events of a script, and the step before which none is due.
#![tactic(auto)]

mod interrupts;
mod schedule;

pub use interrupts::{Interrupts, Pending};
pub use schedule::Schedule;
