//! The scheduler of commands: the entries that its messages are (`read_entry`), and the process that sends each command at its
//! time (`Sched`), by one table of calls. (MP/M II User's Guide, "SCHED".)
#![tactic(auto)]

mod date;
mod digits;
mod entry;
mod sched;
mod table;

pub use entry::{BadSchedEntry, SchedEntry, read_entry};
pub use sched::Sched;
