//! Devices that stay within the program, for a run that nothing outside can stop: drives over memory of which no call fails but
//! an attach by a missing name, and a sink that counts the lines that begin with `c` and with `t`, and keeps none.
#![tactic(auto)]

mod counts;
mod passage;
mod steady;

pub use counts::LineCounts;
pub use passage::Passage;
pub use steady::SteadyDrives;
