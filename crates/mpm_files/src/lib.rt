//! A file call on one drive: its units, which are the single changes that it makes of the drive, how many turns they take,
//! and each turn upon the attached image. (MP/M II Programmer's Guide, "BDOS Function Calls".)
#![tactic(auto)]

mod adding;
mod changing;
mod clearing;
mod counting;
mod entries;
mod lookups;
mod marking;
mod moving;
mod planning;
mod protecting;
mod reading;
mod records;
mod renaming;
mod searching;
mod setting;
mod stamps;
mod turning;
mod work;
mod writing;

pub use mpm_file_functions::RecordError;
pub use mpm_jobs::{Job, JobKind};
pub use mpm_mount::read_error;
pub use planning::{plan, turns};
pub use turning::{Progress, turn};
pub use work::Work;
