//! Scenes of the jobs of file calls on a drive in memory, turn by turn: a disk, jobs that are done on it, and what is left of it whichever
//! call of the drive fails. It sees what any caller of the jobs does.
#![tactic(auto)]

mod disks;
mod scene;
mod suiting;
mod turns;

pub use crate::disks::NO_RECORD;
pub use crate::scene::{Does, FREE, Scene, Seen, Slot};
pub use crate::turns::{Came, KINDS, Left, first_other, job, left_of};
