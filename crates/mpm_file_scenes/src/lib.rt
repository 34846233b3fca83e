//! Scenes of file calls: who calls, what they are answered, and what is seen after it, on two floppy disks. Each is played with its
//! calls done at once, as any caller does them, and once more turn by turn.
#![tactic(auto)]

mod desk;
mod floppies;
mod scene;

pub use crate::desk::Line;
pub use crate::floppies::{full_disk, small_disk};
pub use crate::scene::{first_wrong_failing, first_wrong_line};
