//! File control blocks: which file they name, where in it they stand, and what a call puts into them. (MP/M II Programmer's
//! Guide, "File Control Block Definition".)
#![tactic(auto)]

mod block;
mod names;
mod opening;
mod positions;

pub use block::ControlBlock;
pub use names::{is_ambiguous, with_attributes};
pub use opening::item_numbered;
pub use positions::{are_beyond, three_bytes};
