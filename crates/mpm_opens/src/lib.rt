//! Open files and record locks: which process has which file open, in which mode, and which records it has locked. (MP/M II
//! Programmer's Guide, "Function 15: Open File", "Function 42: Lock Record".)
#![tactic(auto)]

mod items;
mod kinds;
mod limits;
mod locks;
mod opens;

pub use kinds::{FileKey, LockDone, Mode, OpenRefused};
pub use opens::Opens;
