//! The sectors of a disk as file calls write them: one, zeros in a row, a record with its fresh allocation block, entries of
//! the directory. (CP/M Alteration Guide, "Disk Parameter Tables"; MP/M II Programmer's Guide, "Directory Entries".)
#![tactic(auto)]

mod disk;
mod slots;

pub use disk::{Disk, FreshBlock, SlotEntry};
