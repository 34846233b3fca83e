//! Disk drives: their images are mounted, and their directories are kept in memory. (MP/M II Programmer's Guide, "File
//! Control Blocks" and "Directory Entries".)
#![tactic(auto)]

mod blocks;
mod directory;
mod errors;
mod faults;
mod looking;
mod lookups;
mod mounting;
mod reading;
mod records;
mod searching;
mod slots;

pub use blocks::has_outside;
pub use directory::Mounted;
pub use errors::{ImageFault, MountError};
pub use looking::{attributes, attributes_of, extent_count, label, label_byte, xfcb};
pub use lookups::lowest_entry;
pub use mounting::{mount, mount_entries};
pub use reading::read_directory;
pub use records::{block_place, block_records, read_error, record_error};
pub use searching::Found;
pub use slots::{EntryName, label_slot, last_extent, name_of, named_slot, places, xfcb_slot};

/// No memory was found: the allocator's own error.
pub use std::alloc::AllocError as OutOfMemory;
