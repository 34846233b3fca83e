//! What is wrong with a directory as a whole list, and slots of it that are freed. (MP/M II Programmer's Guide,
//! "Directory Entries".)
#![tactic(auto)]

mod freeing;
mod judging;
mod listing;
mod sharing;
mod writing;

pub use freeing::free_entries;
pub use listing::fault_list;
pub use writing::free_slots;

/// No memory was found: the allocator's own error.
pub use std::alloc::AllocError as OutOfMemory;
