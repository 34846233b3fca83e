//! The sectors that were read and written last, kept before the drives.
#![tactic(auto)]

mod cache;

pub use cache::Cache;

/// No memory was found: the allocator's own error.
pub use std::alloc::AllocError as OutOfMemory;
