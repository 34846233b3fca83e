//! The outside of the machine: files that are read, drives of sectors, and a sink for text.
//!
//! Each trait says what its device holds, and when it may fail. The adapters over the real files and the real output
//! stand in mpm_host; here are those over memory, which tests use.
#![tactic(auto)]

mod calls;
mod drives;
mod files;
mod links;
mod memory_drives;
mod memory_files;
mod memory_sink;
mod named;
mod sink;

pub use drives::Drives;
pub use files::{FetchError, Fetched, Files};
pub use memory_drives::MemoryDrives;
pub use memory_files::MemoryFiles;
pub use memory_sink::MemorySink;
pub use named::{Bytes, FailedNames};
pub use sink::Sink;

/// No memory was found: the allocator's own error.
pub use std::alloc::AllocError as OutOfMemory;

/// A device failed.
#[derive(Clone, Copy, Debug, PartialEq, Eq)]
pub struct Failed;
