//! The geometries of disks: their sizes and disk parameter blocks, where their sectors are in an image, and
//! which of their blocks are used. (CP/M Alteration Guide, "Disk Parameter Tables".)
#![tactic(auto)]

mod blocks;
mod disk;
mod parameters;

pub use blocks::BlockMap;
pub use disk::{geometry, parameter_block, place};
pub use parameters::Geometry;

/// No memory was found: the allocator's own error.
pub use std::alloc::AllocError as OutOfMemory;
