//! The lines of an image checker: the list of the directory entries at fault, as it is written and as it is read back.
#![tactic(auto)]

mod fault;
mod reading;
mod slots;
mod writing;

pub use fault::SlotFault;
pub use reading::read_slots;
pub use slots::Slots;
pub use writing::{freed_line, list_text, sound_line};

/// No memory was found: the allocator's own error.
pub use std::alloc::AllocError as OutOfMemory;
