//! The processes: a finite map from the numbers of the 32 slots.
#![tactic(auto)]

mod lookup;
mod process;
mod procs;
mod settings;

pub use process::{NewProcess, Process};
pub use procs::{NoSlot, Procs};
pub use std::alloc::AllocError as OutOfMemory;
