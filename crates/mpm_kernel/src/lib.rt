//! The kernel: processes, the lists in which they stand, which of them runs, what they wait for, and what calls and events
//! make of these.
#![tactic(auto)]

mod call;
mod completion;
mod console_input;
mod consoles;
mod dates;
mod disk;
mod ending;
mod events;
mod kernel;
mod procedures;
mod queueing;
mod waiting;

pub use call::MPM_VERSION;
pub use kernel::Kernel;
pub use mpm_line_input::Echo;
pub use mpm_procs::NoSlot;
pub use mpm_service::{Service, Turn};
pub use std::alloc::AllocError as OutOfMemory;
