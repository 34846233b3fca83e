//! Banked memory: segments, of which each process has one, and common memory, which all of them share.
#![tactic(auto)]

mod banks;
mod burst;
mod bus;
mod bytes;
mod first_page;
mod gates;
mod ports;
mod range;
mod segment;
mod slice_bus;
mod window;

pub use banks::Banks;
pub use burst::Burst;
pub use bus::BankBus;
pub use gates::{CALL_GATE, END_GATE, RETURN_GATE, last_page};
pub use slice_bus::SliceBus;
pub use window::Window;

/// No memory was found: the allocator's own error.
pub use std::alloc::AllocError as OutOfMemory;
