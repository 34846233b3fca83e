//! What tests run the instructions of a Z80 in: a memory, registers of which each has its own value, and cases of one line each. It
//! sees what any caller of the Z80 does.
#![tactic(auto)]

mod lines;
mod memory;
mod registers;

pub use crate::lines::{all_come_out, all_of_page_come_out};
pub use crate::memory::Memory;
pub use crate::registers::{behind, fixture};
