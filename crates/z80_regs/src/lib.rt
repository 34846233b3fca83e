//! The registers of the Z80, and the bus that it reads and writes through.
#![tactic(auto)]

mod bus;
mod regs;

pub use bus::Bus;
pub use regs::{InterruptMode, Regs};
