//! The processor of a machine: bursts of instructions of one process over banked memory, up to a gate or an unlisted opcode.
#![tactic(auto)]

mod instruction;

pub use instruction::{Instructions, execute};
