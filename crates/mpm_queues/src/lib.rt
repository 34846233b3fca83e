//! Message queues: what was written is read in order, and processes wait where there is no message or no room.
#![tactic(auto)]

mod blocks;
mod queues;
mod store;

pub use blocks::{BLOCK_SIZE, address_of, write_call};
pub use queues::{MakeRefused, QueueOutcome, Queues};
pub use std::alloc::AllocError as OutOfMemory;
