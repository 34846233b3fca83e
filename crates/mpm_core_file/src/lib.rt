//! The file of a core: what one process is at a step of its machine, as bytes.
#![tactic(auto)]

mod head;
mod reading;

pub use head::{HEAD_SIZE, Head, LARGEST_SIZE};
pub use reading::{CoreFault, read_head};
