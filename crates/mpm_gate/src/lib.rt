//! The gates of a segment, at which the kernel acts: where they are, what a kernel call reads as it is taken there, and its
//! reply as it is placed.
#![tactic(auto)]

mod descriptor;
mod gate;
mod memory;
mod reads;
mod reply;
mod take;

pub use descriptor::segment_descriptor;
pub use gate::{Gate, gate_at, gate_of_calls, is_gate, page_of_gates};
pub use reads::{Reads, reads_of};
pub use reply::{put_bytes, put_reply, take_return};
pub use take::{TextEnd, call_of};
