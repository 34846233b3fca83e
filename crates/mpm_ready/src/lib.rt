//! Lists of processes in ready order.
//!
//! One table of links holds 96 lists. A process is in at most one of them; no call takes memory or fails.
#![tactic(auto)]

mod links;
mod lists;
mod node;

pub use lists::Lists;
