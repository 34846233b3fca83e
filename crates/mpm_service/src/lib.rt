//! Who is served by the disk: the calls that wait for it, in ready order, and the one in service, in turns of so many steps.
#![tactic(auto)]

mod service;
mod waiting;

pub use service::{Service, Turn};
