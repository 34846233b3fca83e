//! The dispatcher: the processes, the lists in which they stand, the one that runs, and those whose held calls were completed.
#![tactic(auto)]

mod completed;
mod dispatcher;

pub use completed::Completed;
pub use dispatcher::{Dispatcher, READY, done};
pub use std::alloc::AllocError as OutOfMemory;
