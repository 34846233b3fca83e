//! Consoles and printers: who owns each, who waits for it, the keys that were typed, and the column of a console.
#![tactic(auto)]

mod columns;
mod console;
mod consoles;
mod keys;
mod modes;

pub use consoles::Consoles;
pub use keys::KeyDone;
pub use modes::{AWAIT_KEY, POLL_KEY, TELL_STATUS, echoes, is_cooked, is_raw, writes};
pub use mpm_base::Unit;
pub use std::alloc::AllocError as OutOfMemory;
