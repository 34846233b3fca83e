//! What comes out at consoles: bytes as they are, and the texts that the kernel itself writes.
#![tactic(auto)]

mod console;
mod errors;
mod unlisted;

pub use console::put_bytes;
pub use errors::error_text;
pub use unlisted::{ILLEGAL_LENGTH, illegal_text};
