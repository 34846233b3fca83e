//! Passwords: how directories keep them, and whom they let in; and the stamps of files. (MP/M II Programmer's Guide,
//! "Extended File Control Blocks", "File Passwords".)
#![tactic(auto)]

mod admission;
mod encoding;

pub use admission::{admits, admits_label};
pub use encoding::{decode_password, encode};
pub use mpm_clock::stamp;
