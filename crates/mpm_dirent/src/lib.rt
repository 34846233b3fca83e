//! Directory entries of 32 bytes: what the bytes mean, and the bytes of an entry. (MP/M II Programmer's Guide, "Directory
//! Entries" and "Extended File Control Blocks".)
#![tactic(auto)]

mod kinds;
mod limits;
mod maps;
mod names;
mod read;
mod write;

pub use kinds::{Entry, FileEntry, LabelEntry, XfcbEntry};
pub use limits::{LAST_EXTENT, LAST_NAMED, LAST_POSITION, LAST_RECORD};
pub use names::plain_name;
pub use read::read_entry;
pub use write::write_entry;
