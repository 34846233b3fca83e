//! What a file call does with its caller's open files and record locks, by the file: how many records it finds unlocked, a record that
//! it locks, records that it frees, a file that it closes or has written. (MP/M II Programmer's Guide, "Function 16: Close File",
//! "Function 42: Lock Record", "Function 43: Unlock Record".)
#![tactic(auto)]

mod files;
mod records;

pub use files::{close_file, note_written};
pub use records::{count_free, is_locked_off, lock_record, unlock_records};
