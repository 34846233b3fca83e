//! What the directory entries of a file tell a call and its reply, and what a call makes of an XFCB or of the label: the jobs that put
//! them. (MP/M II Programmer's Guide, "File Control Block Definition", "Extended File Control Blocks", "Directory Labels".)
#![tactic(auto)]

mod granting;
mod jobs;
mod keeping;
mod protection;
mod sizes;
mod telling;

pub use granting::{Granted, OpenedAs, reply_block, reply_value};
pub use jobs::{guarding, labelling, made_xfcb, making_job, opening, writing_stamp};
pub use keeping::{label_there, xfcb_there};
pub use protection::StoredProtection;
pub use sizes::size;
pub use telling::{found_bytes, free_bytes, open_block, position_block, record_count, xfcb_block};
