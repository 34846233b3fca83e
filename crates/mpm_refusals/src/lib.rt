//! What a file call names, what a search finds, and why the call is refused. (MP/M II Programmer's Guide,
//! "File Control Block Definition", "BDOS Error Handling".)
#![tactic(auto)]

mod applies;
mod asking;
mod caller;
mod deleting;
mod files;
mod finding;
mod keeping;
mod missing;
mod passwords;
mod refusing;
mod room;
mod searches;
mod searching;
mod sharing;
mod subjects;

pub use applies::{mode_needed, subject_key};
pub use asking::{Asked, ask, block_of_call, drive_of_call, word_of_call};
pub use caller::{Caller, FileCall};
pub use deleting::Deleter;
pub use finding::{FoundEntry, found};
pub use keeping::keep_found;
pub use refusing::refusal_of;
pub use room::makes_xfcb;
pub use searches::{LastSearch, Searches};
pub use searching::{EntryPlace, place_of};
pub use subjects::{OpenItem, first_record, item_number};
