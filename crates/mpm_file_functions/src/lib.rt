//! The functions on files and drives, by their numbers, the table of what each is refused for, and that of what ends the records of a
//! call. (MP/M II Programmer's Guide, "BDOS Function Calls", "BDOS Error Handling".)
#![tactic(auto)]

mod answers;
mod ends;
mod errors;
mod functions;
mod refusals;

pub use answers::Answered;
pub use ends::{Ended, RecordEnd, coded, does_stay, done_by};
pub use errors::RecordError;
pub use functions::{DirectFunction, FileFunction};
pub use refusals::{Extended, Refusal, refusals_of};
