//! The calls on files and drives: how each of them enters service, what it does on its drive turn by turn, and what it answers.
//! (MP/M II Programmer's Guide, "BDOS Function Calls", "BDOS Error Handling".)
#![tactic(auto)]

mod answering;
mod at_once;
mod bdos;
mod directories;
mod ending;
mod finishing;
mod leaving;
mod planning;
mod records;
mod releasing;
mod replies;
mod replying;
mod service;
mod starting;
mod syncing;
mod turning;

pub use bdos::Bdos;
pub use mpm_directories::in_places;
pub use mpm_file_functions::{
    Answered, DirectFunction, Extended, FileFunction, RecordEnd, Refusal, refusals_of,
};
pub use mpm_refusals::Caller;
