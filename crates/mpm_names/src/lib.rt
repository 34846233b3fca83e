//! File names: how they are spelled, how directories keep them, and which of them a pattern fits. (MP/M II
//! Programmer's Guide, "Function 152: Parse Filename".)
#![tactic(auto)]

mod characters;
mod fields;
mod file_name;
mod pattern;
mod spelling;

pub use file_name::{BadName, Parsed, parse_filename};
pub use pattern::matches;
