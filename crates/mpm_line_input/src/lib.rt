//! Line input from a console: what each key does to the line that is read, and what is written for it.
#![tactic(auto)]

mod echo;
mod line;

pub use echo::{Echo, key_echo};
pub use line::{Edit, LineKey, answer_line, edited, full_line, is_full, key_of};
