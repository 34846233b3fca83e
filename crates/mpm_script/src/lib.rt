//! The script of a run: what is typed at consoles, and what devices and flags do, step by step.
#![tactic(auto)]

mod error;
mod event;
mod key;
mod line;
mod numbers;
mod reading;
mod script;
mod word;

pub use error::ScriptError;
pub use event::{Event, Timed};
pub use line::GREATEST_STEP;
pub use numbers::number;
pub use reading::read_script;
pub use script::Script;
pub use word::{after, before, place_of};
