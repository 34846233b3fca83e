//! Making and ending processes, and the resident procedures that they enter.
#![tactic(auto)]

mod aborting;
mod copies;
mod creating;
mod ending;
mod procedures;

pub use aborting::{abort, target, waits_to_end};
pub use copies::{tell_descriptor, tell_system};
pub use creating::create;
pub use ending::end;
pub use procedures::{enter_procedure, leave_procedure};
