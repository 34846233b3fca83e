//! The clock: the date and the time of day, and the processes that wait for its ticks.
#![tactic(auto)]

mod clock;
mod delays;
mod moment;
mod packed_decimal;
mod telling;
mod woken;

pub use clock::Clock;
pub use moment::Moment;
pub use packed_decimal::{moment_in, packed, stamp};
pub use telling::{tell_date, tell_time};
pub use woken::Woken;
