//! Plain values of the system that several crates name.
#![tactic(auto)]

mod call;
mod devices;
pub mod functions;
mod kind;
mod number;
mod segment;
mod steps;
mod tabs;
mod texts;
mod unit;

pub use call::{Call, FAILURE_CODE, Outcome, Reply};
pub use devices::Devices;
pub use kind::Kind;
pub use number::{Name8, Pid, Seg};
pub use segment::SegmentSpec;
pub use steps::Steps;
pub use tabs::tab_width;
pub use texts::{ends_text, in_width};
pub use unit::Unit;
