//! The drives of a machine: each is attached to the image that the machine file names, and mounted.
#![tactic(auto)]

mod error;
mod mounted;

pub use error::BootError;
pub use mounted::MountedDrives;
