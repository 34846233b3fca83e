//! The directories of the sixteen drives, each in the place of its drive's number, and the calls that are answered by them with no
//! disk. (MP/M II Programmer's Guide, functions 14, 24, 29, 31 and 36.)
#![tactic(auto)]

mod direct;
mod places;

pub use direct::do_directly;
pub use places::in_places;
