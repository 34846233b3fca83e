//! Drives as file calls find and leave them: which of them processes have marked, which are protected from writing, and which are
//! busy. (MP/M II Programmer's Guide, functions 13, 28, 37, 38 and 39.)
#![tactic(auto)]

mod busy;
mod driving;
mod marks;
mod protected;

pub use busy::are_busy;
pub use driving::{leave_drives, mark_drives, protect_drives};
pub use marks::Marks;
pub use protected::Protected;
