//! Commands as they are sent to the command line interpreter, and the base page with which the program of one begins. (MP/M
//! II Programmer's Guide, "Function 150: Send CLI Command"; System Guide, "Memory Segment Base Page Initialization".)
#![tactic(auto)]

mod command;
mod page;
mod text;

pub use command::{Command, command_of, console_of, tail_of};
pub use mpm_names::BadName;
pub use page::{base_page, file_block};
