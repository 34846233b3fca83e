//! Page relocatable programs: the header of the file, and the code as it is moved to a page of memory. (MP/M II System
//! Guide, "Page Relocatable Programs".)
#![tactic(auto)]

mod file_header;
mod relocation;

pub use file_header::{BadHeader, PrlHeader, header};
pub use relocation::patch;
