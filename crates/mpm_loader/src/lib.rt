//! Programs as they are loaded: which bytes of a program's file are its code, which mark the bytes of code that are moved, and
//! how much memory it wants. The file comes in pieces. (MP/M II System Guide, "Page Relocatable Programs"; Programmer's
//! Guide, "Transient Programs".)
#![tactic(auto)]

mod load;
mod part;
mod plan;

pub use load::Load;
pub use mpm_prl::BadHeader;
pub use plan::Plan;
