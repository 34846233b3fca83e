//! The machine: processes on a Z80 with banked memory, their consoles, the kernel behind the gates, and its drives.
#![tactic(auto)]

mod abort;
mod acting;
mod ahead;
mod call;
mod disk;
mod due;
mod file_calls;
mod filing;
mod finish;
mod housing;
mod interrupts;
mod machine;
mod procedures;
mod residing;
mod settling;
mod stepping;

pub use housing::Home;
pub use machine::{Machine, RunFault, StepFault};
pub use mpm_drives::BootError;
