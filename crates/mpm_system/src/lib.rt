//! What a machine keeps from step to step: kernel, memory, residents, the interrupts to come. How it begins, and what is done to it in
//! which no process ends and no instruction runs. A call is taken at the gate and answered, what a call writes comes out, memory segments
//! are reserved, programs are placed, consoles are passed on, and what lies ahead is looked for.
#![tactic(auto)]

mod aborts;
mod coming;
mod file_calls;
mod gate;
mod loading;
mod opening;
mod output;
mod owed;
mod own_calls;
mod parsing;
mod quiet;
mod records;
mod residents;
mod segments;
mod sending;
mod speaking;
mod system;

pub use opening::program_file;
pub use output::write_bytes;
pub use owed::Owed;
pub use own_calls::is_own;
pub use records::Records;
pub use system::System;
