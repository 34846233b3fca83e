//! The processes of the system itself, by slot. The command line interpreter (`Cli`) reads commands from their queue, hands them to queues
//! of their names, or loads programs and begins them. The terminal message processors (`Tmp`) read the lines of the consoles. The print
//! spooler and the scheduler of commands have crates of their own. They run no instructions: each step of theirs is one row of a table, by
//! which they ask the kernel for one call, or hand something to the machine, and go on by the answer. (MP/M II User's Guide, "Command Line
//! Interpreter", "Terminal Message Processor"; Programmer's Guide, "Function 150: Send CLI Command".)
#![tactic(auto)]

mod cli;
mod native;
mod residents;
mod tmp;

pub use cli::{Act, Cli};
pub use native::Native;
pub use residents::Residents;
pub use tmp::Tmp;
