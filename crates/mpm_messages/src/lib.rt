//! What the processes of the system share: the texts of their messages, where these end and the spaces around them, and the calls
//! that they make. (MP/M II Programmer's Guide, "Function 150: Send CLI Command"; User's Guide, "Terminal Message Processor".)
#![tactic(auto)]

mod asking;
mod text;

pub use asking::{ask, ask_file};
pub use text::{strip, text_of, without_leading_spaces};
