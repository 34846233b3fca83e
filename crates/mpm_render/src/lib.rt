//! The output text: what consoles and printers were given, as lines.
//!
//! Each console and printer has a line. An LF ends it, and so does its 200th byte; at the end of a run the lines that
//! are not empty are closed. A completed call has a line of its own, where that is asked for. Each line is written by
//! one `put`, as it ends.
#![tactic(auto)]

mod line;
mod render;
mod text;

pub use mpm_base::Unit;
pub use render::Render;
pub use text::hex_word;
