//! What each instruction of a Z80 does, over any bus.
#![tactic(auto)]

mod calculations;
mod flow;
mod loads;
mod operands;
mod perform;
mod source;

pub use calculations::calculate;
pub use flow::{relative_to, return_to_caller};
pub use loads::{push, replace_top, store_operand, store_word};
pub use operands::{hl, operand, pair_at, set_operand, set_pair, word_at};
pub use perform::{main_page, plain_next};
pub use source::Fetched;
