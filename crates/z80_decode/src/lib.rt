//! Which instruction of a Z80 some bytes begin with.
#![tactic(auto)]

mod decoding;
mod fields;
mod forms;
mod instr;
mod opcodes;
mod page_forms;
mod page_opcodes;

pub use decoding::{decode, extended_tail, index_length, main_length, read_instr};
pub use fields::operand_at;
pub use forms::{Condition, Form, Math, Operand, Pair, Rotation, StackPair, Tail};
pub use instr::{Instr, Page};
pub use opcodes::main_form;
pub use page_forms::{BitChange, BitForm, Direction, ExtendedForm, IndexForm, Shift, Transfer};
pub use page_opcodes::{bit_form, extended_form, index_form, indexed_bit_form};
