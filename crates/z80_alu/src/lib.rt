//! The arithmetic and logic of the Z80, and its flags.
#![tactic(auto)]

mod bits;
mod bytes;
mod decimal;
mod flags;
mod kinds;
mod pairs;
mod single;

pub use bits::{logic, rotate, rotate_a};
pub use bytes::{add8, dec8, inc8, sub8};
pub use decimal::daa;
pub use flags::Flags;
pub use kinds::{Logic, Rotate};
pub use pairs::{adc16, add16, sbc16};
pub use single::{
    bit_flags, block_compare_flags, block_load_flags, block_port_flags, complement_carry_flags,
    complement_flags, load_flags, set_carry_flags, value_flags,
};
