ghost use Rattle.std.specs.Prelude.{◌≡◌};
ghost use Rattle.z80_decode.specs.Fields.{operand_of};

use crate::forms::Operand;

/// The operand that three bits name.
#[inline(always)]
#[tactic(auto, unfolding(crate::specs::Fields::operand_of))]
pub fn operand_at(y: u8) -> Operand
    ensures { result ≡ operand_of y }
{
    match y {
        0 => Operand::B,
        1 => Operand::C,
        2 => Operand::D,
        3 => Operand::E,
        4 => Operand::H,
        5 => Operand::L,
        6 => Operand::Memory,
        _ => Operand::A,
    }
}
