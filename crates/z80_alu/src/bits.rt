ghost use Rattle.std.specs.Prelude.{◌≡◌};
ghost use Rattle.z80_alu.specs.Flags.{Computes, has};
ghost use Rattle.z80_alu.specs.Bits.{
  combined,
  is_and,
  logic_flags,
  left_with,
  right_with,
  rotated,
  moved_out,
  with_moved_out,
  rotated_flags,
  rotated_a_flags,
};

use crate::flags::{Flags, one_if, sign_zero_parity_bits};
use crate::kinds::{Logic, Rotate};

#[inline(always)]
fn combine(kind: Logic, a: u8, b: u8) -> u8
    ensures { result ≡ combined kind a b }
{
    match kind {
        Logic::And => a & b,
        Logic::Or => a | b,
        Logic::Xor => a ^ b,
    }
}

/// AND sets H.
#[inline(always)]
fn is_and_kind(kind: Logic) -> bool
    ensures { result ≡ is_and kind }
{
    match kind {
        Logic::And => true,
        Logic::Or => false,
        Logic::Xor => false,
    }
}

/// AND, OR and XOR: the result, and the new F (UM0080, "8-Bit Arithmetic Group").
#[inline(always)]
#[tactic(auto, unfolding(crate::specs::Bits::logic_flags, crate::specs::Flags::byte_of))]
pub fn logic(kind: Logic, a: u8, b: u8, f: u8) -> (u8, u8)
    ensures { Computes (combined kind a b) (logic_flags kind a b f) result }
{
    let value = combine(kind, a, b);
    let flags = Flags::of(f);
    (
        value,
        sign_zero_parity_bits(value)
            + 32 * one_if(flags.five)
            + 16 * one_if(is_and_kind(kind))
            + 8 * one_if(flags.three),
    )
}

/// One to the left, with the bit that comes in as bit 0.
#[inline(always)]
fn to_left(incoming: bool, value: u8) -> u8
    ensures { result ≡ left_with incoming value }
{
    value % 128 * 2 + one_if(incoming)
}

/// One to the right, with the bit that comes in as bit 7.
#[inline(always)]
fn to_right(incoming: bool, value: u8) -> u8
    ensures { result ≡ right_with incoming value }
{
    value / 2 + 128 * one_if(incoming)
}

/// The value rotated or shifted by one, with the carry before.
#[inline(always)]
fn rotate_by_one(kind: Rotate, value: u8, carry: bool) -> u8
    ensures { result ≡ rotated kind value carry }
{
    match kind {
        Rotate::Rlc => to_left(value / 128 % 2 == 1, value),
        Rotate::Rrc => to_right(value % 2 == 1, value),
        Rotate::Rl => to_left(carry, value),
        Rotate::Rr => to_right(carry, value),
        Rotate::Sla => to_left(false, value),
        Rotate::Sra => to_right(value / 128 % 2 == 1, value),
        Rotate::Srl => to_right(false, value),
        Rotate::Sll => to_left(true, value),
    }
}

/// The bit that moves out.
#[inline(always)]
fn bit_moved_out(kind: Rotate, value: u8) -> bool
    ensures { result ≡ moved_out kind value }
{
    match kind {
        Rotate::Rlc | Rotate::Rl | Rotate::Sla | Rotate::Sll => value / 128 % 2 == 1,
        Rotate::Rrc | Rotate::Rr | Rotate::Sra | Rotate::Srl => value % 2 == 1,
    }
}

/// The flags with the bit that moves out.
#[inline(always)]
fn set_moved_out(kind: Rotate, value: u8, flags: Flags) -> Flags
    ensures { result ≡ with_moved_out kind value flags }
{
    Flags {
        half_carry: false,
        subtract: false,
        carry: bit_moved_out(kind, value),
        ..flags
    }
}

/// RLC, RRC, RL, RR, SLA, SRA, SRL and SLL: the result, and the new F (UM0080, "Rotate and Shift Group"; SLL has the flags
/// of SLA).
#[inline(always)]
#[tactic(auto, unfolding(crate::specs::Bits::rotated_flags, crate::specs::Flags::byte_of))]
pub fn rotate(kind: Rotate, value: u8, f: u8) -> (u8, u8)
    ensures { Computes (rotated kind value (has f 1)) (rotated_flags kind value f) result }
{
    let flags = Flags::of(f);
    let turned = rotate_by_one(kind, value, flags.carry);
    (
        turned,
        sign_zero_parity_bits(turned)
            + 32 * one_if(flags.five)
            + 8 * one_if(flags.three)
            + one_if(bit_moved_out(kind, value)),
    )
}

/// RLCA, RRCA, RLA and RRA, which keep S, Z and P/V: the result, and the new F (UM0080, "Rotate and Shift Group").
#[inline(always)]
#[tactic(auto, unfolding(crate::specs::Bits::rotated_a_flags))]
pub fn rotate_a(kind: Rotate, a: u8, f: u8) -> (u8, u8)
    ensures { Computes (rotated kind a (has f 1)) (rotated_a_flags kind a f) result }
{
    let flags = Flags::of(f);
    (
        rotate_by_one(kind, a, flags.carry),
        set_moved_out(kind, a, flags).byte(),
    )
}
