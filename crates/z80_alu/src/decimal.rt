ghost use Rattle.std.specs.Prelude.{◌≡◌};
ghost use Rattle.z80_alu.specs.Flags.{Computes};
ghost use Rattle.z80_alu.specs.Decimal.{
  corrects_low,
  corrects_high,
  correction,
  adjusted,
  adjusted_half_carry,
  decimal_of,
  decimal_flags,
};

use crate::flags::Flags;

/// Whether DAA uses 06h.
#[inline]
fn is_low_corrected(a: u8, flags: Flags) -> bool
    ensures { result ≡ corrects_low a flags }
{
    flags.half_carry || a % 16 > 9
}

/// Whether DAA uses 60h.
#[inline]
fn is_high_corrected(a: u8, flags: Flags) -> bool
    ensures { result ≡ corrects_high a flags }
{
    flags.carry || a > 153
}

/// What DAA adds or subtracts.
#[inline]
fn correct_by(a: u8, flags: Flags) -> u8
    ensures { result ≡ correction a flags }
{
    let low: u8 = if is_low_corrected(a, flags) { 6 } else { 0 };
    let high: u8 = if is_high_corrected(a, flags) { 96 } else { 0 };
    low + high
}

/// What DAA makes of A.
#[inline]
fn adjust(a: u8, flags: Flags) -> u8
    ensures { result ≡ adjusted a flags }
{
    let by = correct_by(a, flags);
    if flags.subtract {
        a.wrapping_sub(by)
    } else {
        a.wrapping_add(by)
    }
}

/// The H after DAA.
#[inline]
fn is_adjusted_half_carry(a: u8, flags: Flags) -> bool
    ensures { result ≡ adjusted_half_carry a flags }
{
    if flags.subtract {
        flags.half_carry && a % 16 < 6
    } else {
        a % 16 > 9
    }
}

/// DAA: A made decimal after a sum or a difference of two decimal bytes, and the new F (UM0080, "DAA").
#[inline]
#[tactic(auto, unfolding(crate::specs::Decimal::decimal_of, crate::specs::Decimal::decimal_flags))]
pub fn daa(a: u8, f: u8) -> (u8, u8)
    ensures { Computes (decimal_of a f) (decimal_flags a f) result }
{
    let before = Flags::of(f);
    let value = adjust(a, before);
    let flags = Flags {
        half_carry: is_adjusted_half_carry(a, before),
        carry: is_high_corrected(a, before),
        ..before.sign_zero_parity(value)
    };
    (value, flags.byte())
}
