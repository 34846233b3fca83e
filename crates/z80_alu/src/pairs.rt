ghost use Rattle.std.specs.Prelude.{◌≡◌, false};
ghost use Rattle.z80_alu.specs.Flags.{Computes, has};
ghost use Rattle.z80_alu.specs.Pairs.{
  word_sum_of,
  word_sum_half_carries,
  word_sum_overflows,
  word_add_flags,
  word_sum_flags,
  word_difference_of,
  word_difference_half_borrows,
  word_difference_overflows,
  word_difference_flags,
  with_word,
};

use crate::flags::{Flags, one_if};

/// The flags with S and Z of a word.
#[inline(always)]
fn set_word(flags: Flags, value: u16) -> Flags
    ensures { result ≡ with_word value flags }
{
    Flags {
        sign: value >= 32768,
        zero: value == 0,
        ..flags
    }
}

/// Whether a + b + carry carries from bit 11.
#[inline(always)]
fn is_word_half_carry(a: u16, b: u16, carry: bool) -> bool
    ensures { result ≡ word_sum_half_carries a b carry }
{
    a % 4096 + b % 4096 + u16::from(one_if(carry)) > 4095
}

/// Whether a + b + carry as signed numbers is outside -32,768 to 32,767.
#[inline(always)]
fn is_word_sum_overflow(a: u16, b: u16, carry: bool) -> bool
    ensures { result ≡ word_sum_overflows a b carry }
{
    let total = u32::from(a.wrapping_add(32768))
        + u32::from(b.wrapping_add(32768))
        + u32::from(one_if(carry));
    total < 32768 || total > 98303
}

/// Whether a - b - carry borrows at bit 11.
#[inline(always)]
fn is_word_half_borrow(a: u16, b: u16, carry: bool) -> bool
    ensures { result ≡ word_difference_half_borrows a b carry }
{
    a % 4096 < b % 4096 + u16::from(one_if(carry))
}

/// Whether a - b - carry as signed numbers is outside -32,768 to 32,767.
#[inline(always)]
fn is_word_sub_overflow(a: u16, b: u16, carry: bool) -> bool
    ensures { result ≡ word_difference_overflows a b carry }
{
    let taken = u32::from(b.wrapping_add(32768)) + u32::from(one_if(carry));
    let total = u32::from(a.wrapping_add(32768)) + 65536 - taken;
    total < 32768 || total > 98303
}

/// ADD HL, ADD IX and ADD IY: a + b, and the new F (UM0080, "16-Bit Arithmetic Group").
#[inline(always)]
#[tactic(auto, unfolding(crate::specs::Pairs::word_add_flags))]
pub fn add16(a: u16, b: u16, f: u8) -> (u16, u8)
    ensures { Computes (word_sum_of a b false) (word_add_flags a b f) result }
{
    let flags = Flags {
        half_carry: is_word_half_carry(a, b, false),
        subtract: false,
        carry: u32::from(a) + u32::from(b) > 65535,
        ..Flags::of(f)
    };
    (a.wrapping_add(b), flags.byte())
}

/// ADC HL: a + b + C, and the new F (UM0080, "16-Bit Arithmetic Group").
#[inline(always)]
#[tactic(auto, unfolding(crate::specs::Pairs::word_sum_flags))]
pub fn adc16(a: u16, b: u16, f: u8) -> (u16, u8)
    ensures { Computes (word_sum_of a b (has f 1)) (word_sum_flags a b (has f 1) f) result }
{
    let before = Flags::of(f);
    let total = u32::from(a) + u32::from(b) + u32::from(one_if(before.carry));
    let sum = (total % 65536) as u16;
    let flags = Flags {
        half_carry: is_word_half_carry(a, b, before.carry),
        parity_overflow: is_word_sum_overflow(a, b, before.carry),
        subtract: false,
        carry: total > 65535,
        ..set_word(before, sum)
    };
    (sum, flags.byte())
}

/// SBC HL: a - b - C, and the new F (UM0080, "16-Bit Arithmetic Group").
#[inline(always)]
#[tactic(auto, unfolding(crate::specs::Pairs::word_difference_flags))]
pub fn sbc16(a: u16, b: u16, f: u8) -> (u16, u8)
    ensures { Computes (word_difference_of a b (has f 1)) (word_difference_flags a b (has f 1) f) result }
{
    let before = Flags::of(f);
    let taken = u32::from(b) + u32::from(one_if(before.carry));
    let difference = ((u32::from(a) + 65536 - taken) % 65536) as u16;
    let flags = Flags {
        half_carry: is_word_half_borrow(a, b, before.carry),
        parity_overflow: is_word_sub_overflow(a, b, before.carry),
        subtract: true,
        carry: u32::from(a) < taken,
        ..set_word(before, difference)
    };
    (difference, flags.byte())
}
