ghost use Rattle.std.specs.Prelude.{◌≡◌, false};
ghost use Rattle.z80_alu.specs.Flags.{Computes};
ghost use Rattle.z80_alu.specs.Bytes.{
  sum_of,
  sum_flags,
  sum_half_carries,
  sum_overflows,
  difference_of,
  difference_flags,
  difference_half_borrows,
  difference_overflows,
  increment_flags,
  decrement_flags,
};

use crate::flags::{Flags, one_if};

/// Whether the low nibbles of a + b + carry are over 15.
#[inline(always)]
fn is_sum_half_carry(a: u8, b: u8, carry: bool) -> bool
    ensures { result ≡ sum_half_carries a b carry }
{
    a % 16 + b % 16 + one_if(carry) > 15
}

/// Whether a + b + carry as signed numbers is outside -128 to 127.
#[inline(always)]
fn is_sum_overflow(a: u8, b: u8, carry: bool) -> bool
    ensures { result ≡ sum_overflows a b carry }
{
    let total = u16::from(a.wrapping_add(128))
        + u16::from(b.wrapping_add(128))
        + u16::from(one_if(carry));
    total < 128 || total > 383
}

/// Whether the low nibble of a is below that of b and the carry.
#[inline(always)]
pub fn is_half_borrow(a: u8, b: u8, carry: bool) -> bool
    ensures { result ≡ difference_half_borrows a b carry }
{
    a % 16 < b % 16 + one_if(carry)
}

/// Whether a - b - carry as signed numbers is outside -128 to 127.
#[inline(always)]
fn is_sub_overflow(a: u8, b: u8, carry: bool) -> bool
    ensures { result ≡ difference_overflows a b carry }
{
    let total = u16::from(a.wrapping_add(128)) + 256
        - (u16::from(b.wrapping_add(128)) + u16::from(one_if(carry)));
    total < 128 || total > 383
}

/// ADD and ADC: a + b + carry, and the new F (UM0080, "8-Bit Arithmetic Group").
#[inline(always)]
#[tactic(auto, unfolding(crate::specs::Bytes::sum_flags))]
pub fn add8(a: u8, b: u8, carry: bool, f: u8) -> (u8, u8)
    ensures { Computes (sum_of a b carry) (sum_flags a b carry f) result }
{
    let total = u16::from(a) + u16::from(b) + u16::from(one_if(carry));
    let sum = (total % 256) as u8;
    let flags = Flags {
        half_carry: is_sum_half_carry(a, b, carry),
        parity_overflow: is_sum_overflow(a, b, carry),
        subtract: false,
        carry: total > 255,
        ..Flags::of(f).sign_zero(sum)
    };
    (sum, flags.byte())
}

/// SUB, SBC, CP and NEG: a - b - carry, and the new F (UM0080, "8-Bit Arithmetic Group").
#[inline(always)]
#[tactic(auto, unfolding(crate::specs::Bytes::difference_flags))]
pub fn sub8(a: u8, b: u8, carry: bool, f: u8) -> (u8, u8)
    ensures { Computes (difference_of a b carry) (difference_flags a b carry f) result }
{
    let taken = u16::from(b) + u16::from(one_if(carry));
    let difference = ((u16::from(a) + 256 - taken) % 256) as u8;
    let flags = Flags {
        half_carry: is_half_borrow(a, b, carry),
        parity_overflow: is_sub_overflow(a, b, carry),
        subtract: true,
        carry: u16::from(a) < taken,
        ..Flags::of(f).sign_zero(difference)
    };
    (difference, flags.byte())
}

/// INC of a byte: a + 1, and the new F (UM0080, "8-Bit Arithmetic Group").
#[inline(always)]
#[tactic(auto, unfolding(crate::specs::Bytes::increment_flags))]
pub fn inc8(a: u8, f: u8) -> (u8, u8)
    ensures { Computes (sum_of a 1 false) (increment_flags a f) result }
{
    let sum = a.wrapping_add(1);
    let flags = Flags {
        half_carry: a % 16 + 1 > 15,
        parity_overflow: a == 127,
        subtract: false,
        ..Flags::of(f).sign_zero(sum)
    };
    (sum, flags.byte())
}

/// DEC of a byte: a - 1, and the new F (UM0080, "8-Bit Arithmetic Group").
#[inline(always)]
#[tactic(auto, unfolding(crate::specs::Bytes::decrement_flags))]
pub fn dec8(a: u8, f: u8) -> (u8, u8)
    ensures { Computes (difference_of a 1 false) (decrement_flags a f) result }
{
    let difference = a.wrapping_sub(1);
    let flags = Flags {
        half_carry: a % 16 < 1,
        parity_overflow: a == 128,
        subtract: true,
        ..Flags::of(f).sign_zero(difference)
    };
    (difference, flags.byte())
}
