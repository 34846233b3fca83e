ghost use Rattle.std.specs.Prelude.{◌≡◌, false};
ghost use Rattle.z80_alu.specs.Single.{
  complement_flags_of,
  carry_set_flags,
  carry_complemented_flags,
  bit_test_flags,
  interrupt_load_flags,
  byte_flags,
  block_load_flags_of,
  block_compare_flags_of,
  block_port_flags_of,
};

use crate::bytes::is_half_borrow;
use crate::flags::Flags;

/// The new F of CPL.
#[inline(always)]
#[tactic(auto, unfolding(crate::specs::Single::complement_flags_of))]
pub fn complement_flags(f: u8) -> u8
    ensures { result ≡ complement_flags_of f }
{
    Flags {
        half_carry: true,
        subtract: true,
        ..Flags::of(f)
    }
    .byte()
}

/// The new F of SCF.
#[inline(always)]
#[tactic(auto, unfolding(crate::specs::Single::carry_set_flags))]
pub fn set_carry_flags(f: u8) -> u8
    ensures { result ≡ carry_set_flags f }
{
    Flags {
        half_carry: false,
        subtract: false,
        carry: true,
        ..Flags::of(f)
    }
    .byte()
}

/// The new F of CCF: H is the C before.
#[inline(always)]
#[tactic(auto, unfolding(crate::specs::Single::carry_complemented_flags))]
pub fn complement_carry_flags(f: u8) -> u8
    ensures { result ≡ carry_complemented_flags f }
{
    let before = Flags::of(f);
    Flags {
        half_carry: before.carry,
        subtract: false,
        carry: !before.carry,
        ..before
    }
    .byte()
}

/// The new F of BIT, by whether the bit is 0.
#[inline(always)]
#[tactic(auto, unfolding(crate::specs::Single::bit_test_flags))]
pub fn bit_flags(bit_is_zero: bool, f: u8) -> u8
    ensures { result ≡ bit_test_flags bit_is_zero f }
{
    Flags {
        zero: bit_is_zero,
        half_carry: true,
        subtract: false,
        ..Flags::of(f)
    }
    .byte()
}

/// The new F of LD A,I and LD A,R, by the value and IFF2.
#[inline(always)]
#[tactic(auto, unfolding(crate::specs::Single::interrupt_load_flags))]
pub fn load_flags(value: u8, iff2: bool, f: u8) -> u8
    ensures { result ≡ interrupt_load_flags value iff2 f }
{
    Flags {
        half_carry: false,
        parity_overflow: iff2,
        subtract: false,
        ..Flags::of(f).sign_zero(value)
    }
    .byte()
}

/// The new F of IN r,(C), by the value, and of RLD and RRD, by the new A.
#[inline(always)]
#[tactic(auto, unfolding(crate::specs::Single::byte_flags))]
pub fn value_flags(value: u8, f: u8) -> u8
    ensures { result ≡ byte_flags value f }
{
    Flags {
        half_carry: false,
        subtract: false,
        ..Flags::of(f).sign_zero_parity(value)
    }
    .byte()
}

/// The new F of LDI, LDD, LDIR and LDDR, by whether the new BC isn't 0.
#[inline(always)]
#[tactic(auto, unfolding(crate::specs::Single::block_load_flags_of))]
pub fn block_load_flags(more: bool, f: u8) -> u8
    ensures { result ≡ block_load_flags_of more f }
{
    Flags {
        half_carry: false,
        parity_overflow: more,
        subtract: false,
        ..Flags::of(f)
    }
    .byte()
}

/// The new F of CPI, CPD, CPIR and CPDR, by A, the byte that it is compared with, and whether the new BC isn't 0.
#[inline(always)]
#[tactic(auto, unfolding(crate::specs::Single::block_compare_flags_of))]
pub fn block_compare_flags(a: u8, b: u8, more: bool, f: u8) -> u8
    ensures { result ≡ block_compare_flags_of a b more f }
{
    let flags = Flags::of(f).sign_zero(a.wrapping_sub(b));
    Flags {
        half_carry: is_half_borrow(a, b, false),
        parity_overflow: more,
        subtract: true,
        ..flags
    }
    .byte()
}

/// The new F of INI, IND, OUTI, OUTD and their repeats, by whether the new B is 0.
#[inline(always)]
#[tactic(auto, unfolding(crate::specs::Single::block_port_flags_of))]
pub fn block_port_flags(is_done: bool, f: u8) -> u8
    ensures { result ≡ block_port_flags_of is_done f }
{
    Flags {
        zero: is_done,
        subtract: true,
        ..Flags::of(f)
    }
    .byte()
}
