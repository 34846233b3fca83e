ghost use Rattle.std.specs.Prelude.{◌≡◌, ◌<◌, ◌+◌, ◌*◌, ◌==◌};
ghost use Rattle.z80_alu.specs.Flags.{bit, is_negative, has_even_parity, flags_of, byte_of, with_sign_zero, with_byte};

/// The flags (UM0080, "Z80 Status Indicator Flags"); their byte F holds them from bit 7 down.
#[derive(Clone, Copy, Debug, PartialEq, Eq)]
pub struct Flags {
    /// S, bit 7: the result is negative as a signed number.
    pub sign: bool,
    /// Z, bit 6: the result is 0.
    pub zero: bool,
    /// Bit 5, which has no meaning and is kept.
    pub five: bool,
    /// H, bit 4: the carry from bit 3, or the borrow into it.
    pub half_carry: bool,
    /// Bit 3, which has no meaning and is kept.
    pub three: bool,
    /// P/V, bit 2: the number of the result's ones is even, or a signed result is outside its range.
    pub parity_overflow: bool,
    /// N, bit 1: the instruction has subtracted.
    pub subtract: bool,
    /// C, bit 0: the carry or the borrow.
    pub carry: bool,
}

impl Flags {
    /// The flags of a byte.
    #[inline(always)]
    pub fn of(f: u8) -> Flags
        ensures { result ≡ flags_of f }
    {
        Flags {
            sign: f / 128 % 2 == 1,
            zero: f / 64 % 2 == 1,
            five: f / 32 % 2 == 1,
            half_carry: f / 16 % 2 == 1,
            three: f / 8 % 2 == 1,
            parity_overflow: f / 4 % 2 == 1,
            subtract: f / 2 % 2 == 1,
            carry: f % 2 == 1,
        }
    }

    /// The byte of the flags.
    #[inline(always)]
    #[tactic(auto, unfolding(crate::specs::Flags::byte_of))]
    pub fn byte(self) -> u8
        ensures { result ≡ byte_of self }
    {
        128 * one_if(self.sign)
            + 64 * one_if(self.zero)
            + 32 * one_if(self.five)
            + 16 * one_if(self.half_carry)
            + 8 * one_if(self.three)
            + 4 * one_if(self.parity_overflow)
            + 2 * one_if(self.subtract)
            + one_if(self.carry)
    }

    /// The flags with S and Z of a byte.
    #[inline(always)]
    pub fn sign_zero(self, value: u8) -> Flags
        ensures { result ≡ with_sign_zero value self }
    {
        Flags {
            sign: value >= 128,
            zero: value == 0,
            ..self
        }
    }

    /// The flags with S, Z and parity of a byte.
    #[inline(always)]
    pub fn sign_zero_parity(self, value: u8) -> Flags
        ensures { result ≡ with_byte value self }
    {
        Flags {
            parity_overflow: value.count_ones() % 2 == 0,
            ..self.sign_zero(value)
        }
    }
}

/// A fact as a bit: 1 where it holds.
#[inline(always)]
pub fn one_if(fact: bool) -> u8
    ensures value { result ≡ bit fact }
    ensures below_two { result < 2 }
{
    if fact { 1 } else { 0 }
}

/// S, Z and parity of each byte, as bits of F.
const SIGN_ZERO_PARITY: [u8; 256] = [
    68, 0, 0, 4, 0, 4, 4, 0, 0, 4, 4, 0, 4, 0, 0, 4, 0, 4, 4, 0, 4, 0, 0, 4, 4, 0, 0, 4, 0, 4, 4,
    0, 0, 4, 4, 0, 4, 0, 0, 4, 4, 0, 0, 4, 0, 4, 4, 0, 4, 0, 0, 4, 0, 4, 4, 0, 0, 4, 4, 0, 4, 0, 0,
    4, 0, 4, 4, 0, 4, 0, 0, 4, 4, 0, 0, 4, 0, 4, 4, 0, 4, 0, 0, 4, 0, 4, 4, 0, 0, 4, 4, 0, 4, 0, 0,
    4, 4, 0, 0, 4, 0, 4, 4, 0, 0, 4, 4, 0, 4, 0, 0, 4, 0, 4, 4, 0, 4, 0, 0, 4, 4, 0, 0, 4, 0, 4, 4,
    0, 128, 132, 132, 128, 132, 128, 128, 132, 132, 128, 128, 132, 128, 132, 132, 128, 132, 128,
    128, 132, 128, 132, 132, 128, 128, 132, 132, 128, 132, 128, 128, 132, 132, 128, 128, 132, 128,
    132, 132, 128, 128, 132, 132, 128, 132, 128, 128, 132, 128, 132, 132, 128, 132, 128, 128, 132,
    132, 128, 128, 132, 128, 132, 132, 128, 132, 128, 128, 132, 128, 132, 132, 128, 128, 132, 132,
    128, 132, 128, 128, 132, 128, 132, 132, 128, 132, 128, 128, 132, 132, 128, 128, 132, 128, 132,
    132, 128, 128, 132, 132, 128, 132, 128, 128, 132, 132, 128, 128, 132, 128, 132, 132, 128, 132,
    128, 128, 132, 128, 132, 132, 128, 128, 132, 132, 128, 132, 128, 128, 132,
];

/// S, Z and parity of a byte, as bits of F.
#[inline(always)]
#[tactic(auto, using(crate::proofs::FlagTable::flags_at))]
pub fn sign_zero_parity_bits(value: u8) -> u8
    ensures { result ≡ 128 * bit (is_negative value) + 64 * bit (value == 0) + 4 * bit (has_even_parity value) }
{
    SIGN_ZERO_PARITY[usize::from(value)]
}
