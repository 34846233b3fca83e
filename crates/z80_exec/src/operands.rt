ghost use Rattle.std.specs.Prelude.{◌≡◌};
ghost use Rattle.z80_exec.specs.Leaving.{Leaves};
ghost use Rattle.z80_regs.specs.Words.{word_from};
ghost use Rattle.z80_exec.specs.Operands.{hl_of, pair_word, with_pair, operand_byte, with_operand};
ghost use Rattle.z80_exec.specs.StackPairs.{stack_pair_word, with_stack_pair};
ghost use Rattle.z80_exec.specs.Conditions.{holds};

use z80_decode::{Condition, Operand, Pair, StackPair};
use z80_regs::{Bus, Regs};

/// The word at an address, low byte first.
#[inline(always)]
pub fn word_at<B: Bus>(bus: &B, address: u16) -> u16
    ensures { result ≡ word_from (B.byte bus.now) address }
{
    let low = bus.read(address);
    let high = bus.read(address.wrapping_add(1));
    u16::from_le_bytes([low, high])
}

/// The word in HL.
#[inline(always)]
pub fn hl(regs: &Regs) -> u16
    ensures { result ≡ hl_of regs.now }
{
    u16::from_le_bytes([regs.l, regs.h])
}

/// The word in a pair.
#[inline(always)]
pub fn pair_at(regs: &Regs, pair: Pair) -> u16
    ensures { result ≡ pair_word pair regs.now }
{
    match pair {
        Pair::BC => u16::from_le_bytes([regs.c, regs.b]),
        Pair::DE => u16::from_le_bytes([regs.e, regs.d]),
        Pair::HL => hl(regs),
        Pair::SP => regs.sp,
    }
}

/// Sets a pair.
#[inline(always)]
pub fn set_pair(regs: &mut Regs, pair: Pair, word: u16)
    ensures { regs.new ≡ with_pair pair word regs.old }
{
    let [low, high] = word.to_le_bytes();
    match pair {
        Pair::BC => {
            regs.b = high;
            regs.c = low;
        }
        Pair::DE => {
            regs.d = high;
            regs.e = low;
        }
        Pair::HL => {
            regs.h = high;
            regs.l = low;
        }
        Pair::SP => regs.sp = word,
    }
}

/// The word in a pair that is pushed.
#[inline(always)]
pub fn stack_pair_at(regs: &Regs, pair: StackPair) -> u16
    ensures { result ≡ stack_pair_word pair regs.now }
{
    match pair {
        StackPair::BC => u16::from_le_bytes([regs.c, regs.b]),
        StackPair::DE => u16::from_le_bytes([regs.e, regs.d]),
        StackPair::HL => u16::from_le_bytes([regs.l, regs.h]),
        StackPair::AF => u16::from_le_bytes([regs.f, regs.a]),
    }
}

/// Sets a pair that is popped.
#[inline(always)]
pub fn set_stack_pair(regs: &mut Regs, pair: StackPair, word: u16)
    ensures { regs.new ≡ with_stack_pair pair word regs.old }
{
    let [low, high] = word.to_le_bytes();
    match pair {
        StackPair::BC => {
            regs.b = high;
            regs.c = low;
        }
        StackPair::DE => {
            regs.d = high;
            regs.e = low;
        }
        StackPair::HL => {
            regs.h = high;
            regs.l = low;
        }
        StackPair::AF => {
            regs.a = high;
            regs.f = low;
        }
    }
}

/// The byte of an operand.
#[inline(always)]
pub fn operand<B: Bus>(operand: Operand, regs: &Regs, bus: &B) -> u8
    ensures { result ≡ operand_byte operand regs.now (B.byte bus.now) }
{
    match operand {
        Operand::B => regs.b,
        Operand::C => regs.c,
        Operand::D => regs.d,
        Operand::E => regs.e,
        Operand::H => regs.h,
        Operand::L => regs.l,
        Operand::Memory => bus.read(hl(regs)),
        Operand::A => regs.a,
    }
}

/// Sets an operand.
#[inline(always)]
#[tactic(auto, unfolding(z80_regs::specs::Outcome::LeavesBus))]
pub fn set_operand<B: Bus>(operand: Operand, value: u8, regs: &mut Regs, bus: &mut B)
    ensures { Leaves B.Bus (with_operand operand value regs.old) regs.new bus.old bus.new }
{
    match operand {
        Operand::B => regs.b = value,
        Operand::C => regs.c = value,
        Operand::D => regs.d = value,
        Operand::E => regs.e = value,
        Operand::H => regs.h = value,
        Operand::L => regs.l = value,
        Operand::Memory => bus.write(hl(regs), value),
        Operand::A => regs.a = value,
    }
}

/// Whether a condition holds.
#[inline(always)]
pub fn is_met(condition: Condition, f: u8) -> bool
    ensures { result ≡ holds condition f }
{
    match condition {
        Condition::NotZero => f / 64 % 2 != 1,
        Condition::Zero => f / 64 % 2 == 1,
        Condition::NoCarry => f % 2 != 1,
        Condition::Carry => f % 2 == 1,
        Condition::ParityOdd => f / 4 % 2 != 1,
        Condition::ParityEven => f / 4 % 2 == 1,
        Condition::Plus => f / 128 % 2 != 1,
        Condition::Minus => f / 128 % 2 == 1,
    }
}
