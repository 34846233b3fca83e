ghost use Rattle.std.specs.Prelude.{◌≡◌};
ghost use Rattle.z80_exec.specs.Leaving.{Leaves};
ghost use Rattle.z80_exec.specs.Operands.{operand_byte};
ghost use Rattle.z80_exec.specs.Calculations.{
  calculated,
  incremented,
  decremented,
  pair_added,
  rotate_of,
  a_rotated,
  decimal_adjusted,
  complemented,
};

use crate::operands::{hl, operand, pair_at, set_pair};
use z80_alu::{Logic, Rotate};
use z80_decode::{Math, Operand, Pair, Rotation};
use z80_regs::{Bus, Regs};

/// ADD, ADC, SUB, SBC, AND, XOR, OR and CP of A and a byte.
#[inline(always)]
pub fn calculate(math: Math, byte: u8, regs: &mut Regs)
    ensures { regs.new ≡ calculated math byte regs.old }
{
    let carry = regs.f % 2 == 1;
    let (value, flags) = match math {
        Math::Add => z80_alu::add8(regs.a, byte, false, regs.f),
        Math::AddCarry => z80_alu::add8(regs.a, byte, carry, regs.f),
        Math::Subtract => z80_alu::sub8(regs.a, byte, false, regs.f),
        Math::SubtractCarry => z80_alu::sub8(regs.a, byte, carry, regs.f),
        Math::And => z80_alu::logic(Logic::And, regs.a, byte, regs.f),
        Math::Xor => z80_alu::logic(Logic::Xor, regs.a, byte, regs.f),
        Math::Or => z80_alu::logic(Logic::Or, regs.a, byte, regs.f),
        Math::Compare => (regs.a, z80_alu::sub8(regs.a, byte, false, regs.f).1),
    };
    regs.a = value;
    regs.f = flags;
}

/// ADD, ADC, SUB, SBC, AND, XOR, OR and CP of A and an operand. Each row reads it by itself, so that it is known where a step has jumped by
/// its opcode.
#[inline(always)]
pub fn calculate_operand<B: Bus>(math: Math, from: Operand, regs: &mut Regs, bus: &B)
    ensures { regs.new ≡ calculated math (operand_byte from regs.old (B.byte bus.now)) regs.old }
{
    match math {
        Math::Add => calculate(Math::Add, operand(from, regs, bus), regs),
        Math::AddCarry => calculate(Math::AddCarry, operand(from, regs, bus), regs),
        Math::Subtract => calculate(Math::Subtract, operand(from, regs, bus), regs),
        Math::SubtractCarry => calculate(Math::SubtractCarry, operand(from, regs, bus), regs),
        Math::And => calculate(Math::And, operand(from, regs, bus), regs),
        Math::Xor => calculate(Math::Xor, operand(from, regs, bus), regs),
        Math::Or => calculate(Math::Or, operand(from, regs, bus), regs),
        Math::Compare => calculate(Math::Compare, operand(from, regs, bus), regs),
    }
}

/// INC r and INC (HL). Each row reads and sets its operand by itself, so that both are known by one jump.
#[inline(always)]
#[tactic(auto, unfolding(z80_regs::specs::Outcome::LeavesBus))]
pub fn increment<B: Bus>(operand: Operand, regs: &mut Regs, bus: &mut B)
    ensures { Leaves B.Bus (incremented operand (operand_byte operand regs.old (B.byte bus.old)) regs.old) regs.new bus.old bus.new }
{
    match operand {
        Operand::B => (regs.b, regs.f) = z80_alu::inc8(regs.b, regs.f),
        Operand::C => (regs.c, regs.f) = z80_alu::inc8(regs.c, regs.f),
        Operand::D => (regs.d, regs.f) = z80_alu::inc8(regs.d, regs.f),
        Operand::E => (regs.e, regs.f) = z80_alu::inc8(regs.e, regs.f),
        Operand::H => (regs.h, regs.f) = z80_alu::inc8(regs.h, regs.f),
        Operand::L => (regs.l, regs.f) = z80_alu::inc8(regs.l, regs.f),
        Operand::Memory => {
            let address = hl(regs);
            let (value, flags) = z80_alu::inc8(bus.read(address), regs.f);
            bus.write(address, value);
            regs.f = flags;
        }
        Operand::A => (regs.a, regs.f) = z80_alu::inc8(regs.a, regs.f),
    }
}

/// DEC r and DEC (HL), likewise.
#[inline(always)]
#[tactic(auto, unfolding(z80_regs::specs::Outcome::LeavesBus))]
pub fn decrement<B: Bus>(operand: Operand, regs: &mut Regs, bus: &mut B)
    ensures { Leaves B.Bus (decremented operand (operand_byte operand regs.old (B.byte bus.old)) regs.old) regs.new bus.old bus.new }
{
    match operand {
        Operand::B => (regs.b, regs.f) = z80_alu::dec8(regs.b, regs.f),
        Operand::C => (regs.c, regs.f) = z80_alu::dec8(regs.c, regs.f),
        Operand::D => (regs.d, regs.f) = z80_alu::dec8(regs.d, regs.f),
        Operand::E => (regs.e, regs.f) = z80_alu::dec8(regs.e, regs.f),
        Operand::H => (regs.h, regs.f) = z80_alu::dec8(regs.h, regs.f),
        Operand::L => (regs.l, regs.f) = z80_alu::dec8(regs.l, regs.f),
        Operand::Memory => {
            let address = hl(regs);
            let (value, flags) = z80_alu::dec8(bus.read(address), regs.f);
            bus.write(address, value);
            regs.f = flags;
        }
        Operand::A => (regs.a, regs.f) = z80_alu::dec8(regs.a, regs.f),
    }
}

/// ADD HL,ss.
#[inline(always)]
pub fn add_pair(pair: Pair, regs: &mut Regs)
    ensures { regs.new ≡ pair_added pair regs.old }
{
    let (sum, flags) = z80_alu::add16(hl(regs), pair_at(regs, pair), regs.f);
    set_pair(regs, Pair::HL, sum);
    regs.f = flags;
}

/// Which rotation of a byte is made of A.
#[inline(always)]
fn rotate_at(rotation: Rotation) -> Rotate
    ensures { result ≡ rotate_of rotation }
{
    match rotation {
        Rotation::LeftCircular => Rotate::Rlc,
        Rotation::RightCircular => Rotate::Rrc,
        Rotation::Left => Rotate::Rl,
        Rotation::Right => Rotate::Rr,
    }
}

/// RLCA, RRCA, RLA and RRA.
#[inline(always)]
pub fn rotate(rotation: Rotation, regs: &mut Regs)
    ensures { regs.new ≡ a_rotated rotation regs.old }
{
    (regs.a, regs.f) = z80_alu::rotate_a(rotate_at(rotation), regs.a, regs.f);
}

/// DAA.
#[inline(always)]
pub fn decimal_adjust(regs: &mut Regs)
    ensures { regs.new ≡ decimal_adjusted regs.old }
{
    (regs.a, regs.f) = z80_alu::daa(regs.a, regs.f);
}

/// CPL.
#[inline(always)]
pub fn complement(regs: &mut Regs)
    ensures { regs.new ≡ complemented regs.old }
{
    regs.a = 255 - regs.a;
    regs.f = z80_alu::complement_flags(regs.f);
}
