ghost use Rattle.std.specs.Prelude.{◌≡◌};
ghost use Rattle.z80_regs.specs.Words.{word_from};
ghost use Rattle.z80_regs.specs.Outcome.{LeavesBus};
ghost use Rattle.z80_exec.specs.Leaving.{Leaves};
ghost use Rattle.z80_exec.specs.Operands.{stored, operand_byte, with_operand};
ghost use Rattle.z80_exec.specs.Loads.{
  word_written,
  af_exchanged,
  set_exchanged,
  de_exchanged,
  top_replaced,
  stack_exchanged,
  word_pushed,
  pair_pushed,
  pair_popped,
  a_input,
};

use crate::operands::{hl, operand, set_pair, set_stack_pair, stack_pair_at, word_at};
use z80_decode::{Operand, Pair, StackPair};
use z80_regs::{Bus, Regs};

/// Writes a word to memory, low byte first, as LD (nn),HL and its kin do.
#[inline(always)]
#[tactic(auto, unfolding(z80_regs::specs::Outcome::LeavesBus))]
pub fn store_word<B: Bus>(address: u16, word: u16, bus: &mut B)
    ensures { LeavesBus B.wrote B.took (word_written address word) bus.old bus.new }
{
    let [low, high] = word.to_le_bytes();
    bus.write(address, low);
    bus.write(address.wrapping_add(1), high);
}

/// An operand's byte goes to an address: LD (HL),r and LD (IX+d),r. Each row writes by itself, so that it is known where a
/// step has jumped by its opcode.
#[inline(always)]
#[tactic(auto, unfolding(z80_regs::specs::Outcome::LeavesBus))]
pub fn store_operand<B: Bus>(from: Operand, address: u16, regs: &Regs, bus: &mut B)
    ensures { LeavesBus B.wrote B.took (stored address (operand_byte from regs.now (B.byte bus.old)) regs.now).actions bus.old bus.new }
{
    match from {
        Operand::B => bus.write(address, regs.b),
        Operand::C => bus.write(address, regs.c),
        Operand::D => bus.write(address, regs.d),
        Operand::E => bus.write(address, regs.e),
        Operand::H => bus.write(address, regs.h),
        Operand::L => bus.write(address, regs.l),
        Operand::Memory => {
            let byte = bus.read(hl(regs));
            bus.write(address, byte);
        }
        Operand::A => bus.write(address, regs.a),
    }
}

/// LD r,r', LD r,(HL) and LD (HL),r. Each operand that is set reads the other by itself, so that both are known where a
/// step has jumped by its opcode.
#[inline(always)]
#[tactic(auto, unfolding(z80_regs::specs::Outcome::LeavesBus))]
pub fn load<B: Bus>(to: Operand, from: Operand, regs: &mut Regs, bus: &mut B)
    ensures { Leaves B.Bus (with_operand to (operand_byte from regs.old (B.byte bus.old)) regs.old) regs.new bus.old bus.new }
{
    match to {
        Operand::B => regs.b = operand(from, regs, bus),
        Operand::C => regs.c = operand(from, regs, bus),
        Operand::D => regs.d = operand(from, regs, bus),
        Operand::E => regs.e = operand(from, regs, bus),
        Operand::H => regs.h = operand(from, regs, bus),
        Operand::L => regs.l = operand(from, regs, bus),
        Operand::Memory => store_operand(from, hl(regs), regs, bus),
        Operand::A => regs.a = operand(from, regs, bus),
    }
}

/// EX AF,AF'.
#[inline(always)]
pub fn exchange_af(regs: &mut Regs)
    ensures { regs.new ≡ af_exchanged regs.old }
{
    (regs.a, regs.a2) = (regs.a2, regs.a);
    (regs.f, regs.f2) = (regs.f2, regs.f);
}

/// EXX.
#[inline(always)]
pub fn exchange_set(regs: &mut Regs)
    ensures { regs.new ≡ set_exchanged regs.old }
{
    (regs.b, regs.b2) = (regs.b2, regs.b);
    (regs.c, regs.c2) = (regs.c2, regs.c);
    (regs.d, regs.d2) = (regs.d2, regs.d);
    (regs.e, regs.e2) = (regs.e2, regs.e);
    (regs.h, regs.h2) = (regs.h2, regs.h);
    (regs.l, regs.l2) = (regs.l2, regs.l);
}

/// EX DE,HL.
#[inline(always)]
pub fn exchange_de(regs: &mut Regs)
    ensures { regs.new ≡ de_exchanged regs.old }
{
    (regs.d, regs.h) = (regs.h, regs.d);
    (regs.e, regs.l) = (regs.l, regs.e);
}

/// Writes a word in the place of that on the stack, high byte first, and answers the one that stood there.
#[inline(always)]
#[tactic(auto, unfolding(z80_regs::specs::Outcome::LeavesBus))]
pub fn replace_top<B: Bus>(word: u16, regs: &Regs, bus: &mut B) -> u16
    ensures value { result ≡ word_from (B.byte bus.old) regs.now.sp }
    ensures bus { LeavesBus B.wrote B.took (top_replaced word regs.now) bus.old bus.new }
{
    let sp = regs.sp;
    let top = word_at(bus, sp);
    let [low, high] = word.to_le_bytes();
    bus.write(sp.wrapping_add(1), high);
    bus.write(sp, low);
    top
}

/// EX (SP),HL.
#[inline(always)]
pub fn exchange_stack<B: Bus>(regs: &mut Regs, bus: &mut B)
    ensures { Leaves B.Bus (stack_exchanged regs.old (B.byte bus.old)) regs.new bus.old bus.new }
{
    let top = replace_top(hl(regs), regs, bus);
    set_pair(regs, Pair::HL, top);
}

/// Writes a word below SP, high byte first.
#[inline(always)]
#[tactic(auto, unfolding(z80_regs::specs::Outcome::LeavesBus))]
pub fn push<B: Bus>(word: u16, regs: &mut Regs, bus: &mut B)
    ensures { Leaves B.Bus (word_pushed word regs.old) regs.new bus.old bus.new }
{
    let [low, high] = word.to_le_bytes();
    bus.write(regs.sp.wrapping_sub(1), high);
    regs.sp = regs.sp.wrapping_sub(2);
    bus.write(regs.sp, low);
}

/// PUSH qq.
#[inline(always)]
pub fn push_pair<B: Bus>(pair: StackPair, regs: &mut Regs, bus: &mut B)
    ensures { Leaves B.Bus (pair_pushed pair regs.old) regs.new bus.old bus.new }
{
    push(stack_pair_at(regs, pair), regs, bus);
}

/// A word is popped to a pair.
#[inline(always)]
fn pop_word<B: Bus>(pair: StackPair, regs: &mut Regs, bus: &B)
    ensures { regs.new ≡ pair_popped pair regs.old (B.byte bus.now) }
{
    let word = word_at(bus, regs.sp);
    regs.sp = regs.sp.wrapping_add(2);
    set_stack_pair(regs, pair, word);
}

/// POP qq. Each row reads its word by itself, so that its pair is known where a step has jumped by its opcode.
#[inline(always)]
pub fn pop_pair<B: Bus>(pair: StackPair, regs: &mut Regs, bus: &B)
    ensures { regs.new ≡ pair_popped pair regs.old (B.byte bus.now) }
{
    match pair {
        StackPair::BC => pop_word(StackPair::BC, regs, bus),
        StackPair::DE => pop_word(StackPair::DE, regs, bus),
        StackPair::HL => pop_word(StackPair::HL, regs, bus),
        StackPair::AF => pop_word(StackPair::AF, regs, bus),
    }
}

/// IN A,(n).
#[inline(always)]
#[tactic(auto, unfolding(z80_regs::specs::Outcome::LeavesBus))]
pub fn input_a<B: Bus>(port: u8, regs: &mut Regs, bus: &mut B)
    ensures { Leaves B.Bus (a_input port regs.old (B.port_byte bus.old)) regs.new bus.old bus.new }
{
    regs.a = bus.input(port);
}
