ghost use Rattle.std.specs.Prelude.{◌≡◌, ℕ, ◌==◌, ◌||◌, true, false};
ghost use Rattle.z80_regs.specs.Words.{onward};
ghost use Rattle.z80_decode.specs.PageOpcodes.{indexed_bit_form_of};
ghost use Rattle.z80_decode.specs.Decoding.{index_tail_of, instr_with, index_bit_instr_by, index_instr_of};
ghost use Rattle.z80_exec.specs.Leaving.{Leaves};
ghost use Rattle.z80_exec.specs.Operands.{with_operand};
ghost use Rattle.z80_exec.specs.Calculations.{calculated};
ghost use Rattle.z80_exec.specs.Flow.{relative};
ghost use Rattle.z80_ext.specs.Steps.{ActsAs};
ghost use Rattle.z80_ext.specs.Index.{
  index_behind,
  index_word,
  with_index,
  index_pair_word,
  index_byte,
  with_index_byte,
  index_added,
  byte_incremented,
  byte_decremented,
  index_exchanged,
  index_pushed,
  index_popped,
  index_performed,
  page_of,
  bits_page_of,
};

use crate::bits::act_on_memory;
use crate::stepped::fourth_byte;
use z80_decode::{IndexForm, Math, Operand, Pair, index_form, index_length, indexed_bit_form};
use z80_exec::{
    calculate, operand, pair_at, push, relative_to, replace_top, set_operand, store_operand,
    store_word, word_at,
};
use z80_regs::{Bus, Regs};

/// The register that stands for HL.
#[derive(Clone, Copy)]
pub enum IndexRegister {
    /// After DDh.
    Ix,
    /// After FDh.
    Iy,
}

/// Whether an opcode is a prefix after which an index register stands for HL.
#[inline(always)]
pub fn is_index_prefix(opcode: u8) -> bool
    ensures { result ≡ ((opcode == 221) || (opcode == 253)) }
{
    opcode == 0xDD || opcode == 0xFD
}

/// The register that stands for HL after DDh or FDh.
#[inline(always)]
pub fn index_behind(prefix: u8) -> IndexRegister
    ensures { result ≡ index_behind prefix }
{
    if prefix == 0xFD {
        IndexRegister::Iy
    } else {
        IndexRegister::Ix
    }
}

/// The word in an index register.
#[inline(always)]
fn index_at(regs: &Regs, index: IndexRegister) -> u16
    ensures { result ≡ index_word index regs.now }
{
    match index {
        IndexRegister::Ix => regs.ix,
        IndexRegister::Iy => regs.iy,
    }
}

/// Sets an index register.
#[inline(always)]
fn set_index(regs: &mut Regs, index: IndexRegister, word: u16)
    ensures { regs.new ≡ with_index index word regs.old }
{
    match index {
        IndexRegister::Ix => regs.ix = word,
        IndexRegister::Iy => regs.iy = word,
    }
}

/// The word in a pair, where an index register stands for HL.
#[inline(always)]
fn index_pair_at(regs: &Regs, index: IndexRegister, pair: Pair) -> u16
    ensures { result ≡ index_pair_word index pair regs.now }
{
    match pair {
        Pair::HL => index_at(regs, index),
        _ => pair_at(regs, pair),
    }
}

/// IX+d or IY+d.
#[inline(always)]
fn address_at(index: IndexRegister, displacement: u8, regs: &Regs) -> u16
    ensures { result ≡ relative (index_word index regs.now) displacement }
{
    relative_to(index_at(regs, index), displacement)
}

/// ADD IX,pp.
#[inline(always)]
fn add_pair(index: IndexRegister, pair: Pair, regs: &mut Regs)
    ensures { regs.new ≡ index_added index pair regs.old }
{
    let (sum, flags) = z80_alu::add16(
        index_at(regs, index),
        index_pair_at(regs, index, pair),
        regs.f,
    );
    set_index(regs, index, sum);
    regs.f = flags;
}

/// The byte of an operand, where an index register stands for HL, and an address for (IX+d).
#[inline(always)]
fn byte_at<B: Bus>(index: IndexRegister, from: Operand, address: u16, regs: &Regs, bus: &B) -> u8
    ensures { result ≡ index_byte index from address regs.now (B.byte bus.now) }
{
    match from {
        Operand::H => (index_at(regs, index) / 256) as u8,
        Operand::L => (index_at(regs, index) % 256) as u8,
        Operand::Memory => bus.read(address),
        _ => operand(from, regs, bus),
    }
}

/// Sets an operand likewise.
#[inline(always)]
#[tactic(auto, unfolding(z80_regs::specs::Outcome::LeavesBus))]
fn set_byte<B: Bus>(
    index: IndexRegister,
    to: Operand,
    address: u16,
    byte: u8,
    regs: &mut Regs,
    bus: &mut B,
)
    ensures { Leaves B.Bus (with_index_byte index to address byte regs.old) regs.new bus.old bus.new }
{
    match to {
        Operand::H => {
            let low = (index_at(regs, index) % 256) as u8;
            set_index(regs, index, u16::from_le_bytes([low, byte]));
        }
        Operand::L => {
            let high = (index_at(regs, index) / 256) as u8;
            set_index(regs, index, u16::from_le_bytes([byte, high]));
        }
        Operand::Memory => bus.write(address, byte),
        _ => set_operand(to, byte, regs, bus),
    }
}

/// INC of an operand, where an index register stands for HL, and an address for (IX+d).
#[inline(always)]
fn increment<B: Bus>(index: IndexRegister, at: Operand, address: u16, regs: &mut Regs, bus: &mut B)
    ensures { Leaves B.Bus (byte_incremented index at address (index_byte index at address regs.old (B.byte bus.old)) regs.old) regs.new bus.old bus.new }
{
    let (value, flags) = z80_alu::inc8(byte_at(index, at, address, regs, bus), regs.f);
    regs.f = flags;
    set_byte(index, at, address, value, regs, bus);
}

/// DEC likewise.
#[inline(always)]
fn decrement<B: Bus>(index: IndexRegister, at: Operand, address: u16, regs: &mut Regs, bus: &mut B)
    ensures { Leaves B.Bus (byte_decremented index at address (index_byte index at address regs.old (B.byte bus.old)) regs.old) regs.new bus.old bus.new }
{
    let (value, flags) = z80_alu::dec8(byte_at(index, at, address, regs, bus), regs.f);
    regs.f = flags;
    set_byte(index, at, address, value, regs, bus);
}

/// EX (SP),IX.
#[inline(always)]
fn exchange_stack<B: Bus>(index: IndexRegister, regs: &mut Regs, bus: &mut B)
    ensures { Leaves B.Bus (index_exchanged index regs.old (B.byte bus.old)) regs.new bus.old bus.new }
{
    let top = replace_top(index_at(regs, index), regs, bus);
    set_index(regs, index, top);
}

/// PUSH IX.
#[inline(always)]
fn push_index<B: Bus>(index: IndexRegister, regs: &mut Regs, bus: &mut B)
    ensures { Leaves B.Bus (index_pushed index regs.old) regs.new bus.old bus.new }
{
    push(index_at(regs, index), regs, bus);
}

/// POP IX.
#[inline(always)]
fn pop_index<B: Bus>(index: IndexRegister, regs: &mut Regs, bus: &B)
    ensures { regs.new ≡ index_popped index regs.old (B.byte bus.now) }
{
    let word = word_at(bus, regs.sp);
    regs.sp = regs.sp.wrapping_add(2);
    set_index(regs, index, word);
}

/// LD r,(IX+d). Each operand that is set reads memory by itself, so that it is known where a step has jumped by its opcode.
#[inline(always)]
#[tactic(auto, unfolding(z80_regs::specs::Outcome::LeavesBus))]
fn load_from<B: Bus>(to: Operand, address: u16, regs: &mut Regs, bus: &mut B)
    ensures { Leaves B.Bus (with_operand to (B.byte bus.old address) regs.old) regs.new bus.old bus.new }
{
    match to {
        Operand::B => regs.b = bus.read(address),
        Operand::C => regs.c = bus.read(address),
        Operand::D => regs.d = bus.read(address),
        Operand::E => regs.e = bus.read(address),
        Operand::H => regs.h = bus.read(address),
        Operand::L => regs.l = bus.read(address),
        Operand::Memory => {
            let byte = bus.read(address);
            set_operand(Operand::Memory, byte, regs, bus);
        }
        Operand::A => regs.a = bus.read(address),
    }
}

/// ADD A,(IX+d) and its kin, likewise.
#[inline(always)]
fn calculate_from<B: Bus>(math: Math, address: u16, regs: &mut Regs, bus: &B)
    ensures { regs.new ≡ calculated math (B.byte bus.now address) regs.old }
{
    match math {
        Math::Add => calculate(Math::Add, bus.read(address), regs),
        Math::AddCarry => calculate(Math::AddCarry, bus.read(address), regs),
        Math::Subtract => calculate(Math::Subtract, bus.read(address), regs),
        Math::SubtractCarry => calculate(Math::SubtractCarry, bus.read(address), regs),
        Math::And => calculate(Math::And, bus.read(address), regs),
        Math::Xor => calculate(Math::Xor, bus.read(address), regs),
        Math::Or => calculate(Math::Or, bus.read(address), regs),
        Math::Compare => calculate(Math::Compare, bus.read(address), regs),
    }
}

/// Acts as a form's instruction, whatever its opcode is, which PC is past. Its third byte is known, the fourth is read where
/// it belongs to it.
#[inline(always)]
#[tactic(auto, unfolding(crate::specs::Index::index_performed, z80_regs::specs::Outcome::LeavesBus))]
fn perform<B: Bus>(
    form: IndexForm,
    index: IndexRegister,
    third: u8,
    address: u16,
    regs: &mut Regs,
    bus: &mut B,
)
    ensures { (opcode : ℕ) → Leaves B.Bus (index_performed form index (instr_with (index_tail_of form) (page_of index) 2 opcode third (B.byte bus.old (onward address 3))) regs.old (B.byte bus.old)) regs.new bus.old bus.new }
{
    match form {
        IndexForm::AddPair(pair) => add_pair(index, pair, regs),
        IndexForm::LoadNumber => set_index(
            regs,
            index,
            u16::from_le_bytes([third, fourth_byte(address, bus)]),
        ),
        IndexForm::Store => {
            let to = u16::from_le_bytes([third, fourth_byte(address, bus)]);
            store_word(to, index_at(regs, index), bus);
        }
        IndexForm::Load => {
            let from = u16::from_le_bytes([third, fourth_byte(address, bus)]);
            set_index(regs, index, word_at(bus, from));
        }
        IndexForm::Increment => set_index(regs, index, index_at(regs, index).wrapping_add(1)),
        IndexForm::Decrement => set_index(regs, index, index_at(regs, index).wrapping_sub(1)),
        IndexForm::IncrementByte(Operand::Memory) => {
            increment(
                index,
                Operand::Memory,
                address_at(index, third, regs),
                regs,
                bus,
            );
        }
        IndexForm::IncrementByte(at) => increment(
            index,
            at,
            address_at(index, third, regs),
            regs,
            bus,
        ),
        IndexForm::DecrementByte(Operand::Memory) => {
            decrement(
                index,
                Operand::Memory,
                address_at(index, third, regs),
                regs,
                bus,
            );
        }
        IndexForm::DecrementByte(at) => decrement(
            index,
            at,
            address_at(index, third, regs),
            regs,
            bus,
        ),
        IndexForm::LoadByte(Operand::Memory) => {
            let byte = fourth_byte(address, bus);
            bus.write(address_at(index, third, regs), byte);
        }
        IndexForm::LoadByte(to) => set_byte(index, to, 0, third, regs, bus),
        IndexForm::LoadHalf(to, from) => {
            let at = address_at(index, 0, regs);
            let byte = byte_at(index, from, at, regs, bus);
            set_byte(index, to, at, byte, regs, bus);
        }
        IndexForm::LoadFrom(to) => load_from(to, address_at(index, third, regs), regs, bus),
        IndexForm::StoreTo(from) => store_operand(from, address_at(index, third, regs), regs, bus),
        IndexForm::Calculate(math, Operand::Memory) => calculate_from(
            math,
            address_at(index, third, regs),
            regs,
            bus,
        ),
        IndexForm::Calculate(math, from) => calculate(
            math,
            byte_at(index, from, 0, regs, bus),
            regs,
        ),
        IndexForm::Pop => pop_index(index, regs, bus),
        IndexForm::ExchangeStack => exchange_stack(index, regs, bus),
        IndexForm::Push => push_index(index, regs, bus),
        IndexForm::Jump => regs.pc = index_at(regs, index),
        IndexForm::LoadSp => regs.sp = index_at(regs, index),
    }
}

/// What an instruction after DDh CBh or FDh CBh does, but for how it begins. Its displacement is known. False comes where it
/// isn't listed, and then nothing changes. (UM0080, "Rotate and Shift Group", "Bit Set, Reset, and Test Group".)
#[inline(always)]
#[tactic(auto, using(crate::proofs::Next::index_bits_page, crate::proofs::Next::bits_page_plain), unfolding(crate::specs::Index::index_bits_outcome, z80_regs::specs::Outcome::LeavesBus))]
fn step_index_bits<B: Bus>(
    index: IndexRegister,
    displacement: u8,
    regs: &mut Regs,
    bus: &mut B,
) -> bool
    ensures { ActsAs B.Bus (index_bit_instr_by (indexed_bit_form_of (B.byte bus.old (onward regs.old.pc 3))) (bits_page_of index) displacement
        (B.byte bus.old (onward regs.old.pc 3))) result regs.old regs.new bus.old bus.new }
{
    match indexed_bit_form(fourth_byte(regs.pc, bus)) {
        None => false,
        Some(form) => {
            regs.pc = regs.pc.wrapping_add(4);
            act_on_memory(form, address_at(index, displacement, regs), regs, bus);
            true
        }
    }
}

/// What an instruction after DDh or FDh does, but for how it begins. Its opcode and the byte after that are known. False
/// comes where it isn't listed, and then nothing changes. (UM0080, "Z80 Instruction Description".)
#[inline(always)]
#[tactic(auto, using(crate::proofs::Next::index_page, crate::proofs::Next::page_plain), unfolding(z80_decode::specs::Decoding::index_instr_of, crate::specs::Index::index_outcome, z80_regs::specs::Outcome::LeavesBus))]
pub fn step_index<B: Bus>(
    index: IndexRegister,
    opcode: u8,
    third: u8,
    regs: &mut Regs,
    bus: &mut B,
) -> bool
    ensures { ActsAs B.Bus (index_instr_of (page_of index) (bits_page_of index) opcode third (B.byte bus.old (onward regs.old.pc 3)))
        result regs.old regs.new bus.old bus.new }
{
    if opcode == 0xcb {
        return step_index_bits(index, third, regs, bus);
    }
    match index_form(opcode) {
        None => false,
        Some(form) => {
            let address = regs.pc;
            regs.pc = address.wrapping_add(u16::from(index_length(form)));
            perform(form, index, third, address, regs, bus);
            true
        }
    }
}
