ghost use Rattle.std.specs.Prelude.{◌≡◌, true, false};
ghost use Rattle.z80_regs.specs.Words.{onward};
ghost use Rattle.z80_decode.specs.PageOpcodes.{extended_form_of};
ghost use Rattle.z80_decode.specs.Decoding.{extended_instr_by};
ghost use Rattle.z80_ext.specs.Instruction.{extended_outcome_at};
ghost use Rattle.z80_ext.specs.Steps.{ActsAs, Steps};
ghost use Rattle.z80_exec.specs.Leaving.{Leaves};
ghost use Rattle.z80_exec.specs.Operands.{hl_of};
ghost use Rattle.z80_ext.specs.Extended.{
  operand_input,
  pair_added_with_carry,
  pair_subtracted,
  negated,
  nonmaskable_returned,
  a_loaded,
  digits_right,
  digits_left,
  extended_performed,
};

use crate::block::transfer;
use crate::stepped::{Stepped, begin_behind, fourth_byte};
use z80_decode::{
    ExtendedForm, Instr, Operand, Page, Pair, extended_form, extended_tail, read_instr,
};
use z80_exec::{
    hl, operand, pair_at, return_to_caller, set_operand, set_pair, store_word, word_at,
};
use z80_regs::{Bus, Regs};

/// IN r,(C).
#[tactic(auto, unfolding(z80_regs::specs::Outcome::LeavesBus))]
fn input_operand<B: Bus>(to: Operand, regs: &mut Regs, bus: &mut B)
    ensures { Leaves B.Bus (operand_input to regs.old (B.port_byte bus.old)) regs.new bus.old bus.new }
{
    let value = bus.input(regs.c);
    regs.f = z80_alu::value_flags(value, regs.f);
    set_operand(to, value, regs, bus);
}

/// ADC HL,ss.
#[inline(always)]
fn add_pair_with_carry(pair: Pair, regs: &mut Regs)
    ensures { regs.new ≡ pair_added_with_carry pair regs.old }
{
    let (sum, flags) = z80_alu::adc16(hl(regs), pair_at(regs, pair), regs.f);
    set_pair(regs, Pair::HL, sum);
    regs.f = flags;
}

/// SBC HL,ss.
#[inline(always)]
fn subtract_pair(pair: Pair, regs: &mut Regs)
    ensures { regs.new ≡ pair_subtracted pair regs.old }
{
    let (difference, flags) = z80_alu::sbc16(hl(regs), pair_at(regs, pair), regs.f);
    set_pair(regs, Pair::HL, difference);
    regs.f = flags;
}

/// NEG.
fn negate(regs: &mut Regs)
    ensures { regs.new ≡ negated regs.old }
{
    (regs.a, regs.f) = z80_alu::sub8(0, regs.a, false, regs.f);
}

/// RETN.
fn return_from_nonmaskable<B: Bus>(regs: &mut Regs, bus: &B)
    ensures { regs.new ≡ nonmaskable_returned regs.old (B.byte bus.now) }
{
    return_to_caller(regs, bus);
    regs.iff1 = regs.iff2;
}

/// LD A,I and LD A,R, of the value.
fn load_a(value: u8, regs: &mut Regs)
    ensures { regs.new ≡ a_loaded value regs.old }
{
    regs.a = value;
    regs.f = z80_alu::load_flags(value, regs.iff2, regs.f);
}

/// RRD.
#[tactic(auto, unfolding(z80_regs::specs::Outcome::LeavesBus))]
fn rotate_digits_right<B: Bus>(regs: &mut Regs, bus: &mut B)
    ensures { Leaves B.Bus (digits_right (B.byte bus.old (hl_of regs.old)) regs.old) regs.new bus.old bus.new }
{
    let byte = bus.read(hl(regs));
    bus.write(hl(regs), regs.a % 16 * 16 + byte / 16);
    regs.a = regs.a / 16 * 16 + byte % 16;
    regs.f = z80_alu::value_flags(regs.a, regs.f);
}

/// RLD.
#[tactic(auto, unfolding(z80_regs::specs::Outcome::LeavesBus))]
fn rotate_digits_left<B: Bus>(regs: &mut Regs, bus: &mut B)
    ensures { Leaves B.Bus (digits_left (B.byte bus.old (hl_of regs.old)) regs.old) regs.new bus.old bus.new }
{
    let byte = bus.read(hl(regs));
    bus.write(hl(regs), byte % 16 * 16 + regs.a % 16);
    regs.a = regs.a / 16 * 16 + byte / 16;
    regs.f = z80_alu::value_flags(regs.a, regs.f);
}

/// OUT (C),r.
fn output_operand<B: Bus>(from: Operand, regs: &Regs, bus: &mut B)
    ensures { bus.new ≡ bus.old }
{
    let value = operand(from, regs, bus);
    bus.output(regs.c, value);
}

/// What ADC HL,ss, SBC HL,ss, LD (nn),dd and LD dd,(nn) do, but for how they begin. The byte after the opcode is known, the
/// last is read where it belongs to the instruction. False comes of all else after EDh, and then nothing changes. (UM0080,
/// "16-Bit Arithmetic Group", "16-Bit Load Group".)
#[inline]
#[tactic(auto, unfolding(crate::specs::Extended::extended_performed, crate::specs::Extended::extended_outcome, z80_regs::specs::Outcome::LeavesBus))]
pub fn step_pair<B: Bus>(opcode: u8, third: u8, regs: &mut Regs, bus: &mut B) -> bool
    ensures { ActsAs B.Bus (extended_instr_by (extended_form_of opcode) opcode third (B.byte bus.old (onward regs.old.pc 3)))
        result regs.old regs.new bus.old bus.new }
{
    match extended_form(opcode) {
        Some(ExtendedForm::AddPair(pair)) => {
            regs.pc = regs.pc.wrapping_add(2);
            add_pair_with_carry(pair, regs);
            true
        }
        Some(ExtendedForm::SubtractPair(pair)) => {
            regs.pc = regs.pc.wrapping_add(2);
            subtract_pair(pair, regs);
            true
        }
        Some(ExtendedForm::StorePair(pair)) => {
            let to = u16::from_le_bytes([third, fourth_byte(regs.pc, bus)]);
            regs.pc = regs.pc.wrapping_add(4);
            store_word(to, pair_at(regs, pair), bus);
            true
        }
        Some(ExtendedForm::LoadPair(pair)) => {
            let from = u16::from_le_bytes([third, fourth_byte(regs.pc, bus)]);
            regs.pc = regs.pc.wrapping_add(4);
            set_pair(regs, pair, word_at(bus, from));
            true
        }
        _ => false,
    }
}

/// Acts as a form's instruction, which PC is past.
#[tactic(auto, unfolding(crate::specs::Extended::extended_performed, z80_regs::specs::Outcome::LeavesBus))]
fn perform<B: Bus>(form: &ExtendedForm, instr: &Instr, regs: &mut Regs, bus: &mut B)
    ensures { Leaves B.Bus (extended_performed form.now instr.now regs.old (B.byte bus.old) (B.port_byte bus.old)) regs.new bus.old bus.new }
{
    match *form {
        ExtendedForm::Input(to) => input_operand(to, regs, bus),
        ExtendedForm::Output(from) => output_operand(from, regs, bus),
        ExtendedForm::SubtractPair(pair) => subtract_pair(pair, regs),
        ExtendedForm::AddPair(pair) => add_pair_with_carry(pair, regs),
        ExtendedForm::StorePair(pair) => store_word(instr.operand, pair_at(regs, pair), bus),
        ExtendedForm::LoadPair(pair) => set_pair(regs, pair, word_at(bus, instr.operand)),
        ExtendedForm::Negate => negate(regs),
        ExtendedForm::ReturnNonmaskable => return_from_nonmaskable(regs, bus),
        ExtendedForm::ReturnInterrupt => return_to_caller(regs, bus),
        ExtendedForm::Mode(mode) => regs.mode = mode,
        ExtendedForm::StoreI => regs.i = regs.a,
        ExtendedForm::StoreR => regs.r = regs.a,
        ExtendedForm::LoadI => load_a(regs.i, regs),
        ExtendedForm::LoadR => load_a(regs.r, regs),
        ExtendedForm::RotateRight => rotate_digits_right(regs, bus),
        ExtendedForm::RotateLeft => rotate_digits_left(regs, bus),
        ExtendedForm::Block(kind, direction, repeats) => transfer(
            kind, direction, repeats, regs, bus,
        ),
    }
}

/// One step where EDh is at PC. (UM0080, "Z80 Instruction Description".)
#[tactic(auto, unfolding(crate::specs::Extended::extended_outcome, z80_regs::specs::Outcome::LeavesBus))]
pub fn step_extended<B: Bus>(regs: &mut Regs, bus: &mut B) -> Stepped
    ensures { Steps B.Bus (extended_outcome_at regs.old (B.byte bus.old) (B.port_byte bus.old)) result regs.old regs.new bus.old bus.new }
{
    let opcode = bus.read(regs.pc.wrapping_add(1));
    match extended_form(opcode) {
        None => Stepped::Illegal,
        Some(form) => {
            let instr = read_instr(extended_tail(form), Page::Ed, 2, opcode, regs.pc, bus);
            begin_behind(instr.length, regs);
            perform(&form, &instr, regs, bus);
            Stepped::Ran
        }
    }
}
