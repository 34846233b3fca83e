ghost use Rattle.std.specs.Prelude.{◌≡◌, true, false, Some};
ghost use Rattle.z80_exec.specs.Leaving.{Leaves, LeavesWhere};
ghost use Rattle.z80_exec.specs.Performing.{performed, main_outcome, next_with, is_plain};

use crate::calculations::{
    add_pair, calculate, calculate_operand, complement, decimal_adjust, decrement, increment,
    rotate,
};
use crate::flow::{call, decrement_jump, relative_to, restart, return_if, return_to_caller};
use crate::loads::{
    exchange_af, exchange_de, exchange_set, exchange_stack, input_a, load, pop_pair, push_pair,
    store_word,
};
use crate::operands::{hl, is_met, pair_at, set_operand, set_pair, word_at};
use crate::source::{Fetched, Source};
use z80_decode::{Form, Instr, Page, Pair, main_form, main_length};
use z80_regs::{Bus, Regs};

/// Acts as a form's instruction, which PC is past.
#[inline(always)]
#[tactic(auto, unfolding(crate::specs::Performing::performed, z80_regs::specs::Outcome::LeavesBus))]
fn perform<S: Source, B: Bus>(form: Form, source: &S, regs: &mut Regs, bus: &mut B)
    ensures { Leaves B.Bus (performed form (S.instr source.now form) regs.old (B.byte bus.old) (B.port_byte bus.old)) regs.new bus.old bus.new }
{
    match form {
        Form::Nop => {}
        Form::Halt => regs.halted = true,
        Form::DisableInterrupts => (regs.iff1, regs.iff2) = (false, false),
        Form::EnableInterrupts => (regs.iff1, regs.iff2, regs.shadow) = (true, true, true),
        Form::Load(to, from) => load(to, from, regs, bus),
        Form::LoadNumber(to) => set_operand(to, source.byte(form), regs, bus),
        Form::LoadPair(pair) => set_pair(regs, pair, source.word(form)),
        Form::StoreAAt(pair) => bus.write(pair_at(regs, pair), regs.a),
        Form::LoadAFrom(pair) => regs.a = bus.read(pair_at(regs, pair)),
        Form::StoreA => bus.write(source.word(form), regs.a),
        Form::LoadA => regs.a = bus.read(source.word(form)),
        Form::StoreHl => store_word(source.word(form), hl(regs), bus),
        Form::LoadHl => set_pair(regs, Pair::HL, word_at(bus, source.word(form))),
        Form::LoadSpHl => regs.sp = hl(regs),
        Form::ExchangeAf => exchange_af(regs),
        Form::Exchange => exchange_set(regs),
        Form::ExchangeDe => exchange_de(regs),
        Form::ExchangeStack => exchange_stack(regs, bus),
        Form::Push(pair) => push_pair(pair, regs, bus),
        Form::Pop(pair) => pop_pair(pair, regs, bus),
        Form::Calculate(math, from) => calculate_operand(math, from, regs, bus),
        Form::CalculateNumber(math) => calculate(math, source.byte(form), regs),
        Form::Increment(at) => increment(at, regs, bus),
        Form::Decrement(at) => decrement(at, regs, bus),
        Form::IncrementPair(pair) => set_pair(regs, pair, pair_at(regs, pair).wrapping_add(1)),
        Form::DecrementPair(pair) => set_pair(regs, pair, pair_at(regs, pair).wrapping_sub(1)),
        Form::AddPair(pair) => add_pair(pair, regs),
        Form::Rotate(rotation) => rotate(rotation, regs),
        Form::DecimalAdjust => decimal_adjust(regs),
        Form::Complement => complement(regs),
        Form::SetCarry => regs.f = z80_alu::set_carry_flags(regs.f),
        Form::ComplementCarry => regs.f = z80_alu::complement_carry_flags(regs.f),
        Form::Jump => regs.pc = source.word(form),
        Form::JumpHl => regs.pc = hl(regs),
        Form::JumpIf(condition) if is_met(condition, regs.f) => regs.pc = source.word(form),
        Form::JumpIf(_) => {}
        Form::JumpRelative => regs.pc = relative_to(regs.pc, source.displacement(form)),
        Form::JumpRelativeIf(condition) if is_met(condition, regs.f) => {
            regs.pc = relative_to(regs.pc, source.displacement(form));
        }
        Form::JumpRelativeIf(_) => {}
        Form::DecrementJump => decrement_jump(source.displacement(form), regs),
        Form::Call => call(source.word(form), regs, bus),
        Form::CallIf(condition) if is_met(condition, regs.f) => call(source.word(form), regs, bus),
        Form::CallIf(_) => {}
        Form::Restart(address) => restart(address, regs, bus),
        Form::Return => return_to_caller(regs, bus),
        Form::ReturnIf(condition) => return_if(is_met(condition, regs.f), regs, bus),
        Form::Input => input_a(source.byte(form), regs, bus),
        Form::Output => bus.output(source.byte(form), regs.a),
    }
}

/// Acts as an instruction without prefix: PC goes past it, and what it does is done. Where its opcode is a prefix
/// nothing changes. (UM0080, "Z80 Instruction Description".)
#[inline(always)]
#[tactic(auto, unfolding(crate::specs::Performing::main_outcome, z80_regs::specs::Outcome::LeavesBus))]
pub fn main_page<B: Bus>(instr: &Instr, regs: &mut Regs, bus: &mut B)
    requires { instr.now.page ≡ Page.Main }
    ensures { Leaves B.Bus (main_outcome instr.now regs.old (B.byte bus.old) (B.port_byte bus.old)) regs.new bus.old bus.new }
{
    match main_form(instr.opcode) {
        None => {}
        Some(form) => {
            regs.pc = regs.pc.wrapping_add(u16::from(instr.length));
            perform(form, instr, regs, bus);
        }
    }
}

/// Whether an instruction neither halts the processor nor casts a shadow on the next one: all but HALT and EI.
#[inline(always)]
fn is_plain_form(form: Form) -> bool
    ensures { result ≡ is_plain (Some form) }
{
    match form {
        Form::Halt | Form::EnableInterrupts => false,
        _ => true,
    }
}

/// Acts as the instruction of a form whose opcode and the two bytes after it were fetched at PC, where it is plain. Where it is
/// HALT or EI the answer is false, and nothing changes. (UM0080, "Z80 Instruction Description".)
#[inline(always)]
#[tactic(auto, unfolding(z80_regs::specs::Outcome::LeavesBus))]
pub fn plain_next<B: Bus>(form: Form, fetched: Fetched, regs: &mut Regs, bus: &mut B) -> bool
    ensures { LeavesWhere B.Bus (is_plain (Some form))
        (next_with form fetched.opcode fetched.first fetched.second regs.old (B.byte bus.old) (B.port_byte bus.old))
        result regs.old regs.new bus.old bus.new }
{
    if !is_plain_form(form) {
        return false;
    }
    regs.pc = regs.pc.wrapping_add(u16::from(main_length(form)));
    perform(form, &fetched, regs, bus);
    true
}
