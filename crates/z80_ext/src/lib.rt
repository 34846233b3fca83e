//! One instruction step of a Z80, over any bus.
#![tactic(auto)]

mod bits;
mod block;
mod extended;
mod index;
mod stepped;

ghost use Rattle.std.specs.Prelude.{◌≡◌, ◌↔◌, true, false, IsNone, IsSome};
ghost use Rattle.z80_regs.specs.Outcome.{LeavesBus};
ghost use Rattle.z80_regs.specs.declared.regs.Regs.{Regs};
ghost use Rattle.z80_decode.specs.Opcodes.{form_of};
ghost use Rattle.z80_decode.specs.Decoding.{instr_of};
ghost use Rattle.z80_ext.specs.Instruction.{IsRareAt, IsLoadUpAt, halted_or_enabled, risen, four_from, instruction, registers_after, actions_of};
ghost use Rattle.z80_ext.specs.Steps.{IsFetched, ActsAs, StepsUnbegun, Steps};

use crate::bits::step_bits;
use crate::block::load_block;
use crate::extended::{step_extended, step_pair};
use crate::index::{index_behind, is_index_prefix, step_index};
use crate::stepped::{begin_behind, refresh};
pub use stepped::{Stepped, begin_all};
use z80_decode::{Direction, main_form};
pub use z80_exec::Fetched;
use z80_exec::plain_next;
use z80_regs::{Bus, Regs};

/// Acts as the instruction at PC does, which follows a prefix and whose first three bytes are fetched, but for how it
/// begins. False comes where it isn't plain, and then nothing changes.
#[inline(always)]
#[tactic(auto, using(crate::proofs::Rare::bits_is, crate::proofs::Rare::index_is, crate::proofs::Rare::extended_is, crate::proofs::Rare::prefix_rare), unfolding(z80_regs::specs::Outcome::LeavesBus))]
fn act_behind<B: Bus>(fetched: Fetched, regs: &mut Regs, bus: &mut B) -> bool
    requires fetched { IsFetched (B.byte bus.old) regs.old.pc fetched }
    requires prefix { IsNone (form_of fetched.opcode) }
    ensures { ActsAs B.Bus (instr_of (four_from (B.byte bus.old) regs.old.pc)) result regs.old regs.new bus.old bus.new }
{
    if is_index_prefix(fetched.opcode) {
        let index = index_behind(fetched.opcode);
        return step_index(index, fetched.first, fetched.second, regs, bus);
    }
    match fetched.opcode {
        0xcb => {
            step_bits(fetched.first, regs, bus);
            true
        }
        0xed => step_pair(fetched.first, fetched.second, regs, bus),
        _ => false,
    }
}

/// Acts as the instruction at PC does, whose first three bytes are fetched, but for how it begins. False comes where it isn't
/// plain, and then nothing changes.
#[inline(always)]
#[tactic(auto, using(crate::proofs::Next::main_plain, crate::proofs::Next::main_does))]
fn act<B: Bus>(fetched: Fetched, regs: &mut Regs, bus: &mut B) -> bool
    requires { IsFetched (B.byte bus.old) regs.old.pc fetched }
    ensures { ActsAs B.Bus (instr_of (four_from (B.byte bus.old) regs.old.pc)) result regs.old regs.new bus.old bus.new }
{
    match main_form(fetched.opcode) {
        None => act_behind(fetched, regs, bus),
        Some(form) => plain_next(form, fetched, regs, bus),
    }
}

/// Acts as the instruction at PC does, whose opcode and the two bytes after it are fetched, but for how it begins. R and the shadow of an
/// EI before it stay as they are, so that `begin_all` may change them once for many instructions. Where it isn't plain its opcode is
/// answered, and nothing has changed: HALT, EI, most of what follows EDh, and what isn't listed.
#[inline(always)]
pub fn step_unbegun<B: Bus>(fetched: Fetched, regs: &mut Regs, bus: &mut B) -> Option<u8>
    requires { IsFetched (B.byte bus.old) regs.old.pc fetched }
    ensures { StepsUnbegun B.Bus result regs.old regs.new bus.old bus.new }
{
    if act(fetched, regs, bus) {
        None
    } else {
        Some(fetched.opcode)
    }
}

/// HALT or EI, of which the opcode is known.
#[inline(always)]
fn halt_or_enable(opcode: u8, regs: &mut Regs)
    ensures { regs.new ≡ halted_or_enabled opcode regs.old }
{
    begin_behind(1, regs);
    if opcode == 0x76 {
        regs.halted = true;
    } else {
        (regs.iff1, regs.iff2, regs.shadow) = (true, true, true);
    }
}

/// One step where the processor stands in a HALT, or what is at PC isn't plain.
#[inline(never)]
#[tactic(auto, using(crate::proofs::Rare::extended_at, crate::proofs::Rare::halt_or_enable_at, crate::proofs::Rare::unlisted_at, crate::proofs::Rare::rests_at), unfolding(z80_regs::specs::Outcome::LeavesBus))]
pub fn step_other<B: Bus>(opcode: u8, regs: &mut Regs, bus: &mut B) -> Stepped
    requires { IsRareAt opcode regs.old (B.byte bus.old) }
    ensures { Steps B.Bus (instruction regs.old (B.byte bus.old) (B.port_byte bus.old)) result regs.old regs.new bus.old bus.new }
{
    if regs.halted {
        refresh(regs);
        return Stepped::Ran;
    }
    if opcode == 0xed {
        return step_extended(regs, bus);
    }
    if opcode == 0x76 || opcode == 0xfb {
        halt_or_enable(opcode, regs);
        return Stepped::Ran;
    }
    Stepped::Illegal
}

/// One step where LDIR is at PC: what compiled programs copy with has code of its own.
#[inline(always)]
pub fn step_load_up<B: Bus>(regs: &mut Regs, bus: &mut B)
    requires { IsLoadUpAt regs.old (B.byte bus.old) }
    ensures listed { IsSome (instruction regs.old (B.byte bus.old) (B.port_byte bus.old)) }
    ensures registers { regs.new ≡ registers_after (instruction regs.old (B.byte bus.old) (B.port_byte bus.old)) regs.old }
    ensures bus { LeavesBus B.wrote B.took (actions_of (instruction regs.old (B.byte bus.old) (B.port_byte bus.old)))
        bus.old bus.new }
{
    begin_behind(2, regs);
    load_block(Direction::Up, true, regs, bus);
}

/// One step, whose opcode and the two bytes after it are fetched.
#[inline(always)]
#[tactic(auto, using(crate::proofs::Begun::unbegun_once))]
fn step_fetched<B: Bus>(fetched: Fetched, regs: &mut Regs, bus: &mut B) -> Stepped
    requires { IsFetched (B.byte bus.old) regs.old.pc fetched }
    ensures { Steps B.Bus (instruction regs.old (B.byte bus.old) (B.port_byte bus.old)) result regs.old regs.new bus.old bus.new }
{
    if regs.halted {
        return step_other(fetched.opcode, regs, bus);
    }
    match step_unbegun(fetched, regs, bus) {
        None => {
            begin_all(1, regs);
            Stepped::Ran
        }
        Some(rare) => step_other(rare, regs, bus),
    }
}

/// One step: the instruction at PC, or, where the processor stands in a HALT, R alone rises. Where no listed instruction
/// is at PC it answers `Illegal`, and nothing has changed. (UM0080, "Z80 Instruction Description".)
#[inline(always)]
#[tactic(auto, using(crate::proofs::Next::halted_rises))]
pub fn step<B: Bus>(regs: &mut Regs, bus: &mut B) -> Stepped
    ensures outcome { Steps B.Bus (instruction regs.old (B.byte bus.old) (B.port_byte bus.old)) result regs.old regs.new bus.old bus.new }
    ensures unlisted { (result ≡ Stepped.Illegal)
        ↔ ((regs.old.halted ≡ false) × IsNone (instr_of (four_from (B.byte bus.old) regs.old.pc))) }
    ensures halted { regs.old.halted ≡ true → regs.new ≡ risen regs.old }
{
    let fetched = Fetched {
        opcode: bus.read(regs.pc),
        first: bus.read(regs.pc.wrapping_add(1)),
        second: bus.read(regs.pc.wrapping_add(2)),
    };
    step_fetched(fetched, regs, bus)
}
