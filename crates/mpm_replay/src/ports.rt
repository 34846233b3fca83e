ghost use Rattle.std.specs.Prelude.{◌≡◌, Some};
ghost use Rattle.z80_regs.specs.Words.{onward};
ghost use Rattle.z80_decode.specs.Decoding.{instr_of};
ghost use Rattle.z80_decode.specs.PageOpcodes.{extended_form_of};
ghost use Rattle.z80_ext.specs.Instruction.{four_from};
ghost use Rattle.mpm_replay.specs.Ports.{reads_main, reads_extended, reads_of};
ghost use Rattle.mpm_replay.specs.Replays.{input_if, stopped_by};

use crate::stopping::{Next, Why};
use z80_decode::{ExtendedForm, Form, Transfer, extended_form, main_form};
use z80_regs::Bus;

/// Whether an instruction of a form without prefix reads a port.
#[inline(always)]
fn form_reads(form: Form) -> bool
    ensures { result ≡ reads_main (Some form) }
{
    match form {
        Form::Input => true,
        _ => false,
    }
}

/// Whether one after EDh does.
fn extended_reads(opcode: u8) -> bool
    ensures { result ≡ reads_extended (extended_form_of opcode) }
{
    match extended_form(opcode) {
        Some(ExtendedForm::Input(_)) => true,
        Some(ExtendedForm::Block(Transfer::Input, _, _)) => true,
        _ => false,
    }
}

/// What is next where an opcode stands after EDh.
#[tactic(auto, using(crate::proofs::ReadLaws::load_up_reads))]
fn extended_next(opcode: u8) -> Next
    ensures stops { stopped_by result ≡ input_if (reads_extended (extended_form_of opcode)) }
    ensures loads { result ≡ Next.Loads → opcode ≡ 176 }
{
    if opcode == 0xB0 {
        Next::Loads
    } else if extended_reads(opcode) {
        Next::Stops(Why::Input)
    } else {
        Next::Steps
    }
}

/// What is next where an instruction stands at an address: it stops there if that reads a port, as IN, INI, IND, INIR and INDR do.
/// (UM0080, "Input and Output Group".)
#[inline(always)]
#[tactic(auto, using(crate::proofs::ReadLaws::main_reads, crate::proofs::ReadLaws::extended_reads, crate::proofs::ReadLaws::others_read))]
pub(crate) fn next_at<B: Bus>(address: u16, bus: &B) -> Next
    ensures stops { stopped_by result ≡ input_if (reads_of (instr_of (four_from (B.byte bus.now) address))) }
    ensures loads { result ≡ Next.Loads → (B.byte bus.now address ≡ 237) × (B.byte bus.now (onward address 1) ≡ 176) }
{
    let opcode = bus.read(address);
    match main_form(opcode) {
        Some(form) => {
            if form_reads(form) {
                Next::Stops(Why::Input)
            } else {
                Next::Steps
            }
        }
        None => {
            if opcode == 0xED {
                extended_next(bus.read(address.wrapping_add(1)))
            } else {
                Next::Steps
            }
        }
    }
}
