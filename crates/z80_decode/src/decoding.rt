ghost use Rattle.std.specs.Prelude.{◌≡◌, ◌<◌, ◌+◌, ◌∷◌, [], ℕ};
ghost use Rattle.std.specs.Option.{is_some};
ghost use Rattle.z80_regs.specs.Words.{onward};
ghost use Rattle.z80_decode.specs.Decoding.{tail_of, extended_tail_of, index_tail_of, instr_with, bit_instr_of, extended_instr_by, index_bit_instr_by, index_instr_of, prefixed_instr_of, main_instr_by, instr_of};
ghost use Rattle.z80_decode.specs.Opcodes.{form_of};
ghost use Rattle.z80_decode.specs.Listed.{is_listed};
ghost use Rattle.z80_decode.specs.PageOpcodes.{indexed_bit_form_of, extended_form_of};

use crate::forms::{Form, Operand, Tail};
use crate::instr::{Instr, Page};
use crate::opcodes::main_form;
use crate::page_forms::{ExtendedForm, IndexForm};
use crate::page_opcodes::{extended_form, index_form, indexed_bit_form};
use z80_regs::Bus;

/// What follows the opcode in a form.
#[inline(always)]
fn tail(form: Form) -> Tail
    ensures { result ≡ tail_of form }
{
    match form {
        Form::LoadNumber(_) | Form::CalculateNumber(_) | Form::Output | Form::Input => Tail::Byte,
        Form::LoadPair(_) | Form::StoreHl | Form::LoadHl | Form::StoreA | Form::LoadA => Tail::Word,
        Form::Jump | Form::JumpIf(_) | Form::Call | Form::CallIf(_) => Tail::Word,
        Form::DecrementJump | Form::JumpRelative | Form::JumpRelativeIf(_) => Tail::Displacement,
        _ => Tail::Nothing,
    }
}

/// What follows the opcode in a form after EDh.
#[inline]
pub fn extended_tail(form: ExtendedForm) -> Tail
    ensures { result ≡ extended_tail_of form }
{
    match form {
        ExtendedForm::StorePair(_) | ExtendedForm::LoadPair(_) => Tail::Word,
        _ => Tail::Nothing,
    }
}

/// What follows the opcode in a form after DDh and FDh.
#[inline]
fn index_tail(form: IndexForm) -> Tail
    ensures { result ≡ index_tail_of form }
{
    match form {
        IndexForm::LoadNumber | IndexForm::Store | IndexForm::Load => Tail::Word,
        IndexForm::IncrementByte(Operand::Memory) => Tail::Displacement,
        IndexForm::DecrementByte(Operand::Memory) => Tail::Displacement,
        IndexForm::LoadByte(Operand::Memory) => Tail::DisplacementByte,
        IndexForm::LoadByte(_) => Tail::Byte,
        IndexForm::LoadFrom(_) | IndexForm::StoreTo(_) => Tail::Displacement,
        IndexForm::Calculate(_, Operand::Memory) => Tail::Displacement,
        _ => Tail::Nothing,
    }
}

/// The instruction of a page whose opcode is its byte of a number, from 1, and of the two bytes after the opcode.
#[inline(always)]
fn assemble(tail: Tail, page: Page, place: u8, opcode: u8, first: u8, second: u8) -> Instr
    requires { place < 254 }
    ensures { result ≡ instr_with tail page place opcode first second }
{
    let (length, displacement, operand) = match tail {
        Tail::Nothing => (place, 0, 0),
        Tail::Byte => (place + 1, 0, u16::from(first)),
        Tail::Word => (place + 2, 0, u16::from_le_bytes([first, second])),
        Tail::Displacement => (place + 1, first, 0),
        Tail::DisplacementByte => (place + 2, first, u16::from(second)),
    };
    Instr {
        length,
        page,
        opcode,
        displacement,
        operand,
    }
}

/// How many bytes an instruction without prefix has: its opcode, and what follows it.
#[inline(always)]
pub fn main_length(form: Form) -> u8
    ensures { (opcode first second : ℕ) → result ≡ (instr_with (tail_of form) Page.Main 1 opcode first second).length }
{
    match tail(form) {
        Tail::Nothing => 1,
        Tail::Byte | Tail::Displacement => 2,
        Tail::Word | Tail::DisplacementByte => 3,
    }
}

/// How many bytes an instruction of a form after DDh or FDh has, by itself: whatever its page and its bytes are.
#[inline(always)]
pub fn index_length(form: IndexForm) -> u8
    ensures { (page : Page) (opcode first second : ℕ) → result ≡ (instr_with (index_tail_of form) page 2 opcode first second).length }
{
    match index_tail(form) {
        Tail::Nothing => 2,
        Tail::Byte | Tail::Displacement => 3,
        Tail::Word | Tail::DisplacementByte => 4,
    }
}

/// The instruction of a page at an address, whose opcode is its byte of a number, from 1, and is read: of the bytes after
/// it only those that belong to the instruction are.
#[inline(always)]
pub fn read_instr<B: Bus>(
    tail: Tail,
    page: Page,
    place: u8,
    opcode: u8,
    address: u16,
    bus: &B,
) -> Instr
    requires { place < 254 }
    ensures instr { result ≡ instr_with tail page place opcode (B.byte bus.now (onward address place))
        (B.byte bus.now (onward address (place + 1))) }
    ensures page { result.page ≡ page }
    ensures opcode { result.opcode ≡ opcode }
{
    let behind = address.wrapping_add(u16::from(place));
    match tail {
        Tail::Nothing => assemble(tail, page, place, opcode, 0, 0),
        Tail::Byte | Tail::Displacement => assemble(tail, page, place, opcode, bus.read(behind), 0),
        Tail::Word | Tail::DisplacementByte => {
            let first = bus.read(behind);
            let second = bus.read(behind.wrapping_add(1));
            assemble(tail, page, place, opcode, first, second)
        }
    }
}

/// The instruction after CBh.
fn decode_bits(opcode: u8) -> Instr
    ensures { result ≡ bit_instr_of opcode }
{
    assemble(Tail::Nothing, Page::Cb, 2, opcode, 0, 0)
}

/// The instruction after EDh.
fn decode_extended(opcode: u8, first: u8, second: u8) -> Option<Instr>
    ensures { result ≡ extended_instr_by (extended_form_of opcode) opcode first second }
{
    match extended_form(opcode) {
        None => None,
        Some(form) => Some(assemble(extended_tail(form), Page::Ed, 2, opcode, first, second)),
    }
}

/// The instruction after DDh CBh or FDh CBh: the displacement, then the opcode.
fn decode_index_bits(page: Page, displacement: u8, opcode: u8) -> Option<Instr>
    ensures { result ≡ index_bit_instr_by (indexed_bit_form_of opcode) page displacement opcode }
{
    match indexed_bit_form(opcode) {
        None => None,
        Some(_) => Some(Instr {
            length: 4,
            page,
            opcode,
            displacement,
            operand: 0,
        }),
    }
}

/// The instruction after DDh or FDh, by its page and the page that a CBh opens.
#[tactic(auto, unfolding(crate::specs::Decoding::index_instr_of))]
fn decode_index(page: Page, bits: Page, second: u8, third: u8, fourth: u8) -> Option<Instr>
    ensures { result ≡ index_instr_of page bits second third fourth }
{
    if second == 0xcb {
        return decode_index_bits(bits, third, fourth);
    }
    match index_form(second) {
        None => None,
        Some(form) => Some(assemble(index_tail(form), page, 2, second, third, fourth)),
    }
}

/// The instruction after the prefixes CBh, EDh, DDh and FDh, or None where it isn't listed. The first byte is a prefix.
#[tactic(auto, unfolding(crate::specs::Decoding::prefixed_instr_of))]
fn decode_prefixed(first: u8, second: u8, third: u8, fourth: u8) -> Option<Instr>
    ensures { result ≡ prefixed_instr_of (first ∷ second ∷ third ∷ fourth ∷ []) }
{
    match first {
        0xcb => Some(decode_bits(second)),
        0xed => decode_extended(second, third, fourth),
        0xdd => decode_index(Page::Ix, Page::IxCb, second, third, fourth),
        _ => decode_index(Page::Iy, Page::IyCb, second, third, fourth),
    }
}

/// The instruction without prefix that some bytes begin with, or None where the first is a prefix.
fn decode_main(opcode: u8, first: u8, second: u8) -> Option<Instr>
    ensures { result ≡ main_instr_by (form_of opcode) opcode first second }
{
    match main_form(opcode) {
        None => None,
        Some(form) => Some(assemble(tail(form), Page::Main, 1, opcode, first, second)),
    }
}

/// The instruction that some bytes begin with: those at PC and the three after it. None where they begin with no
/// listed instruction.
#[tactic(auto, using(crate::proofs::Listed::decoded), unfolding(crate::specs::Decoding::instr_of, crate::specs::Decoding::main_instr_of))]
pub fn decode(bytes: [u8; 4]) -> Option<Instr>
    ensures instr { result ≡ instr_of bytes }
    ensures listed { is_some result ≡ is_listed bytes }
{
    let [first, second, third, fourth] = bytes;
    match decode_main(first, second, third) {
        None => decode_prefixed(first, second, third, fourth),
        Some(instr) => Some(instr),
    }
}
