ghost use Rattle.std.specs.Prelude.{◌≡◌, ◌<◌, ◌^◌, Option, None};
ghost use Rattle.z80_decode.specs.PageOpcodes.{
  shift_of,
  bit_form_of,
  indexed_bit_form_of,
  extended_form_of,
  is_index_operand,
  indexed,
  index_form_of,
};

use crate::forms::{Form, Operand, Pair, StackPair};
use crate::opcodes::main_form;
use crate::page_forms::{BitChange, BitForm, Direction, ExtendedForm, IndexForm, Shift, Transfer};
use z80_regs::InterruptMode;

/// The rotation or shift that three bits name.
#[inline(always)]
#[tactic(auto, unfolding(crate::specs::PageOpcodes::shift_of))]
fn shift_at(y: u8) -> Shift
    ensures { result ≡ shift_of y }
{
    match y {
        0 => Shift::LeftCircular,
        1 => Shift::RightCircular,
        2 => Shift::Left,
        3 => Shift::Right,
        4 => Shift::LeftArithmetic,
        5 => Shift::RightArithmetic,
        6 => Shift::LeftLogical,
        _ => Shift::RightLogical,
    }
}

/// The weight of a bit.
#[inline(always)]
fn weight_at(y: u8) -> u8
    requires { y < 8 }
    ensures { result ≡ 2 ^ y }
{
    1 << y
}

/// The form of an opcode after CBh: each has one.
#[inline(always)]
#[tactic(auto, unfolding(crate::specs::PageOpcodes::bit_form_of))]
pub fn bit_form(opcode: u8) -> BitForm
    ensures { result ≡ bit_form_of opcode }
{
    let y = opcode / 8 % 8;
    match opcode / 64 {
        0 => BitForm::Change(BitChange::Rotate(shift_at(y))),
        1 => BitForm::Test(weight_at(y)),
        2 => BitForm::Change(BitChange::Reset(weight_at(y))),
        _ => BitForm::Change(BitChange::Set(weight_at(y))),
    }
}

/// The form of an opcode after DDh CBh or FDh CBh, or None where it doesn't name (HL), and at 36h: SLL (IX+d) isn't
/// listed.
#[inline(always)]
#[tactic(auto, unfolding(crate::specs::PageOpcodes::indexed_bit_form_of))]
pub fn indexed_bit_form(opcode: u8) -> Option<BitForm>
    ensures { result ≡ indexed_bit_form_of opcode }
{
    if opcode % 8 == 6 && opcode != 0x36 {
        Some(bit_form(opcode))
    } else {
        None
    }
}

/// The form of an opcode after EDh, or None where it isn't listed: a row for each, so that the `match` becomes one jump or
/// a table.
#[inline(always)]
#[tactic(auto, unfolding(crate::specs::PageOpcodes::extended_form_of, crate::specs::PageOpcodes::second_quarter, crate::specs::PageOpcodes::third_quarter, crate::specs::PageOpcodes::transfer_of, crate::specs::Fields::pair_of, crate::specs::Fields::operand_of))]
pub fn extended_form(opcode: u8) -> Option<ExtendedForm>
    ensures { result ≡ extended_form_of opcode }
{
    match opcode {
        0x40 => Some(ExtendedForm::Input(Operand::B)),
        0x41 => Some(ExtendedForm::Output(Operand::B)),
        0x42 => Some(ExtendedForm::SubtractPair(Pair::BC)),
        0x43 => Some(ExtendedForm::StorePair(Pair::BC)),
        0x44 => Some(ExtendedForm::Negate),
        0x45 => Some(ExtendedForm::ReturnNonmaskable),
        0x46 => Some(ExtendedForm::Mode(InterruptMode(0))),
        0x47 => Some(ExtendedForm::StoreI),
        0x48 => Some(ExtendedForm::Input(Operand::C)),
        0x49 => Some(ExtendedForm::Output(Operand::C)),
        0x4a => Some(ExtendedForm::AddPair(Pair::BC)),
        0x4b => Some(ExtendedForm::LoadPair(Pair::BC)),
        0x4d => Some(ExtendedForm::ReturnInterrupt),
        0x4f => Some(ExtendedForm::StoreR),
        0x50 => Some(ExtendedForm::Input(Operand::D)),
        0x51 => Some(ExtendedForm::Output(Operand::D)),
        0x52 => Some(ExtendedForm::SubtractPair(Pair::DE)),
        0x53 => Some(ExtendedForm::StorePair(Pair::DE)),
        0x56 => Some(ExtendedForm::Mode(InterruptMode(1))),
        0x57 => Some(ExtendedForm::LoadI),
        0x58 => Some(ExtendedForm::Input(Operand::E)),
        0x59 => Some(ExtendedForm::Output(Operand::E)),
        0x5a => Some(ExtendedForm::AddPair(Pair::DE)),
        0x5b => Some(ExtendedForm::LoadPair(Pair::DE)),
        0x5e => Some(ExtendedForm::Mode(InterruptMode(2))),
        0x5f => Some(ExtendedForm::LoadR),
        0x60 => Some(ExtendedForm::Input(Operand::H)),
        0x61 => Some(ExtendedForm::Output(Operand::H)),
        0x62 => Some(ExtendedForm::SubtractPair(Pair::HL)),
        0x63 => Some(ExtendedForm::StorePair(Pair::HL)),
        0x67 => Some(ExtendedForm::RotateRight),
        0x68 => Some(ExtendedForm::Input(Operand::L)),
        0x69 => Some(ExtendedForm::Output(Operand::L)),
        0x6a => Some(ExtendedForm::AddPair(Pair::HL)),
        0x6b => Some(ExtendedForm::LoadPair(Pair::HL)),
        0x6f => Some(ExtendedForm::RotateLeft),
        0x72 => Some(ExtendedForm::SubtractPair(Pair::SP)),
        0x73 => Some(ExtendedForm::StorePair(Pair::SP)),
        0x78 => Some(ExtendedForm::Input(Operand::A)),
        0x79 => Some(ExtendedForm::Output(Operand::A)),
        0x7a => Some(ExtendedForm::AddPair(Pair::SP)),
        0x7b => Some(ExtendedForm::LoadPair(Pair::SP)),
        0xa0 => Some(ExtendedForm::Block(Transfer::Load, Direction::Up, false)),
        0xa1 => Some(ExtendedForm::Block(Transfer::Compare, Direction::Up, false)),
        0xa2 => Some(ExtendedForm::Block(Transfer::Input, Direction::Up, false)),
        0xa3 => Some(ExtendedForm::Block(Transfer::Output, Direction::Up, false)),
        0xa8 => Some(ExtendedForm::Block(Transfer::Load, Direction::Down, false)),
        0xa9 => Some(ExtendedForm::Block(Transfer::Compare, Direction::Down, false)),
        0xaa => Some(ExtendedForm::Block(Transfer::Input, Direction::Down, false)),
        0xab => Some(ExtendedForm::Block(Transfer::Output, Direction::Down, false)),
        0xb0 => Some(ExtendedForm::Block(Transfer::Load, Direction::Up, true)),
        0xb1 => Some(ExtendedForm::Block(Transfer::Compare, Direction::Up, true)),
        0xb2 => Some(ExtendedForm::Block(Transfer::Input, Direction::Up, true)),
        0xb3 => Some(ExtendedForm::Block(Transfer::Output, Direction::Up, true)),
        0xb8 => Some(ExtendedForm::Block(Transfer::Load, Direction::Down, true)),
        0xb9 => Some(ExtendedForm::Block(Transfer::Compare, Direction::Down, true)),
        0xba => Some(ExtendedForm::Block(Transfer::Input, Direction::Down, true)),
        0xbb => Some(ExtendedForm::Block(Transfer::Output, Direction::Down, true)),
        _ => None,
    }
}

/// Whether an operand is another one where IX or IY stands for HL: H, L and (HL).
#[inline(always)]
fn is_indexed(operand: Operand) -> bool
    ensures { result ≡ is_index_operand operand }
{
    match operand {
        Operand::H | Operand::L | Operand::Memory => true,
        _ => false,
    }
}

/// What a form becomes where IX or IY stands for HL.
#[inline(always)]
fn index_form_from(form: Form) -> Option<IndexForm>
    ensures { result ≡ indexed form }
{
    match form {
        Form::AddPair(pair) => Some(IndexForm::AddPair(pair)),
        Form::LoadPair(Pair::HL) => Some(IndexForm::LoadNumber),
        Form::StoreHl => Some(IndexForm::Store),
        Form::LoadHl => Some(IndexForm::Load),
        Form::IncrementPair(Pair::HL) => Some(IndexForm::Increment),
        Form::DecrementPair(Pair::HL) => Some(IndexForm::Decrement),
        Form::Increment(at) if is_indexed(at) => Some(IndexForm::IncrementByte(at)),
        Form::Decrement(at) if is_indexed(at) => Some(IndexForm::DecrementByte(at)),
        Form::LoadNumber(to) if is_indexed(to) => Some(IndexForm::LoadByte(to)),
        Form::Load(to, Operand::Memory) => Some(IndexForm::LoadFrom(to)),
        Form::Load(Operand::Memory, from) => Some(IndexForm::StoreTo(from)),
        Form::Load(to, from) if is_indexed(to) || is_indexed(from) => {
            Some(IndexForm::LoadHalf(to, from))
        }
        Form::Calculate(math, from) if is_indexed(from) => {
            Some(IndexForm::Calculate(math, from))
        }
        Form::Pop(StackPair::HL) => Some(IndexForm::Pop),
        Form::ExchangeStack => Some(IndexForm::ExchangeStack),
        Form::Push(StackPair::HL) => Some(IndexForm::Push),
        Form::JumpHl => Some(IndexForm::Jump),
        Form::LoadSpHl => Some(IndexForm::LoadSp),
        _ => None,
    }
}

/// The form of an opcode after DDh or FDh, or None where it isn't listed.
#[inline(always)]
#[tactic(auto, unfolding(crate::specs::PageOpcodes::index_form_of))]
pub fn index_form(opcode: u8) -> Option<IndexForm>
    ensures { result ≡ index_form_of opcode }
{
    match main_form(opcode) {
        None => None,
        Some(form) => index_form_from(form),
    }
}
