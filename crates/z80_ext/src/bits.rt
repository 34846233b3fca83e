ghost use Rattle.std.specs.Prelude.{◌≡◌};
ghost use Rattle.z80_alu.specs.Flags.{Computes};
ghost use Rattle.z80_exec.specs.Leaving.{Leaves};
ghost use Rattle.z80_decode.specs.Decoding.{bit_instr_of};
ghost use Rattle.z80_decode.specs.declared.page_forms.BitChange.TheVariants as changes;
ghost use Rattle.z80_decode.specs.declared.page_forms.BitForm.TheVariants.{Change};
ghost use Rattle.z80_exec.specs.Operands.{operand_byte};
ghost use Rattle.z80_ext.specs.Bits.{kind_of, changed_byte, changed_flags, bit_tested, operand_bits, memory_bits, bits_outcome};

use z80_alu::Rotate;
use z80_decode::{BitChange, BitForm, Operand, Shift, bit_form, operand_at};
use z80_exec::hl;
use z80_regs::{Bus, Regs};

/// Which rotation or shift of a byte a form names.
#[inline(always)]
fn kind(shift: Shift) -> Rotate
    ensures { result ≡ kind_of shift }
{
    match shift {
        Shift::LeftCircular => Rotate::Rlc,
        Shift::RightCircular => Rotate::Rrc,
        Shift::Left => Rotate::Rl,
        Shift::Right => Rotate::Rr,
        Shift::LeftArithmetic => Rotate::Sla,
        Shift::RightArithmetic => Rotate::Sra,
        Shift::LeftLogical => Rotate::Sll,
        Shift::RightLogical => Rotate::Srl,
    }
}

/// What a rotation, a shift, RES or SET makes of a byte, and the new F.
#[inline(always)]
fn changed(change: BitChange, byte: u8, f: u8) -> (u8, u8)
    ensures { Computes (changed_byte change byte f) (changed_flags change byte f) result }
{
    match change {
        BitChange::Rotate(shift) => z80_alu::rotate(kind(shift), byte, f),
        BitChange::Reset(weight) => (byte & (255 - weight), f),
        BitChange::Set(weight) => (byte | weight, f),
    }
}

/// BIT of a byte.
#[inline(always)]
fn test_bit(weight: u8, byte: u8, regs: &mut Regs)
    ensures { regs.new ≡ bit_tested weight byte regs.old }
{
    regs.f = z80_alu::bit_flags(byte & weight == 0, regs.f);
}

/// A change of an operand. Each row reads and sets its operand by itself, so that both are known by one jump.
#[inline(always)]
#[tactic(auto, unfolding(z80_regs::specs::Outcome::LeavesBus))]
fn change_operand<B: Bus>(change: BitChange, at: Operand, regs: &mut Regs, bus: &mut B)
    ensures { Leaves B.Bus (operand_bits (Change change) at (operand_byte at regs.old (B.byte bus.old)) regs.old) regs.new bus.old bus.new }
{
    match at {
        Operand::B => (regs.b, regs.f) = changed(change, regs.b, regs.f),
        Operand::C => (regs.c, regs.f) = changed(change, regs.c, regs.f),
        Operand::D => (regs.d, regs.f) = changed(change, regs.d, regs.f),
        Operand::E => (regs.e, regs.f) = changed(change, regs.e, regs.f),
        Operand::H => (regs.h, regs.f) = changed(change, regs.h, regs.f),
        Operand::L => (regs.l, regs.f) = changed(change, regs.l, regs.f),
        Operand::Memory => change_memory(change, hl(regs), regs, bus),
        Operand::A => (regs.a, regs.f) = changed(change, regs.a, regs.f),
    }
}

/// A change of the byte at an address.
#[inline(always)]
#[tactic(auto, unfolding(z80_regs::specs::Outcome::LeavesBus))]
fn change_memory<B: Bus>(change: BitChange, address: u16, regs: &mut Regs, bus: &mut B)
    ensures { Leaves B.Bus (memory_bits (Change change) address (B.byte bus.old address) regs.old) regs.new bus.old bus.new }
{
    let (value, flags) = changed(change, bus.read(address), regs.f);
    bus.write(address, value);
    regs.f = flags;
}

/// A rotation or a shift of an operand: a row for each, so that it is known where a step has jumped by its opcode.
#[inline(always)]
#[tactic(auto, unfolding(z80_regs::specs::Outcome::LeavesBus))]
fn rotate_operand<B: Bus>(shift: Shift, at: Operand, regs: &mut Regs, bus: &mut B)
    ensures { Leaves B.Bus (operand_bits (Change (changes.Rotate shift)) at (operand_byte at regs.old (B.byte bus.old)) regs.old) regs.new bus.old bus.new }
{
    match shift {
        Shift::LeftCircular => change_operand(
            BitChange::Rotate(Shift::LeftCircular),
            at,
            regs,
            bus,
        ),
        Shift::RightCircular => change_operand(
            BitChange::Rotate(Shift::RightCircular),
            at,
            regs,
            bus,
        ),
        Shift::Left => change_operand(BitChange::Rotate(Shift::Left), at, regs, bus),
        Shift::Right => change_operand(BitChange::Rotate(Shift::Right), at, regs, bus),
        Shift::LeftArithmetic => change_operand(
            BitChange::Rotate(Shift::LeftArithmetic),
            at,
            regs,
            bus,
        ),
        Shift::RightArithmetic => change_operand(
            BitChange::Rotate(Shift::RightArithmetic),
            at,
            regs,
            bus,
        ),
        Shift::LeftLogical => change_operand(BitChange::Rotate(Shift::LeftLogical), at, regs, bus),
        Shift::RightLogical => change_operand(
            BitChange::Rotate(Shift::RightLogical),
            at,
            regs,
            bus,
        ),
    }
}

/// A rotation or a shift of the byte at an address.
#[inline(always)]
#[tactic(auto, unfolding(z80_regs::specs::Outcome::LeavesBus))]
fn rotate_memory<B: Bus>(shift: Shift, address: u16, regs: &mut Regs, bus: &mut B)
    ensures { Leaves B.Bus (memory_bits (Change (changes.Rotate shift)) address (B.byte bus.old address) regs.old) regs.new bus.old bus.new }
{
    match shift {
        Shift::LeftCircular => change_memory(
            BitChange::Rotate(Shift::LeftCircular),
            address,
            regs,
            bus,
        ),
        Shift::RightCircular => change_memory(
            BitChange::Rotate(Shift::RightCircular),
            address,
            regs,
            bus,
        ),
        Shift::Left => change_memory(BitChange::Rotate(Shift::Left), address, regs, bus),
        Shift::Right => change_memory(BitChange::Rotate(Shift::Right), address, regs, bus),
        Shift::LeftArithmetic => change_memory(
            BitChange::Rotate(Shift::LeftArithmetic),
            address,
            regs,
            bus,
        ),
        Shift::RightArithmetic => change_memory(
            BitChange::Rotate(Shift::RightArithmetic),
            address,
            regs,
            bus,
        ),
        Shift::LeftLogical => change_memory(
            BitChange::Rotate(Shift::LeftLogical),
            address,
            regs,
            bus,
        ),
        Shift::RightLogical => change_memory(
            BitChange::Rotate(Shift::RightLogical),
            address,
            regs,
            bus,
        ),
    }
}

/// BIT of an operand, likewise.
#[inline(always)]
fn test_operand<B: Bus>(weight: u8, at: Operand, regs: &mut Regs, bus: &B)
    ensures { regs.new ≡ bit_tested weight (operand_byte at regs.old (B.byte bus.now)) regs.old }
{
    match at {
        Operand::B => test_bit(weight, regs.b, regs),
        Operand::C => test_bit(weight, regs.c, regs),
        Operand::D => test_bit(weight, regs.d, regs),
        Operand::E => test_bit(weight, regs.e, regs),
        Operand::H => test_bit(weight, regs.h, regs),
        Operand::L => test_bit(weight, regs.l, regs),
        Operand::Memory => test_bit(weight, bus.read(hl(regs)), regs),
        Operand::A => test_bit(weight, regs.a, regs),
    }
}

/// Acts on an operand.
#[inline(always)]
#[tactic(auto, unfolding(z80_regs::specs::Outcome::LeavesBus))]
fn act_on_operand<B: Bus>(form: BitForm, at: Operand, regs: &mut Regs, bus: &mut B)
    ensures { Leaves B.Bus (operand_bits form at (operand_byte at regs.old (B.byte bus.old)) regs.old) regs.new bus.old bus.new }
{
    match (at, form) {
        (at, BitForm::Test(weight)) => test_operand(weight, at, regs, bus),
        (at, BitForm::Change(BitChange::Rotate(shift))) => rotate_operand(shift, at, regs, bus),
        (at, BitForm::Change(change)) => change_operand(change, at, regs, bus),
    }
}

/// Acts on the byte at an address.
#[inline(always)]
#[tactic(auto, unfolding(z80_regs::specs::Outcome::LeavesBus))]
pub fn act_on_memory<B: Bus>(form: BitForm, address: u16, regs: &mut Regs, bus: &mut B)
    ensures { Leaves B.Bus (memory_bits form address (B.byte bus.old address) regs.old) regs.new bus.old bus.new }
{
    match form {
        BitForm::Test(weight) => test_bit(weight, bus.read(address), regs),
        BitForm::Change(BitChange::Rotate(shift)) => rotate_memory(shift, address, regs, bus),
        BitForm::Change(change) => change_memory(change, address, regs, bus),
    }
}

/// What an instruction after CBh does, but for how it begins. (UM0080, "Rotate and Shift Group", "Bit Set, Reset, and Test
/// Group".)
#[inline(always)]
#[tactic(auto, unfolding(crate::specs::Bits::bits_outcome, z80_regs::specs::Outcome::LeavesBus))]
pub fn step_bits<B: Bus>(opcode: u8, regs: &mut Regs, bus: &mut B)
    ensures { Leaves B.Bus (bits_outcome (bit_instr_of opcode) regs.old (B.byte bus.old)) regs.new bus.old bus.new }
{
    regs.pc = regs.pc.wrapping_add(2);
    act_on_operand(bit_form(opcode), operand_at(opcode % 8), regs, bus);
}
