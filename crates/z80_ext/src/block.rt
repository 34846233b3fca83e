ghost use Rattle.std.specs.Prelude.{◌≡◌, ◌==◌};
ghost use Rattle.z80_exec.specs.Leaving.{Leaves};
ghost use Rattle.z80_ext.specs.Block.{
  walked,
  again_if,
  left_over,
  has_more,
  hl_walked,
  counted,
  load_stepped,
  block_loaded,
  compare_stepped,
  block_compared,
  port_stepped,
  port_repeated,
  block_input,
  block_performed,
};

use z80_decode::{Direction, Pair, Transfer};
use z80_exec::{hl, pair_at, set_pair};
use z80_regs::{Bus, Regs};

/// An address one on or one back.
fn walk(direction: Direction, address: u16) -> u16
    ensures { result ≡ walked direction address }
{
    match direction {
        Direction::Up => address.wrapping_add(1),
        Direction::Down => address.wrapping_sub(1),
    }
}

/// Sets PC before the instruction again, where it is repeated.
fn repeat_if(is_repeated: bool, regs: &mut Regs)
    ensures { regs.new ≡ again_if is_repeated regs.old }
{
    if is_repeated {
        regs.pc = regs.pc.wrapping_sub(2);
    }
}

/// BC one less.
fn count_left(regs: &Regs) -> u16
    ensures { result ≡ left_over regs.now }
{
    pair_at(regs, Pair::BC).wrapping_sub(1)
}

/// Moves HL one on or one back.
fn walk_hl(direction: Direction, regs: &mut Regs)
    ensures { regs.new ≡ hl_walked direction regs.old }
{
    set_pair(regs, Pair::HL, walk(direction, hl(regs)));
}

/// Moves HL, and counts BC down.
fn count(direction: Direction, regs: &mut Regs)
    ensures { regs.new ≡ counted direction regs.old }
{
    let left = count_left(regs);
    walk_hl(direction, regs);
    set_pair(regs, Pair::BC, left);
}

/// Whether BC isn't 0 once it is one less.
fn is_more(regs: &Regs) -> bool
    ensures { result ≡ has_more regs.now }
{
    count_left(regs) != 0
}

/// The registers after a step of LD.
fn step_load(direction: Direction, regs: &mut Regs)
    ensures { regs.new ≡ load_stepped direction regs.old }
{
    let more = is_more(regs);
    let target = walk(direction, pair_at(regs, Pair::DE));
    set_pair(regs, Pair::DE, target);
    count(direction, regs);
    regs.f = z80_alu::block_load_flags(more, regs.f);
}

/// LDI, LDD, LDIR and LDDR.
#[inline(always)]
#[tactic(auto, unfolding(z80_regs::specs::Outcome::LeavesBus))]
pub fn load_block<B: Bus>(direction: Direction, repeats: bool, regs: &mut Regs, bus: &mut B)
    ensures { Leaves B.Bus (block_loaded direction repeats regs.old (B.byte bus.old)) regs.new bus.old bus.new }
{
    let is_repeated = repeats && is_more(regs);
    let byte = bus.read(hl(regs));
    bus.write(pair_at(regs, Pair::DE), byte);
    step_load(direction, regs);
    repeat_if(is_repeated, regs);
}

/// The registers after a step of CP with a byte.
fn step_compare(direction: Direction, byte: u8, regs: &mut Regs)
    ensures { regs.new ≡ compare_stepped direction byte regs.old }
{
    let more = is_more(regs);
    count(direction, regs);
    regs.f = z80_alu::block_compare_flags(regs.a, byte, more, regs.f);
}

/// CPI, CPD, CPIR and CPDR, with the byte at HL.
fn compare_block(direction: Direction, repeats: bool, byte: u8, regs: &mut Regs)
    ensures { regs.new ≡ block_compared direction repeats byte regs.old }
{
    let is_repeated = repeats && (is_more(regs) && regs.a != byte);
    step_compare(direction, byte, regs);
    repeat_if(is_repeated, regs);
}

/// The registers after a step of IN or OUT.
fn step_port(direction: Direction, regs: &mut Regs)
    ensures { regs.new ≡ port_stepped direction regs.old }
{
    walk_hl(direction, regs);
    regs.b = regs.b.wrapping_sub(1);
    regs.f = z80_alu::block_port_flags(regs.b == 0, regs.f);
}

/// The registers after a step of IN or OUT that is repeated while B isn't 0, or isn't repeated.
fn repeat_port(direction: Direction, repeats: bool, regs: &mut Regs)
    ensures { regs.new ≡ port_repeated direction repeats regs.old }
{
    step_port(direction, regs);
    repeat_if(repeats && regs.b != 0, regs);
}

/// INI, IND, INIR and INDR.
#[tactic(auto, unfolding(z80_regs::specs::Outcome::LeavesBus))]
fn input_block<B: Bus>(direction: Direction, repeats: bool, regs: &mut Regs, bus: &mut B)
    ensures { Leaves B.Bus (block_input direction repeats regs.old (B.port_byte bus.old)) regs.new bus.old bus.new }
{
    let value = bus.input(regs.c);
    bus.write(hl(regs), value);
    repeat_port(direction, repeats, regs);
}

/// One step of a block instruction, which PC is past.
#[tactic(auto, unfolding(z80_regs::specs::Outcome::LeavesBus))]
pub fn transfer<B: Bus>(
    kind: Transfer,
    direction: Direction,
    repeats: bool,
    regs: &mut Regs,
    bus: &mut B,
)
    ensures { Leaves B.Bus (block_performed kind direction repeats regs.old (B.byte bus.old) (B.port_byte bus.old)) regs.new bus.old bus.new }
{
    match kind {
        Transfer::Load => load_block(direction, repeats, regs, bus),
        Transfer::Compare => compare_block(direction, repeats, bus.read(hl(regs)), regs),
        Transfer::Input => input_block(direction, repeats, regs, bus),
        Transfer::Output => {
            let value = bus.read(hl(regs));
            bus.output(regs.c, value);
            repeat_port(direction, repeats, regs);
        }
    }
}
