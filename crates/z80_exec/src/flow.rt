ghost use Rattle.std.specs.Prelude.{◌≡◌};
ghost use Rattle.z80_exec.specs.Leaving.{Leaves};
ghost use Rattle.z80_exec.specs.Flow.{relative, jumped_if, decrement_jumped, called, returned, returned_if};

use crate::loads::push;
use crate::operands::word_at;
use z80_regs::{Bus, Regs};

/// The address that a relative jump goes to: a displacement of 80h or more is negative, 256 less. Raised by 128 and lowered
/// again it needs no test.
#[inline(always)]
pub fn relative_to(address: u16, displacement: u8) -> u16
    ensures { result ≡ relative address displacement }
{
    address
        .wrapping_add(u16::from(displacement.wrapping_add(128)))
        .wrapping_sub(128)
}

/// A jump where a condition holds.
#[inline(always)]
pub fn jump_if(is_met: bool, target: u16, regs: &mut Regs)
    ensures { regs.new ≡ jumped_if is_met target regs.old }
{
    if is_met {
        regs.pc = target;
    }
}

/// DJNZ e.
#[inline(always)]
pub fn decrement_jump(displacement: u8, regs: &mut Regs)
    ensures { regs.new ≡ decrement_jumped displacement regs.old }
{
    regs.b = regs.b.wrapping_sub(1);
    jump_if(regs.b != 0, relative_to(regs.pc, displacement), regs);
}

/// A call: PC is pushed, and is then an address.
#[inline(always)]
pub fn call<B: Bus>(target: u16, regs: &mut Regs, bus: &mut B)
    ensures { Leaves B.Bus (called target regs.old) regs.new bus.old bus.new }
{
    push(regs.pc, regs, bus);
    regs.pc = target;
}

/// RST p. Each row calls by itself, so that nothing is set for those that join before a step jumps by its opcode.
#[inline(always)]
pub fn restart<B: Bus>(address: u8, regs: &mut Regs, bus: &mut B)
    ensures { Leaves B.Bus (called address regs.old) regs.new bus.old bus.new }
{
    match address {
        0x00 => call(0x00, regs, bus),
        0x08 => call(0x08, regs, bus),
        0x10 => call(0x10, regs, bus),
        0x18 => call(0x18, regs, bus),
        0x20 => call(0x20, regs, bus),
        0x28 => call(0x28, regs, bus),
        0x30 => call(0x30, regs, bus),
        _ => call(u16::from(address), regs, bus),
    }
}

/// A return: PC is popped.
#[inline(always)]
pub fn return_to_caller<B: Bus>(regs: &mut Regs, bus: &B)
    ensures { regs.new ≡ returned regs.old (B.byte bus.now) }
{
    regs.pc = word_at(bus, regs.sp);
    regs.sp = regs.sp.wrapping_add(2);
}

/// A return where a condition holds.
#[inline(always)]
pub fn return_if<B: Bus>(is_met: bool, regs: &mut Regs, bus: &B)
    ensures { regs.new ≡ returned_if is_met regs.old (B.byte bus.now) }
{
    if is_met {
        return_to_caller(regs, bus);
    }
}
