ghost use Rattle.std.specs.Prelude.{◌≡◌, false};
ghost use Rattle.z80_regs.specs.Words.{onward};
ghost use Rattle.z80_exec.specs.Performing.{behind};
ghost use Rattle.z80_ext.specs.Instruction.{risen, begun, begun_times};

use z80_regs::{Bus, Regs};

/// What a step met.
#[derive(Clone, Copy, Debug, PartialEq, Eq)]
pub enum Stepped {
    /// The instruction at PC ran, or the processor stands in a HALT.
    Ran,
    /// No listed instruction is at PC; nothing has changed.
    Illegal,
}

/// The refresh register goes one on: its low seven bits count, bit 7 stays.
#[inline(always)]
pub fn refresh(regs: &mut Regs)
    ensures { regs.new ≡ risen regs.old }
{
    regs.r = regs.r / 128 * 128 + (regs.r % 128 + 1) % 128;
}

/// An instruction begins: R rises, and the shadow of an EI before it ends.
#[inline(always)]
pub fn begin(regs: &mut Regs)
    ensures { regs.new ≡ begun regs.old }
{
    refresh(regs);
    regs.shadow = false;
}

/// An instruction of that many bytes begins, and PC goes past it.
#[inline(always)]
pub fn begin_behind(length: u8, regs: &mut Regs)
    ensures { regs.new ≡ behind length (begun regs.old) }
{
    begin(regs);
    regs.pc = regs.pc.wrapping_add(u16::from(length));
}

/// So many instructions begin: R rises once for each, and the shadow of an EI before the first ends.
#[inline(always)]
#[tactic(auto, using(crate::proofs::Begun::begun_none, crate::proofs::Begun::begun_some))]
pub fn begin_all(count: u64, regs: &mut Regs)
    ensures { regs.new ≡ begun_times count regs.old }
{
    if count != 0 {
        regs.r = regs.r / 128 * 128 + (regs.r % 128 + (count % 128) as u8) % 128;
        regs.shadow = false;
    }
}

/// The last byte of an instruction of four bytes at an address.
#[inline(always)]
pub fn fourth_byte<B: Bus>(address: u16, bus: &B) -> u8
    ensures { result ≡ B.byte bus.now (onward address 3) }
{
    bus.read(address.wrapping_add(3))
}
