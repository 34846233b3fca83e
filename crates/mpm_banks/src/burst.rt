ghost use Rattle.std.specs.Prelude.{ℕ};
ghost use Rattle.z80_regs.specs.declared.regs.Regs.{Regs};
ghost use Rattle.mpm_base.specs.declared.devices.Devices.{Devices};
ghost use Rattle.mpm_banks.specs.Memory.{Memory};
ghost use Rattle.mpm_banks.specs.Allocations.{FitsBelowCommon};
ghost use Rattle.mpm_banks.specs.Sides.{alone};

use mpm_base::{Devices, SegmentSpec};
use z80_regs::Regs;

/// What a process does before others come: it reaches its segment, as if that were the only one, and common memory.
pub trait Burst {
    /// What so many steps leave of registers, memory and devices.
    ghost ran: { Self → Regs → Memory → Devices → ℕ → Regs → Memory → Devices → Type 0 };

    /// Does it, and answers how many steps were done.
    fn run(
        &self,
        spec: SegmentSpec,
        regs: &mut Regs,
        segment: &mut [u8],
        common: &mut [u8],
        devices: &mut Devices,
    ) -> u64
        requires { FitsBelowCommon spec }
        ensures { ran self.now regs.old (alone spec segment.old common.old) devices.old result regs.new (alone spec segment.new common.new) devices.new };
}
