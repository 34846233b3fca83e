ghost use Rattle.mpm_banks.specs.Allocations.{FitsBelowCommon};
ghost use Rattle.mpm_processor.specs.Moving.{view_of};
ghost use Rattle.mpm_replay.specs.Replays.{FindsNext, input_at, held_at, reach};

use crate::ports::next_at;
use mpm_banks::{SliceBus, last_page};
use mpm_base::{Devices, SegmentSpec};
use mpm_gate::is_gate;
use z80_regs::Regs;

/// Why a replay ended.
#[derive(Clone, Copy, Debug, PartialEq, Eq)]
pub enum Why {
    /// So many instructions were done as were asked for.
    Steps,
    /// PC is at a gate.
    Gate,
    /// No listed instruction is at PC.
    Illegal,
    /// The instruction at PC reads a port.
    Input,
}

/// What a process does next.
#[derive(Clone, Copy)]
pub(crate) enum Next {
    /// Nothing: it stops.
    Stops(Why),
    /// A transfer of LDIR, which has code of its own.
    Loads,
    /// Another instruction, if one is listed.
    Steps,
}

/// What a process does next that is at no gate.
#[inline(always)]
fn next_off_gates(
    spec: SegmentSpec,
    regs: &Regs,
    segment: &mut [u8],
    common: &mut [u8],
    devices: &mut Devices,
) -> Next
    ensures { FindsNext input_at (view_of spec regs.now segment.old common.old devices.old) (reach segment.old common.old devices.old) (reach segment.new common.new devices.new) result }
{
    if regs.halted {
        return Next::Steps;
    }
    let bus = SliceBus {
        spec,
        segment,
        common,
        devices,
    };
    next_at(regs.pc, &bus)
}

/// What a process does next, before its instruction is decoded whole.
#[inline(always)]
#[tactic(auto, unfolding(crate::specs::Replays::held_at))]
pub(crate) fn find_next(
    inside: bool,
    spec: SegmentSpec,
    regs: &Regs,
    segment: &mut [u8],
    common: &mut [u8],
    devices: &mut Devices,
) -> Next
    requires { FitsBelowCommon spec }
    ensures { FindsNext (held_at inside) (view_of spec regs.now segment.old common.old devices.old) (reach segment.old common.old devices.old) (reach segment.new common.new devices.new) result }
{
    if is_gate(inside, last_page(spec), regs.pc) {
        return Next::Stops(Why::Gate);
    }
    next_off_gates(spec, regs, segment, common, devices)
}
