ghost use Rattle.z80_ext.specs.Instruction.{IsLoadUpAt};
ghost use Rattle.mpm_banks.specs.Allocations.{FitsBelowCommon};
ghost use Rattle.mpm_banks.specs.Memory.{byte_at};
ghost use Rattle.mpm_banks.specs.Sides.{alone};
ghost use Rattle.mpm_processor.specs.Moving.{view_of};
ghost use Rattle.mpm_replay.specs.Replays.{IsReplay, AdvancesView, ReplaysInstruction, portless};
ghost use Rattle.mpm_replay.specs.Agreeing.{AgreesWithAll};

use crate::stopping::{Next, Why, find_next};
use mpm_banks::SliceBus;
use mpm_base::{Devices, SegmentSpec};
use z80_ext::{Stepped, step, step_load_up};
use z80_regs::Regs;

/// How many instructions a replay did, and why it ended.
#[derive(Clone, Copy, Debug, PartialEq, Eq)]
pub struct Replayed {
    pub done: u64,
    pub why: Why,
}

/// One instruction. `Illegal` comes exactly where none is listed, and then nothing changes.
#[inline(always)]
fn execute(
    spec: SegmentSpec,
    regs: &mut Regs,
    segment: &mut [u8],
    common: &mut [u8],
    devices: &mut Devices,
) -> Stepped
    ensures { ReplaysInstruction (view_of spec regs.old segment.old common.old devices.old) (view_of spec regs.new segment.new common.new devices.new) result }
{
    let mut bus = SliceBus {
        spec,
        segment,
        common,
        devices,
    };
    step(regs, &mut bus)
}

/// One transfer of LDIR, which is at PC.
#[inline(always)]
fn execute_load(
    spec: SegmentSpec,
    regs: &mut Regs,
    segment: &mut [u8],
    common: &mut [u8],
    devices: &mut Devices,
)
    requires { IsLoadUpAt regs.old (byte_at (alone spec segment.old common.old) 0) }
    ensures { ReplaysInstruction (view_of spec regs.old segment.old common.old devices.old) (view_of spec regs.new segment.new common.new devices.new) Stepped.Ran }
{
    let mut bus = SliceBus {
        spec,
        segment,
        common,
        devices,
    };
    step_load_up(regs, &mut bus);
}

/// Does one instruction, or answers why none is done.
#[inline(always)]
fn advance(
    inside: bool,
    spec: SegmentSpec,
    regs: &mut Regs,
    segment: &mut [u8],
    common: &mut [u8],
    devices: &mut Devices,
) -> Option<Why>
    requires { FitsBelowCommon spec }
    ensures { AdvancesView inside (view_of spec regs.old segment.old common.old devices.old) (view_of spec regs.new segment.new common.new devices.new) result }
{
    match find_next(inside, spec, regs, segment, common, devices) {
        Next::Stops(why) => Some(why),
        Next::Loads => {
            execute_load(spec, regs, segment, common, devices);
            None
        }
        Next::Steps => match execute(spec, regs, segment, common, devices) {
            Stepped::Ran => None,
            Stepped::Illegal => Some(Why::Illegal),
        },
    }
}

/// Does instructions, at most so many, until one isn't done.
fn advance_on(
    inside: bool,
    spec: SegmentSpec,
    regs: &mut Regs,
    segment: &mut [u8],
    common: &mut [u8],
    most: u64,
) -> Replayed
    requires { FitsBelowCommon spec }
    ensures { IsReplay inside most (portless spec regs.old segment.old common.old) regs.new (alone spec segment.new common.new) result }
{
    let mut devices = Devices::new();
    for done in 0..most {
        match advance(inside, spec, regs, segment, common, &mut devices) {
            None => {}
            Some(why) => return Replayed { done, why },
        }
    }
    Replayed {
        done: most,
        why: Why::Steps,
    }
}

/// Does the instructions of a process that is in a resident procedure (`inside`) or in none, at most so many, in its segment and
/// common memory. It stops before a gate, an opcode that isn't listed, and an instruction that reads a port. Where the steps of
/// a machine are instructions of that process, none of which reads a port, it does them all, and leaves what they leave.
pub fn replay(
    inside: bool,
    spec: SegmentSpec,
    regs: &mut Regs,
    segment: &mut [u8],
    common: &mut [u8],
    most: u64,
) -> Replayed
    requires { FitsBelowCommon spec }
    ensures replayed { IsReplay inside most (portless spec regs.old segment.old common.old) regs.new (alone spec segment.new common.new) result }
    ensures agrees { AgreesWithAll inside most (portless spec regs.old segment.old common.old) regs.new (alone spec segment.new common.new) result }
{
    advance_on(inside, spec, regs, segment, common, most)
}

#[cfg(test)]
mod tests;
