ghost use Rattle.std.specs.Prelude.{◌≡◌, ℕ, ◌<◌, option_map};
ghost use Rattle.z80_ext.specs.Instruction.{IsRareAt, IsLoadUpAt};
ghost use Rattle.z80_ext.specs.Steps.{IsFetched};
ghost use Rattle.mpm_banks.specs.Allocations.{FitsBelowCommon};
ghost use Rattle.mpm_banks.specs.Memory.{byte_at};
ghost use Rattle.mpm_banks.specs.Sides.{alone};
ghost use Rattle.mpm_gate.specs.Gates.{IsHome};
ghost use Rattle.mpm_processor.specs.Moving.{Bursts, Executes, ExecutesUnbegun, MayExecute, IsPaused, view_of};
ghost use Rattle.mpm_processor.specs.Executing.{ReadsBelowGates, FetchesBelowGates, FetchesUnlessGate, TellsLoadUp, ExecutesListed, ExecutesIfListed, MayExecuteAt, MovesAtMost, MovesUnlessStopped, MayExecutePlain, MayPauseInHalt};

use mpm_banks::{Banks, Burst, SliceBus, last_page};
use mpm_base::{Devices, Seg, SegmentSpec};
use mpm_gate::is_gate;
use z80_ext::{Fetched, Stepped, begin_all, step_load_up, step_other, step_unbegun};
use z80_regs::{Bus, Regs};

/// Instructions of a process, up to a gate or an unlisted opcode.
#[derive(Clone, Copy)]
pub struct Instructions {
    /// Whether the process is in a resident procedure, so that the gate that ends one is there.
    pub inside: bool,
    /// At most so many are done.
    pub most: u64,
}

/// The opcode at an address of a segment below its last page, in which the gates are. Most instructions stand there, so that
/// one comparison tells that the byte is there and that no gate is.
#[inline(always)]
#[tactic(auto, unfolding(mpm_banks::specs::Memory::place_of, mpm_banks::specs::Memory::byte_at))]
fn opcode_below_gates(spec: SegmentSpec, address: u16, segment: &[u8]) -> Option<u8>
    requires { FitsBelowCommon spec }
    ensures { ReadsBelowGates spec address segment.now result }
{
    let first = 256 * usize::from(spec.base);
    let size = (256 * usize::from(spec.pages - 1)).min(segment.len());
    let index = usize::from(address).wrapping_sub(first);
    if index < size {
        return Some(segment[index]);
    }
    None
}

/// The opcode at an address and the two bytes after it, of a segment below its last page.
#[inline(always)]
#[tactic(auto, unfolding(mpm_banks::specs::Memory::place_of, mpm_banks::specs::Memory::byte_at))]
fn fetch_below_gates(spec: SegmentSpec, address: u16, segment: &[u8]) -> Option<Fetched>
    requires { FitsBelowCommon spec }
    ensures { FetchesBelowGates spec address segment.now result }
{
    let first = 256 * usize::from(spec.base);
    let size = (256 * usize::from(spec.pages - 1)).min(segment.len().saturating_sub(2));
    let index = usize::from(address).wrapping_sub(first);
    if index < size {
        return Some(Fetched {
            opcode: segment[index],
            first: segment[index + 1],
            second: segment[index + 2],
        });
    }
    None
}

/// The opcode at an address and the two bytes after it, None where a gate is for a process in a resident procedure (`inside`) or
/// in none.
#[inline(always)]
#[tactic(auto, using(mpm_gate::proofs::GateLaws::none_below, mpm_base::proofs::Options::none_there))]
fn fetch(
    inside: bool,
    spec: SegmentSpec,
    address: u16,
    segment: &mut [u8],
    common: &mut [u8],
    devices: &mut Devices,
) -> Option<Fetched>
    requires { FitsBelowCommon spec }
    ensures { FetchesUnlessGate inside spec address segment.old segment.new common.old common.new devices.old devices.new result }
{
    if let Some(fetched) = fetch_below_gates(spec, address, segment) {
        return Some(fetched);
    }
    if is_gate(inside, last_page(spec), address) {
        return None;
    }
    let bus = SliceBus {
        spec,
        segment,
        common,
        devices,
    };
    Some(Fetched {
        opcode: bus.read(address),
        first: bus.read(address.wrapping_add(1)),
        second: bus.read(address.wrapping_add(2)),
    })
}

/// Acts as the instruction at PC does, whose opcode and the two bytes after it are fetched, but for how it begins. Where it
/// isn't plain its opcode is answered, and nothing has changed.
#[inline(always)]
fn execute_unbegun(
    fetched: Fetched,
    spec: SegmentSpec,
    regs: &mut Regs,
    segment: &mut [u8],
    common: &mut [u8],
    devices: &mut Devices,
) -> Option<u8>
    requires { IsFetched (byte_at (alone spec segment.old common.old) 0) regs.old.pc fetched }
    ensures { ExecutesUnbegun (view_of spec regs.old segment.old common.old devices.old)
        (view_of spec regs.new segment.new common.new devices.new) result }
{
    let mut bus = SliceBus {
        spec,
        segment,
        common,
        devices,
    };
    step_unbegun(fetched, regs, &mut bus)
}

/// One instruction of a process whose processor stands in a HALT, or is at one that isn't plain.
#[inline(always)]
fn execute_other(
    opcode: u8,
    spec: SegmentSpec,
    regs: &mut Regs,
    segment: &mut [u8],
    common: &mut [u8],
    devices: &mut Devices,
) -> Stepped
    requires { IsRareAt opcode regs.old (byte_at (alone spec segment.old common.old) 0) }
    ensures { Executes (view_of spec regs.old segment.old common.old devices.old)
        (view_of spec regs.new segment.new common.new devices.new) result }
{
    let mut bus = SliceBus {
        spec,
        segment,
        common,
        devices,
    };
    step_other(opcode, regs, &mut bus)
}

/// Whether LDIR is at PC, with both its bytes below the last page of the segment, where no gate is.
#[inline(always)]
fn is_load_up(spec: SegmentSpec, regs: &Regs, segment: &[u8]) -> bool
    requires { FitsBelowCommon spec }
    ensures { TellsLoadUp spec regs.now segment.now result }
{
    if regs.halted {
        return false;
    }
    match (
        opcode_below_gates(spec, regs.pc, segment),
        opcode_below_gates(spec, regs.pc.wrapping_add(1), segment),
    ) {
        (Some(prefix), Some(opcode)) => prefix == 0xED && opcode == 0xB0,
        _ => false,
    }
}

/// One transfer of LDIR, which is at PC.
#[inline(always)]
fn execute_load(
    spec: SegmentSpec,
    regs: &mut Regs,
    segment: &mut [u8],
    common: &mut [u8],
    devices: &mut Devices,
)
    requires { IsLoadUpAt regs.old (byte_at (alone spec segment.old common.old) 0) }
    ensures { ExecutesListed (view_of spec regs.old segment.old common.old devices.old)
        (view_of spec regs.new segment.new common.new devices.new) }
{
    let mut bus = SliceBus {
        spec,
        segment,
        common,
        devices,
    };
    step_load_up(regs, &mut bus);
}

/// Transfers of LDIR, as long as it is at PC, at most so many. It is code of its own, so that its bus stays in registers.
#[inline(never)]
fn execute_loads(
    most: u64,
    spec: SegmentSpec,
    regs: &mut Regs,
    segment: &mut [u8],
    common: &mut [u8],
    devices: &mut Devices,
) -> u64
    requires { FitsBelowCommon spec }
    ensures { MovesAtMost most result (view_of spec regs.old segment.old common.old devices.old)
        (view_of spec regs.new segment.new common.new devices.new) }
{
    for done in 0..most {
        if !is_load_up(spec, regs, segment) {
            return done;
        }
        execute_load(spec, regs, segment, common, devices);
    }
    most
}

/// One instruction of a process whose processor stands in a HALT, or is at one that isn't plain, and what LDIR at PC does
/// more, at most so many in all. None is done exactly where the opcode isn't listed. It is code of its own, over a bus in memory.
#[inline(never)]
fn execute_others(
    opcode: u8,
    burst: Instructions,
    spec: SegmentSpec,
    regs: &mut Regs,
    segment: &mut [u8],
    common: &mut [u8],
    devices: &mut Devices,
) -> u64
    requires { MayExecute opcode burst spec (view_of spec regs.old segment.old common.old devices.old) }
    ensures { MovesUnlessStopped burst.inside burst.most result (view_of spec regs.old segment.old common.old devices.old)
        (view_of spec regs.new segment.new common.new devices.new) }
{
    let pc = regs.pc;
    match execute_other(opcode, spec, regs, segment, common, devices) {
        Stepped::Ran => {}
        Stepped::Illegal => return 0,
    }
    // What is at PC once more may be LDIR.
    if regs.pc != pc {
        return 1;
    }
    1 + execute_loads(burst.most - 1, spec, regs, segment, common, devices)
}

/// What plain instructions in a row came to.
#[derive(Clone, Copy)]
struct Paused {
    done: u64,
    /// The opcode at PC, where the next instruction isn't plain; None where so many were done, or a gate is there.
    opcode: Option<u8>,
}

/// The opcode of what was fetched, if anything was.
#[inline(always)]
fn opcode_of(fetched: Option<Fetched>) -> Option<u8>
    ensures { result ≡ option_map (λ fetched. fetched.opcode) fetched }
{
    match fetched {
        None => None,
        Some(fetched) => Some(fetched.opcode),
    }
}

/// A processor that stands in a HALT does no plain instruction: what is at PC is answered. Few stand in one, so that it is code
/// of its own.
#[cold]
#[inline(never)]
fn pause_in_halt(
    inside: bool,
    spec: SegmentSpec,
    regs: &Regs,
    segment: &mut [u8],
    common: &mut [u8],
    devices: &mut Devices,
) -> Paused
    requires { MayPauseInHalt spec regs.now }
    ensures { (most : ℕ) → 0 < most → IsPaused inside most (view_of spec regs.now segment.old common.old devices.old)
        (view_of spec regs.now segment.new common.new devices.new) result }
{
    let here = fetch(inside, spec, regs.pc, segment, common, devices);
    Paused {
        done: 0,
        opcode: opcode_of(here),
    }
}

/// Plain instructions in a row, at most so many: R and the shadow of an EI are changed once for all of them. All of them are done
/// here, in code of its own, so that what each one needs stays at hand.
#[inline(never)]
fn execute_plain(
    inside: bool,
    most: u64,
    spec: SegmentSpec,
    regs: &mut Regs,
    segment: &mut [u8],
    common: &mut [u8],
    devices: &mut Devices,
) -> Paused
    requires { MayExecutePlain most spec }
    ensures { IsPaused inside most (view_of spec regs.old segment.old common.old devices.old)
        (view_of spec regs.new segment.new common.new devices.new) result }
{
    if regs.halted {
        return pause_in_halt(inside, spec, regs, segment, common, devices);
    }
    for done in 0..most {
        let fetched = match fetch(inside, spec, regs.pc, segment, common, devices) {
            None => {
                begin_all(done, regs);
                return Paused { done, opcode: None };
            }
            Some(fetched) => fetched,
        };
        match execute_unbegun(fetched, spec, regs, segment, common, devices) {
            None => {}
            Some(rare) => {
                begin_all(done, regs);
                return Paused {
                    done,
                    opcode: Some(rare),
                };
            }
        }
    }
    begin_all(most, regs);
    Paused {
        done: most,
        opcode: None,
    }
}

/// Instructions from one that isn't plain on, at most so many, up to a gate or an unlisted opcode. Most bursts do plain ones
/// alone, so that it is code of its own.
#[inline(never)]
fn execute_from(
    opcode: u8,
    burst: Instructions,
    spec: SegmentSpec,
    regs: &mut Regs,
    segment: &mut [u8],
    common: &mut [u8],
    devices: &mut Devices,
) -> u64
    requires { MayExecute opcode burst spec (view_of spec regs.old segment.old common.old devices.old) }
    ensures { Bursts burst.inside burst.most 0 result (view_of spec regs.old segment.old common.old devices.old)
        (view_of spec regs.new segment.new common.new devices.new) }
{
    let Instructions { inside, most } = burst;
    let mut rare = opcode;
    let mut done = 0;
    loop {
        let left = Instructions {
            inside,
            most: most - done,
        };
        let others = execute_others(rare, left, spec, regs, segment, common, devices);
        done += others;
        if others == 0 || done == most {
            return done;
        }
        let left = most - done;
        let paused = execute_plain(inside, left, spec, regs, segment, common, devices);
        done += paused.done;
        rare = match paused.opcode {
            None => return done,
            Some(opcode) => opcode,
        };
    }
}

impl Burst for Instructions {
    ghost use Rattle.mpm_processor.specs.Moving.{BurstOf};

    ghost ran = { BurstOf };

    #[inline(always)]
    fn run(
        &self,
        spec: SegmentSpec,
        regs: &mut Regs,
        segment: &mut [u8],
        common: &mut [u8],
        devices: &mut Devices,
    ) -> u64 {
        let inside = self.inside;
        let most = self.most;
        if most == 0 {
            return 0;
        }
        let paused = execute_plain(inside, most, spec, regs, segment, common, devices);
        let done = paused.done;
        match paused.opcode {
            None => done,
            Some(opcode) => {
                let left = Instructions {
                    inside,
                    most: most - done,
                };
                done + execute_from(opcode, left, spec, regs, segment, common, devices)
            }
        }
    }
}

/// Instructions of a process of a segment, which is in a resident procedure (`inside`) or in none, at most so many, up to a
/// gate or an unlisted opcode. Answers how many were done.
fn run_instructions(
    inside: bool,
    regs: &mut Regs,
    banks: &mut Banks,
    seg: Seg,
    devices: &mut Devices,
    most: u64,
) -> u64
    requires { IsHome banks.old seg }
    ensures { Bursts inside most seg result (record { regs = regs.old; memory = banks.old; devices = devices.old })
        (record { regs = regs.new; memory = banks.new; devices = devices.new }) }
{
    banks.run(&Instructions { inside, most }, seg, regs, devices)
}

/// One instruction of a process of a segment that stands at no gate, with these registers. False comes exactly where no
/// listed one stands there, and then nothing changes.
pub fn execute(
    inside: bool,
    regs: &mut Regs,
    banks: &mut Banks,
    seg: Seg,
    devices: &mut Devices,
) -> bool
    requires { MayExecuteAt inside seg (record { regs = regs.old; memory = banks.old; devices = devices.old }) }
    ensures { ExecutesIfListed seg (record { regs = regs.old; memory = banks.old; devices = devices.old })
        (record { regs = regs.new; memory = banks.new; devices = devices.new }) result }
{
    run_instructions(inside, regs, banks, seg, devices, 1) == 1
}

#[cfg(test)]
mod tests;
