ghost use Rattle.mpm_machine.specs.Moving.{MayRunBurst};
ghost use Rattle.mpm_machine.specs.Quietly.{GoesSilently, RunsBurst};
ghost use Rattle.mpm_machine.specs.PartCalls.{MayLookAhead, LooksAhead, MayRunAhead, RunsProcess, MayLookAtCall, FindsOwnCall, MayIdle, MayCallAlone, CallsAlone};

use crate::machine::Machine;
use mpm_base::{Pid, Seg};
use mpm_gate::gate_of_calls;
use mpm_port::{Drives, Sink};
use mpm_processor::Instructions;
use mpm_render::Render;
use mpm_script::GREATEST_STEP;
use mpm_system::{System, is_own};

impl Machine {
    ghost use Rattle.mpm_output.specs.Outside.{seen};
    ghost use Rattle.mpm_machine.specs.PartCalls.{MayRunOn, RunsQuietly};

    /// Steps at most so many, as long as each is an instruction of the process that runs, or its call that concerns it alone, or no
    /// process runs. Answers how many were done. Nothing is written, and no drive is called.
    #[inline(always)]
    pub(crate) fn run_on<D: Drives, S: Sink>(
        &mut self,
        most: u64,
        drives: &D,
        render: &Render,
        sink: &S,
    ) -> u64
        requires { MayRunOn D.disks most self.old drives.now }
        ensures { RunsQuietly D.disks drives.now (seen S.written S.faults render.now sink.now) most result self.old self.new }
    {
        let ahead = look_ahead(&self.system, render.is_tracing());
        let Some(here) = &ahead else {
            return idle(&mut self.system, most);
        };
        let mut done = 0;
        while done < most {
            done += run_burst(&mut self.system, here, most - done);
            if done == most || !makes_own_call(&self.system, here) {
                return done;
            }
            do_own_call(&mut self.system, here.p, here.seg);
            done += 1;
        }
        done
    }
}

/// What lies ahead: who runs in the steps to come, up to the last one in which nothing else happens, as long as they are its
/// instructions, and its calls that concern it alone.
#[derive(Drop)]
pub(crate) struct Ahead {
    /// The running process, the first of the ready list.
    pub p: Pid,
    /// Its segment.
    pub seg: Seg,
    /// Up to this step no interrupt is due, and the disk's steps only pass.
    pub last: u64,
    /// Where this is true, its call that concerns it alone is all of a step: no call is at the disk, and no record is asked for.
    pub alone: bool,
    /// The address of the segment's gate of calls.
    pub gate: u16,
}

/// What lies ahead, where a process of a segment runs, runs on after each instruction, and no end by an abort is put off; records
/// of calls are asked for or not (`traced`).
#[inline(always)]
fn look_ahead(system: &System, traced: bool) -> Option<Ahead>
    requires { MayLookAhead system.now }
    ensures { LooksAhead traced system.now result }
{
    if system.abort_deferred {
        return None;
    }
    let Some(p) = system.runner() else {
        return None;
    };
    let Some(seg) = system.kernel.segment(p) else {
        return None;
    };
    let last = system.last_quiet();
    let alone = system.is_alone(traced);
    let gate = gate_of_calls(&system.memory, seg);
    Some(Ahead {
        p,
        seg,
        last,
        alone,
        gate,
    })
}

/// A burst: instructions of the process that runs ahead, at most so many, up to a gate or an unlisted opcode, or to the last step
/// that is known. Answers how many were done.
#[inline(always)]
fn run_burst(system: &mut System, ahead: &Ahead, most: u64) -> u64
    requires { MayRunAhead ahead.now most system.old }
    ensures { RunsBurst ahead.now most result system.old system.new }
{
    let few = most.min(ahead.last.saturating_sub(system.steps));
    run_process(system, ahead.p, ahead.seg, few)
}

/// Instructions of a process of a segment, at most so many.
#[tactic(auto, unfolding(crate::specs::Moving::with_view))]
#[inline(always)]
fn run_process(system: &mut System, p: Pid, seg: Seg, most: u64) -> u64
    requires { MayRunBurst p seg most system.old }
    ensures { RunsProcess p seg most result system.old system.new }
{
    let inside = system.is_inside(p);
    let burst = Instructions { inside, most };
    let done = system.kernel.run_burst(p, &burst, seg, &mut system.memory);
    system.pass(done);
    done
}

/// Whether the next step is nothing but the call of the process that runs in it, which concerns it alone.
#[inline(always)]
#[tactic(auto, using(crate::proofs::OwnCallStepLaws::makes_ahead))]
fn makes_own_call(system: &System, ahead: &Ahead) -> bool
    requires { MayLookAtCall ahead.now system.now }
    ensures { FindsOwnCall ahead.now system.now result }
{
    let regs = system.kernel.regs(ahead.p);
    regs.pc == ahead.gate && is_own(regs.c) && ahead.alone && system.steps < ahead.last
}

/// Steps in which nothing is done, at most so many. Answers how many.
#[cold]
#[inline(never)]
fn idle(system: &mut System, most: u64) -> u64
    requires { MayIdle most system.old }
    ensures { GoesSilently most result system.old system.new }
{
    if !system.is_idle() {
        return 0;
    }
    let few = system.quiet_for(most);
    system.pass(few);
    few
}

/// The step that is nothing but the call of a process of a segment, which concerns it alone. Its record isn't written: none is asked
/// for.
#[inline(always)]
fn do_own_call(system: &mut System, p: Pid, seg: Seg)
    requires { MayCallAlone p seg system.old }
    ensures { CallsAlone p seg system.old system.new }
{
    let regs = system.kernel.regs(p);
    let function = regs.c;
    let word = u16::from_le_bytes([regs.e, regs.d]);
    system.take_own(p, function, word);
    let value = system.serve_own(p, function, word);
    system.pop(p, seg);
    system.place_value(p, value);
    system.steps += 1;
}
