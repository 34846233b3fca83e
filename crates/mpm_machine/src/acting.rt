ghost use Rattle.std.specs.Prelude.{◌<◌, ◌+◌, true, Some, None};
ghost use Rattle.mpm_gate.specs.declared.gate.Gate.TheVariants.{Return};
ghost use Rattle.mpm_system.specs.Procedures.{is_inside};
ghost use Rattle.mpm_system.specs.Coming.{coming};
ghost use Rattle.mpm_machine.specs.Acting.{LivesInSystem, ActsIn, Makes};
ghost use Rattle.mpm_machine.specs.Step.{acted, acted_at, at_instruction, gate_before, is_no_gate, begun_by, instruction_unless, instruction_at, instructed, executed, illegal as at_unlisted, IsAtNoGate};
ghost use Rattle.mpm_machine.specs.PartCalls.{MayBeginAlone, BeginsAlone, MayBeginActing, MayAct, DoesAct, LivesAtHome, FindsGate, RunsInstruction};

use crate::call::{call, end};
use crate::finish::answer_all;
use crate::interrupts::interrupt;
use crate::procedures::leave_procedure;
use crate::residing::reside;
use mpm_base::{Pid, Reply, Seg};
use mpm_gate::{Gate, gate_at, page_of_gates};
use mpm_output::illegal_text;
use mpm_port::{Failed, Sink};
use mpm_render::Render;
use mpm_system::{System, write_bytes};

/// What a step begins with in which no process makes a file call: an event, or what the running process does; and the held calls
/// that this completed. Answers whether that was an instruction.
#[inline(always)]
pub(crate) fn begin_alone<S: Sink>(
    system: &mut System,
    reply: &mut Reply,
    render: &mut Render,
    sink: &mut S,
) -> Result<bool, Failed>
    requires { MayBeginAlone system.old }
    ensures { BeginsAlone S.written S.faults system.old system.new render.old sink.old render.new sink.new result }
{
    system.steps += 1;
    let instruction = begin(system, reply, render, sink)?;
    answer_all(system, reply);
    Ok(instruction)
}

/// What a step begins with: the event that comes, or else what the running process does. Answers whether that was an
/// instruction.
#[inline(always)]
fn begin<S: Sink>(
    system: &mut System,
    reply: &mut Reply,
    render: &mut Render,
    sink: &mut S,
) -> Result<bool, Failed>
    requires { MayBeginActing system.old }
    ensures { DoesAct S.written S.faults (begun_by (coming system.old) system.old) (instruction_unless (coming system.old) system.old) system.new render.old sink.old render.new sink.new result }
{
    let came = interrupt(system, render, sink)?;
    if came {
        return Ok(false);
    }
    act(system, reply, render, sink)
}

/// What the running process does in a step; answers whether that was an instruction.
#[inline(always)]
#[tactic(auto, using(mpm_kernel::proofs::SoundLaws::runner_lives), unfolding(crate::specs::Step::acted, crate::specs::Step::at_instruction))]
fn act<S: Sink>(
    system: &mut System,
    reply: &mut Reply,
    render: &mut Render,
    sink: &mut S,
) -> Result<bool, Failed>
    requires { MayAct system.old }
    ensures { DoesAct S.written S.faults (acted system.old) (at_instruction system.old) system.new render.old sink.old render.new sink.new result }
{
    let Some(p) = system.kernel.running() else {
        return Ok(false);
    };
    match system.kernel.segment(p) {
        Some(seg) => act_at(system, p, seg, reply, render, sink),
        None => {
            reside(system, p, reply, render, sink)?;
            Ok(false)
        }
    }
}

/// What a process of a segment does in a step; answers whether that was an instruction.
#[inline(always)]
fn act_at<S: Sink>(
    system: &mut System,
    p: Pid,
    seg: Seg,
    reply: &mut Reply,
    render: &mut Render,
    sink: &mut S,
) -> Result<bool, Failed>
    requires { ActsIn p seg system.old }
    ensures { DoesAct S.written S.faults (acted_at (gate_before p seg system.old) p seg system.old) (is_no_gate (gate_before p seg system.old)) system.new render.old sink.old render.new sink.new result }
{
    match gate(system, p, seg) {
        Some(Gate::End) => {
            end(system, p);
            Ok(false)
        }
        Some(Gate::Call) => {
            call(system, p, seg, reply, render, sink)?;
            Ok(false)
        }
        Some(Gate::Return) => {
            leave_procedure(system, p);
            Ok(false)
        }
        None => {
            execute(system, p, seg, render, sink)?;
            Ok(true)
        }
    }
}

/// The gate at which a process of a segment stands, if any.
#[tactic(auto, using(mpm_gate::proofs::GateLaws::returns_inside))]
pub(crate) fn gate(system: &System, p: Pid, seg: Seg) -> Option<Gate>
    requires { LivesAtHome p seg system.now }
    ensures { FindsGate p seg system.now result }
{
    let page = page_of_gates(&system.memory, seg);
    gate_at(system.is_inside(p), page, system.kernel.regs(p).pc)
}

/// One instruction of a process of a segment, which is at no gate.
#[cold]
#[inline(never)]
#[tactic(auto, using(crate::proofs::WholeLaws::ran_nothing), unfolding(crate::specs::Step::executed))]
fn execute<S: Sink>(
    system: &mut System,
    p: Pid,
    seg: Seg,
    render: &mut Render,
    sink: &mut S,
) -> Result<(), Failed>
    requires { IsAtNoGate p seg system.old }
    ensures { Makes S.written S.faults (executed (instruction_at p seg system.old) p seg system.old) system.new render.old sink.old render.new sink.new result }
{
    if instruct(system, p, seg) {
        return Ok(());
    }
    illegal(system, p, render, sink)
}

/// Runs the instruction at which a process of a segment stands, which is at no gate. False comes exactly where no listed
/// one stands there, and then nothing changes.
#[tactic(auto, unfolding(crate::specs::Step::instructed))]
fn instruct(system: &mut System, p: Pid, seg: Seg) -> bool
    requires { IsAtNoGate p seg system.old }
    ensures { RunsInstruction p seg system.old system.new result }
{
    let inside = system.is_inside(p);
    let mut regs = *system.kernel.regs(p);
    let devices = system.kernel.devices_mut();
    let listed = mpm_processor::execute(inside, &mut regs, &mut system.memory, seg, devices);
    *system.kernel.regs_mut(p) = regs;
    listed
}

/// A process comes to an unlisted opcode: a text on its console, and its end.
#[cold]
#[inline(never)]
#[tactic(auto, using(mpm_system::proofs::TextLaws::lives_after_text), unfolding(crate::specs::Step::illegal, mpm_system::specs::Whole::speaking))]
fn illegal<S: Sink>(
    system: &mut System,
    p: Pid,
    render: &mut Render,
    sink: &mut S,
) -> Result<(), Failed>
    requires { LivesInSystem p system.old }
    ensures { Makes S.written S.faults (at_unlisted p system.old) system.new render.old sink.old render.new sink.new result }
{
    let process = system.kernel.living(p);
    let console = process.console;
    let text = illegal_text(process.regs.pc);
    write_bytes(&mut system.kernel, console, &text, render, sink)?;
    end(system, p);
    Ok(())
}
