ghost use Rattle.std.specs.Prelude.{◌≡◌, None};
ghost use Rattle.mpm_script.specs.Events.{IsEvent};
ghost use Rattle.mpm_output.specs.Writing.{WritesAlone};
ghost use Rattle.mpm_system.specs.Whole.{IsWhole};
ghost use Rattle.mpm_system.specs.Coming.{coming};
ghost use Rattle.mpm_machine.specs.Acting.{Makes};
ghost use Rattle.mpm_machine.specs.Step.{interrupted_by, event_come, key_aborted, event_text};
ghost use Rattle.mpm_machine.specs.PartCalls.{MayMeetEvent, MeetsEvent, MayAbortByKey};

use crate::abort::abort_process;
use mpm_output::put_bytes;
use mpm_port::{Failed, Sink};
use mpm_render::Render;
use mpm_script::Event;
use mpm_system::System;

/// The event that is due in this step comes, if one is and it may; answers whether one did.
#[inline(always)]
#[tactic(auto, unfolding(crate::specs::Step::interrupted))]
pub(crate) fn interrupt<S: Sink>(
    system: &mut System,
    render: &mut Render,
    sink: &mut S,
) -> Result<bool, Failed>
    requires { MayMeetEvent system.old }
    ensures { MeetsEvent S.written S.faults (interrupted_by (coming system.old) system.old) system.old system.new render.old sink.old render.new sink.new result }
{
    if !system.is_open() {
        return Ok(false);
    }
    match system.interrupts.take_due(system.steps) {
        Some(event) => {
            come(system, event, render, sink)?;
            Ok(true)
        }
        None => Ok(false),
    }
}

/// An event comes: who waits for it becomes ready, the kernel writes for a key what it does, and a key may abort a process.
#[cold]
#[inline(never)]
#[tactic(auto, using(mpm_kernel::proofs::SoundLaws::may_come), unfolding(crate::specs::Step::event_come))]
fn come<S: Sink>(
    system: &mut System,
    event: Event,
    render: &mut Render,
    sink: &mut S,
) -> Result<(), Failed>
    requires whole { IsWhole system.old }
    requires is { IsEvent event }
    ensures { Makes S.written S.faults (event_come event system.old) system.new render.old sink.old render.new sink.new result }
{
    system.unhalt();
    system.kernel.event(event);
    put_event(system, event, render, sink)?;
    abort_by_key(system);
    Ok(())
}

/// What the kernel itself wrote to the console of a key comes out.
fn put_event<S: Sink>(
    system: &System,
    event: Event,
    render: &mut Render,
    sink: &mut S,
) -> Result<(), Failed>
    requires { IsEvent event }
    ensures wrote { WritesAlone S.written S.faults render.old sink.old render.new sink.new (event_text event system.now.kernel) result }
{
    match event {
        Event::Key { console, .. } => put_bytes(
            console,
            system.kernel.echo().written(),
            render,
            sink,
        ),
        Event::Tick | Event::Ready { .. } | Event::Int { .. } => Ok(()),
    }
}

/// The process that a key aborts, if any, ends, or its end is put off.
fn abort_by_key(system: &mut System)
    requires { MayAbortByKey system.old }
    ensures { system.new ≡ key_aborted system.old.kernel.aborted system.old }
{
    if let Some(p) = system.kernel.take_abort() {
        abort_process(system, p);
    }
}
