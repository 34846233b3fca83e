ghost use Rattle.mpm_residents.specs.declared.cli.act.Act.TheVariants.{Ask};
ghost use Rattle.mpm_procs.specs.Table.{call_of};
ghost use Rattle.mpm_residents.specs.Natives.{native_in};
ghost use Rattle.mpm_machine.specs.Acting.{IsReadyWithin, Makes};
ghost use Rattle.mpm_machine.specs.Residing.{resided, native_step, native_outcome, calling_step, MayReside};
ghost use Rattle.mpm_machine.specs.PartCalls.{MayConcludeResident};

use crate::call::{end, serve_to_all};
use mpm_base::{Outcome, Pid, Reply};
use mpm_port::{Failed, Sink};
use mpm_render::Render;
use mpm_residents::Act;
use mpm_system::System;

/// The step of a process that has no segment: that of the resident of its slot, if one acts there.
#[cold]
#[inline(never)]
pub(crate) fn reside<S: Sink>(
    system: &mut System,
    p: Pid,
    reply: &mut Reply,
    render: &mut Render,
    sink: &mut S,
) -> Result<(), Failed>
    requires { IsReadyWithin p system.old }
    ensures { Makes S.written S.faults (resided (native_in system.old.residents p) p system.old) system.new render.old sink.old render.new sink.new result }
{
    if !system.residents.has(p) {
        return Ok(());
    }
    let act = system.ask_call(p);
    act_native(system, p, act, reply, render, sink)
}

/// What a resident does in its step, whose process keeps what it filled in.
fn act_native<S: Sink>(
    system: &mut System,
    p: Pid,
    act: Act,
    reply: &mut Reply,
    render: &mut Render,
    sink: &mut S,
) -> Result<(), Failed>
    requires { MayReside p system.old }
    ensures { Makes S.written S.faults (native_step act (call_of system.old.kernel.dispatcher.procs p) p system.old) system.new render.old sink.old render.new sink.new result }
{
    match act {
        Act::Ask => make_call(system, p, reply, render, sink),
        Act::PlaceBytes { .. }
        | Act::MoveCode { .. }
        | Act::BeginProcess { .. }
        | Act::GiveConsole { .. } => {
            system.hand(p, act, reply);
            Ok(())
        }
    }
}

/// The call that a resident's process keeps is done: it is a text of the system, or it is served, and what its outcome brings
/// about follows.
fn make_call<S: Sink>(
    system: &mut System,
    p: Pid,
    reply: &mut Reply,
    render: &mut Render,
    sink: &mut S,
) -> Result<(), Failed>
    requires { MayReside p system.old }
    ensures { Makes S.written S.faults (native_step Ask (call_of system.old.kernel.dispatcher.procs p) p system.old) system.new render.old sink.old render.new sink.new result }
{
    if system.tells(p) {
        return system.tell_text(p, reply, render, sink);
    }
    serve_native(system, p, reply, render, sink)
}

/// The call that a resident's process keeps is served, and what its outcome brings about follows.
fn serve_native<S: Sink>(
    system: &mut System,
    p: Pid,
    reply: &mut Reply,
    render: &mut Render,
    sink: &mut S,
) -> Result<(), Failed>
    requires { MayReside p system.old }
    ensures { Makes S.written S.faults (calling_step (call_of system.old.kernel.dispatcher.procs p) p system.old) system.new render.old sink.old render.new sink.new result }
{
    let outcome = serve_to_all(system, p, reply);
    system.put_echo(p, render, sink)?;
    conclude_residing(system, outcome, p, reply, render, sink)
}

/// What the outcome of a resident's call brings about.
fn conclude_residing<S: Sink>(
    system: &mut System,
    outcome: Outcome,
    p: Pid,
    reply: &Reply,
    render: &mut Render,
    sink: &mut S,
) -> Result<(), Failed>
    requires { MayConcludeResident p system.old }
    ensures { Makes S.written S.faults (native_outcome outcome reply.now (call_of system.old.kernel.dispatcher.procs p) p system.old) system.new render.old sink.old render.new sink.new result }
{
    match outcome {
        Outcome::Done => {
            system.speak_kept(p, render, sink)?;
            system.residents.take(p, reply);
        }
        Outcome::Ended => end(system, p),
        Outcome::Held | Outcome::Retry => {}
    }
    Ok(())
}
