ghost use Rattle.std.specs.Prelude.{◌≡◌};
ghost use Rattle.mpm_base.specs.declared.call.Outcome.TheVariants.{Done};
ghost use Rattle.mpm_procs.specs.Table.{Lives, call_of};
ghost use Rattle.mpm_base.specs.Calls.{Answer};
ghost use Rattle.mpm_system.specs.Whole.{silent};
ghost use Rattle.mpm_machine.specs.Acting.{LivesInSystem, IsReadyWithin, ActsIn, MayAnswer, CallGives, Makes};
ghost use Rattle.mpm_machine.specs.Serving.{served, served_to_all, creating, telling_system, telling_descriptor, fulfilling, completing, after_echo, outcome_of, gate_step};
ghost use Rattle.mpm_machine.specs.Ending.{ended};
ghost use Rattle.mpm_machine.specs.PartCalls.{MayServe, MayCreateChain, MayBringAbout};

use crate::abort::abort;
use crate::procedures::enter;
use mpm_base::{Outcome, Pid, Reply, Seg, functions};
use mpm_port::{Failed, Sink};
use mpm_render::Render;
use mpm_system::System;

/// The gate step of a kernel call of a process of a segment.
pub(crate) fn call<S: Sink>(
    system: &mut System,
    p: Pid,
    seg: Seg,
    reply: &mut Reply,
    render: &mut Render,
    sink: &mut S,
) -> Result<(), Failed>
    requires { ActsIn p seg system.old }
    ensures { Makes S.written S.faults (gate_step p seg system.old) system.new render.old sink.old render.new sink.new result }
{
    system.take_call(p, seg);
    let outcome = serve(system, p, reply);
    conclude(system, outcome, p, seg, reply, render, sink)
}

/// What the kernel itself wrote in the call that a process keeps comes out, and what its outcome brings about: mostly it is done.
#[inline(always)]
fn conclude<S: Sink>(
    system: &mut System,
    outcome: Outcome,
    p: Pid,
    seg: Seg,
    reply: &mut Reply,
    render: &mut Render,
    sink: &mut S,
) -> Result<(), Failed>
    requires { MayAnswer p system.old }
    ensures { Makes S.written S.faults (after_echo (call_of system.old.kernel.dispatcher.procs p) p system.old (outcome_of outcome reply.old (call_of system.old.kernel.dispatcher.procs p) p seg system.old)) system.new render.old sink.old render.new sink.new result }
{
    if outcome == Outcome::Done {
        return conclude_done(system, p, seg, reply, render, sink);
    }
    conclude_undone(system, outcome, p, seg, render, sink)
}

/// As `conclude`, for a call that is done: then its text comes out, its reply is placed, and its record joins the others.
#[inline(always)]
fn conclude_done<S: Sink>(
    system: &mut System,
    p: Pid,
    seg: Seg,
    reply: &mut Reply,
    render: &mut Render,
    sink: &mut S,
) -> Result<(), Failed>
    requires { MayAnswer p system.old }
    ensures { Makes S.written S.faults (after_echo (call_of system.old.kernel.dispatcher.procs p) p system.old (completing reply.old (call_of system.old.kernel.dispatcher.procs p) p seg system.old)) system.new render.old sink.old render.new sink.new result }
{
    system.put_echo(p, render, sink)?;
    system.speak(p, seg, render, sink)?;
    system.pop(p, seg);
    fulfil(system, p, seg, reply);
    Ok(())
}

/// As `conclude`, for a call that isn't done.
#[cold]
#[inline(never)]
fn conclude_undone<S: Sink>(
    system: &mut System,
    outcome: Outcome,
    p: Pid,
    seg: Seg,
    render: &mut Render,
    sink: &mut S,
) -> Result<(), Failed>
    requires { MayBringAbout p outcome system.old }
    ensures { (reply : Answer) → Makes S.written S.faults (after_echo (call_of system.old.kernel.dispatcher.procs p) p system.old (outcome_of outcome reply (call_of system.old.kernel.dispatcher.procs p) p seg system.old)) system.new render.old sink.old render.new sink.new result }
{
    system.put_echo(p, render, sink)?;
    bring_about(system, outcome, p, seg);
    Ok(())
}

/// What the outcome of the call that a process keeps brings about, where it isn't done.
fn bring_about(system: &mut System, outcome: Outcome, p: Pid, seg: Seg)
    requires { MayBringAbout p outcome system.old }
    ensures { (reply : Answer) → silent system.new ≡ outcome_of outcome reply (call_of system.old.kernel.dispatcher.procs p) p seg system.old }
{
    match outcome {
        Outcome::Ended => end(system, p),
        Outcome::Held => system.pop(p, seg),
        Outcome::Retry => {}
        Outcome::Done => unreachable!(),
    }
}

/// Does the call that a process keeps. The functions here are those that no resident calls.
#[inline(always)]
#[tactic(auto, using(crate::proofs::TakenLaws::few_descriptors, crate::proofs::TakenLaws::short_text), unfolding(crate::specs::Serving::served))]
fn serve(system: &mut System, p: Pid, reply: &mut Reply) -> Outcome
    requires { MayServe p system.old }
    ensures { CallGives (served (call_of system.old.kernel.dispatcher.procs p) p system.old) system.new result reply.new }
{
    match system.kernel.kept_call(p).function {
        functions::CREATE_PROCESS => create(system, p, reply),
        functions::ABORT_SPECIFIED_PROCESS => abort(system, p, reply),
        functions::PARSE_FILENAME => system.parse(p, reply),
        functions::SYSTEM_DATA_ADDRESS => tell_system(system, reply),
        functions::RETURN_PROCESS_DESCRIPTOR_ADDRESS => tell_descriptor(system, p, reply),
        functions::CHAIN_TO_PROGRAM => system.chain(p, reply),
        _ => serve_to_all(system, p, reply),
    }
}

/// Does the call that a process keeps, of those that residents make too: mostly the kernel does it.
#[inline(always)]
#[tactic(auto, unfolding(crate::specs::Serving::served_to_all))]
pub(crate) fn serve_to_all(system: &mut System, p: Pid, reply: &mut Reply) -> Outcome
    requires { IsReadyWithin p system.old }
    ensures { CallGives (served_to_all (call_of system.old.kernel.dispatcher.procs p) p system.old) system.new result reply.new }
{
    match system.kernel.kept_call(p).function {
        functions::ABSOLUTE_MEMORY_REQUEST => system.reserve(p, true, reply),
        functions::RELOCATABLE_MEMORY_REQUEST => system.reserve(p, false, reply),
        functions::MEMORY_FREE => system.release(p, reply),
        functions::SEND_CLI_COMMAND => system.send_command(p, reply),
        _ => system.kernel.call(p, reply),
    }
}

/// Function 144: creates processes in the segment of the one that asks.
#[inline(never)]
#[tactic(auto, using(mpm_system::proofs::WholeLaws::segment_is_there), unfolding(crate::specs::Serving::creating))]
fn create(system: &mut System, p: Pid, reply: &mut Reply) -> Outcome
    requires { MayCreateChain p system.old }
    ensures { CallGives (creating p system.old) system.new result reply.new }
{
    mpm_xdos::create(&mut system.kernel, &system.memory, p, reply);
    Outcome::Done
}

/// Function 154: tells the system data page.
#[inline(never)]
fn tell_system(system: &System, reply: &mut Reply) -> Outcome
    ensures { CallGives (telling_system system.now) system.now result reply.new }
{
    mpm_xdos::tell_system(&system.kernel, &system.memory, reply);
    Outcome::Done
}

/// Function 156: tells the descriptor of the process that asks.
#[inline(never)]
fn tell_descriptor(system: &System, p: Pid, reply: &mut Reply) -> Outcome
    requires lives { Lives system.now.kernel.dispatcher.procs p }
    ensures { CallGives (telling_descriptor p system.now) system.now result reply.new }
{
    mpm_xdos::tell_descriptor(&system.kernel, p, reply);
    Outcome::Done
}

/// The call that a process keeps, whose return address was taken, is fulfilled: where it is a call 151 that got its
/// message, the process enters the resident procedure; the reply is placed, and its record joins the others.
#[inline(always)]
#[tactic(auto, unfolding(crate::specs::Serving::fulfilling))]
pub(crate) fn fulfil(system: &mut System, p: Pid, seg: Seg, reply: &mut Reply)
    requires { MayAnswer p system.old }
    ensures { system.new ≡ fulfilling reply.old (call_of system.old.kernel.dispatcher.procs p) p seg system.old }
{
    enter(system, p, reply);
    system.answer(p, seg, reply);
}

/// A process ends, and gives back what it had.
#[cold]
#[inline(never)]
#[tactic(auto, using(mpm_system::proofs::WholeLaws::segment_is_there, crate::proofs::WholeLaws::slot_is_there), unfolding(crate::specs::Ending::ended))]
pub(crate) fn end(system: &mut System, p: Pid)
    requires { LivesInSystem p system.old }
    ensures { system.new ≡ ended p system.old }
{
    mpm_xdos::end(&mut system.kernel, &mut system.memory, p);
    system.owed.add(p);
}
