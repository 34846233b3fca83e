ghost use Rattle.mpm_procs.specs.Table.{Lives, call_of};
ghost use Rattle.mpm_service.specs.Disk.{IsSoundService};
ghost use Rattle.mpm_machine.specs.Acting.{MayEndCall, Makes};
ghost use Rattle.mpm_machine.specs.FileCalls.{told_of};
ghost use Rattle.mpm_machine.specs.DiskStep.{call_over};
ghost use Rattle.mpm_machine.specs.PartCalls.{TellsAtOnce};

use crate::file_calls::conclude_file_call;
use crate::finish::finish_all;
use mpm_base::{Pid, Reply};
use mpm_bdos::{Extended, FileFunction};
use mpm_port::{Failed, Sink};
use mpm_render::Render;
use mpm_system::System;

/// Says what is so of the disk: where it serves a call, its turns have steps.
fn recall_turns(system: &System)
    ensures { IsSoundService system.now.kernel.disk }
{
    system.kernel.disk().serving();
}

/// Whether the file call that a process made is done in its gate step: one that no disk serves, and any where turns have no steps.
#[tactic(auto, unfolding(crate::specs::DiskStep::is_done_at_once))]
pub(crate) fn is_done_at_once(system: &System, p: Pid) -> bool
    requires lives { Lives system.now.kernel.dispatcher.procs p }
    ensures { TellsAtOnce p system.now result }
{
    recall_turns(system);
    FileFunction::of(system.kernel.kept_call(p).function).is_none()
        || system.kernel.disk().turn_steps() == 0
}

/// The file call of a process is over, whose turns were served, with this reply and this extended error. Its process is ready again, and it
/// is answered, or its error is met. The held calls that its end then completes are answered.
#[tactic(auto, unfolding(crate::specs::DiskStep::call_over))]
pub(crate) fn end_file_call<S: Sink>(
    system: &mut System,
    p: Pid,
    error: Option<Extended>,
    reply: &mut Reply,
    render: &mut Render,
    sink: &mut S,
) -> Result<(), Failed>
    requires { MayEndCall p system.old }
    ensures { Makes S.written S.faults (call_over (told_of (call_of system.old.kernel.dispatcher.procs p) reply.old error) p system.old) system.new render.old sink.old render.new sink.new result }
{
    system.kernel.end_disk_call(p);
    conclude_file_call(system, p, error, reply, render, sink)?;
    finish_all(system, reply);
    Ok(())
}
