ghost use Rattle.std.specs.Prelude.{◌≡◌};
ghost use Rattle.mpm_kernel.specs.Kernel.{is_aborted};
ghost use Rattle.mpm_system.specs.Whole.{IsWhole};
ghost use Rattle.mpm_system.specs.Written.{records_out};
ghost use Rattle.mpm_machine.specs.Acting.{HasNoRecords, Makes};
ghost use Rattle.mpm_machine.specs.Due.{is_due as due_to_end, ended_if_due, all_due_terminated, with_ends};

use crate::call::end;
use crate::finish::finish_all;
use mpm_base::{Pid, Reply};
use mpm_port::{Failed, Sink};
use mpm_render::Render;
use mpm_system::System;

/// The ends by an abort that were put off and are due come, and the records of the step's calls come out. Nothing else is said from
/// here on, so that those of each part come out as it is over.
#[inline(always)]
pub(crate) fn end_all<S: Sink>(
    system: &mut System,
    reply: &mut Reply,
    render: &mut Render,
    sink: &mut S,
) -> Result<(), Failed>
    requires whole { IsWhole system.old }
    ensures { Makes S.written S.faults (records_out (with_ends system.old)) system.new render.old sink.old render.new sink.new result }
{
    system.write_records(render, sink)?;
    end_due(system, reply, render, sink)
}

/// The ends by an abort that were put off and are due come, by slot.
#[inline(always)]
#[tactic(auto, unfolding(crate::specs::Due::with_ends))]
fn end_due<S: Sink>(
    system: &mut System,
    reply: &mut Reply,
    render: &mut Render,
    sink: &mut S,
) -> Result<(), Failed>
    requires { HasNoRecords system.old }
    ensures { Makes S.written S.faults (records_out (with_ends system.old)) system.new render.old sink.old render.new sink.new result }
{
    if system.abort_deferred {
        end_each_due(system, reply, render, sink)?;
        system.note();
    }
    Ok(())
}

/// The processes whose end is due end, by slot. The held calls that an end completes are answered before the next.
#[cold]
#[inline(never)]
fn end_each_due<S: Sink>(
    system: &mut System,
    reply: &mut Reply,
    render: &mut Render,
    sink: &mut S,
) -> Result<(), Failed>
    requires { HasNoRecords system.old }
    ensures { Makes S.written S.faults (records_out (all_due_terminated system.old)) system.new render.old sink.old render.new sink.new result }
{
    for number in 0..32 {
        if let Err(Failed) = end_if_due(system, Pid(number), reply, render, sink) {
            return Err(Failed);
        }
    }
    Ok(())
}

/// A process ends, where that is due, and the held calls that its end completes are answered.
#[tactic(auto, using(crate::proofs::WholeStepLaws::whole_due_end), unfolding(crate::specs::Due::ended_if_due))]
fn end_if_due<S: Sink>(
    system: &mut System,
    p: Pid,
    reply: &mut Reply,
    render: &mut Render,
    sink: &mut S,
) -> Result<(), Failed>
    requires { HasNoRecords system.old }
    ensures { Makes S.written S.faults (records_out (ended_if_due p system.old)) system.new render.old sink.old render.new sink.new result }
{
    if is_due(system, p) {
        end(system, p);
        finish_all(system, reply);
        return system.write_records(render, sink);
    }
    Ok(())
}

/// Whether the end of a process is due: it was aborted, and needn't wait.
fn is_due(system: &System, p: Pid) -> bool
    ensures { result ≡ due_to_end system.now.kernel p }
{
    system.is_aborted(p) && !mpm_xdos::waits_to_end(&system.kernel, p)
}
