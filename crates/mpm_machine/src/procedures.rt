ghost use Rattle.std.specs.Prelude.{◌≡◌};
ghost use Rattle.mpm_machine.specs.Acting.{LivesInSystem};
ghost use Rattle.mpm_machine.specs.Serving.{is_entry as got_message, with_entry, reply_at_entry, returning, EntersIfAnswered};
ghost use Rattle.mpm_machine.specs.PartCalls.{IsInProcedure, HasEnteredProcedure};

use mpm_base::{Call, Pid, Reply, functions};
use mpm_system::System;

/// A process enters a resident procedure, where the call that it keeps is a call 151 that got its message.
#[inline(always)]
#[tactic(auto, unfolding(crate::specs::Serving::with_entry, crate::specs::Serving::reply_at_entry))]
pub(crate) fn enter(system: &mut System, p: Pid, reply: &mut Reply)
    requires { LivesInSystem p system.old }
    ensures { EntersIfAnswered reply.old reply.new p system.old system.new }
{
    if system.kernel.kept_call(p).function == functions::CALL_RESIDENT_SYSTEM_PROCEDURE {
        enter_if_answered(system, p, reply);
    }
}

/// A process that keeps a call 151 enters a resident procedure, where that call got its message.
#[cold]
#[inline(never)]
#[tactic(auto, unfolding(crate::specs::Serving::with_entry, crate::specs::Serving::reply_at_entry))]
fn enter_if_answered(system: &mut System, p: Pid, reply: &mut Reply)
    requires { LivesInSystem p system.old }
    ensures { EntersIfAnswered reply.old reply.new p system.old system.new }
{
    if is_entry(system.kernel.kept_call(p), reply) {
        enter_procedure(system, p, reply);
    }
}

/// A process enters the resident procedure whose message it got.
#[cold]
#[inline(never)]
#[tactic(auto, using(mpm_system::proofs::WholeLaws::segment_is_there))]
fn enter_procedure(system: &mut System, p: Pid, reply: &mut Reply)
    requires { LivesInSystem p system.old }
    ensures { HasEnteredProcedure p reply.new system.old system.new }
{
    mpm_xdos::enter_procedure(&mut system.kernel, &system.memory, p, reply);
}

/// A process leaves the resident procedure that it is in.
#[cold]
#[inline(never)]
#[tactic(auto, unfolding(crate::specs::Serving::returning))]
pub(crate) fn leave_procedure(system: &mut System, p: Pid)
    requires { IsInProcedure p system.old }
    ensures { system.new ≡ returning p system.old }
{
    mpm_xdos::leave_procedure(&mut system.kernel, p);
}

/// Whether a call is a call 151 that got its message: it is refused by FFFFh alone.
fn is_entry(call: &Call, reply: &Reply) -> bool
    ensures { result ≡ got_message call.now reply.now }
{
    call.function == functions::CALL_RESIDENT_SYSTEM_PROCEDURE && reply.hl == 0
}
