ghost use Rattle.std.specs.Prelude.{◌≡◌};
ghost use Rattle.mpm_machine.specs.Acting.{LivesInSystem, CallGives};
ghost use Rattle.mpm_machine.specs.Serving.{aborting, aborted};

use mpm_base::{FAILURE_CODE, Outcome, Pid, Reply};
use mpm_system::System;

/// Function 157: aborts the process that the call names. One that aborts itself ends as by function 143, unless its end is
/// put off.
#[inline(never)]
#[tactic(auto, unfolding(crate::specs::Serving::aborting))]
pub(crate) fn abort(system: &mut System, p: Pid, reply: &mut Reply) -> Outcome
    requires { LivesInSystem p system.old }
    ensures { CallGives (aborting p system.old) system.new result reply.new }
{
    let Some(other) = mpm_xdos::target(&system.kernel, p) else {
        reply.answer(FAILURE_CODE);
        return Outcome::Done;
    };
    reply.answer(0);
    if other == p && !mpm_xdos::waits_to_end(&system.kernel, p) {
        return Outcome::Ended;
    }
    abort_process(system, other);
    Outcome::Done
}

/// A process is aborted: it ends, or its end is put off while it holds the message of a mutual exclusion queue, and
/// while a call of it is in service.
#[tactic(auto, using(mpm_system::proofs::WholeLaws::segment_is_there, crate::proofs::WholeLaws::slot_is_there), unfolding(crate::specs::Serving::aborted))]
pub(crate) fn abort_process(system: &mut System, p: Pid)
    requires { LivesInSystem p system.old }
    ensures { system.new ≡ aborted p system.old }
{
    let waits = mpm_xdos::waits_to_end(&system.kernel, p);
    let stays = system.kernel.segment(p).is_none() || waits;
    mpm_xdos::abort(&mut system.kernel, &mut system.memory, p);
    system.abort_deferred = system.abort_deferred || waits;
    if !stays {
        system.owed.add(p);
    }
}
