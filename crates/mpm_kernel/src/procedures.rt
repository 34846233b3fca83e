ghost use Rattle.std.specs.Prelude.{◌≡◌, Some, None};

use crate::Kernel;
use crate::call::NO_FUNCTION;
use mpm_base::{Outcome, Pid, Reply, functions};
use mpm_dispatcher::done;
use mpm_queues::{BLOCK_SIZE, QueueOutcome, address_of, write_call};

/// The length of the message of a resident procedure's queue, which is the procedure's address.
const ADDRESS: u16 = 2;

impl Kernel {
    ghost use Rattle.mpm_procs.specs.Table.{Lives, call_of};
    ghost use Rattle.mpm_queues.specs.Queues.{FindsQueue};
    ghost use Rattle.mpm_kernel.specs.Kernel.{LivesInKernel, MayComplete, BecomesWhole};
    ghost use Rattle.mpm_kernel.specs.Asking.{MayWriteBack};
    ghost use Rattle.mpm_kernel.specs.Leaving.{LeavesProcedure, KeepsCompleted};
    ghost use Rattle.mpm_kernel.specs.Called.{Yields};
    ghost use Rattle.mpm_kernel.specs.Events.{with_procedure};
    ghost use Rattle.mpm_kernel.specs.Procedures.{procedure_called, procedure_queue, given_back_to, given_back};

    /// A process calls a resident procedure: it reads the message of the queue that it names, and waits for one where there is
    /// none. It is refused by FFFFh where the process is in a procedure, and where there is no such queue of two bytes. (MP/M II
    /// Programmer's Guide, "Function 151: Call Resident System Procedure".)
    #[cold]
    #[inline(never)]
    #[tactic(auto, using(crate::proofs::ProcedureLaws::lives_other, crate::proofs::ProcedureLaws::procedure_made), unfolding(crate::specs::Procedures::procedure_called, crate::specs::Procedures::procedure_at, crate::specs::Procedures::procedure_read, crate::specs::Procedures::inside))]
    pub(crate) fn call_procedure(&mut self, p: Pid, reply: &mut Reply) -> Outcome
        requires { MayComplete p self.old }
        ensures { Yields (procedure_called (call_of self.old.dispatcher.procs p) p self.old) self.new result reply.new }
    {
        if self.dispatcher.procs.get(p).procedure.is_some() {
            return done(reply, NO_FUNCTION);
        }
        let Some(q) = self.procedure_queue(p) else {
            return done(reply, NO_FUNCTION);
        };
        reply.answer(0);
        match self.take_from(p, q, reply) {
            QueueOutcome::Done { other } => {
                let address = address_of(reply.placed());
                self.dispatcher.wake_other(other);
                self.dispatcher.procs.get_mut(p).enter(q, address);
                done(reply, 0)
            }
            QueueOutcome::NotNow => self.block_or_refuse(p, q, true, true, reply),
        }
    }

    /// The queue that the call 151 of a process names, None where there is none of two bytes.
    #[tactic(auto, unfolding(crate::specs::Procedures::of_two_bytes))]
    fn procedure_queue(&self, p: Pid) -> Option<u8>
        requires { Lives self.now.dispatcher.procs p }
        ensures { FindsQueue (procedure_queue self.now.queues (call_of self.now.dispatcher.procs p)) self.now.queues result }
    {
        let Some(q) = self.queues.find(self.dispatcher.procs.call(p).name(4)) else {
            return None;
        };
        if self.queues.length(q) == Some(ADDRESS) {
            Some(q)
        } else {
            None
        }
    }

    /// A process whose held call is handed out is in a resident procedure, where it is a call 151: it got the message, which
    /// follows its block.
    #[tactic(auto, unfolding(crate::specs::Events::with_procedure, crate::specs::Procedures::inside))]
    pub(crate) fn enter_where_held(&mut self, p: Pid)
        requires { Lives self.old.dispatcher.procs p }
        ensures { self.new ≡ with_procedure p self.old }
    {
        let call = self.dispatcher.procs.call(p);
        if call.function == functions::CALL_RESIDENT_SYSTEM_PROCEDURE {
            let message = call.word(BLOCK_SIZE);
            if let Some(q) = self.procedure_queue(p) {
                self.dispatcher.procs.get_mut(p).enter(q, message);
            }
        }
    }

    /// The message of a process's resident procedure, where it is in one, is written back to its queue, which loses it where
    /// it is full; the process is in no procedure then.
    #[tactic(auto, using(crate::proofs::ProcedureLaws::sound_outside, crate::proofs::ProcedureLaws::lives_outside), unfolding(crate::specs::Procedures::given_back))]
    pub fn put_back(&mut self, p: Pid)
        requires { LivesInKernel p self.old }
        ensures { BecomesWhole (given_back p self.old) self.new }
    {
        let queue = self.leave_procedure(p);
        if let Some(q) = queue {
            self.write_back(p, q);
        }
    }

    /// A process is in no procedure any more, and keeps the call that writes the message of the one that it was in; answers
    /// the queue of that one.
    #[tactic(auto, using(mpm_procs::proofs::MapLaws::lives_changed), unfolding(crate::specs::Procedures::outside))]
    fn leave_procedure(&mut self, p: Pid) -> Option<u8>
        requires { Lives self.old.dispatcher.procs p }
        ensures { LeavesProcedure p self.old self.new result }
    {
        self.keep_completed(p);
        let process = self.dispatcher.procs.get_mut(p);
        let queue = process.procedure;
        let message = process.kept;
        process.procedure = None;
        write_call(self.dispatcher.procs.call_mut(p), message);
        queue
    }

    /// Whose held call was completed first is still to be answered, where it lives and is another process. No others are forgotten
    /// by that: what a process did before it ends or leaves its procedure completed one held call at most.
    fn keep_completed(&mut self, p: Pid)
        ensures { KeepsCompleted p self.old self.new }
    {
        let first = self.dispatcher.completed.take();
        self.dispatcher.completed.clear();
        if let Some(q) = first {
            if q.0 != p.0 && self.lives(q) {
                self.dispatcher.completed.push(q);
            }
        }
    }

    /// A process writes the message of its call to a queue that is there, where there is room.
    #[tactic(auto, unfolding(crate::specs::Procedures::given_back_to, mpm_dispatcher::specs::Dispatch::lists_ready, mpm_dispatcher::specs::Dispatch::also_completed))]
    pub(crate) fn write_back(&mut self, p: Pid, q: u8)
        requires { MayWriteBack p q self.old }
        ensures { self.new ≡ given_back_to (Some q) p self.old }
    {
        match self.give_to(p, q) {
            QueueOutcome::Done { other } => self.dispatcher.wake_other(other),
            QueueOutcome::NotNow => {}
        }
    }
}
