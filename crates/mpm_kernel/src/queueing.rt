use crate::Kernel;
use mpm_base::{FAILURE_CODE, Name8, Outcome, Pid, Reply};
use mpm_dispatcher::done;
use mpm_queues::QueueOutcome;

impl Kernel {
    ghost use Rattle.mpm_procs.specs.Table.{Lives, call_of};
    ghost use Rattle.mpm_kernel.specs.Kernel.{MayComplete, BecomesSound};
    ghost use Rattle.mpm_kernel.specs.Called.{Yields};
    ghost use Rattle.mpm_kernel.specs.Asking.{MayMakeSystemQueue, MayReadFrom, MayWriteTo, MayWaitAtQueue};
    ghost use Rattle.mpm_kernel.specs.Leaving.{ReadsFromQueue, WritesToQueue};
    ghost use Rattle.mpm_kernel.specs.Queueing.{with_system_queue, queue_made, queue_opened, queue_deleted, pointed, blocked_or_refused, queue_read, queue_written};

    /// Makes a queue of the system, which no process deletes, for `count` messages of `message_length` bytes. It is made at
    /// boot, before any other.
    #[tactic(auto, using(crate::proofs::QueueingLaws::system_is_lowest, crate::proofs::QueueingLaws::number_below), unfolding(crate::specs::Queueing::with_system_queue, crate::specs::Queueing::with_queue))]
    pub fn system_queue(&mut self, name: Name8, message_length: u16, count: u16)
        requires { MayMakeSystemQueue name message_length count self.old }
        ensures { BecomesSound (with_system_queue self.old name message_length count) self.new }
    {
        match self.queues.make(name, message_length, count) {
            Ok(number) => self.system_queues = number + 1,
            Err(_) => unreachable!(),
        }
    }

    /// A process makes a queue. (MP/M II Programmer's Guide, "Function 134: Make Queue".)
    #[cold]
    #[inline(never)]
    #[tactic(auto, unfolding(crate::specs::Queueing::queue_made, crate::specs::Queueing::with_queue))]
    pub(crate) fn make_queue(&mut self, p: Pid, reply: &mut Reply) -> Outcome
        requires { Lives self.old.dispatcher.procs p }
        ensures { Yields (queue_made (call_of self.old.dispatcher.procs p) self.old) self.new result reply.new }
    {
        let call = self.dispatcher.procs.call(p);
        let name = call.name(2);
        let message_length = call.word(10);
        let count = call.word(12);
        match self.queues.make(name, message_length, count) {
            Ok(_) => done(reply, 0),
            Err(_) => done(reply, FAILURE_CODE),
        }
    }

    /// A process opens a queue: its pointer is written where the block stands. (MP/M II Programmer's Guide, "Function 135:
    /// Open Queue".)
    #[cold]
    #[inline(never)]
    #[tactic(auto, unfolding(crate::specs::Queueing::opened))]
    pub(crate) fn open_queue(&self, p: Pid, reply: &mut Reply) -> Outcome
        requires { Lives self.now.dispatcher.procs p }
        ensures { Yields (queue_opened (call_of self.now.dispatcher.procs p) self.now) self.now result reply.new }
    {
        let call = self.dispatcher.procs.call(p);
        match self.queues.find(call.name(4)) {
            Some(q) => {
                reply.answer_with(0, call.word, &[q + 1, 0]);
                Outcome::Done
            }
            None => done(reply, FAILURE_CODE),
        }
    }

    /// A process deletes a queue. (MP/M II Programmer's Guide, "Function 136: Delete Queue".)
    #[cold]
    #[inline(never)]
    #[tactic(auto, unfolding(crate::specs::Queueing::deleted, mpm_queues::specs::Queues::without_queue))]
    pub(crate) fn delete_queue(&mut self, p: Pid, reply: &mut Reply) -> Outcome
        requires { Lives self.old.dispatcher.procs p }
        ensures { Yields (queue_deleted (call_of self.old.dispatcher.procs p) self.old) self.new result reply.new }
    {
        let Some(q) = self.queues.find(self.dispatcher.procs.call(p).name(2)) else {
            return done(reply, FAILURE_CODE);
        };
        if self.system_queues <= q
            && !self.dispatcher.procs.is_entered(q)
            && self.queues.delete(q)
        {
            done(reply, 0)
        } else {
            done(reply, FAILURE_CODE)
        }
    }

    /// A process reads a message, which comes to the address that its block names; where there is none it waits for one, if it
    /// may. (MP/M II Programmer's Guide, "Function 137: Read Queue", "Function 138: Conditional Read Queue".)
    #[cold]
    #[inline(never)]
    #[tactic(auto, unfolding(crate::specs::Queueing::read_at, crate::specs::Queueing::was_read))]
    pub(crate) fn read_queue(&mut self, p: Pid, waits: bool, reply: &mut Reply) -> Outcome
        requires { MayComplete p self.old }
        ensures { Yields (queue_read waits (call_of self.old.dispatcher.procs p) p self.old) self.new result reply.new }
    {
        let call = self.dispatcher.procs.call(p);
        let pointer = call.word(0);
        let at = call.word(2);
        let Some(q) = self.queues.pointed(pointer) else {
            return done(reply, FAILURE_CODE);
        };
        reply.answer_with(0, at, &[]);
        match self.take_from(p, q, reply) {
            QueueOutcome::Done { other } => {
                self.dispatcher.wake_other(other);
                Outcome::Done
            }
            QueueOutcome::NotNow => self.block_or_refuse(p, q, true, waits, reply),
        }
    }

    /// A process writes a message; where there is no room it waits for some, if it may. (MP/M II Programmer's Guide, "Function
    /// 139: Write Queue", "Function 140: Conditional Write Queue".)
    #[cold]
    #[inline(never)]
    #[tactic(auto, unfolding(crate::specs::Queueing::write_at, crate::specs::Queueing::was_written))]
    pub(crate) fn write_queue(&mut self, p: Pid, waits: bool, reply: &mut Reply) -> Outcome
        requires { MayComplete p self.old }
        ensures { Yields (queue_written waits (call_of self.old.dispatcher.procs p) p self.old) self.new result reply.new }
    {
        let pointer = self.dispatcher.procs.call(p).word(0);
        let Some(q) = self.queues.pointed(pointer) else {
            return done(reply, FAILURE_CODE);
        };
        match self.give_to(p, q) {
            QueueOutcome::Done { other } => {
                self.dispatcher.wake_other(other);
                done(reply, 0)
            }
            QueueOutcome::NotNow => self.block_or_refuse(p, q, false, waits, reply),
        }
    }

    /// A process reads the first message of a queue into a reply.
    #[tactic(auto, using(crate::proofs::QueueingLaws::waiters_live))]
    pub(crate) fn take_from(&mut self, p: Pid, q: u8, reply: &mut Reply) -> QueueOutcome
        requires { MayReadFrom q self.old }
        ensures { ReadsFromQueue p q self.old self.new reply.old reply.new result }
    {
        self.queues.read(p, q, &mut self.dispatcher.procs, reply)
    }

    /// A process writes the message of its call to a queue.
    #[tactic(auto, using(crate::proofs::QueueingLaws::waiters_live, crate::proofs::QueueingLaws::lives_by_write))]
    pub(crate) fn give_to(&mut self, p: Pid, q: u8) -> QueueOutcome
        requires { MayWriteTo p q self.old }
        ensures { WritesToQueue p q self.old self.new result }
    {
        self.queues.write(p, q, &mut self.dispatcher.procs)
    }

    /// A call that can't be done now is held, if it may wait, or else refused: the ready process of one that is held waits at
    /// the queue from now on, and stands in no list.
    #[tactic(auto, using(crate::proofs::QueueingLaws::ready_waits_nowhere), unfolding(crate::specs::Queueing::blocked_or_refused, crate::specs::Queueing::queued))]
    pub(crate) fn block_or_refuse(
        &mut self,
        p: Pid,
        q: u8,
        reader: bool,
        waits: bool,
        reply: &mut Reply,
    ) -> Outcome
        requires { MayWaitAtQueue p q reader self.old }
        ensures { Yields (blocked_or_refused waits p q reader self.old) self.new result reply.new }
    {
        if waits {
            let priority = self.dispatcher.procs.get(p).priority;
            self.dispatcher.unlist(p);
            self.queues.enlist(p, priority, q, reader);
            self.dispatcher.hold(p, reply)
        } else {
            done(reply, FAILURE_CODE)
        }
    }
}
