ghost use Rattle.std.specs.Prelude.{◌≡◌};

use crate::Kernel;
use mpm_base::{FAILURE_CODE, Outcome, Pid, Reply};
use mpm_dispatcher::done;
use mpm_flags::{FlagSet, FlagWait};

/// The list of those who poll device 0; those of the other devices follow it.
pub(crate) const POLLERS: u8 = 1;

/// How many devices are polled.
const DEVICES: u8 = 16;

/// The flags of processes: those below 4 are the system's.
pub(crate) const FIRST_FLAG: u8 = 4;

pub(crate) const LAST_FLAG: u8 = 31;

impl Kernel {
    ghost use Rattle.mpm_procs.specs.Table.{call_of};
    ghost use Rattle.mpm_flags.specs.States.{flag_at, set_answer};
    ghost use Rattle.mpm_consoles.specs.Console.{MakesAndAnswers};
    ghost use Rattle.mpm_kernel.specs.Kernel.{IsSoundKernel};
    ghost use Rattle.mpm_kernel.specs.Asking.{MayPoll, MayDelay, MaySignal};
    ghost use Rattle.mpm_kernel.specs.Called.{Yields, low_parameter};
    ghost use Rattle.mpm_kernel.specs.Waiting.{polled, flag_waited, set_if_flag, process_delayed, signalled};

    /// A process waits until a device is ready, unless it is. (MP/M II Programmer's Guide, "Function 131: Poll".)
    #[cold]
    #[inline(never)]
    #[tactic(auto, unfolding(crate::specs::Waiting::polled))]
    pub(crate) fn poll(&mut self, p: Pid, device: u8, reply: &mut Reply) -> Outcome
        requires { MayPoll p device self.old }
        ensures { Yields (polled (call_of self.old.dispatcher.procs p) p self.old) self.new result reply.new }
    {
        if DEVICES <= device {
            return done(reply, FAILURE_CODE);
        }
        if self.devices.ready[usize::from(device)] {
            return done(reply, 0);
        }
        self.dispatcher.move_to(p, POLLERS + device);
        self.dispatcher.hold(p, reply)
    }

    /// A process waits for a flag, unless it is set. (MP/M II Programmer's Guide, "Function 132: Flag Wait".)
    #[cold]
    #[inline(never)]
    #[tactic(auto, unfolding(crate::specs::Waiting::flag_waited, crate::specs::Waiting::waited))]
    pub(crate) fn wait_flag(&mut self, p: Pid, flag: u8, reply: &mut Reply) -> Outcome
        requires flag { flag ≡ low_parameter (call_of self.old.dispatcher.procs p) }
        ensures { Yields (flag_waited (call_of self.old.dispatcher.procs p) p self.old) self.new result reply.new }
    {
        if flag < FIRST_FLAG || LAST_FLAG < flag {
            return done(reply, FAILURE_CODE);
        }
        match self.flags.wait(p, flag) {
            FlagWait::Passed => done(reply, 0),
            FlagWait::Underrun => done(reply, FAILURE_CODE),
            FlagWait::Waits => {
                self.dispatcher.unlist(p);
                self.dispatcher.hold(p, reply)
            }
        }
    }

    /// The flag of a number is set, where there is one. (MP/M II Programmer's Guide, "Function 133: Flag Set".)
    #[cold]
    #[inline(never)]
    #[tactic(auto, unfolding(crate::specs::Waiting::set_if_flag))]
    pub(crate) fn set_flag(&mut self, flag: u8, reply: &mut Reply) -> Outcome
        requires { IsSoundKernel self.old }
        ensures { Yields (set_if_flag flag self.old) self.new result reply.new }
    {
        if flag < FIRST_FLAG || LAST_FLAG < flag {
            return done(reply, FAILURE_CODE);
        }
        match self.signal(flag) {
            FlagSet::Overrun => done(reply, FAILURE_CODE),
            _ => done(reply, 0),
        }
    }

    /// A process waits for so many ticks; for none, it is put after its equals. (MP/M II Programmer's Guide, "Function 141:
    /// Delay".)
    #[cold]
    #[inline(never)]
    #[tactic(auto, using(crate::proofs::SoundLaws::not_delayed), unfolding(crate::specs::Waiting::process_delayed))]
    pub(crate) fn delay(&mut self, p: Pid, ticks: u16, reply: &mut Reply) -> Outcome
        requires { MayDelay p ticks self.old }
        ensures { Yields (process_delayed (call_of self.old.dispatcher.procs p) p self.old) self.new result reply.new }
    {
        if ticks == 0 {
            self.dispatcher.rotate(p);
            return done(reply, 0);
        }
        self.dispatcher.unlist(p);
        self.clock.delay(p, ticks);
        self.dispatcher.hold(p, reply)
    }

    /// A flag is set; who waits for it is woken.
    #[tactic(auto, using(crate::proofs::SoundLaws::waiter_lives), unfolding(crate::specs::Waiting::signalled, crate::specs::Waiting::with_woken))]
    pub(crate) fn signal(&mut self, flag: u8) -> FlagSet
        requires { MaySignal flag self.old }
        ensures { MakesAndAnswers (signalled flag self.old) (set_answer (flag_at self.old.flags flag)) self.new result }
    {
        let answer = self.flags.set(flag);
        if let FlagSet::Woke { p } = answer {
            self.dispatcher.wake_one(p);
        }
        answer
    }
}
