ghost use Rattle.std.specs.Prelude.{◌≡◌};
ghost use Rattle.mpm_procs.specs.Table.{Lives, call_of};
ghost use Rattle.mpm_kernel.specs.Called.{low_parameter};

use crate::system::System;
use mpm_base::{Pid, Reply, functions};
use mpm_residents::Act;

impl System {
    ghost use Rattle.mpm_residents.specs.Natives.{native_in};
    ghost use Rattle.mpm_system.specs.Doing.{AsksNext};
    ghost use Rattle.mpm_system.specs.Whole.{LivesInSystem};
    ghost use Rattle.mpm_system.specs.Asking.{MayAskNext};
    ghost use Rattle.mpm_system.specs.Residents.{asked_by, tells as is_told, handing_step, taking};

    /// The resident of a slot, if one acts there, asks the call that it makes next, and its process keeps it.
    pub(crate) fn ask_next(&mut self, p: Pid)
        requires { Lives self.old.kernel.dispatcher.procs p }
        ensures { self.new ≡ asked_by (native_in self.old.residents p) p self.old }
    {
        if self.residents.has(p) {
            let _ = self.ask_call(p);
        }
    }

    /// The resident of a slot fills in the call that it makes next, or the bytes that it hands over, and its process keeps that.
    /// Answers what the resident does.
    pub fn ask_call(&mut self, p: Pid) -> Act
        requires { MayAskNext p self.old }
        ensures { AsksNext p self.old self.new result }
    {
        self.residents.ask(p, self.kernel.call_mut(p))
    }

    /// Whether the call that a process keeps is a text of the system: the interpreter asks for one as function 9.
    pub fn tells(&self, p: Pid) -> bool
        requires { Lives self.now.kernel.dispatcher.procs p }
        ensures { result ≡ is_told (native_in self.now.residents p) (call_of self.now.kernel.dispatcher.procs p) }
    {
        self.residents.interprets(p) && self.kernel.kept_call(p).function == functions::PRINT_STRING
    }

    /// The console that the parameter of a text of the system names.
    pub(crate) fn console_told(&self, p: Pid) -> u8
        requires { Lives self.now.kernel.dispatcher.procs p }
        ensures { result ≡ low_parameter (call_of self.now.kernel.dispatcher.procs p) }
    {
        (self.kernel.kept_call(p).word % 256) as u8
    }

    /// A resident hands something over, and takes the answer.
    #[tactic(auto, unfolding(crate::specs::Residents::handing_step))]
    pub fn hand(&mut self, p: Pid, act: Act, reply: &mut Reply)
        requires { LivesInSystem p self.old }
        ensures { self.new ≡ handing_step act (call_of self.old.kernel.dispatcher.procs p) p self.old }
    {
        let value = self.hand_over(p, act);
        reply.answer(value);
        self.take_answer(p, reply);
    }

    /// The resident of a slot, if one acts there, takes the answer to its call.
    #[tactic(auto, using(crate::proofs::ResidentLaws::nobody_takes))]
    pub fn take_answer(&mut self, p: Pid, reply: &Reply)
        ensures { self.new ≡ taking reply.now p self.old }
    {
        if self.residents.has(p) {
            self.residents.take(p, reply);
        }
    }
}
