ghost use Rattle.std.specs.Prelude.{◌≡◌};
ghost use Rattle.mpm_procs.specs.Table.{Lives, call_of};

use crate::system::System;
use mpm_base::{Pid, Reply, Seg};

impl System {
    ghost use Rattle.mpm_system.specs.Whole.{LivesInSystem, MayRecord};
    ghost use Rattle.mpm_system.specs.Taking.{asked, keeping};
    ghost use Rattle.mpm_system.specs.Answering.{answering_call, popped, replied, recorded};

    /// Takes the call that a process asks at the gate: what it reads is kept, and an EI takes effect.
    #[inline(always)]
    #[tactic(auto, using(mpm_procs::proofs::MapLaws::lives_changed), unfolding(crate::specs::Taking::keeping, crate::specs::Taking::asked))]
    pub fn take_call(&mut self, p: Pid, seg: Seg)
        requires { LivesInSystem p self.old }
        ensures { self.new ≡ keeping p (asked p seg self.old) self.old }
    {
        let process = self.kernel.process_mut(p);
        let regs = process.regs;
        let dma = process.dma;
        let multi = process.multi;
        process.regs.shadow = false;
        let call = self.kernel.call_mut(p);
        mpm_gate::call_of(&regs, &self.memory, seg, dma, multi, call);
    }

    /// The reply to the call that a process keeps is placed, and its record joins the others.
    #[inline(always)]
    #[tactic(auto, unfolding(crate::specs::Answering::answering_call))]
    pub fn answer(&mut self, p: Pid, seg: Seg, reply: &Reply)
        requires { MayRecord p self.old }
        ensures { self.new ≡ answering_call reply.now (call_of self.old.kernel.dispatcher.procs p) p seg self.old }
    {
        self.reply(p, seg, reply);
        self.record(p);
    }

    /// The return address of a call is taken from its caller's stack.
    #[tactic(auto, unfolding(crate::specs::Answering::popped))]
    pub fn pop(&mut self, p: Pid, seg: Seg)
        requires lives { Lives self.old.kernel.dispatcher.procs p }
        ensures { self.new ≡ popped p seg self.old }
    {
        let regs = self.kernel.regs_mut(p);
        mpm_gate::take_return(&self.memory, seg, regs);
    }

    /// The reply is placed in its caller's registers and memory.
    #[inline(always)]
    #[tactic(auto, unfolding(crate::specs::Answering::replied))]
    fn reply(&mut self, p: Pid, seg: Seg, reply: &Reply)
        requires lives { Lives self.old.kernel.dispatcher.procs p }
        ensures { self.new ≡ replied reply.now (call_of self.old.kernel.dispatcher.procs p) p seg self.old }
    {
        let word = self.kernel.kept_call(p).word;
        let regs = self.kernel.regs_mut(p);
        mpm_gate::put_reply(reply, word, &mut self.memory, seg, regs);
    }

    /// The record of the call that a process completed joins those of its step.
    #[inline(always)]
    #[tactic(auto, unfolding(crate::specs::Answering::recorded, crate::specs::Answering::completion))]
    fn record(&mut self, p: Pid)
        requires { MayRecord p self.old }
        ensures { self.new ≡ recorded (call_of self.old.kernel.dispatcher.procs p) p self.old }
    {
        let function = self.kernel.kept_call(p).function;
        self.records
            .put(self.steps, p, function, self.kernel.regs(p));
    }
}
