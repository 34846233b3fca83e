ghost use Rattle.std.specs.Prelude.{◌≡◌, is_some};

use crate::system::System;

impl System {
    ghost use Rattle.std.specs.Prelude.{◌≡◌};
    ghost use Rattle.mpm_system.specs.Quiet.{TellsOpen};
    ghost use Rattle.mpm_system.specs.Whole.{IsWhole};
    ghost use Rattle.mpm_system.specs.Asking.{MayCountStep};
    ghost use Rattle.mpm_system.specs.Coming.{lets_in, coming, unhalted, counted};

    /// Whether an event may come in this step. Mostly none is due yet, and nothing else is asked.
    #[inline]
    #[tactic(auto, using(crate::proofs::InterruptLaws::none_due, crate::proofs::InterruptLaws::none_let_in, crate::proofs::InterruptLaws::let_in), unfolding(crate::specs::Coming::coming))]
    pub fn is_open(&self) -> bool
        requires { IsWhole self.now }
        ensures { TellsOpen result self.now }
    {
        if self.steps < self.interrupts.next_step() {
            return false;
        }
        self.lets_in()
    }

    /// Whether an interrupt may come: no process runs, or a resident, or the process that runs doesn't hold it off.
    #[tactic(auto, using(mpm_kernel::proofs::SoundLaws::runner_lives))]
    fn lets_in(&self) -> bool
        requires whole { IsWhole self.now }
        ensures { result ≡ lets_in self.now.kernel.dispatcher.running self.now.kernel }
    {
        match self.kernel.running() {
            Some(p) => {
                let regs = self.kernel.regs(p);
                self.kernel.segment(p).is_none() || (regs.iff1 && !regs.shadow)
            }
            None => true,
        }
    }

    /// The process that runs waits for an interrupt no more.
    #[tactic(auto, using(mpm_kernel::proofs::SoundLaws::runner_lives))]
    pub fn unhalt(&mut self)
        requires whole { IsWhole self.old }
        ensures { self.new ≡ record self.old { kernel = unhalted self.old.kernel.dispatcher.running self.old.kernel } }
    {
        if let Some(p) = self.kernel.running() {
            let regs = self.kernel.regs_mut(p);
            regs.halted = false;
        }
    }

    /// Whether an event comes in the next step.
    #[tactic(auto, unfolding(crate::specs::Coming::coming))]
    pub fn comes(&self) -> bool
        requires { MayCountStep self.now }
        ensures { result ≡ is_some (coming (counted self.now)) }
    {
        self.lets_in() && self.interrupts.is_due(self.steps + 1)
    }
}
