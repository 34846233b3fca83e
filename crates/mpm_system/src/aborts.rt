ghost use Rattle.std.specs.Prelude.{◌≡◌};

use crate::system::System;
use mpm_base::Pid;

impl System {
    ghost use Rattle.mpm_kernel.specs.Kernel.{is_aborted};
    ghost use Rattle.mpm_system.specs.Deferring.{is_any_aborted, noted};

    /// Whether a process lives, and its end by an abort is put off.
    pub fn is_aborted(&self, p: Pid) -> bool
        ensures { result ≡ is_aborted self.now.kernel.dispatcher.procs p }
    {
        self.kernel.lives(p) && self.kernel.living(p).abort_due
    }

    /// It is noted where no end by an abort is put off any more.
    #[cold]
    #[inline(never)]
    pub fn note(&mut self)
        ensures { self.new ≡ noted self.old }
    {
        self.abort_deferred = self.abort_deferred && self.is_any_aborted();
    }

    /// Whether an end by an abort is put off.
    #[tactic(auto, using(mpm_queues::proofs::Finding::failed_none, mpm_queues::proofs::Finding::failed_more, mpm_queues::proofs::Finding::found_lowest, mpm_queues::proofs::Finding::found_none))]
    fn is_any_aborted(&self) -> bool
        ensures { result ≡ is_any_aborted self.now.kernel.dispatcher.procs }
    {
        for number in 0..32 {
            if self.is_aborted(Pid(number)) {
                return true;
            }
        }
        false
    }
}
