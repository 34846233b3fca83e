ghost use Rattle.std.specs.Prelude.{◌≡◌, length};
ghost use Rattle.std.specs.List.{range_with_len};

use crate::Kernel;
use mpm_base::Pid;
use mpm_consoles::Unit;

impl Kernel {
    ghost use Rattle.mpm_kernel.specs.Kernel.{IsSoundKernel, LivesInKernel};
    ghost use Rattle.mpm_kernel.specs.Ending.{dropped_out, all_returned, consoles_left, printers_left};
    ghost use Rattle.mpm_kernel.specs.Asking.{MayReturnHeld};
    ghost use Rattle.mpm_kernel.specs.Parts.{Discharges};

    /// A process ends: it stands in no list and waits for nothing. The message of its resident procedure goes back, and then those of the
    /// mutual exclusion queues that it holds, by rising number. Its consoles and then its printers pass on by number, each to the process
    /// that waits for it first. Its slot is free then, and it holds nothing. The held calls that are completed by that are handed out in
    /// the order in which they were.
    #[tactic(auto, using(crate::proofs::EndingLaws::lives_dropped, crate::proofs::EndingLaws::few_given_back))]
    pub fn discharge(&mut self, p: Pid)
        requires { LivesInKernel p self.old }
        ensures { Discharges p self.old self.new }
    {
        self.drop_out(p);
        self.put_back(p);
        self.return_held(p);
        self.leave_consoles(p);
        self.leave_printers(p);
        self.dispatcher.procs.end(p);
    }

    /// A process stands in no list any more, waits for nothing, and has no call at the disk.
    #[tactic(auto, unfolding(crate::specs::Ending::dropped_out))]
    fn drop_out(&mut self, p: Pid)
        ensures { self.new ≡ dropped_out p self.old }
    {
        let _list = self.dispatcher.lists.remove(p);
        self.flags.leave(p);
        self.clock.leave(p);
        self.queues.leave(p);
        self.units.leave(p);
        self.disk.drop_call(p);
        self.dispatcher.rest(p);
    }

    /// The messages of mutual exclusion queues that a process holds go back, by rising number.
    #[tactic(auto, using(crate::proofs::EndingLaws::held_made))]
    fn return_held(&mut self, p: Pid)
        requires { MayReturnHeld p self.old }
        ensures { self.new ≡ all_returned (range_with_len 0 32) p self.old }
    {
        for q in 0..32 {
            if self.queues.holds(p, q) {
                self.write_back(p, q);
            }
        }
    }

    /// The consoles that a process owns pass on, by number.
    fn leave_consoles(&mut self, p: Pid)
        requires { IsSoundKernel self.old }
        ensures { self.new ≡ consoles_left p (length self.old.units.consoles) self.old }
    {
        for n in 0..self.consoles() {
            self.leave_unit(p, Unit::Console { n });
        }
    }

    /// The printers that a process owns pass on, by number.
    fn leave_printers(&mut self, p: Pid)
        requires { IsSoundKernel self.old }
        ensures { self.new ≡ printers_left p (length self.old.units.printers) self.old }
    {
        for n in 0..self.printers() {
            self.leave_unit(p, Unit::Printer { n });
        }
    }
}
