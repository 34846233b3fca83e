use crate::Kernel;
use mpm_base::{FAILURE_CODE, Outcome, Pid, Reply};
use mpm_clock::moment_in;
use mpm_dispatcher::done;

impl Kernel {
    ghost use Rattle.mpm_procs.specs.Table.{Lives, call_of};
    ghost use Rattle.mpm_kernel.specs.Dates.{date_set};
    ghost use Rattle.mpm_kernel.specs.Called.{Yields};

    /// A process sets the date and the time. (MP/M II Programmer's Guide, "Function 104: Set Date and Time".)
    #[cold]
    #[inline(never)]
    #[tactic(auto, unfolding(crate::specs::Dates::date_set))]
    pub(crate) fn set_date(&mut self, p: Pid, reply: &mut Reply) -> Outcome
        requires { Lives self.old.dispatcher.procs p }
        ensures { Yields (date_set (call_of self.old.dispatcher.procs p) self.old) self.new result reply.new }
    {
        match moment_in(self.dispatcher.procs.call(p)) {
            Some(moment) => {
                self.clock.set(moment);
                done(reply, 0)
            }
            None => done(reply, FAILURE_CODE),
        }
    }
}
