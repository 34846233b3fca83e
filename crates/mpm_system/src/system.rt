ghost use Rattle.std.specs.Prelude.{◌≡◌};
ghost use Rattle.mpm_procs.specs.Table.{Lives};

use crate::owed::Owed;
use crate::records::Records;
use mpm_banks::Banks;
use mpm_base::Pid;
use mpm_interrupts::Schedule;
use mpm_kernel::Kernel;
use mpm_residents::Residents;

/// What a machine keeps from step to step.
#[derive(Drop)]
pub struct System {
    /// The steps done.
    pub steps: u64,
    pub interrupts: Schedule,
    pub kernel: Kernel,
    pub memory: Banks,
    /// Whether an end by an abort may be put off: where this is false, none is.
    pub abort_deferred: bool,
    pub residents: Residents,
    /// The records of the calls that this step completed.
    pub records: Records,
    /// Those who ended owe what they had open and marked, until it is given back.
    pub owed: Owed,
}

impl System {
    ghost use Rattle.mpm_system.specs.Procedures.{is_inside};

    /// Whether a process is in a resident procedure.
    pub fn is_inside(&self, p: Pid) -> bool
        requires { Lives self.now.kernel.dispatcher.procs p }
        ensures { result ≡ is_inside self.now.kernel.dispatcher.procs p }
    {
        self.kernel.living(p).procedure.is_some()
    }
}
