ghost use Rattle.std.specs.Prelude.{◌≡◌};

use crate::Kernel;
use mpm_base::Pid;
use mpm_service::{Service, Turn};

impl Kernel {
    ghost use Rattle.mpm_kernel.specs.Kernel.{IsSoundKernel, BecomesSound};
    ghost use Rattle.mpm_kernel.specs.Disk.{is_served, in_turns, waiting_for_disk, TurnsDisk, FinishesCall};
    ghost use Rattle.mpm_kernel.specs.Parts.{BeginsService, PassesSteps};
    ghost use Rattle.mpm_kernel.specs.Asking.{MayWaitForDisk, MayTurnDisk, MayBeginDiskCall, MayPassDisk, MayEndDiskCall};
    ghost use Rattle.mpm_kernel.specs.Leaving.{KeepsSoundKernel, EndsDiskCall};

    /// The disk serves in turns of so many steps, and nobody yet, where `Kernel::new` lets no call wait for it. It is called before
    /// any does.
    pub fn set_disk_turn(&mut self, turn_steps: u32)
        ensures { KeepsSoundKernel (in_turns turn_steps self.old) self.old self.new }
    {
        self.disk = Service::new(turn_steps);
    }

    /// The service of the disk: who waits, who is served, and what its next step is.
    pub fn disk(&self) -> &Service
        ensures { result.now ≡ self.now.disk }
    {
        &self.disk
    }

    /// Whether the call of a process is in service.
    #[tactic(auto, using(crate::proofs::DiskLaws::served_is, crate::proofs::DiskLaws::served_none))]
    pub fn is_served(&self, p: Pid) -> bool
        ensures { result ≡ is_served self.now p }
    {
        match self.disk.serving() {
            Some(served) => served == p,
            None => false,
        }
    }

    /// The file call of a ready process waits for the disk from now on, after all of equal or better priority: the process runs no
    /// more, and stands in no list of the dispatcher.
    #[tactic(auto, using(crate::proofs::DiskLaws::ready_waits_not, crate::proofs::DiskLaws::ready_served_not), unfolding(crate::specs::Disk::waiting_for_disk))]
    pub fn wait_for_disk(&mut self, p: Pid)
        requires { MayWaitForDisk p self.old }
        ensures { BecomesSound (waiting_for_disk p self.old) self.new }
    {
        let priority = self.dispatcher.procs.get(p).priority;
        self.dispatcher.unlist(p);
        self.dispatcher.rest(p);
        self.disk.enter(p, priority);
    }

    /// A step of the disk. After the `last` turn of a call its process stands nowhere, until `end_disk_call` makes it ready; then
    /// it is made once more, so that the next call enters service. It asks that `begin_disk_call` followed each `Starts`.
    pub fn turn_disk(&mut self) -> Turn
        requires { MayTurnDisk self.old }
        ensures { TurnsDisk self.old self.new result }
    {
        self.disk.turn()
    }

    /// The call that has just entered service takes so many turns, of which the first begins with the disk's next step.
    pub fn begin_disk_call(&mut self, turns: u32)
        requires { MayBeginDiskCall turns self.old }
        ensures { BeginsService turns self.old self.new }
    {
        self.disk.begin(turns);
    }

    /// So many steps of the disk at once, that only pass.
    pub fn pass_disk(&mut self, steps: u32)
        requires { MayPassDisk steps self.old }
        ensures { PassesSteps steps self.old self.new }
    {
        self.disk.pass(steps);
    }

    /// The call in service ends without further steps of the disk: how many turns were left to it. Its process stands nowhere then,
    /// until `end_disk_call` makes it ready.
    pub fn finish_disk_call(&mut self) -> u32
        requires sound { IsSoundKernel self.old }
        ensures { FinishesCall self.old self.new result }
    {
        self.disk.finish()
    }

    /// The process whose call at the disk is over is ready again.
    pub fn end_disk_call(&mut self, p: Pid)
        requires { MayEndDiskCall p self.old }
        ensures { EndsDiskCall p self.old self.new }
    {
        self.dispatcher.make_one_ready(Some(p));
    }
}
