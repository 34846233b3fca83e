ghost use Rattle.std.specs.Prelude.{◌≡◌, length, Some, None, IfOk, MatchOption};
ghost use Rattle.std.specs.Borrow.{sem};

use crate::OutOfMemory;
use crate::completion::complete;
use mpm_banks::{Banks, Burst};
use mpm_base::{Call, Devices, Pid, Reply, Seg};
use mpm_clock::{Clock, Moment};
use mpm_consoles::Consoles;
use mpm_dispatcher::Dispatcher;
use mpm_flags::Flags;
use mpm_line_input::Echo;
use mpm_procs::{NewProcess, NoSlot, Process};
use mpm_queues::Queues;
use mpm_service::Service;
use std::alloc::Global;
use std::marker::Model;
use z80_regs::Regs;

/// The kernel of a machine.
#[derive(Drop)]
pub struct Kernel {
    pub(crate) dispatcher: Dispatcher,
    pub(crate) flags: Flags,
    pub(crate) clock: Clock,
    pub(crate) devices: Devices,
    pub(crate) units: Consoles,
    pub(crate) queues: Queues,
    pub(crate) system_queues: u8,
    pub(crate) disk: Service,
    pub(crate) echo: Echo,
    pub(crate) aborted: Option<Pid>,
}

impl Model for Kernel {
    ghost use Rattle.mpm_kernel.specs.Kernel.{Kernel};

    ghost Value = { Kernel };

    ghost view = { λ k. record { dispatcher = k.dispatcher; flags = k.flags; clock = k.clock; devices = k.devices; units = k.units; queues = k.queues; system_queues = k.system_queues; disk = k.disk; echo = k.echo; aborted = k.aborted } };
}

impl Kernel {
    ghost use Rattle.mpm_procs.specs.Table.{Lives, lives, process_at, process_in, call_of, free_slots};
    ghost use Rattle.mpm_ready.specs.Order.{first_of};
    ghost use Rattle.std.specs.Prelude.{is_some};
    ghost use Rattle.mpm_ready.specs.Tables.{list_at};
    ghost use Rattle.mpm_queues.specs.Queues.{lowest_held};
    ghost use Rattle.mpm_dispatcher.specs.Dispatch.{ready, picked};
    ghost use Rattle.mpm_dispatcher.specs.Calling.{TellsWhetherSome};
    ghost use Rattle.mpm_kernel.specs.Kernel.{IsSoundKernel, CompletedLive, BecomesSound, call_begun, afresh, new_kernel, dispatched};
    ghost use Rattle.mpm_kernel.specs.Lending.{KernelLendsProcess, LendsRegs, KernelLendsCall, LendsDevices};
    ghost use Rattle.mpm_kernel.specs.Asking.{MayBeKernel, MayLendToBurst};
    ghost use Rattle.mpm_kernel.specs.Leaving.{LendsToBurst, AdmitsToKernel, TellsMoment, HandsOutCall};

    /// The kernel of a machine with 1 to 8 consoles and at most 4 printers, in which no process lives, at a moment. No call waits
    /// for its disk.
    ///
    /// # Errors
    /// Where no memory is found. All that it will need is taken here.
    #[tactic(auto, unfolding(crate::specs::Kernel::new_kernel))]
    pub fn new(
        alloc: Global,
        consoles: u8,
        printers: u8,
        now: Moment,
    ) -> Result<Kernel, OutOfMemory>
        requires { MayBeKernel consoles printers now }
        ensures { IfOk result (λ kernel. BecomesSound (new_kernel consoles printers now) kernel) }
    {
        Ok(Kernel {
            dispatcher: Dispatcher::new(alloc)?,
            flags: Flags::new(),
            clock: Clock::new(now.date, now.hour, now.minute, now.second),
            devices: Devices::new(),
            units: Consoles::new(alloc, consoles, printers)?,
            queues: Queues::new(alloc)?,
            system_queues: 0,
            disk: Service::new(0),
            echo: Echo::new(),
            aborted: None,
        })
    }

    /// The number of consoles.
    pub fn consoles(&self) -> u8
        ensures { result ≡ length self.now.units.consoles }
    {
        self.units.consoles()
    }

    /// The number of printers.
    pub fn printers(&self) -> u8
        ensures { result ≡ length self.now.units.printers }
    {
        self.units.printers()
    }

    /// The process that runs.
    pub fn running(&self) -> Option<Pid>
        ensures { result ≡ self.now.dispatcher.running }
    {
        self.dispatcher.running
    }

    /// Whether a process holds the message of a mutual exclusion queue. (MP/M II Programmer's Guide, "Mutual Exclusion
    /// Queues".)
    pub fn holds(&self, p: Pid) -> bool
        ensures { result ≡ is_some (lowest_held self.now.queues p) }
    {
        self.queues.held(p).is_some()
    }

    /// The first process of the ready list.
    pub fn first_ready(&self) -> Option<Pid>
        ensures { result ≡ first_of (list_at self.now.dispatcher.lists ready) }
    {
        self.dispatcher.first_ready()
    }

    /// Whether a process of that number lives.
    pub fn lives(&self, p: Pid) -> bool
        ensures { result ≡ lives self.now.dispatcher.procs p }
    {
        self.dispatcher.procs.lives(p)
    }

    /// How many more processes may live.
    pub fn free_slots(&self) -> usize
        ensures { result ≡ free_slots self.now.dispatcher.procs }
    {
        self.dispatcher.procs.free_slots()
    }

    /// The process of that number, None where it doesn't live.
    pub fn process(&self, p: Pid) -> Option<&Process>
        ensures { MatchOption result (process_at self.now.dispatcher.procs p ≡ None) (λ process. process_at self.now.dispatcher.procs p ≡ Some process.now) }
    {
        if self.dispatcher.procs.lives(p) {
            Some(self.dispatcher.procs.get(p))
        } else {
            None
        }
    }

    /// A living process.
    pub fn living(&self, p: Pid) -> &Process
        requires { Lives self.now.dispatcher.procs p }
        ensures { result.now ≡ process_in self.now.dispatcher.procs p }
    {
        self.dispatcher.procs.get(p)
    }

    /// A living process's registers.
    pub fn regs(&self, p: Pid) -> &Regs
        requires { Lives self.now.dispatcher.procs p }
        ensures { result.now ≡ (process_in self.now.dispatcher.procs p).regs }
    {
        &self.dispatcher.procs.get(p).regs
    }

    /// The memory segment that a living process has.
    pub fn segment(&self, p: Pid) -> Option<Seg>
        requires { Lives self.now.dispatcher.procs p }
        ensures { result ≡ (process_in self.now.dispatcher.procs p).seg }
    {
        self.dispatcher.procs.get(p).seg
    }

    /// A living process, to be changed.
    pub fn process_mut(&mut self, p: Pid) -> &mut Process
        requires { Lives self.old.dispatcher.procs p }
        ensures* lends { sem 𝓛 (KernelLendsProcess self.entry p result) }
        ensures value { result.now ≡ process_in self.old.dispatcher.procs p }
    {
        self.dispatcher.procs.get_mut(p)
    }

    /// A living process's registers, to be changed.
    pub fn regs_mut(&mut self, p: Pid) -> &mut Regs
        requires { Lives self.old.dispatcher.procs p }
        ensures* lends { sem 𝓛 (LendsRegs self.entry p result) }
        ensures value { result.now ≡ (process_in self.old.dispatcher.procs p).regs }
    {
        let process = self.dispatcher.procs.get_mut(p);
        &mut process.regs
    }

    /// The call that a living process keeps.
    pub fn kept_call(&self, p: Pid) -> &Call
        requires { Lives self.now.dispatcher.procs p }
        ensures { result.now ≡ call_of self.now.dispatcher.procs p }
    {
        self.dispatcher.procs.call(p)
    }

    /// The call that a living process keeps, to be changed.
    pub fn call_mut(&mut self, p: Pid) -> &mut Call
        requires { Lives self.old.dispatcher.procs p }
        ensures* lends { sem 𝓛 (KernelLendsCall self.entry p result) }
        ensures value { result.now ≡ call_of self.old.dispatcher.procs p }
    {
        self.dispatcher.procs.call_mut(p)
    }

    /// The polled devices.
    pub fn devices_mut(&mut self) -> &mut Devices
        ensures* lends { sem 𝓛 (LendsDevices self.entry result) }
        ensures value { result.now ≡ self.old.devices }
    {
        &mut self.devices
    }

    /// Does a burst of what a living process of a segment does. Its registers and the devices are lent, not copied.
    #[inline(always)]
    pub fn run_burst<B: Burst>(&mut self, p: Pid, burst: &B, seg: Seg, banks: &mut Banks) -> u64
        requires { MayLendToBurst p seg banks.old self.old }
        ensures { LendsToBurst (B.ran burst.now) p seg self.old self.new banks.old banks.new result }
    {
        let process = self.dispatcher.procs.get_mut(p);
        banks.run(burst, seg, &mut process.regs, &mut self.devices)
    }

    /// Adds a process, which is ready, in the lowest free slot.
    ///
    /// # Errors
    /// `NoSlot` where 32 processes live; then nothing changes.
    #[tactic(auto, using(crate::proofs::SoundLaws::free_is_unlisted))]
    pub fn admit(&mut self, new: NewProcess) -> Result<Pid, NoSlot>
        requires { IsSoundKernel self.old }
        ensures { AdmitsToKernel new self.old self.new result }
    {
        self.dispatcher.admit(new)
    }

    /// A call begins: it has completed no held call yet, and one that echoes has echoed nothing.
    pub(crate) fn begin_call(&mut self, echoes: bool)
        ensures { self.new ≡ call_begun echoes self.old }
    {
        self.dispatcher.completed.clear();
        if echoes {
            self.echo = Echo::new();
        }
    }

    /// An event begins: nothing is left to be handed out.
    pub(crate) fn begin_event(&mut self)
        ensures { self.new ≡ afresh self.old }
    {
        self.dispatcher.completed.clear();
        self.echo = Echo::new();
        self.aborted = None;
    }

    /// The date and the time.
    pub fn now(&self) -> Moment
        ensures { TellsMoment self.now.clock result }
    {
        self.clock.now()
    }

    /// Whether held calls were completed by the last call or event that were not handed out yet: at most 64.
    #[inline]
    pub fn has_completed(&self) -> bool
        ensures { TellsWhetherSome self.now.dispatcher.completed result }
    {
        self.dispatcher.completed.has_some()
    }

    /// Hands out the process whose held call was completed first by the last call or event, with that call's reply. Where it
    /// called a resident procedure it is in that one then.
    #[tactic(auto, using(crate::proofs::SoundLaws::completed_lives), unfolding(crate::specs::Events::handed_out))]
    pub fn completed(&mut self, reply: &mut Reply) -> Option<Pid>
        requires { CompletedLive self.old }
        ensures { HandsOutCall self.old self.new reply.old reply.new result }
    {
        let p = self.dispatcher.hand_out()?;
        complete(self.dispatcher.procs.call(p), reply);
        self.enter_where_held(p);
        Some(p)
    }

    /// Picks the process that runs after a step: the first that is ready. After an instruction the running process keeps
    /// the processor while it is ready and no interrupt may come.
    pub fn pick(&mut self, instruction: bool)
        requires { IsSoundKernel self.old }
        ensures { BecomesSound (dispatched (picked instruction) self.old) self.new }
    {
        self.dispatcher.pick(instruction);
    }
}
