ghost use Rattle.std.specs.Prelude.{◌≡◌, ℕ, ◌∷◌, [], Some, None, IfOk, IfSome};
ghost use Rattle.std.specs.List.{AllByRecursion};
ghost use Rattle.mpm_base.specs.declared.call.Outcome.TheVariants.{Held as IsHeld, Retry as IsRetry};
ghost use Rattle.mpm_procs.specs.Table.{Lives, lowest_free};
ghost use Rattle.mpm_ready.specs.Order.{first_of};
ghost use Rattle.mpm_ready.specs.Tables.{list_at, list_of};
ghost use Rattle.mpm_dispatcher.specs.Dispatch.{ready, new_dispatcher, at_rest, descheduled, unlisted, moved, made_ready, all_ready, all_woken, with_completed, with_other, behind_equals, with_priority, runner_behind as behind_runner, is_held_off, stays as keeps_on, picked};
ghost use Rattle.mpm_dispatcher.specs.Calling.{AdmitsProcess, LivesReady, PutsOff, MayMove, MayEmpty, EmptiesList, HandsOutFirst, MayWakeOther, IsDoneCall};

use crate::{Completed, OutOfMemory};
use mpm_base::{Outcome, Pid, Reply};
use mpm_clock::Woken;
use mpm_procs::{NewProcess, NoSlot, Procs};
use mpm_ready::Lists;
use std::alloc::Global;
use z80_regs::Regs;

/// The number of the ready list.
pub const READY: u8 = 0;

/// The processes, the lists in which they stand, the one that runs, and those whose held calls were completed.
#[derive(Drop)]
pub struct Dispatcher {
    /// The processes, by slot.
    pub procs: Procs,
    /// The lists in which they stand: that of the number `READY`, and those that the kernel gives a meaning.
    pub lists: Lists,
    /// The process that runs.
    pub running: Option<Pid>,
    /// Those whose held calls were completed and are still to be answered.
    pub completed: Completed,
}

impl Dispatcher {
    /// No process lives. All memory that will be needed is taken here.
    ///
    /// # Errors
    /// Where no memory is found.
    #[tactic(auto, unfolding(crate::specs::Dispatch::new_dispatcher))]
    pub fn new(alloc: Global) -> Result<Dispatcher, OutOfMemory>
        ensures { IfOk result (λ dispatcher. dispatcher ≡ new_dispatcher) }
    {
        Ok(Dispatcher {
            procs: Procs::new(alloc)?,
            lists: Lists::new(),
            running: None,
            completed: Completed::new(),
        })
    }

    /// The first process of the ready list.
    pub fn first_ready(&self) -> Option<Pid>
        ensures { result ≡ first_of (list_at self.now.lists ready) }
    {
        self.lists.first(READY)
    }

    /// Adds a process, which is ready, in the lowest free slot, that of a process in no list.
    ///
    /// # Errors
    /// `NoSlot` where 32 processes live; then nothing changes.
    pub fn admit(&mut self, new: NewProcess) -> Result<Pid, NoSlot>
        requires { (p : ℕ) → lowest_free self.old.procs ≡ Some p → list_of self.old.lists p ≡ None }
        ensures { AdmitsProcess new self.old self.new result }
    {
        let priority = new.priority;
        let p = match self.procs.add(new) {
            Ok(p) => p,
            Err(NoSlot) => return Err(NoSlot),
        };
        self.lists.insert(READY, p, priority);
        Ok(p)
    }

    /// Picks the process that runs after a step: the first that is ready. After an instruction the running process keeps
    /// the processor while it is ready and no interrupt may come.
    #[tactic(auto, unfolding(crate::specs::Dispatch::runner))]
    pub fn pick(&mut self, instruction: bool)
        requires { (p : ℕ) → self.old.running ≡ Some p → Lives self.old.procs p }
        ensures { self.new ≡ picked instruction self.old }
    {
        if instruction && self.stays() {
            return;
        }
        self.running = self.lists.first(READY);
    }

    /// Whether the running process keeps the processor after its instruction: it is ready, and no interrupt may come.
    fn stays(&self) -> bool
        requires { (p : ℕ) → self.now.running ≡ Some p → Lives self.now.procs p }
        ensures { result ≡ keeps_on self.now.procs self.now.lists self.now.running }
    {
        match self.running {
            Some(p) => self.lists.list_of(p) == Some(READY) && holds_off(&self.procs.get(p).regs),
            None => false,
        }
    }

    /// A ready process is put after those of its priority.
    #[cold]
    #[inline(never)]
    pub fn rotate(&mut self, p: Pid)
        requires { LivesReady p self.old }
        ensures { self.new ≡ behind_equals p self.old }
    {
        let priority = self.procs.get(p).priority;
        self.lists.rotate(p, priority);
    }

    /// A ready process gets another priority, and is put after those of it.
    #[cold]
    #[inline(never)]
    #[tactic(auto, using(mpm_procs::proofs::MapLaws::lives_changed))]
    pub fn set_priority(&mut self, p: Pid, priority: u8)
        requires { LivesReady p self.old }
        ensures { self.new ≡ with_priority p priority self.old }
    {
        let process = self.procs.get_mut(p);
        process.priority = priority;
        self.rotate(p);
    }

    /// The process that runs, if it is ready, is put after its equals.
    #[tactic(auto, unfolding(crate::specs::Dispatch::lists_behind))]
    pub fn runner_behind(&mut self)
        requires { (p : ℕ) → self.old.running ≡ Some p → Lives self.old.procs p }
        ensures { self.new ≡ behind_runner self.old }
    {
        if let Some(p) = self.running {
            if self.lists.list_of(p) == Some(READY) {
                self.rotate(p);
            }
        }
    }

    /// A process doesn't run any more.
    pub fn rest(&mut self, p: Pid)
        ensures { self.new ≡ at_rest p self.old }
    {
        if self.running == Some(p) {
            self.running = None;
        }
    }

    /// The call of a process is held: the process doesn't run any more.
    pub fn hold(&mut self, p: Pid, reply: &mut Reply) -> Outcome
        ensures { PutsOff (at_rest p self.old) IsHeld self.new result reply.new }
    {
        self.rest(p);
        reply.answer(0);
        Outcome::Held
    }

    /// A call isn't done: its process takes the step at its gate again once it is ready.
    pub fn retry(&mut self, p: Pid, reply: &mut Reply) -> Outcome
        ensures { PutsOff (descheduled p self.old) IsRetry self.new result reply.new }
    {
        self.unlist(p);
        self.rest(p);
        reply.answer(0);
        Outcome::Retry
    }

    /// A process stands in no list any more.
    pub fn unlist(&mut self, p: Pid)
        ensures { self.new ≡ unlisted p self.old }
    {
        let _list = self.lists.remove(p);
    }

    /// A living process stands in that list from now on, where its priority puts it.
    #[tactic(auto, using(mpm_ready::proofs::TableLaws::list_of_removed))]
    pub fn move_to(&mut self, p: Pid, list: u8)
        requires { MayMove p list self.old }
        ensures { self.new ≡ moved list p self.old }
    {
        let priority = self.procs.get(p).priority;
        let _list = self.lists.remove(p);
        self.lists.insert(list, p, priority);
    }

    /// Processes become ready, one after the other.
    pub fn make_ready(&mut self, ps: &[Pid])
        requires { AllByRecursion (λ p. Lives self.old.procs p) ps.now }
        ensures { self.new ≡ all_ready ps.now self.old }
    {
        for &p in ps {
            self.move_to(p, READY);
        }
    }

    /// The held call of a process is completed.
    pub fn wake_one(&mut self, p: Pid)
        requires { Lives self.old.procs p }
        ensures { self.new ≡ all_woken (p ∷ []) self.old }
    {
        let mut woken = Woken::new();
        woken.push(p);
        self.wake(woken);
    }

    /// The held calls of processes are completed: they become ready, in that order.
    pub fn wake(&mut self, woken: Woken)
        requires { AllByRecursion (λ p. Lives self.old.procs p) woken }
        ensures { self.new ≡ all_woken woken self.old }
    {
        self.make_ready(woken.as_slice());
        self.complete(woken);
    }

    /// The held calls of processes are completed.
    pub fn complete(&mut self, woken: Woken)
        ensures { self.new ≡ with_completed woken self.old }
    {
        self.completed.set(woken);
    }

    /// Those of a list become ready, one after the other; answers them, in order.
    pub fn empty(&mut self, list: u8) -> Woken
        requires { MayEmpty list self.old }
        ensures { EmptiesList list self.old self.new result }
    {
        let mut woken = Woken::new();
        while let Some(p) = self.lists.first(list) {
            self.move_to(p, READY);
            woken.push(p);
        }
        woken
    }

    /// Hands out the process whose held call was completed first.
    pub fn hand_out(&mut self) -> Option<Pid>
        ensures { HandsOutFirst self.old self.new result }
    {
        self.completed.take()
    }

    /// A process becomes ready, if there is one.
    #[tactic(auto, unfolding(crate::specs::Dispatch::lists_ready))]
    pub fn make_one_ready(&mut self, p: Option<Pid>)
        requires { IfSome p (λ p. Lives self.old.procs p) }
        ensures { self.new ≡ made_ready p self.old }
    {
        if let Some(p) = p {
            self.move_to(p, READY);
        }
    }

    /// The held call of another process, if any, is completed, after those that were.
    #[tactic(auto, unfolding(crate::specs::Dispatch::lists_ready, crate::specs::Dispatch::also_completed))]
    pub fn wake_other(&mut self, other: Option<Pid>)
        requires { MayWakeOther other self.old }
        ensures { self.new ≡ with_other other self.old }
    {
        if let Some(p) = other {
            self.move_to(p, READY);
            self.completed.push(p);
        }
    }
}

/// A call is done and answers a value.
pub fn done(reply: &mut Reply, value: u16) -> Outcome
    ensures { IsDoneCall value result reply.new }
{
    reply.answer(value);
    Outcome::Done
}

/// Whether interrupts are off, or an EI has not taken effect yet.
fn holds_off(regs: &Regs) -> bool
    ensures { result ≡ is_held_off regs.now }
{
    !regs.iff1 || regs.shadow
}
