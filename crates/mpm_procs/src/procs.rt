ghost use Rattle.std.specs.Prelude.{◌≡◌, Some, None, ◌<◌, ◌↔◌, IsErr, IsNone, IfSome, IfOk, OnErr, false, not, position, replicate};
ghost use Rattle.mpm_base.specs.Calls.{no_call};
ghost use Rattle.std.specs.Borrow.{sem};
ghost use Rattle.mpm_procs.specs.Opening.{blank};

use crate::OutOfMemory;
use crate::process::{NewProcess, Process};
use mpm_base::{Call, Pid};
use std::alloc::Global;
use std::marker::Model;

/// The number of slots.
const SLOTS: usize = 32;

/// Every slot is taken: 32 processes live.
#[derive(Clone, Copy, Debug, PartialEq, Eq)]
pub struct NoSlot;

/// The table of processes: 32 slots, and the call that each process keeps.
#[derive(Drop)]
pub struct Procs {
    alive: Vec<bool>,
    processes: Vec<Process>,
    calls: Vec<Call>,
}

impl Model for Procs {
    ghost use Rattle.mpm_procs.specs.Table.{Table, IsMap};

    ghost Value = { Table };

    ghost view = { λ p. record { alive = p.alive.items; processes = p.processes.items; calls = p.calls.items } };

    ghost invariant = { λ p. IsMap (record { alive = p.alive.items; processes = p.processes.items; calls = p.calls.items }) };
}

impl Procs {
    ghost use Rattle.mpm_procs.specs.Table.{IsMap, no_processes, Lives, lives, process_in, call_of, lowest_free, free_slots, living, added, without};
    ghost use Rattle.mpm_procs.specs.Lending.{LendsProcess, LendsCall};

    /// No processes. All memory that they will need is taken here.
    #[tactic(auto, using(crate::proofs::BlankLaws::map_blank), unfolding(crate::specs::Table::no_processes))]
    pub fn new(alloc: Global) -> Result<Procs, OutOfMemory>
        ensures { IfOk result (λ procs. procs ≡ no_processes) }
    {
        let alive = nobody(alloc)?;
        let processes = blank_processes(alloc)?;
        let calls = empty_calls(alloc)?;
        Ok(Procs {
            alive,
            processes,
            calls,
        })
    }

    /// Whether a process lives in that slot.
    pub fn lives(&self, p: Pid) -> bool
        ensures lives { result ≡ lives self.now p }
        ensures map { IsMap self.now }
    {
        self.alive[p.0 as usize]
    }

    /// In how many slots nobody lives.
    #[tactic(auto, unfolding(crate::specs::Table::free_slots))]
    pub fn free_slots(&self) -> usize
        ensures { result ≡ free_slots self.now }
    {
        self.alive.iter().filter(|lives| !**lives).count()
    }

    /// A new process, in the lowest free slot.
    ///
    /// # Errors
    /// `NoSlot` where 32 processes live; then nothing changes.
    #[tactic(auto, unfolding(crate::specs::Table::added))]
    pub fn add(&mut self, new: NewProcess) -> Result<Pid, NoSlot>
        ensures slot { IfOk result (λ p. lowest_free self.old ≡ Some p) }
        ensures table { IfOk result (λ p. self.new ≡ added self.old p new) }
        ensures refused { OnErr result ((lowest_free self.old ≡ None) × (self.new ≡ self.old)) }
        ensures full { IsErr result ↔ (living self.old ≡ 32) }
    {
        match self.lowest_free() {
            Some(slot) => {
                self.alive[slot] = true;
                self.processes[slot] = Process::begin(&new);
                self.calls[slot] = Call::new();
                Ok(Pid(slot as u8))
            }
            None => Err(NoSlot),
        }
    }

    /// The lowest slot in which nobody lives; none exactly where 32 processes live.
    #[tactic(auto, unfolding(crate::specs::Table::lowest_free))]
    fn lowest_free(&self) -> Option<usize>
        ensures slot { result ≡ lowest_free self.now }
        ensures below { IfSome result (λ slot. slot < 32) }
        ensures full { IsNone result ↔ (living self.now ≡ 32) }
    {
        first_free(self.alive.as_slice())
    }

    /// The process ends; its slot is free.
    #[tactic(auto, unfolding(crate::specs::Table::without))]
    pub fn end(&mut self, p: Pid)
        ensures { self.new ≡ without self.old p }
    {
        let slot = p.0 as usize;
        self.alive[slot] = false;
        self.processes[slot] = Process::none();
        self.calls[slot] = Call::new();
    }

    /// The process of that number.
    pub fn get(&self, p: Pid) -> &Process
        requires { Lives self.now p }
        ensures { result.now ≡ process_in self.now p }
    {
        &self.processes[p.0 as usize]
    }

    /// The process of that number, to be changed.
    #[tactic(auto, unfolding(crate::specs::Table::with_process))]
    pub fn get_mut(&mut self, p: Pid) -> &mut Process
        requires { Lives self.old p }
        ensures* lends { sem 𝓛 (LendsProcess self.entry p result) }
        ensures value { result.now ≡ process_in self.old p }
    {
        &mut self.processes[p.0 as usize]
    }

    /// The call that the process keeps.
    pub fn call(&self, p: Pid) -> &Call
        requires { Lives self.now p }
        ensures { result.now ≡ call_of self.now p }
    {
        &self.calls[p.0 as usize]
    }

    /// The call that the process keeps, to be changed.
    #[tactic(auto, unfolding(crate::specs::Table::with_call))]
    pub fn call_mut(&mut self, p: Pid) -> &mut Call
        requires { Lives self.old p }
        ensures* lends { sem 𝓛 (LendsCall self.entry p result) }
        ensures value { result.now ≡ call_of self.old p }
    {
        &mut self.calls[p.0 as usize]
    }
}

/// The first slot in which nobody lives.
fn first_free(alive: &[bool]) -> Option<usize>
    ensures { result ≡ position not alive.now }
{
    alive.iter().position(|lives| !*lives)
}

/// That nobody lives, for each slot.
fn nobody(alloc: Global) -> Result<Vec<bool>, OutOfMemory>
    ensures { IfOk result (λ alive. alive.items ≡ replicate 32 false) }
{
    let mut alive = Vec::with_capacity(alloc, SLOTS)?;
    alive.resize(SLOTS, false)?;
    Ok(alive)
}

/// A blank process for each slot.
fn blank_processes(alloc: Global) -> Result<Vec<Process>, OutOfMemory>
    ensures { IfOk result (λ processes. processes.items ≡ replicate 32 blank) }
{
    let mut processes = Vec::with_capacity(alloc, SLOTS)?;
    processes.resize(SLOTS, Process::none())?;
    Ok(processes)
}

/// A call with nothing in it for each slot.
fn empty_calls(alloc: Global) -> Result<Vec<Call>, OutOfMemory>
    ensures { IfOk result (λ calls. calls.items ≡ replicate 32 no_call) }
{
    let mut calls = Vec::with_capacity(alloc, SLOTS)?;
    for _slot in 0..SLOTS {
        calls.push(Call::new())?;
    }
    Ok(calls)
}
