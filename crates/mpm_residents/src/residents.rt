ghost use Rattle.std.specs.Prelude.{◌≡◌, ◌<◌, ◌++◌, ◌∷◌, [], length, true, is_some, option_map, IfOk, IfSome};

use crate::{Act, Cli, Native, Tmp};
use mpm_base::{Call, Pid, Reply};
use mpm_sched::Sched;
use mpm_spool::Spool;
use std::alloc::{AllocError, Global};
use std::marker::Model;

/// How many there are at most: an interpreter, a terminal message processor for each of eight consoles, a spooler and a scheduler.
const MOST: usize = 11;

/// The residents that act, by their slots, of which the first is 0, eleven at most. They stay where they are made, as one takes
/// some 4 KiB.
#[derive(Drop)]
pub struct Residents {
    natives: Vec<Native>,
}

impl Model for Residents {
    ghost use Rattle.std.specs.Prelude.{◌≤◌, List};
    ghost use Rattle.std.specs.Vec.{vec_capacity};
    ghost use Rattle.mpm_residents.specs.declared.native.Native.{Native};

    ghost Value = { List Native };

    ghost view = { λ r. r.natives.items };

    ghost invariant = { λ r. 11 ≤ vec_capacity r.natives };
}

impl Residents {
    ghost use Rattle.mpm_residents.specs.Terminals.{opening};
    ghost use Rattle.mpm_residents.specs.Natives.{native_act, native_call, native_in, interprets_if_there, answer_taken, IsNativeAct};
    ghost use Rattle.mpm_residents.specs.declared.native.Native.TheVariants.{Tmp as Terminal, Cli as Interpreter, Spool as Spooler, Sched as Scheduler};
    ghost use Rattle.mpm_residents.specs.Interpreters.{opening as opening_interpreter, ActsBy};
    ghost use Rattle.mpm_sched.specs.Schedulers.{opening as opening_scheduler};
    ghost use Rattle.mpm_spool.specs.Spoolers.{opening as opening_spooler};

    /// None. Room for eleven is taken here.
    ///
    /// # Errors
    /// Where no memory is found.
    pub fn none(alloc: Global) -> Result<Residents, AllocError>
        ensures { IfOk result (λ residents. residents ≡ []) }
    {
        let natives = Vec::with_capacity(alloc, MOST)?;
        Ok(Residents { natives })
    }

    /// The command line interpreter of a system with so many consoles, one at least, comes into the next slot.
    pub fn add_interpreter(&mut self, consoles: u8)
        requires some { 0 < consoles }
        requires room { length self.old < 11 }
        ensures { self.new ≡ self.old ++ Interpreter (opening_interpreter consoles) ∷ [] }
    {
        self.natives.push_reserved(Native::Cli {
            cli: Cli::new(consoles),
        });
    }

    /// The terminal message processor of a console comes into the next slot.
    pub fn add_terminal(&mut self, console: u8)
        requires { length self.old < 11 }
        ensures { self.new ≡ self.old ++ Terminal (opening console) ∷ [] }
    {
        self.natives.push_reserved(Native::Tmp {
            tmp: Tmp::new(console),
        });
    }

    /// The print spooler comes into the next slot.
    pub fn add_spooler(&mut self)
        requires { length self.old < 11 }
        ensures { self.new ≡ self.old ++ Spooler opening_spooler ∷ [] }
    {
        self.natives.push_reserved(Native::Spool {
            spool: Spool::new(),
        });
    }

    /// The scheduler, whose queue has a number, comes into the next slot.
    pub fn add_scheduler(&mut self, queue: u8)
        requires queue { queue < 32 }
        requires room { length self.old < 11 }
        ensures { self.new ≡ self.old ++ Scheduler (opening_scheduler queue) ∷ [] }
    {
        self.natives.push_reserved(Native::Sched {
            sched: Sched::new(queue),
        });
    }

    /// Whether a resident acts in a slot.
    pub fn has(&self, p: Pid) -> bool
        ensures { result ≡ is_some (native_in self.now p) }
    {
        usize::from(p.0) < self.natives.len()
    }

    /// The number of the function that the resident of a slot calls next, if one acts there.
    pub fn function(&self, p: Pid) -> Option<u8>
        ensures { result ≡ option_map (λ native. (native_call native).function) (native_in self.now p) }
    {
        if self.has(p) {
            Some(self.natives[usize::from(p.0)].function())
        } else {
            None
        }
    }

    /// Whether the command line interpreter acts in a slot.
    pub fn interprets(&self, p: Pid) -> bool
        ensures { result ≡ interprets_if_there (native_in self.now p) }
    {
        self.has(p) && self.natives[usize::from(p.0)].interprets()
    }

    /// What the resident of a slot does next. It fills in the call that it makes, or the bytes that it hands over.
    pub fn ask(&mut self, p: Pid, call: &mut Call) -> Act
        requires { is_some (native_in self.old p) ≡ true }
        ensures residents { self.new ≡ self.old }
        ensures acts { IfSome (native_in self.old p) (λ native. ActsBy native_call native_act (IsNativeAct native) native call.new result) }
    {
        self.natives[usize::from(p.0)].next(call)
    }

    /// The resident of a slot takes the answer to its call.
    pub fn take(&mut self, p: Pid, reply: &Reply)
        requires { is_some (native_in self.old p) ≡ true }
        ensures { self.new ≡ answer_taken (native_in self.old p) reply.now p self.old }
    {
        self.natives[usize::from(p.0)].took(reply);
    }
}
