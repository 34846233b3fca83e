ghost use Rattle.mpm_script.specs.declared.line.TheConstants.{GREATEST_STEP};

use crate::interrupts::Interrupts;
use mpm_script::{Event, Script};
use std::marker::Model;

/// The interrupts that are to come, and a step before which none of them is due, so that most steps ask no more than that.
/// Contracts see the interrupts.
#[derive(Drop)]
pub struct Schedule {
    interrupts: Interrupts,
    next: u64,
}

impl Model for Schedule {
    ghost use Rattle.std.specs.Prelude.{◌≡◌, ◌<◌, ℕ, None};
    ghost use Rattle.mpm_interrupts.specs.Interrupts.{due};
    ghost use Rattle.mpm_interrupts.specs.declared.interrupts.Interrupts.{Interrupts};

    ghost Value = { Interrupts };

    ghost view = { λ schedule. schedule.interrupts };

    ghost invariant = { λ schedule. ((step : ℕ) → step < schedule.next → due step schedule.interrupts ≡ None) };
}

impl Schedule {
    ghost use Rattle.std.specs.Prelude.{◌≡◌, ◌<◌, ◌≤◌, ℕ, None, is_some, All};
    ghost use Rattle.mpm_script.specs.Events.{IsTimed};
    ghost use Rattle.mpm_interrupts.specs.Interrupts.{TakesDue, due, due_taken};

    /// The ticks and the events of a script, of which none was accepted yet.
    pub fn new(tick_every: u32, script: Script) -> Schedule
        ensures interrupts { result ≡ record { tick_every = tick_every; ticks = 0; script = script } }
        ensures script { All IsTimed script }
    {
        let interrupts = Interrupts::new(tick_every, script);
        let next = interrupts.next_step();
        Schedule { interrupts, next }
    }

    /// Takes the event that is due at a step, if any.
    #[tactic(auto, using(crate::proofs::InterruptLaws::none_taken))]
    pub fn take_due(&mut self, step: u64) -> Option<Event>
        requires { step ≤ GREATEST_STEP }
        ensures { TakesDue (due step self.old) (due_taken step self.old) self.old self.new result }
    {
        if step < self.next {
            return None;
        }
        let event = self.interrupts.take_due(step);
        self.next = self.interrupts.next_step();
        event
    }

    /// Whether an event is due at a step.
    pub fn is_due(&self, step: u64) -> bool
        ensures { result ≡ is_some (due step self.now) }
    {
        self.next <= step && self.interrupts.is_due(step)
    }

    /// A step before which nothing is due.
    #[inline]
    pub fn next_step(&self) -> u64
        ensures { (step : ℕ) → step < result → due step self.now ≡ None }
    {
        self.next
    }
}
