ghost use Rattle.std.specs.Prelude.{All};
ghost use Rattle.mpm_script.specs.declared.line.TheConstants.{GREATEST_STEP};
ghost use Rattle.mpm_script.specs.Events.{IsTimed};

use mpm_script::{Event, Script, Timed};
use std::marker::Model;

/// The interrupts that are to come: periodic ticks of the clock, and the events of a script.
#[derive(Drop)]
pub struct Interrupts {
    /// How many steps lie between two periodic ticks, 0 where there are none.
    pub tick_every: u32,
    /// How many periodic ticks were accepted.
    pub ticks: u64,
    /// The events of the script that were not accepted yet.
    pub script: Pending,
}

impl Interrupts {
    ghost use Rattle.std.specs.Prelude.{◌≡◌, ◌<◌, ◌≤◌, ℕ, false, None, is_some, All};
    ghost use Rattle.mpm_script.specs.Events.{IsTimed};
    ghost use Rattle.mpm_interrupts.specs.Interrupts.{TakesDue, due, due_taken, is_tick_due};

    /// The ticks and the events of a script, of which none was accepted yet.
    pub fn new(tick_every: u32, script: Script) -> Interrupts
        ensures interrupts { result ≡ record { tick_every = tick_every; ticks = 0; script = script } }
        ensures script { All IsTimed script }
    {
        recall_script(&script);
        Interrupts {
            tick_every,
            ticks: 0,
            script: Pending { script, place: 0 },
        }
    }

    /// Takes the event that is due at a step, if any.
    #[tactic(auto, unfolding(crate::specs::Interrupts::due, crate::specs::Interrupts::due_taken))]
    pub fn take_due(&mut self, step: u64) -> Option<Event>
        requires { step ≤ GREATEST_STEP }
        ensures { TakesDue (due step self.old) (due_taken step self.old) self.old self.new result }
    {
        if self.is_tick_due(step) {
            self.ticks += 1;
            return Some(Event::Tick);
        }
        self.script.take_due(step)
    }

    /// Whether an event is due at a step.
    #[tactic(auto, unfolding(crate::specs::Interrupts::due))]
    pub fn is_due(&self, step: u64) -> bool
        ensures { result ≡ is_some (due step self.now) }
    {
        self.is_tick_due(step) || self.script.is_due(step)
    }

    /// Whether a periodic tick is due at a step.
    fn is_tick_due(&self, step: u64) -> bool
        ensures { result ≡ is_tick_due step self.now }
    {
        self.tick_every != 0 && self.ticks < step / u64::from(self.tick_every)
    }

    /// A step before which nothing is due: the first at which something is, or the last number where nothing will be.
    #[tactic(auto, unfolding(crate::specs::Interrupts::due))]
    pub fn next_step(&self) -> u64
        ensures { (step : ℕ) → step < result → due step self.now ≡ None }
    {
        self.next_tick().min(self.script.next_step())
    }

    /// A step before which no periodic tick is due.
    #[tactic(auto, using(crate::proofs::InterruptLaws::no_tick_before))]
    fn next_tick(&self) -> u64
        ensures { (step : ℕ) → step < result → is_tick_due step self.now ≡ false }
    {
        if self.tick_every == 0 {
            return u64::MAX;
        }
        self.ticks
            .saturating_add(1)
            .saturating_mul(u64::from(self.tick_every))
    }
}

/// Says what is so of the events of a script: they are such as there may be.
fn recall_script(script: &Script)
    ensures { All IsTimed script.now }
{
    let _ = script.len();
}

/// The events of a script that were not accepted yet. Contracts see the list of them.
#[derive(Drop)]
pub struct Pending {
    script: Script,
    /// The place of the first of them.
    place: usize,
}

impl Model for Pending {
    ghost use Rattle.std.specs.Prelude.{◌≤◌, List, drop, length};
    ghost use Rattle.mpm_script.specs.declared.event.Timed.{Timed};

    ghost Value = { List Timed };

    ghost view = { λ p. drop p.place p.script };

    ghost invariant = { λ p. p.place ≤ length p.script };
}

impl Pending {
    ghost use Rattle.std.specs.Prelude.{◌≡◌, ◌<◌, ℕ, None, is_some, IfSome, drop, slice_get};
    ghost use Rattle.mpm_script.specs.Events.{IsEvent};
    ghost use Rattle.mpm_interrupts.specs.Interrupts.{TakesDue, script_due, script_after};

    /// Takes the first event, where it is due at a step.
    fn take_due(&mut self, step: u64) -> Option<Event>
        ensures { TakesDue (script_due step self.old) (script_after step self.old) self.old self.new result }
    {
        match self.first() {
            Some(timed) if timed.step <= step => {
                self.skip();
                Some(timed.event)
            }
            _ => None,
        }
    }

    /// Whether its first event is due at a step.
    fn is_due(&self, step: u64) -> bool
        ensures { result ≡ is_some (script_due step self.now) }
    {
        match self.first() {
            Some(timed) => timed.step <= step,
            None => false,
        }
    }

    /// A step before which no event is due.
    fn next_step(&self) -> u64
        ensures { (step : ℕ) → step < result → script_due step self.now ≡ None }
    {
        match self.first() {
            Some(timed) => timed.step,
            None => u64::MAX,
        }
    }

    /// The first event.
    fn first(&self) -> Option<Timed>
        ensures first { result ≡ slice_get self.now 0 }
        ensures is { IfSome result (λ timed. IsEvent timed.event) }
    {
        if self.place < self.script.len() {
            Some(self.script.at(self.place))
        } else {
            None
        }
    }

    /// Drops the first event, if there is one.
    fn skip(&mut self)
        ensures { self.new ≡ drop 1 self.old }
    {
        if self.place < self.script.len() {
            self.place += 1;
        }
    }
}
