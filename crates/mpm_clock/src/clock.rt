ghost use Rattle.std.specs.Prelude.{◌≡◌, ◌<◌};
ghost use Rattle.mpm_clock.specs.Times.{IsTime, tick_later};

use crate::delays::{Delay, Delays};
use crate::{Moment, Woken};
use mpm_base::Pid;
use std::marker::Model;

/// How many ticks are a second.
const SECOND: u8 = 60;

/// The clock of a machine, and the delays of the processes that wait for its ticks.
#[derive(Drop)]
pub struct Clock {
    moment: Moment,
    ticks: u8,
    delays: Delays,
}

impl Model for Clock {
    ghost use Rattle.mpm_clock.specs.Times.{Clock, IsClock};

    ghost Value = { Clock };

    ghost view = { λ c. record { date = c.moment.date; hour = c.moment.hour; minute = c.moment.minute; second = c.moment.second; ticks = c.ticks; delays = c.delays } };

    ghost invariant = { λ c. IsClock (record { date = c.moment.date; hour = c.moment.hour; minute = c.moment.minute; second = c.moment.second; ticks = c.ticks; delays = c.delays }) };
}

impl Clock {
    ghost use Rattle.mpm_clock.specs.Delays.{delays_of, woken_by_tick};
    ghost use Rattle.mpm_clock.specs.Times.{IsClock, moment_of, new_clock, set_to, ticked, delayed, clock_without_delay};

    /// A clock that begins with a second, with no delays.
    #[tactic(auto, unfolding(crate::specs::Times::new_clock))]
    pub fn new(date: u16, hour: u8, minute: u8, second: u8) -> Clock
        requires { IsTime (record { date = date; hour = hour; minute = minute; second = second }) }
        ensures { result ≡ new_clock (record { date = date; hour = hour; minute = minute; second = second }) }
    {
        Clock {
            moment: Moment {
                date,
                hour,
                minute,
                second,
            },
            ticks: 0,
            delays: Delays::new(),
        }
    }

    /// The date and the time.
    pub fn now(&self) -> Moment
        ensures moment { result ≡ moment_of self.now }
        ensures time { IsTime result }
        ensures clock { IsClock self.now }
    {
        self.moment
    }

    /// Sets the date and the time; a second begins. (MP/M II Programmer's Guide, "Function 104: Set Date and Time".)
    #[tactic(auto, using(crate::proofs::ClockLaws::clock_set), unfolding(crate::specs::Times::set_to))]
    pub fn set(&mut self, to: Moment)
        requires { IsTime to }
        ensures { self.new ≡ set_to self.old to }
    {
        self.moment = to;
        self.ticks = 0;
    }

    /// A process waits for so many ticks. (MP/M II Programmer's Guide, "Function 141: Delay".)
    #[tactic(auto, using(crate::proofs::ClockLaws::room_for_delay), unfolding(crate::specs::Times::delayed))]
    pub fn delay(&mut self, p: Pid, ticks: u16)
        requires once { delays_of self.old.delays p ≡ 0 }
        requires some { 0 < ticks }
        ensures { self.new ≡ delayed self.old p ticks }
    {
        self.delays.push(Delay { slot: p, ticks });
    }

    /// A process waits no more, if it did.
    #[tactic(auto, unfolding(crate::specs::Times::clock_without_delay))]
    pub fn leave(&mut self, p: Pid)
        ensures { self.new ≡ clock_without_delay self.old p }
    {
        self.delays.leave(p);
    }

    /// A tick: the time goes on, each delay is lowered, and a process whose delay ends is woken.
    #[tactic(auto, unfolding(crate::specs::Times::ticked))]
    pub fn tick(&mut self) -> Woken
        ensures clock { self.new ≡ ticked self.old }
        ensures woken { result ≡ woken_by_tick self.old.delays }
    {
        self.pass();
        self.delays.tick()
    }

    /// The time goes on by a tick.
    #[tactic(auto, using(crate::proofs::ClockLaws::clock_later), unfolding(crate::specs::Times::tick_later, crate::specs::Times::set_to))]
    fn pass(&mut self)
        ensures { self.new ≡ tick_later self.old }
    {
        if self.ticks < SECOND - 1 {
            self.ticks += 1;
        } else {
            let later = self.moment.later();
            self.set(later);
        }
    }
}
