ghost use Rattle.std.specs.Prelude.{◌≡◌, ◌==◌, ◌<◌, ◌≤◌, [], ◌∷◌, ◌++◌, length};
ghost use Rattle.mpm_clock.specs.Delays.{lowered as behind_tick, woken_by_tick, left_by_tick, without_delay};

use crate::Woken;
use mpm_base::Pid;
use std::marker::Model;

/// A process that waits, and how many more ticks it waits for.
#[derive(Clone, Copy)]
pub(crate) struct Delay {
    pub(crate) slot: Pid,
    pub(crate) ticks: u16,
}

impl Delay {
    /// The delay after a tick.
    fn lowered(self) -> Delay
        ensures { result ≡ behind_tick self }
    {
        Delay {
            slot: self.slot,
            ticks: self.ticks.saturating_sub(1),
        }
    }
}

/// At most 32 delays, in the order in which they began: the first `count` of `items`.
#[derive(Drop)]
pub(crate) struct Delays {
    count: u8,
    items: [Delay; 32],
}

impl Model for Delays {
    ghost use Rattle.std.specs.Prelude.{◌≤◌, List, take};
    ghost use Rattle.mpm_clock.specs.declared.delays.Delay.{Delay};

    ghost Value = { List Delay };

    ghost view = { λ d. take d.count d.items };

    ghost invariant = { λ d. d.count ≤ 32 };
}

impl Delays {
    /// No delays.
    pub(crate) fn new() -> Delays
        ensures { result ≡ [] }
    {
        Delays {
            count: 0,
            items: [Delay {
                slot: Pid(0),
                ticks: 0,
            }; 32],
        }
    }

    /// One more delay, after the others.
    pub(crate) fn push(&mut self, delay: Delay)
        requires { length self.old < 32 }
        ensures { self.new ≡ self.old ++ delay ∷ [] }
    {
        self.items[self.count as usize] = delay;
        self.count += 1;
    }

    /// The delays, in order.
    fn as_slice(&self) -> &[Delay]
        ensures value { result.now ≡ self.now }
        ensures few { length result.now ≤ 32 }
    {
        &self.items[..self.count as usize]
    }

    /// A tick lowers each delay; a process whose delay ends is woken.
    pub(crate) fn tick(&mut self) -> Woken
        ensures delays { self.new ≡ left_by_tick self.old }
        ensures woken { result ≡ woken_by_tick self.old }
    {
        let mut left = Delays::new();
        let mut woken = Woken::new();
        for &item in self.as_slice() {
            let delay = item.lowered();
            if delay.ticks == 0 {
                woken.push(delay.slot);
            } else {
                left.push(delay);
            }
        }
        *self = left;
        woken
    }

    /// The delay of a process is dropped, if it has one.
    pub(crate) fn leave(&mut self, p: Pid)
        ensures { self.new ≡ without_delay self.old p }
    {
        let mut left = Delays::new();
        for &delay in self.as_slice() {
            if !is_same(delay.slot, p) {
                left.push(delay);
            }
        }
        *self = left;
    }
}

/// Whether two numbers are the same.
fn is_same(a: Pid, b: Pid) -> bool
    ensures { result ≡ (a == b) }
{
    a.0 == b.0
}
