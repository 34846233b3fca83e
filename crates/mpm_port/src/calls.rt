ghost use Rattle.std.specs.Prelude.{◌≡◌, if◌then◌else◌, is_ok};
ghost use Rattle.mpm_port.specs.Calls.{next_is_listed, after_call, listing};

use crate::OutOfMemory;
use std::alloc::Global;
use std::marker::Model;

/// Counts the calls of a device, from 1 up to 2^64 - 1, and knows which of them are to fail.
#[derive(Drop)]
pub(crate) struct Schedule {
    done: u64,
    failing: Vec<u64>,
}

impl Model for Schedule {
    ghost use Rattle.mpm_port.specs.Calls.{Calls};

    ghost Value = { Calls };

    ghost view = { λ s. record { done = s.done; failing = s.failing.items } };
}

impl Schedule {
    ghost use Rattle.std.specs.Prelude.{[]};

    /// No call was made, and none is to fail.
    pub(crate) fn new(alloc: Global) -> Schedule
        ensures { result ≡ record { done = 0; failing = [] } }
    {
        Schedule {
            done: 0,
            failing: Vec::new(alloc),
        }
    }

    /// Lists a call that is to fail.
    pub(crate) fn fail_at(&mut self, call: u64) -> Result<(), OutOfMemory>
        ensures { self.new ≡ (if is_ok result then listing self.old call else self.old) }
    {
        self.failing.push(call)?;
        Ok(())
    }

    /// Counts one more call, and says whether it is to fail.
    pub(crate) fn begin(&mut self) -> bool
        ensures after { self.new ≡ after_call self.old }
        ensures listed { result ≡ next_is_listed self.old }
    {
        self.done = self.done.saturating_add(1);
        self.failing.as_slice().contains(&self.done)
    }
}
