ghost use Rattle.std.specs.Prelude.{◌≡◌, ◌<◌, List, [], length, Some, slice_get};

use crate::event::Timed;
use std::alloc::Global;
use std::marker::Model;

/// The events of a script, in order. Contracts see the list of them.
#[derive(Debug, Drop)]
pub struct Script {
    events: Vec<Timed>,
}

impl Model for Script {
    ghost use Rattle.std.specs.Prelude.{List};
    ghost use Rattle.mpm_script.specs.declared.event.Timed.{Timed};
    ghost use Rattle.mpm_script.specs.Scripts.{IsScript};

    ghost Value = { List Timed };

    ghost view = { λ script. script.events.items };

    ghost invariant = { λ script. IsScript script.events.items };
}

impl Script {
    ghost use Rattle.mpm_script.specs.Events.{IsTimed};
    ghost use Rattle.mpm_script.specs.Scripts.{IsScript};

    /// No events. It takes no memory.
    pub fn empty(alloc: Global) -> Script
        ensures { result ≡ [] }
    {
        Script::of(Vec::new(alloc))
    }

    /// Keeps the events of a script.
    pub(crate) fn of(events: Vec<Timed>) -> Script
        requires { IsScript events.items }
        ensures { result ≡ events.items }
    {
        Script { events }
    }

    /// How many events there are. They are events of a script: none comes before the one in front of it.
    pub fn len(&self) -> usize
        ensures count { result ≡ length self.now }
        ensures script { IsScript self.now }
    {
        self.events.len()
    }

    /// The event at a place below the length.
    pub fn at(&self, i: usize) -> Timed
        requires { i < length self.now }
        ensures timed { slice_get self.now i ≡ Some result }
        ensures of_script { IsTimed result }
    {
        self.events[i]
    }
}
