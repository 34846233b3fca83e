ghost use Rattle.std.specs.Prelude.{◌≡◌, ◌<◌, true, false, slice_set, slice_index_or};
ghost use Rattle.mpm_system.specs.Owing.{nobody_owes};

use mpm_base::Pid;
use std::marker::Model;

/// Of each slot whether a process ended there whose open files and marks aren't given back yet: where `some` is false, of none.
#[derive(Drop)]
pub struct Owed {
    some: bool,
    slots: [bool; 32],
}

impl Model for Owed {
    ghost use Rattle.std.specs.Prelude.{◌≡◌, false, Bool, List};
    ghost use Rattle.mpm_system.specs.Owing.{nobody_owes};

    ghost Value = { List Bool };

    ghost view = { λ o. o.slots };

    ghost invariant = { λ o. (o.some ≡ false → o.slots ≡ nobody_owes) };
}

impl Owed {
    /// Nobody owes anything.
    pub fn new() -> Owed
        ensures { result ≡ nobody_owes }
    {
        Owed {
            some: false,
            slots: [false; 32],
        }
    }

    /// Whether somebody may owe something.
    #[inline]
    pub fn has_some(&self) -> bool
        ensures { result ≡ false → self.now ≡ nobody_owes }
    {
        self.some
    }

    /// Whether the one who had a slot does.
    pub fn owes(&self, slot: u8) -> bool
        requires { slot < 32 }
        ensures { result ≡ slice_index_or self.now slot false }
    {
        self.slots[usize::from(slot)]
    }

    /// A process ended.
    pub fn add(&mut self, p: Pid)
        requires { p < 32 }
        ensures { self.new ≡ slice_set self.old p true }
    {
        self.some = true;
        self.slots[usize::from(p.0)] = true;
    }

    /// All is given back.
    pub fn clear(&mut self)
        ensures { self.new ≡ nobody_owes }
    {
        if self.some {
            *self = Owed::new();
        }
    }
}
