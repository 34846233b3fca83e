ghost use Rattle.std.specs.Prelude.{◌≡◌, ◌<◌, true, false, [], slice_index_or, slice_set};
ghost use Rattle.mpm_fault_lines.specs.Lists.{marked};

use std::marker::Model;

/// Slots of a directory, a set of numbers from 0 to 511.
#[derive(Drop)]
pub struct Slots {
    marks: [bool; 512],
}

impl Model for Slots {
    ghost use Rattle.std.specs.Prelude.{◌≡◌, Bool, List, length};

    ghost Value = { List Bool };

    ghost view = { λ slots. slots.marks };

    ghost invariant = { λ slots. length slots.marks ≡ 512 };
}

impl Slots {
    /// No slots.
    #[tactic(auto, unfolding(crate::specs::Lists::marked))]
    pub fn new() -> Slots
        ensures { result ≡ marked [] }
    {
        Slots {
            marks: [false; 512],
        }
    }

    /// Adds a slot.
    pub fn add(&mut self, slot: u16)
        requires { slot < 512 }
        ensures { self.new ≡ slice_set self.old slot true }
    {
        self.marks[usize::from(slot)] = true;
    }

    /// Whether a slot is one of them.
    pub fn has(&self, slot: u16) -> bool
        ensures { result ≡ slice_index_or self.now slot false }
    {
        slot < 512 && self.marks[usize::from(slot)]
    }
}
