ghost use Rattle.mpm_spool.specs.SpoolLists.{list_with};

use crate::list::{SpoolItem, SpoolList, no_files};
use std::marker::Model;

/// The files of a list that are yet to be opened: those of the first `list.count` that stand at `next` and after.
#[derive(Drop)]
pub(crate) struct Waiting {
    list: SpoolList,
    next: u8,
}

impl Model for Waiting {
    ghost use Rattle.std.specs.Prelude.{◌≤◌, List, take, drop};
    ghost use Rattle.mpm_spool.specs.declared.list.SpoolItem.{SpoolItem as Item};

    ghost Value = { List Item };

    ghost view = { λ w. drop w.next (take w.list.count w.list.items) };

    ghost invariant = { λ w. (w.next ≤ w.list.count) × (w.list.count ≤ 8) };
}

impl Waiting {
    ghost use Rattle.std.specs.Prelude.{◌≡◌, ◌≤◌, [], take, drop, slice_get};

    /// None.
    #[tactic(auto, unfolding(crate::specs::SpoolLists::list_with))]
    pub(crate) fn none() -> Waiting
        ensures { result ≡ [] }
    {
        Waiting {
            list: no_files(),
            next: 0,
        }
    }

    /// All files of a list.
    pub(crate) fn of(list: SpoolList) -> Waiting
        requires { list.count ≤ 8 }
        ensures { result ≡ take list.count list.items }
    {
        Waiting { list, next: 0 }
    }

    /// The first of them, which waits no more.
    #[tactic(auto, using(crate::proofs::Items::rest_of))]
    pub(crate) fn take_first(&mut self) -> Option<SpoolItem>
        ensures item { result ≡ slice_get self.old 0 }
        ensures rest { self.new ≡ drop 1 self.old }
    {
        if self.next < self.list.count {
            let item = self.list.items[usize::from(self.next)];
            self.next += 1;
            Some(item)
        } else {
            None
        }
    }
}
