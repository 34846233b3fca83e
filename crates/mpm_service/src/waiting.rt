ghost use Rattle.std.specs.Prelude.{◌≡◌, [], false};
ghost use Rattle.mpm_ready.specs.Order.{put_in, in_list};
ghost use Rattle.mpm_service.specs.Waiting.{IsWaitList};
ghost use Rattle.mpm_service.specs.Calling.{TellsFirst, RemovesWaiter};

use mpm_base::Pid;
use mpm_ready::Lists;
use std::marker::Model;

/// The number of the list that is used.
const LIST: u8 = 0;

/// The processes whose calls wait, in ready order. Contracts see the list of them.
#[derive(Drop)]
pub(crate) struct Waiting {
    lists: Lists,
}

impl Model for Waiting {
    ghost use Rattle.std.specs.Prelude.{◌≡◌, List};
    ghost use Rattle.mpm_ready.specs.Order.{Member};
    ghost use Rattle.mpm_ready.specs.Tables.{list_at};
    ghost use Rattle.mpm_service.specs.Waiting.{only_list};

    ghost Value = { List Member };

    ghost view = { λ w. list_at w.lists 0 };

    ghost invariant = { λ w. w.lists ≡ only_list (list_at w.lists 0) };
}

impl Waiting {
    /// Nobody waits.
    #[tactic(auto, using(crate::proofs::OneList::one_at_first, crate::proofs::OneList::none_at_first))]
    pub(crate) fn new() -> Waiting
        ensures { result ≡ [] }
    {
        Waiting {
            lists: Lists::new(),
        }
    }

    /// Puts a process that doesn't wait after all of equal or better priority.
    #[tactic(auto, using(crate::proofs::OneList::unlisted_before_put, crate::proofs::OneList::one_after_put, crate::proofs::OneList::list_after_put))]
    pub(crate) fn put(&mut self, p: Pid, priority: u8)
        requires { in_list p self.old ≡ false }
        ensures { self.new ≡ put_in self.old (record { slot = p; priority = priority }) }
    {
        self.lists.insert(LIST, p, priority);
    }

    /// Says what is so of the list at any time: it is in ready order, and each process is in it once.
    pub(crate) fn recall_list(&self)
        ensures { IsWaitList self.now }
    {
        self.lists.recall_table();
    }

    /// The first that waits, none exactly where nobody does.
    pub(crate) fn first(&self) -> Option<Pid>
        ensures { TellsFirst self.now result }
    {
        self.lists.first(LIST)
    }

    /// Takes a process out; false, and nothing changes, exactly where it doesn't wait.
    #[tactic(auto, using(crate::proofs::OneList::one_after_removal, crate::proofs::OneList::list_after_removal, crate::proofs::OneList::listed_in_one))]
    pub(crate) fn remove(&mut self, p: Pid) -> bool
        ensures { RemovesWaiter p self.old self.new result }
    {
        self.lists.remove(p).is_some()
    }
}
