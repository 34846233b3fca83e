ghost use Rattle.std.specs.Prelude.{◌≡◌, ◌≢◌, ◌<◌, IfSome, IfNone, None};
ghost use Rattle.mpm_ready.specs.Order.{first_of};
ghost use Rattle.mpm_ready.specs.Tables.{list_at, list_of, no_lists, inserted, removed, rotated, IsTable};

use crate::links::{Links, ListPlace};
use mpm_base::Pid;
use std::marker::Model;

/// Lists of processes in ready order, numbered 0 to 95; a process is in at most one of them.
///
/// Contracts see them as a list of 96 lists of members, each a slot and the priority with which it was put in.
#[derive(Drop)]
pub struct Lists {
    links: Links,
}

impl Model for Lists {
    ghost use Rattle.std.specs.Prelude.{List};
    ghost use Rattle.mpm_ready.specs.Order.{Member};

    ghost Value = { List (List Member) };

    ghost use Rattle.mpm_ready.specs.Linked.{lists_of, IsLinked};

    ghost view = { λ lists. lists_of lists.links };

    ghost invariant = { λ lists. IsLinked lists.links (lists_of lists.links) };
}

impl Lists {
    /// Lists with nobody in them.
    #[tactic(auto, using(crate::proofs::LinkLaws::lists_read, crate::proofs::Changes::stands_for_read))]
    pub fn new() -> Lists
        ensures { result ≡ no_lists }
    {
        Lists {
            links: Links::new(),
        }
    }

    /// Says what is so of the lists at any time: each is in ready order, and a process is in at most one of them, and once.
    pub fn recall_table(&self)
        ensures { IsTable self.now }
    {
        let _ = &self.links;
    }

    /// Puts a process that is in no list into one, after all of equal or better priority (0 is best, 255 worst).
    pub fn insert(&mut self, list: u8, p: Pid, priority: u8)
        requires below { list < 96 }
        requires unlisted { list_of self.old p ≡ None }
        ensures lists { self.new ≡ inserted self.old list (record { slot = p; priority = priority }) }
        ensures slot { p < 32 }
    {
        self.links.put(p, ListPlace { list, priority });
    }

    /// The first process of a list, none exactly where it is empty.
    pub fn first(&self, list: u8) -> Option<Pid>
        requires { list < 96 }
        ensures first { result ≡ first_of (list_at self.now list) }
        ensures table { IsTable self.now }
    {
        self.links.first(list)
    }

    /// The list that a process is in, none exactly where it is in none.
    #[tactic(auto, using(crate::proofs::Changes::placed_below))]
    pub fn list_of(&self, p: Pid) -> Option<u8>
        ensures list { result ≡ list_of self.now p }
        ensures below { IfSome result (λ list. list < 96) }
        ensures table { IsTable self.now }
    {
        match self.links.place(p) {
            Some(place) => Some(place.list),
            None => None,
        }
    }

    /// Takes a process out of the list that it is in; none, and nothing changes, exactly where it is in none.
    #[tactic(auto, using(crate::proofs::Changes::placed_below))]
    pub fn remove(&mut self, p: Pid) -> Option<u8>
        ensures lists { self.new ≡ removed self.old p }
        ensures list { result ≡ list_of self.old p }
        ensures below { IfSome result (λ list. list < 96) }
        ensures nothing { IfNone result (self.new ≡ self.old) }
    {
        let place = self.links.place(p)?;
        self.links.take_out(p);
        Some(place.list)
    }

    /// Takes a process that is in a list out of it and puts it back in with a priority, after its equals.
    #[tactic(auto, using(crate::proofs::TableLaws::list_of_removed), unfolding(crate::specs::Tables::reinserted))]
    pub fn rotate(&mut self, p: Pid, priority: u8)
        requires { list_of self.old p ≢ None }
        ensures { self.new ≡ rotated self.old p priority }
    {
        if let Some(list) = self.remove(p) {
            self.insert(list, p, priority);
        }
    }
}
