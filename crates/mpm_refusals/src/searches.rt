ghost use Rattle.std.specs.Prelude.{◌≡◌, Some, None, slice_index_or, slice_set};

use crate::searching::EntryPlace;
use mpm_base::Pid;
use std::marker::Model;

/// A process's last search: where it looked, for what, and the directory entry that it found. (MP/M II Programmer's Guide,
/// "Function 17: Search for First".)
#[derive(Clone, Copy, Debug, PartialEq, Eq)]
pub struct LastSearch {
    /// 0 to 15 for A to P.
    pub drive: u8,
    /// The user whose entries are sought.
    pub user: u8,
    /// The name and the type that are sought, without bit 7.
    pub pattern: [u8; 11],
    /// The extent that is sought, or `?` for any.
    pub extent: u8,
    /// The entry that was found.
    pub found: EntryPlace,
}

/// The last searches of all processes.
#[derive(Drop)]
pub struct Searches {
    places: [Option<LastSearch>; 32],
}

impl Model for Searches {
    ghost use Rattle.std.specs.Prelude.{List, Option, map};
    ghost use Rattle.mpm_refusals.specs.Filing as filing;
    ghost use Rattle.mpm_refusals.specs.Searches.{searched};

    ghost Value = { List (Option filing.LastSearch) };

    ghost view = { λ s. map searched s.places };
}

impl Searches {
    ghost use Rattle.mpm_refusals.specs.Searches.{no_searches, searched, search_of};

    /// Nobody has searched.
    #[tactic(auto, unfolding(crate::specs::Searches::no_searches))]
    pub fn new() -> Searches
        ensures { result ≡ no_searches }
    {
        Searches { places: [None; 32] }
    }

    /// A process's last search.
    #[tactic(auto, using(crate::proofs::LastSearches::search_at))]
    pub fn get(&self, p: Pid) -> Option<LastSearch>
        ensures { searched result ≡ slice_index_or self.now p None }
    {
        self.places[usize::from(p.0)]
    }

    /// Keeps a process's search.
    #[tactic(auto, using(crate::proofs::LastSearches::search_put))]
    pub fn put(&mut self, p: Pid, search: LastSearch)
        ensures { self.new ≡ slice_set self.old p (Some (search_of search)) }
    {
        self.places[usize::from(p.0)] = Some(search);
    }

    /// Forgets a process's search.
    #[tactic(auto, using(crate::proofs::LastSearches::search_forgotten))]
    pub fn forget(&mut self, p: Pid)
        ensures { self.new ≡ slice_set self.old p None }
    {
        self.places[usize::from(p.0)] = None;
    }
}
