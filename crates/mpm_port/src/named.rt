ghost use Rattle.std.specs.Prelude.{◌≡◌, ◌≤◌, ℕ, List, [], MatchOption, Some, None, IfOk, is_ok, if◌then◌else◌, length, ◌+◌, ◌*◌, IfSome, IsSomeAnd};
ghost use Rattle.mpm_port.specs.Disks.{with_sector};
ghost use Rattle.std.specs.List.{position};

use crate::{FetchError, OutOfMemory};
use std::alloc::Global;
use std::marker::Model;

/// Bytes that are kept.
#[derive(Drop)]
pub struct Bytes {
    items: Vec<u8>,
}

impl Model for Bytes {
    ghost use Rattle.std.specs.Prelude.{ℕ, List};

    ghost Value = { List ℕ };

    ghost view = { λ b. b.items.items };
}

impl Bytes {
    /// These bytes.
    pub fn of(items: Vec<u8>) -> Bytes
        ensures { result ≡ items.items }
    {
        Bytes { items }
    }

    /// A copy of the bytes.
    pub fn copy(alloc: Global, bytes: &[u8]) -> Result<Bytes, OutOfMemory>
        ensures { IfOk result (λ copied. copied ≡ bytes.now) }
    {
        Ok(Bytes {
            items: Vec::from_slice(alloc, bytes)?,
        })
    }

    /// The bytes.
    pub fn as_slice(&self) -> &[u8]
        ensures { result.now ≡ self.now }
    {
        self.items.as_slice()
    }

    /// Writes over a sector.
    pub fn write_sector(&mut self, sector: u32, bytes: &[u8; 128])
        requires { 128 * sector + 128 ≤ length self.old }
        ensures { self.new ≡ with_sector self.old sector bytes.now }
    {
        let from = 128 * sector as usize;
        self.items
            .slice_mut(from..from + 128)
            .copy_from_slice(bytes);
    }
}

/// Contents under their name.
#[derive(Drop)]
pub(crate) struct Named {
    name: Bytes,
    contents: Bytes,
}

/// Contents by their names, of which none is there twice.
#[derive(Drop)]
pub(crate) struct Shelf {
    items: Vec<Named>,
}

impl Model for Shelf {
    ghost use Rattle.std.specs.Prelude.{List};
    ghost use Rattle.mpm_port.specs.declared.named.Named.{Named};

    ghost Value = { List Named };

    ghost view = { λ s. s.items.items };
}

impl Shelf {
    ghost use Rattle.mpm_port.specs.Named.{is_named, contents_of, with_contents};

    /// Nothing is there.
    pub(crate) fn new(alloc: Global) -> Shelf
        ensures { result ≡ [] }
    {
        Shelf {
            items: Vec::new(alloc),
        }
    }

    /// Where the item of that name is.
    fn place(&self, name: &[u8]) -> Option<usize>
        ensures { result ≡ position (is_named name.now) self.now }
    {
        self.items
            .iter()
            .position(|item| item.name.as_slice() == name)
    }

    /// The contents of that name.
    #[tactic(auto, using(crate::proofs::Shelves::contents_of_place, crate::proofs::Shelves::contents_of_none))]
    pub(crate) fn get(&self, name: &[u8]) -> Option<&[u8]>
        ensures { MatchOption result (contents_of self.now name.now ≡ None) (λ contents. contents_of self.now name.now ≡ Some contents.now) }
    {
        match self.place(name) {
            None => None,
            Some(place) => Some(self.items[place].contents.as_slice()),
        }
    }

    /// Writes over a sector of the contents of that name.
    #[tactic(auto, using(crate::proofs::Shelves::contents_of_place, crate::proofs::Shelves::contents_of_none, crate::proofs::Shelves::with_same_name))]
    pub(crate) fn write_sector(&mut self, name: &[u8], sector: u32, bytes: &[u8; 128])
        requires { IsSomeAnd (contents_of self.old name.now) (λ contents. 128 * sector + 128 ≤ length contents) }
        ensures { IfSome (contents_of self.old name.now) (λ contents. self.new ≡ with_contents self.old name.now (with_sector contents sector bytes.now)) }
    {
        let Some(place) = self.place(name) else {
            unreachable!();
        };
        self.items[place].contents.write_sector(sector, bytes);
    }

    /// Puts the contents under that name.
    #[tactic(auto, using(crate::proofs::Shelves::with_item_set, crate::proofs::Shelves::with_item_push), unfolding(crate::specs::Named::with_contents))]
    pub(crate) fn set(&mut self, name: &[u8], contents: &[u8]) -> Result<(), OutOfMemory>
        ensures { self.new ≡ (if is_ok result then with_contents self.old name.now contents.now else self.old) }
    {
        let alloc = *self.items.allocator();
        let item = Named {
            name: Bytes::copy(alloc, name)?,
            contents: Bytes::copy(alloc, contents)?,
        };
        match self.place(name) {
            None => self.items.push(item)?,
            Some(place) => self.items[place] = item,
        }
        Ok(())
    }
}

/// The names on which a call answered Failed, oldest first.
#[derive(Drop)]
pub struct FailedNames {
    names: Vec<Bytes>,
}

impl Model for FailedNames {
    ghost use Rattle.std.specs.Prelude.{ℕ, List};

    ghost Value = { List (List ℕ) };

    ghost view = { λ f. f.names.items };
}

impl FailedNames {
    ghost use Rattle.mpm_port.specs.Causes.{names_with};

    /// No call has failed.
    pub fn new(alloc: Global) -> FailedNames
        ensures { result ≡ [] }
    {
        FailedNames {
            names: Vec::new(alloc),
        }
    }

    /// The refusal of a call on that name: Failed, and the name joins the others; OutOfMemory where there is no
    /// memory for the name.
    pub fn refuse(&mut self, name: &str) -> FetchError
        ensures { self.new ≡ names_with self.old name.now result }
    {
        let alloc = *self.names.allocator();
        let Ok(name) = Bytes::copy(alloc, name.as_bytes()) else {
            return FetchError::OutOfMemory;
        };
        match self.names.push(name) {
            Ok(()) => FetchError::Failed,
            Err(_) => FetchError::OutOfMemory,
        }
    }
}
