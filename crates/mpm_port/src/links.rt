ghost use Rattle.std.specs.Prelude.{◌≡◌, [], MatchOption, Some, None, is_ok, if◌then◌else◌};
ghost use Rattle.std.specs.List.{position};

use crate::OutOfMemory;
use crate::named::Bytes;
use std::alloc::Global;
use std::marker::Model;

/// A drive and the name that it is attached by.
#[derive(Drop)]
pub(crate) struct Link {
    drive: u8,
    name: Bytes,
}

/// The attached drives, none of which is there twice.
#[derive(Drop)]
pub(crate) struct Links {
    items: Vec<Link>,
}

impl Model for Links {
    ghost use Rattle.std.specs.Prelude.{List};
    ghost use Rattle.mpm_port.specs.declared.links.Link.{Link};

    ghost Value = { List Link };

    ghost view = { λ l. l.items.items };
}

impl Links {
    ghost use Rattle.mpm_port.specs.Named.{is_of, name_of_drive, with_drive};

    /// No drive is attached.
    pub(crate) fn new(alloc: Global) -> Links
        ensures { result ≡ [] }
    {
        Links {
            items: Vec::new(alloc),
        }
    }

    /// Where the link of that drive is.
    fn place(&self, drive: u8) -> Option<usize>
        ensures { result ≡ position (is_of drive) self.now }
    {
        self.items.iter().position(|link| link.drive == drive)
    }

    /// The name that the drive is attached by.
    #[tactic(auto, using(crate::proofs::Shelves::name_of_place, crate::proofs::Shelves::name_of_none))]
    pub(crate) fn name(&self, drive: u8) -> Option<&[u8]>
        ensures { MatchOption result (name_of_drive self.now drive ≡ None) (λ name. name_of_drive self.now drive ≡ Some name.now) }
    {
        match self.place(drive) {
            None => None,
            Some(place) => Some(self.items[place].name.as_slice()),
        }
    }

    /// Attaches the drive by that name.
    #[tactic(auto, using(crate::proofs::Shelves::with_item_set, crate::proofs::Shelves::with_item_push), unfolding(crate::specs::Named::with_drive))]
    pub(crate) fn set(&mut self, drive: u8, name: &[u8]) -> Result<(), OutOfMemory>
        ensures { self.new ≡ (if is_ok result then with_drive self.old drive name.now else self.old) }
    {
        let name = Bytes::copy(*self.items.allocator(), name)?;
        let link = Link { drive, name };
        match self.place(drive) {
            None => self.items.push(link)?,
            Some(place) => self.items[place] = link,
        }
        Ok(())
    }
}
