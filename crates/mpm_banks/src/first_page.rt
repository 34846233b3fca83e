ghost use Rattle.std.specs.Prelude.{◌≡◌, ◌<◌, ◌*◌, ◌/◌, ◌%◌, ℕ};

use std::marker::Model;

/// The first page of a segment, by the address of its first byte. Contracts see the page.
#[derive(Drop)]
pub(crate) struct FirstPage {
    address: usize,
}

impl Model for FirstPage {
    ghost Value = { ℕ };

    ghost view = { λ first. first.address / 256 };

    ghost invariant = { λ first. (first.address % 256 ≡ 0) × (first.address < 65536) };
}

impl FirstPage {
    /// The page of that number.
    pub fn new(page: u8) -> FirstPage
        ensures { result ≡ page }
    {
        FirstPage {
            address: 256 * usize::from(page),
        }
    }

    /// Its number.
    pub fn page(&self) -> u8
        ensures { result ≡ self.now }
    {
        (self.address / 256) as u8
    }

    /// The address of its first byte.
    #[inline(always)]
    pub fn address(&self) -> usize
        ensures value { result ≡ 256 * self.now }
        ensures bound { result < 65536 }
    {
        self.address
    }
}
