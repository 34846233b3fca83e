ghost use Rattle.std.specs.Prelude.{◌≡◌, ◌<◌, true, None, is_some, slice_index_or};
ghost use Rattle.std.specs.Option.{option_copied};
ghost use Rattle.mpm_directories.specs.Places.{AreInPlace};

use mpm_mount::Mounted;
use std::marker::Model;

/// The directories of the sixteen drives, where they are mounted, each in the place of its drive's number.
#[derive(Drop)]
pub(crate) struct Directories {
    pub(crate) places: Vec<Option<Mounted>>,
}

impl Model for Directories {
    ghost use Rattle.std.specs.Prelude.{List, Option};
    ghost use Rattle.mpm_mount.specs.Directories.{Directory};
    ghost use Rattle.mpm_directories.specs.Places.{AreInPlace};

    ghost Value = { List (Option Directory) };

    ghost view = { λ d. d.places.items };

    ghost invariant = { λ d. AreInPlace d.places.items };
}

impl Directories {
    /// The directories of drives, each in the place of its drive's number.
    pub(crate) fn of(places: Vec<Option<Mounted>>) -> Directories
        requires { AreInPlace places.items }
        ensures { result ≡ places.items }
    {
        Directories { places }
    }

    /// The places, as they are.
    pub(crate) fn places(&self) -> &[Option<Mounted>]
        ensures { result.now ≡ self.now }
    {
        self.places.as_slice()
    }

    /// The directory of a drive, where it is mounted; none above the sixteenth is.
    pub(crate) fn get(&self, drive: u8) -> Option<&Mounted>
        ensures { option_copied result ≡ slice_index_or self.now drive None }
    {
        match self.places.get(usize::from(drive)) {
            Some(place) => place.as_ref(),
            None => None,
        }
    }

    /// Whether a drive is mounted; none above the sixteenth is.
    pub(crate) fn has(&self, drive: u8) -> bool
        ensures value { result ≡ is_some (slice_index_or self.now drive None) }
        ensures low { result ≡ true → drive < 16 }
    {
        let place = usize::from(drive);
        if place < self.places.len() {
            self.places[place].is_some()
        } else {
            false
        }
    }
}
