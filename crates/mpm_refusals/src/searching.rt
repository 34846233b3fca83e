ghost use Rattle.std.specs.Prelude.{◌≡◌, ◌≤◌, ◌&&◌, ℕ, Some, option_map};
ghost use Rattle.mpm_dirent.specs.Names as names;
ghost use Rattle.mpm_mount.specs.Drives.{covered, entry_number};
ghost use Rattle.mpm_mount.specs.Standing.{OnItsDrive};
ghost use Rattle.mpm_refusals.specs.Looking.{at_place, entry_found, MissesNothing};
ghost use Rattle.mpm_refusals.specs.Subjects as spec;

use mpm_base::Kind;
use mpm_blocks::geometry;
use mpm_dirent::plain_name;
use mpm_mount::{Found, Mounted};

/// A directory entry among those of a user: the name and the type of its file, and its number among that file's.
#[derive(Clone, Copy, Debug, PartialEq, Eq, PartialOrd, Ord)]
pub struct EntryPlace {
    /// The name and the type of its file.
    pub name: [u8; 11],
    /// Its number among those of the file.
    pub number: u16,
}

/// How many extents an entry covers.
fn covered(kind: Kind) -> u16
    ensures { result ≡ covered kind }
{
    u16::from(geometry(kind).mask) + 1
}

/// The number of the entry that covers an extent.
fn number_of(kind: Kind, extent: u16) -> u16
    ensures { result ≡ entry_number kind extent }
{
    extent / covered(kind)
}

/// The place of an entry that was found.
pub fn place_of(kind: Kind, found: &Found) -> EntryPlace
    ensures { (user : ℕ) → at_place user result ≡ entry_found kind user found.now }
{
    let name = found.name;
    EntryPlace {
        name,
        number: number_of(kind, found.extent),
    }
}

/// An extent of the entry of a number, or of one before it where no extent has so high a number.
fn extent_of(kind: Kind, number: u16) -> u16
    ensures { entry_number kind result ≤ number }
{
    number.saturating_mul(covered(kind))
}

/// What a search goes on from, so that it misses nothing after a place.
fn start_of(kind: Kind, behind: Option<EntryPlace>) -> Option<Found>
    ensures { (user : ℕ) → MissesNothing user kind behind result }
{
    match behind {
        Some(place) => Some(first_at(kind, &place)),
        None => None,
    }
}

/// An entry at a place, or before it where no extent has so high a number.
fn first_at(kind: Kind, place: &EntryPlace) -> Found
    ensures { (user : ℕ) → MissesNothing user kind (Some place.now) (Some result) }
{
    let name = place.name;
    Found {
        name,
        extent: extent_of(kind, place.number),
        slot: 0,
    }
}

/// A place by its name without bit 7.
fn plain(place: &EntryPlace) -> EntryPlace
    ensures { result ≡ record { name = names.plain place.now.name; number = place.now.number } }
{
    let name = plain_name(&place.name);
    EntryPlace {
        name,
        number: place.number,
    }
}

/// Whether a place stands before another one.
fn is_before(place: &EntryPlace, other: &EntryPlace) -> bool
    ensures { (user : ℕ) → result ≡ spec.is_behind (Some (at_place user place.now)) (at_place user other.now) }
{
    plain(place).cmp(&plain(other)).is_lt()
}

/// Whether an entry that was found is after a place, if there is one.
fn is_behind(kind: Kind, behind: Option<EntryPlace>, found: &Found) -> bool
    ensures { (user : ℕ) → result ≡ spec.is_behind (option_map (at_place user) behind) (entry_found kind user found.now) }
{
    match behind {
        Some(place) => is_before(&place, &place_of(kind, found)),
        None => true,
    }
}

/// Whether an entry covers the extent that is sought, or each is sought, by `?`.
fn is_of_extent(kind: Kind, extent: u8, found: &Found) -> bool
    ensures { (user : ℕ) → result ≡ spec.is_of_extent kind extent (entry_found kind user found.now) }
{
    extent == b'?' || number_of(kind, found.extent) == number_of(kind, u16::from(extent))
}

/// Whether an entry covers the extent that is sought, and is after a place, if there is one.
fn is_sought(kind: Kind, extent: u8, behind: Option<EntryPlace>, found: &Found) -> bool
    ensures { (user : ℕ) → result
        ≡ (spec.is_of_extent kind extent (entry_found kind user found.now) && spec.is_behind (option_map (at_place user) behind) (entry_found kind user found.now)) }
{
    is_of_extent(kind, extent, found) && is_behind(kind, behind, found)
}

/// The first entry of a user after a place, if there is one, whose name fits a pattern and that covers an extent. (MP/M II
/// Programmer's Guide, "Function 17: Search for First", "Function 18: Search for Next".)
pub(crate) fn found_in(
    mounted: &Mounted,
    user: u8,
    pattern: &[u8; 11],
    extent: u8,
    behind: Option<EntryPlace>,
) -> Option<Found>
    ensures { OnItsDrive mounted.now (λ drive. option_map (entry_found mounted.now.kind user) result ≡ spec.found_in drive user pattern.now extent (option_map (at_place user) behind)) }
{
    let kind = mounted.kind();
    let mut last = start_of(kind, behind);
    while let Some(found) = mounted.next(user, pattern, last) {
        if is_sought(kind, extent, behind, &found) {
            return Some(found);
        }
        last = Some(found);
    }
    None
}
