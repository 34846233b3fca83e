ghost use Rattle.std.specs.Prelude.{◌≡◌, ◌≤◌, length};
ghost use Rattle.std.specs.Ordering.{is_lt};
ghost use Rattle.mpm_mount.specs.Drives as drives;
ghost use Rattle.mpm_mount.specs.Searching as spec;

use crate::slots::{EntryName, entry_number, last_extent, name_of};
use mpm_base::Kind;
use mpm_dirent::{Entry, plain_name};
use mpm_names::matches;

/// An entry of a file, as a search found it.
#[derive(Clone, Copy, Debug, PartialEq, Eq)]
pub struct Found {
    /// The file's name, without bit 7.
    pub name: [u8; 11],
    /// The entry's last extent.
    pub extent: u16,
    /// The entry's slot.
    pub slot: u16,
}

/// What is sought: a user's entries of the names that fit a pattern, above the last that was found.
#[derive(Clone, Copy, Debug, PartialEq, Eq)]
pub(crate) struct Search {
    user: u8,
    pattern: [u8; 11],
    last: Option<EntryName>,
}

impl Search {
    /// The search for the first, or for the next after the last that was found.
    pub(crate) fn new(kind: Kind, user: u8, pattern: &[u8; 11], last: Option<Found>) -> Search
        ensures { result ≡ spec.search_of kind user pattern.now last }
    {
        Search {
            user,
            pattern: *pattern,
            last: match last {
                Some(found) => Some(found_name(kind, user, &found)),
                None => None,
            },
        }
    }
}

/// Which entry of which file was found.
fn found_name(kind: Kind, user: u8, found: &Found) -> EntryName
    ensures { result ≡ spec.found_name kind user found.now }
{
    EntryName {
        user,
        name: plain_name(&found.name),
        number: entry_number(kind, found.extent),
    }
}

/// Whether an entry stands before another by user, name and entry number.
fn is_less(a: &EntryName, b: &EntryName) -> bool
    ensures { result ≡ is_lt (drives.entry_cmp a.now b.now) }
{
    a.cmp(b).is_lt()
}

/// Whether an entry of a file is sought.
fn is_sought(search: &Search, name: &EntryName) -> bool
    ensures { result ≡ spec.is_sought search.now name.now }
{
    name.user == search.user
        && matches(&search.pattern, &name.name)
        && match &search.last {
            Some(last) => is_less(last, name),
            None => true,
        }
}

/// Whether an entry is less than the one that was found, if any was.
fn is_lesser(kind: Kind, name: &EntryName, least: Option<Found>) -> bool
    ensures { result ≡ spec.is_lesser kind name.now least }
{
    match least {
        Some(found) => is_less(name, &found_name(kind, name.user, &found)),
        None => true,
    }
}

/// An entry, where it is sought and less than the one that was found; else that one.
fn lesser(
    kind: Kind,
    search: &Search,
    least: Option<Found>,
    slot: usize,
    entry: &Entry,
) -> Option<Found>
    requires { slot ≤ 65535 }
    ensures { result ≡ spec.lesser kind search.now least slot entry.now }
{
    match entry {
        Entry::File { file } => {
            let name = name_of(kind, file);
            if is_sought(search, &name) && is_lesser(kind, &name, least) {
                Some(Found {
                    name: name.name,
                    extent: last_extent(file),
                    slot: slot as u16,
                })
            } else {
                least
            }
        }
        _ => least,
    }
}

/// The least of the entries that are sought.
pub(crate) fn least(kind: Kind, search: &Search, entries: &[Entry]) -> Option<Found>
    requires { length entries.now ≤ 65535 }
    ensures { spec.IsNext kind search.now entries.now result }
{
    let mut found = None;
    for slot in 0..entries.len() {
        found = lesser(kind, search, found, slot, &entries[slot]);
    }
    found
}
