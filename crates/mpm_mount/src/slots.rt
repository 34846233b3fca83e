ghost use Rattle.std.specs.Prelude.{◌≡◌, ◌≤◌, ◌==◌, length, position, count_by, IfSome};
ghost use Rattle.std.specs.List.{list_any};
ghost use Rattle.mpm_mount.specs.Drives as drives;
ghost use Rattle.mpm_mount.specs.Faults as spec;
ghost use Rattle.mpm_mount.specs.Directories as directory;

use mpm_base::Kind;
use mpm_blocks::geometry;
use mpm_dirent::{Entry, FileEntry, plain_name};

/// An entry of a file, by what it is found by.
#[derive(Clone, Copy, Debug, PartialEq, Eq, PartialOrd, Ord)]
pub struct EntryName {
    /// The user, 0 to 15.
    pub user: u8,
    /// The name and the type, without bit 7.
    pub name: [u8; 11],
    /// The entry number: its extents divided by how many of them one entry has on this kind.
    pub number: u16,
}

/// A place of a directory, which has at most 65,535, as the number of its slot.
fn as_slot(place: Option<usize>) -> Option<u16>
    requires { IfSome place (λ p. p ≤ 65535) }
    ensures { result ≡ place }
{
    match place {
        Some(place) => Some(place as u16),
        None => None,
    }
}

/// How many blocks an entry has room for: 8 where their numbers are of two bytes, else 16.
pub fn places(kind: Kind) -> usize
    ensures places { result ≡ drives.places kind }
    ensures few { result ≤ 16 }
{
    if geometry(kind).wide { 8 } else { 16 }
}

/// The entry number of an extent.
pub(crate) fn entry_number(kind: Kind, extent: u16) -> u16
    ensures number { result ≡ drives.entry_number kind extent }
{
    extent / (u16::from(geometry(kind).mask) + 1)
}

/// The last extent of an entry. (MP/M II Programmer's Guide, "File Control Block Definition": EX, S2.)
pub fn last_extent(file: &FileEntry) -> u16
    ensures { result ≡ spec.extent_of file.now }
{
    32 * u16::from(file.s2) + u16::from(file.ex)
}

/// Which entry of which file it is, by its user, name and last extent.
pub fn name_of(kind: Kind, file: &FileEntry) -> EntryName
    ensures { result ≡ spec.name_of kind file.now }
{
    EntryName {
        user: file.user,
        name: plain_name(&file.name),
        number: entry_number(kind, last_extent(file)),
    }
}

/// Whether it is that entry of a file.
pub(crate) fn is_named(kind: Kind, name: &EntryName, entry: &Entry) -> bool
    ensures { result ≡ spec.is_named kind name.now entry.now }
{
    match entry {
        Entry::File { file } => {
            file.user == name.user
                && plain_name(&file.name) == name.name
                && entry_number(kind, last_extent(file)) == name.number
        }
        _ => false,
    }
}

/// Whether it is the label.
pub(crate) fn is_label(entry: &Entry) -> bool
    ensures { result ≡ spec.is_label entry.now }
{
    matches!(entry, Entry::Label { .. })
}

/// Whether it is an XFCB of this user's file of this name, without bit 7.
pub(crate) fn is_xfcb(user: u8, name: &[u8; 11], entry: &Entry) -> bool
    ensures { result ≡ spec.is_xfcb user name.now entry.now }
{
    match entry {
        Entry::Xfcb { xfcb } => xfcb.user == user && plain_name(&xfcb.name) == *name,
        _ => false,
    }
}

/// Whether it is free.
pub(crate) fn is_free(entry: &Entry) -> bool
    ensures { result ≡ directory.is_free entry.now }
{
    matches!(entry, Entry::Free)
}

/// The lowest slot of an entry of a file, in a directory's entries by slot.
pub fn named_slot(kind: Kind, name: &EntryName, entries: &[Entry]) -> Option<u16>
    requires { length entries.now ≤ 65535 }
    ensures { result ≡ position (spec.is_named kind name.now) entries.now }
{
    as_slot(named_place(kind, name, entries))
}

/// Its place.
fn named_place(kind: Kind, name: &EntryName, entries: &[Entry]) -> Option<usize>
    ensures { result ≡ position (spec.is_named kind name.now) entries.now }
{
    entries.iter().position(|entry| is_named(kind, name, entry))
}

/// Whether an entry of a file is among these.
pub(crate) fn has_named(kind: Kind, name: &EntryName, entries: &[Entry]) -> bool
    ensures { result ≡ list_any (spec.is_named kind name.now) entries.now }
{
    entries.iter().any(|entry| is_named(kind, name, entry))
}

/// The lowest slot of a label, in a directory's entries by slot.
pub fn label_slot(entries: &[Entry]) -> Option<u16>
    requires { length entries.now ≤ 65535 }
    ensures { result ≡ position spec.is_label entries.now }
{
    as_slot(label_place(entries))
}

/// Its place.
fn label_place(entries: &[Entry]) -> Option<usize>
    ensures { result ≡ position spec.is_label entries.now }
{
    entries.iter().position(|entry| is_label(entry))
}

/// Whether a label is among these.
pub(crate) fn has_label(entries: &[Entry]) -> bool
    ensures { result ≡ list_any spec.is_label entries.now }
{
    entries.iter().any(|entry| is_label(entry))
}

/// The lowest slot of an XFCB of a file, by its user and its name without bit 7, in a directory's entries by slot.
pub fn xfcb_slot(user: u8, name: &[u8; 11], entries: &[Entry]) -> Option<u16>
    requires { length entries.now ≤ 65535 }
    ensures { result ≡ position (spec.is_xfcb user name.now) entries.now }
{
    as_slot(xfcb_place(user, name, entries))
}

/// Its place.
fn xfcb_place(user: u8, name: &[u8; 11], entries: &[Entry]) -> Option<usize>
    ensures { result ≡ position (spec.is_xfcb user name.now) entries.now }
{
    entries.iter().position(|entry| is_xfcb(user, name, entry))
}

/// Whether the XFCB of a file is among these.
pub(crate) fn has_xfcb(user: u8, name: &[u8; 11], entries: &[Entry]) -> bool
    ensures { result ≡ list_any (spec.is_xfcb user name.now) entries.now }
{
    entries.iter().any(|entry| is_xfcb(user, name, entry))
}

/// The lowest free slot.
pub(crate) fn free_slot(entries: &[Entry]) -> Option<u16>
    requires { length entries.now ≤ 65535 }
    ensures { result ≡ position directory.is_free entries.now }
{
    as_slot(free_place(entries))
}

/// Its place.
fn free_place(entries: &[Entry]) -> Option<usize>
    ensures { result ≡ position directory.is_free entries.now }
{
    entries.iter().position(|entry| is_free(entry))
}

/// How many slots are free.
pub(crate) fn free_slots(entries: &[Entry]) -> u16
    requires { length entries.now ≤ 65535 }
    ensures { result ≡ count_by directory.is_free entries.now }
{
    count_free(entries) as u16
}

/// As many as there are free entries.
#[tactic(auto, using(crate::proofs::Positions::free_within))]
fn count_free(entries: &[Entry]) -> usize
    ensures count { result ≡ count_by directory.is_free entries.now }
    ensures within { result ≤ length entries.now }
{
    entries.iter().filter(|entry| is_free(entry)).count()
}
