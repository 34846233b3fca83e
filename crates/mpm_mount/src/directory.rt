ghost use Rattle.std.specs.Prelude.{◌≡◌, ◌≤◌, length, slice_set};
ghost use Rattle.mpm_blocks.specs.Geometries.{geometry_of};
ghost use Rattle.mpm_dirent.specs.Proper.{IsProper};
ghost use Rattle.mpm_dirent.specs.Names.{plain};
ghost use Rattle.mpm_mount.specs.Directories.{IsDirectory, IsKept, IsWholeEntry, MayReplace, entry_in, with_entry, extent_slot, xfcb_slot, label_slot, free_slot, free_block, free_records_in, free_entries_in};
ghost use Rattle.mpm_mount.specs.Searching.{IsNext, search_of};
ghost use Rattle.mpm_mount.specs.Using.{HasBlocks, Claims, Frees};

use crate::blocks::{claim_all, free_all};
use crate::searching::{Found, Search};
use crate::slots::EntryName;
use crate::{searching, slots};
use mpm_base::Kind;
use mpm_blocks::{BlockMap, geometry};
use mpm_dirent::{Entry, plain_name};
use std::marker::Model;

/// A mounted drive: its directory's entries in memory, and which of its blocks are used.
///
/// It keeps that its entries have no fault, that each can be written, and that the used blocks are those of the entries
/// and the directory's own.
#[derive(Drop)]
pub struct Mounted {
    drive: u8,
    kind: Kind,
    entries: Vec<Entry>,
    blocks: BlockMap,
}

impl Model for Mounted {
    ghost use Rattle.mpm_mount.specs.Directories.{Directory, IsKept};

    ghost Value = { Directory };

    ghost view = { λ m. record { drive = m.drive; kind = m.kind; entries = m.entries.items } };

    ghost invariant = { λ m. IsKept m.kind m.entries.items m.blocks };
}

impl Mounted {
    /// A directory that has been found without a fault.
    pub(crate) fn of(drive: u8, kind: Kind, entries: Vec<Entry>, blocks: BlockMap) -> Mounted
        requires { IsKept kind entries.items blocks }
        ensures { result ≡ record { drive = drive; kind = kind; entries = entries.items } }
    {
        Mounted {
            drive,
            kind,
            entries,
            blocks,
        }
    }

    /// The drive's number, from 0.
    pub fn drive(&self) -> u8
        ensures { result ≡ self.now.drive }
    {
        self.drive
    }

    /// The drive's kind.
    pub fn kind(&self) -> Kind
        ensures kind { result ≡ self.now.kind }
        ensures directory { IsDirectory self.now.kind self.now.entries }
    {
        self.kind
    }

    /// Says what is so of the directory: it has all slots and no fault, and its entries can be written.
    pub fn recall_directory(&self)
        ensures { IsDirectory self.now.kind self.now.entries }
    {
        let _ = &self.entries;
    }

    /// How many records of 128 bytes there is room for in free blocks.
    #[tactic(auto, using(crate::proofs::Positions::block_small))]
    pub fn free_records(&self) -> u32
        ensures { result ≡ free_records_in self.now }
    {
        u32::from(self.blocks.left()) * (u32::from(geometry(self.kind).block) / 128)
    }

    /// How many slots are free.
    #[tactic(auto, using(crate::proofs::Positions::last_entry_small))]
    pub fn free_entries(&self) -> u16
        ensures { result ≡ free_entries_in self.now }
    {
        slots::free_slots(self.entries.as_slice())
    }

    /// The entry in a slot, at most the directory's last.
    pub fn entry(&self, slot: u16) -> &Entry
        requires { slot ≤ (geometry_of self.now.kind).drm }
        ensures entry { result.now ≡ entry_in self.now slot }
        ensures proper { IsProper (geometry_of self.now.kind).wide result.now }
    {
        &self.entries[usize::from(slot)]
    }

    /// Replaces the entry in a slot, at most the directory's last, by one that is not at fault beside all others.
    pub fn put(&mut self, slot: u16, entry: Entry)
        requires { MayReplace self.old.kind self.old.entries slot entry }
        ensures { self.new ≡ with_entry self.old slot entry }
    {
        recall_whole(&entry);
        replace(
            self.kind,
            &mut self.entries,
            &mut self.blocks,
            usize::from(slot),
            entry,
        );
    }

    /// The slot of the entry that covers an extent of a user's file, whose last extent may be below it.
    #[tactic(auto, using(crate::proofs::Positions::last_entry_small))]
    pub fn extent(&self, user: u8, name: &[u8; 11], extent: u16) -> Option<u16>
        ensures { result ≡ extent_slot self.now (record { user = user; name = plain name.now }) extent }
    {
        let name = EntryName {
            user,
            name: plain_name(name),
            number: slots::entry_number(self.kind, extent),
        };
        slots::named_slot(self.kind, &name, self.entries.as_slice())
    }

    /// The slot of the XFCB of a user's file.
    #[tactic(auto, using(crate::proofs::Positions::last_entry_small))]
    pub fn xfcb(&self, user: u8, name: &[u8; 11]) -> Option<u16>
        ensures { result ≡ xfcb_slot self.now (record { user = user; name = plain name.now }) }
    {
        slots::xfcb_slot(user, &plain_name(name), self.entries.as_slice())
    }

    /// The slot of the directory label.
    #[tactic(auto, using(crate::proofs::Positions::last_entry_small))]
    pub fn label(&self) -> Option<u16>
        ensures { result ≡ label_slot self.now }
    {
        slots::label_slot(self.entries.as_slice())
    }

    /// The lowest free slot.
    #[tactic(auto, using(crate::proofs::Positions::last_entry_small))]
    pub fn free_slot(&self) -> Option<u16>
        ensures { result ≡ free_slot self.now }
    {
        slots::free_slot(self.entries.as_slice())
    }

    /// Of a user's entries whose names fit a pattern, the least by name and entry number that stands above the last that was
    /// found, or the least of all. Bit 7 of the pattern is left out.
    #[tactic(auto, using(crate::proofs::Positions::last_entry_small))]
    pub fn next(&self, user: u8, pattern: &[u8; 11], last: Option<Found>) -> Option<Found>
        ensures { IsNext self.now.kind (search_of self.now.kind user pattern.now last) self.now.entries result }
    {
        let search = Search::new(self.kind, user, pattern, last);
        searching::least(self.kind, &search, self.entries.as_slice())
    }

    /// The lowest free block.
    pub fn free_block(&self) -> Option<u16>
        ensures { result ≡ free_block self.now }
    {
        self.blocks.least()
    }
}

/// Says how long an array is.
fn recall_size<T, const N: usize>(array: &[T; N])
    ensures { length array.now ≡ N }
{}

/// Says what is so of each entry: its parts have the lengths of their arrays.
fn recall_whole(entry: &Entry)
    ensures { IsWholeEntry entry.now }
{
    match entry {
        Entry::Free => {}
        Entry::File { file } => {
            recall_size(&file.name);
            recall_size(&file.blocks);
        }
        Entry::Xfcb { xfcb } => {
            recall_size(&xfcb.name);
            recall_size(&xfcb.password);
            recall_size(&xfcb.first);
            recall_size(&xfcb.second);
        }
        Entry::Label { label } => {
            recall_size(&label.name);
            recall_size(&label.password);
            recall_size(&label.first);
            recall_size(&label.second);
        }
        Entry::Kept { bytes } => recall_size(bytes),
    }
}

/// Replaces an entry, and frees and uses blocks by it.
fn replace(kind: Kind, entries: &mut Vec<Entry>, blocks: &mut BlockMap, slot: usize, entry: Entry)
    requires kept { IsKept kind entries.old.items blocks.old }
    requires may { MayReplace kind entries.old.items slot entry }
    requires whole { IsWholeEntry entry }
    ensures entries { entries.new.items ≡ slice_set entries.old.items slot entry }
    ensures kept { IsKept kind entries.new.items blocks.new }
{
    free_blocks(kind, &entries[slot], blocks);
    claim_blocks(kind, &entry, blocks);
    entries[slot] = entry;
}

/// Frees the blocks of an entry.
fn free_blocks(kind: Kind, entry: &Entry, blocks: &mut BlockMap)
    requires { HasBlocks kind entry.now blocks.old }
    ensures { Frees kind entry.now blocks.old blocks.new }
{
    if let Entry::File { file } = entry {
        free_all(kind, file, blocks);
    }
}

/// Uses the blocks of an entry.
fn claim_blocks(kind: Kind, entry: &Entry, blocks: &mut BlockMap)
    requires { HasBlocks kind entry.now blocks.old }
    ensures { Claims kind entry.now blocks.old blocks.new }
{
    if let Entry::File { file } = entry {
        let _ = claim_all(kind, file, blocks);
    }
}
