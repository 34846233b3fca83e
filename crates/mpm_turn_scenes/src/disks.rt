//! A reader of disks in memory by their bytes: where entries and records are is known by the guides alone. (CP/M Alteration Guide,
//! "Disk Parameter Tables"; MP/M II System Guide, "Disk Definition Tables".)
ghost use Rattle.std.specs.Prelude.{◌≡◌, ◌<◌, Some, IsSome, IsTrue, IfOk};
ghost use Rattle.mpm_port.specs.Disks.{size_of};
ghost use Rattle.mpm_port.specs.MemoryDisks.{disks_of};
ghost use Rattle.mpm_blocks.specs.Geometries.{geometry_of};

use mpm_base::Kind;
use mpm_blocks::geometry;
use mpm_images::{EntryBytes, directory_sector, entry_in, layout_of, place, record_at};
use mpm_port::{Drives, MemoryDrives};
use std::alloc::Global;
use std::test::Fail;

/// The bytes of a sector of drive 0.
#[tactic(auto, unfolding(mpm_port::specs::MemoryDisks::after_access))]
fn sector(drives: &mut MemoryDrives, kind: Kind, number: u32) -> [u8; 128]
    requires { size_of (disks_of drives.old) 0 ≡ Some (geometry_of kind).bytes }
    ensures { size_of (disks_of drives.new) 0 ≡ Some (geometry_of kind).bytes }
{
    let mut bytes = [0; 128];
    let sector = place(kind, number);
    if sector < geometry(kind).bytes / 128 {
        let _ = drives.read(0, sector, &mut bytes);
    }
    bytes
}

/// Puts bytes into a sector of drive 0.
fn put_sector(drives: &mut MemoryDrives, kind: Kind, number: u32, bytes: &[u8; 128])
    requires { size_of (disks_of drives.old) 0 ≡ Some (geometry_of kind).bytes }
    ensures { size_of (disks_of drives.new) 0 ≡ Some (geometry_of kind).bytes }
{
    let sector = place(kind, number);
    if sector < geometry(kind).bytes / 128 {
        let _ = drives.write(0, sector, bytes);
    }
}

/// Gives all bytes of a block of drive 0 the value E5h.
fn empty_block(drives: &mut MemoryDrives, kind: Kind, block: u16)
    requires { size_of (disks_of drives.old) 0 ≡ Some (geometry_of kind).bytes }
    ensures { size_of (disks_of drives.new) 0 ≡ Some (geometry_of kind).bytes }
{
    let records = layout_of(kind).block;
    let first = u32::from(block).saturating_mul(records);
    for record in 0..records {
        put_sector(drives, kind, first.saturating_add(record), &[0xE5; 128]);
    }
}

/// Puts the first eight slots of drive 0 as they were, and the first three blocks of files and the last.
pub(crate) fn restore(drives: &mut MemoryDrives, kind: Kind, entries: &[EntryBytes])
    requires { size_of (disks_of drives.old) 0 ≡ Some (geometry_of kind).bytes }
    ensures { size_of (disks_of drives.new) 0 ≡ Some (geometry_of kind).bytes }
{
    put_sector(drives, kind, 0, &directory_sector(entries, 0));
    put_sector(drives, kind, 1, &directory_sector(entries, 4));
    let layout = layout_of(kind);
    empty_block(drives, kind, layout.first);
    empty_block(drives, kind, layout.first.saturating_add(1));
    empty_block(drives, kind, layout.first.saturating_add(2));
    empty_block(drives, kind, layout.last);
}

/// The entries of the first eight slots of drive 0.
pub(crate) fn entries(drives: &mut MemoryDrives, kind: Kind) -> [EntryBytes; 8]
    requires { size_of (disks_of drives.old) 0 ≡ Some (geometry_of kind).bytes }
    ensures { size_of (disks_of drives.new) 0 ≡ Some (geometry_of kind).bytes }
{
    let first = sector(drives, kind, 0);
    let second = sector(drives, kind, 1);
    let mut entries = [[0; 32]; 8];
    for (slot, entry) in entries.iter_mut().enumerate() {
        *entry = entry_in(if slot < 4 { &first } else { &second }, slot);
    }
    entries
}

/// Where after the system's tracks the record of a number is, if the entry is of the file of user 0 with that letter and has it.
fn record_of(kind: Kind, entry: &EntryBytes, letter: u8, number: u32) -> Option<u32> {
    let covered = layout_of(kind).entry;
    let last = 32 * u32::from(entry[14]) + u32::from(entry[12]);
    if entry[0] != 0 || entry[1] % 128 != letter {
        return None;
    }
    if last * 128 / covered != number / covered {
        return None;
    }
    if number >= last * 128 + u32::from(entry[15]) {
        return None;
    }
    record_at(kind, entry, number)
}

/// Where after the system's tracks the record of a number is, if one of the entries has it.
fn record_among(kind: Kind, entries: &[EntryBytes; 8], letter: u8, number: u32) -> Option<u32> {
    for entry in entries {
        if let Some(at) = record_of(kind, entry, letter, number) {
            return Some(at);
        }
    }
    None
}

/// The byte that each of some bytes has; 255 where they differ.
pub(crate) fn one_byte(bytes: &[u8]) -> u8 {
    let first = match bytes.first() {
        Some(first) => *first,
        None => return 255,
    };
    for byte in bytes {
        if *byte != first {
            return 255;
        }
    }
    first
}

/// A record that a file doesn't have.
pub const NO_RECORD: u8 = b'-';

/// The byte that a record of a file on drive 0 has throughout.
pub(crate) fn record(
    drives: &mut MemoryDrives,
    kind: Kind,
    entries: &[EntryBytes; 8],
    letter: u8,
    number: u32,
) -> u8
    requires { size_of (disks_of drives.old) 0 ≡ Some (geometry_of kind).bytes }
    ensures { size_of (disks_of drives.new) 0 ≡ Some (geometry_of kind).bytes }
{
    match record_among(kind, entries, letter, number) {
        Some(at) => one_byte(&sector(drives, kind, at)),
        None => NO_RECORD,
    }
}

/// Drive 0 in memory with an image.
pub(crate) fn attached(alloc: Global, image: &[u8]) -> Result<MemoryDrives, Fail>
    ensures { IfOk result (λ drives. IsSome (size_of (disks_of drives) 0)) }
{
    let mut drives = MemoryDrives::new(alloc);
    drives.add("disk", image)?;
    match drives.attach(0, "disk") {
        Ok(()) => Ok(drives),
        Err(_) => Err(Fail::from("the drive is not attached")),
    }
}

/// Whether drive 0 has the size of a kind, by one call.
#[tactic(auto, unfolding(mpm_port::specs::MemoryDisks::after_access))]
pub(crate) fn has_size(drives: &mut MemoryDrives, kind: Kind) -> bool
    requires { IsSome (size_of (disks_of drives.old) 0) }
    ensures same { size_of (disks_of drives.new) 0 ≡ size_of (disks_of drives.old) 0 }
    ensures size { IsTrue result → size_of (disks_of drives.new) 0 ≡ Some (geometry_of kind).bytes }
{
    drives.size(0) == Ok(u64::from(geometry(kind).bytes))
}
