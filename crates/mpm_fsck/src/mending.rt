ghost use Rattle.std.specs.Prelude.{◌≡◌, ◌≤◌, Some, length};
ghost use Rattle.mpm_blocks.specs.Geometries.{geometry_of};
ghost use Rattle.mpm_port.specs.Disks.{size_of};
ghost use Rattle.mpm_mount.specs.Mounting.{FillDirectory};
ghost use Rattle.mpm_mount.specs.Faults.{first_fault};
ghost use Rattle.mpm_fault_lines.specs.Lists.{listed};
ghost use Rattle.mpm_repair.specs.Freeing.{freed, FreesEntries};
ghost use Rattle.mpm_fsck.specs.Outside.{drives_seen, seen};
ghost use Rattle.mpm_fsck.specs.Steps.{IsLeftAtFault, slots_marked};
ghost use Rattle.mpm_fsck.specs.Parts.{EndsList, EndsListed, EndsMending, ReadsList, CountsFreed};

use crate::opening::{open, read};
use crate::status::FsckStatus;
use mpm_base::Kind;
use mpm_blocks::geometry;
use mpm_dirent::Entry;
use mpm_fault_lines::{Slots, freed_line, read_slots};
use mpm_mount::{MountError, mount_entries};
use mpm_port::{Drives, Failed, FetchError, Fetched, Files, Sink};
use mpm_repair::{free_entries, free_slots};
use std::alloc::Global;

/// The most bytes that a list may have.
const LIST_ROOM: usize = 65_536;

/// Frees the slots of the image of a name that a list names, where the image without them has no fault, and writes how many these are.
pub(crate) fn apply<F: Files, D: Drives, S: Sink>(
    alloc: Global,
    kind: Kind,
    name: &str,
    list: &str,
    files: &mut F,
    drives: &mut D,
    sink: &mut S,
) -> FsckStatus
    ensures { EndsList (sink.new ≡ sink.old) (F.missing files.old) kind name.now list.now
        (seen F.Files D.Drives S.Sink files.old drives.old sink.old) (seen F.Files D.Drives S.Sink files.new drives.new sink.new) result }
{
    match open(kind, name, drives) {
        Ok(()) => apply_list(alloc, kind, list, files, drives, sink),
        Err(status) => status,
    }
}

/// So for drive A, which has the size of its kind: first the list is read, then the directory.
fn apply_list<F: Files, D: Drives, S: Sink>(
    alloc: Global,
    kind: Kind,
    list: &str,
    files: &mut F,
    drives: &mut D,
    sink: &mut S,
) -> FsckStatus
    requires { size_of (D.disks drives.old) 0 ≡ Some (geometry_of kind).bytes }
    ensures { EndsListed (sink.new ≡ sink.old) (F.missing files.old) kind list.now
        (seen F.Files D.Drives S.Sink files.old drives.old sink.old) (seen F.Files D.Drives S.Sink files.new drives.new sink.new) result }
{
    match read_list(alloc, kind, list, files) {
        Ok(slots) => mend(alloc, kind, &slots, drives, sink),
        Err(status) => status,
    }
}

/// Reads the slots of a list.
fn read_list<F: Files>(
    alloc: Global,
    kind: Kind,
    list: &str,
    files: &mut F,
) -> Result<Slots, FsckStatus>
    ensures { ReadsList F.Files kind list.now files.old files.new result }
{
    let mut text = Vec::new(alloc);
    match files.fetch(list, LIST_ROOM, &mut text) {
        Ok(Fetched::Whole) => {}
        Ok(Fetched::Longer) => return Err(FsckStatus::TooLong),
        Err(FetchError::Failed) => return Err(FsckStatus::ReadFault),
        Err(FetchError::OutOfMemory) => return Err(FsckStatus::OutOfMemory),
    }
    match read_slots(text.as_slice(), geometry(kind).drm) {
        Ok(slots) => Ok(slots),
        Err(line) => Err(FsckStatus::BadList { line }),
    }
}

/// Frees slots of drive A, where its directory without them has no fault, and writes how many they are.
fn mend<D: Drives, S: Sink>(
    alloc: Global,
    kind: Kind,
    slots: &Slots,
    drives: &mut D,
    sink: &mut S,
) -> FsckStatus
    requires { size_of (D.disks drives.old) 0 ≡ Some (geometry_of kind).bytes }
    ensures { EndsMending (sink.new ≡ sink.old) kind slots.now (drives_seen D.Drives drives.old) (drives_seen D.Drives drives.new)
        (S.written sink.old) (S.written sink.new) (S.faults sink.old) (S.faults sink.new) result }
{
    let count = match count_freed(alloc, kind, slots, drives) {
        Ok(count) => count,
        Err(status) => return status,
    };
    match free_slots(drives, 0, kind, slots) {
        Ok(()) => {}
        Err(Failed) => return FsckStatus::DiskFault,
    }
    match sink.put(freed_line(count).as_slice()) {
        Ok(()) => FsckStatus::Done,
        Err(Failed) => FsckStatus::WriteFault,
    }
}

/// How many slots of drive A these are, where its directory without them has no fault.
fn count_freed<D: Drives>(
    alloc: Global,
    kind: Kind,
    slots: &Slots,
    drives: &mut D,
) -> Result<u16, FsckStatus>
    requires { size_of (D.disks drives.old) 0 ≡ Some (geometry_of kind).bytes }
    ensures { CountsFreed D.Drives kind slots.now drives.old drives.new result }
{
    match read(alloc, kind, drives) {
        Ok(entries) => count_left(alloc, kind, slots, entries),
        Err(status) => Err(status),
    }
}

/// How many slots these are, where a directory without them has no fault.
fn count_left(
    alloc: Global,
    kind: Kind,
    slots: &Slots,
    entries: Vec<Entry>,
) -> Result<u16, FsckStatus>
    requires { FillDirectory kind entries.items }
    ensures { IsLeftAtFault (slots_marked kind slots.now) (first_fault kind (freed (slots_marked kind slots.now) entries.items)) result }
{
    let mut entries = entries;
    let count = free_listed(slots, &mut entries);
    match mount_entries(alloc, 0, kind, entries) {
        Ok(_) => Ok(count),
        Err(MountError::Image { cause, place }) => Err(FsckStatus::NotEnough {
            slot: place,
            cause,
        }),
        Err(_) => Err(FsckStatus::OutOfMemory),
    }
}

/// Frees slots of a directory's entries: the number of these slots.
fn free_listed(slots: &Slots, entries: &mut Vec<Entry>) -> u16
    requires { length entries.old.items ≤ 512 }
    ensures { FreesEntries (listed slots.now (length entries.old.items)) entries.old.items entries.new.items result }
{
    free_entries(slots, entries.as_mut_slice())
}
