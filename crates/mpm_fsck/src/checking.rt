ghost use Rattle.std.specs.Prelude.{◌≡◌, ◌+◌, IfOk, length};
ghost use Rattle.mpm_blocks.specs.Geometries.{geometry_of};
ghost use Rattle.mpm_mount.specs.Mounting.{FillDirectory};
ghost use Rattle.mpm_fsck.specs.Outside.{drives_seen};
ghost use Rattle.mpm_fsck.specs.Steps.{Opens, FindsFaults, FindsNone, FindsOf, Tells, ended_by};
ghost use Rattle.mpm_fsck.specs.Parts.{EndsCheck, ListsFew};

use crate::OutOfMemory;
use crate::opening::{open, read};
use crate::status::FsckStatus;
use mpm_base::Kind;
use mpm_dirent::Entry;
use mpm_fault_lines::{SlotFault, list_text, sound_line};
use mpm_mount::mount_entries;
use mpm_port::{Drives, Failed, Sink};
use mpm_repair::fault_list;
use std::alloc::Global;

/// What a check found: the text that says it, and how many entries are at fault.
#[derive(Drop)]
struct Findings {
    text: Vec<u8>,
    count: u32,
}

/// Checks the image of a name, and writes what is found.
pub(crate) fn check<D: Drives, S: Sink>(
    alloc: Global,
    kind: Kind,
    name: &str,
    drives: &mut D,
    sink: &mut S,
) -> FsckStatus
    ensures { EndsCheck (sink.new ≡ sink.old) kind name.now (drives_seen D.Drives drives.old) (drives_seen D.Drives drives.new)
        (S.written sink.old) (S.written sink.new) (S.faults sink.old) (S.faults sink.new) result }
{
    match find(alloc, kind, name, drives) {
        Ok(found) => tell(&found, sink),
        Err(status) => status,
    }
}

/// Finds what is wrong with the image of a name.
fn find<D: Drives>(
    alloc: Global,
    kind: Kind,
    name: &str,
    drives: &mut D,
) -> Result<Findings, FsckStatus>
    ensures { Opens kind name.now (drives_seen D.Drives drives.old) (drives_seen D.Drives drives.new) (FindsOf kind) result }
{
    match open(kind, name, drives) {
        Ok(()) => {}
        Err(status) => return Err(status),
    }
    let entries = match read(alloc, kind, drives) {
        Ok(entries) => entries,
        Err(status) => return Err(status),
    };
    match judge(alloc, kind, entries) {
        Ok(found) => Ok(found),
        Err(_) => Err(FsckStatus::OutOfMemory),
    }
}

/// What is found of a directory.
fn judge(alloc: Global, kind: Kind, entries: Vec<Entry>) -> Result<Findings, OutOfMemory>
    requires { FillDirectory kind entries.items }
    ensures { IfOk result (FindsFaults kind entries.items) }
{
    let mut entries = entries;
    let faults = list_faults(alloc, kind, &mut entries)?;
    if faults.is_empty() {
        return sound(alloc, kind, entries);
    }
    let text = list_text(alloc, faults.as_slice())?;
    Ok(Findings {
        text,
        count: faults.len() as u32,
    })
}

/// Lists the entries of a directory at fault; those that stay are left.
fn list_faults(
    alloc: Global,
    kind: Kind,
    entries: &mut Vec<Entry>,
) -> Result<Vec<SlotFault>, OutOfMemory>
    requires { length entries.old.items ≡ (geometry_of kind).drm + 1 }
    ensures { IfOk result (λ faults. ListsFew kind entries.old.items entries.new.items faults.items) }
{
    fault_list(alloc, kind, entries.as_mut_slice())
}

/// What is found of a directory without a fault: its free records.
fn sound(alloc: Global, kind: Kind, entries: Vec<Entry>) -> Result<Findings, OutOfMemory>
    requires { FillDirectory kind entries.items }
    ensures { IfOk result (FindsNone kind entries.items) }
{
    let Ok(mounted) = mount_entries(alloc, 0, kind, entries) else {
        return Err(OutOfMemory);
    };
    let mut text = Vec::new(alloc);
    text.extend_from_slice(sound_line(mounted.free_records()).as_slice())?;
    Ok(Findings { text, count: 0 })
}

/// Writes what was found, and ends so.
fn tell<S: Sink>(found: &Findings, sink: &mut S) -> FsckStatus
    ensures tells { Tells found.now.text.items (ended_by found.now.count) (S.written sink.old) (S.written sink.new) (S.faults sink.old) (S.faults sink.new) result }
{
    match sink.put(found.text.as_slice()) {
        Ok(()) => status_of(found.count),
        Err(Failed) => FsckStatus::WriteFault,
    }
}

/// How a check ends that found so many entries at fault.
fn status_of(count: u32) -> FsckStatus
    ensures { result ≡ ended_by count }
{
    if count == 0 {
        FsckStatus::Done
    } else {
        FsckStatus::Unsound { count }
    }
}
