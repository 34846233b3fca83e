ghost use Rattle.std.specs.Prelude.{◌≡◌};
ghost use Rattle.mpm_mount.specs.Directories.{entry_in};
ghost use Rattle.mpm_dirent.specs.declared.kinds.Entry.TheVariants.{File};
ghost use Rattle.mpm_dirent.specs.declared.kinds.FileEntry.{FileEntry};
ghost use Rattle.mpm_mount.specs.Faults.{name_of};
ghost use Rattle.mpm_mount.specs.Attributes.{attributes_in};
ghost use Rattle.mpm_mount.specs.Files.{file_in};
ghost use Rattle.mpm_files.specs.Units.{SetsAttributes, RenamesEntry, RenamesXfcb};
ghost use Rattle.mpm_files.specs.Plans.{file_of_job, new_file_of_job};
ghost use Rattle.mpm_files.specs.DiskParts.{MayChangeFile, MayRenameEntry, MayRenameXfcb, DoesByDisk};

use crate::entries::put_entry;
use crate::lookups::{file_at, find_xfcb};
use crate::marking::{attributes_over, marked};
use mpm_base::Steps;
use mpm_cache::Cache;
use mpm_dirent::{Entry, FileEntry, XfcbEntry, plain_name};
use mpm_jobs::Job;
use mpm_mount::Mounted;
use mpm_port::{Drives, Failed};
use std::sync::ledger::Ledger;

/// Gives the entry in a slot the attributes of a job.
pub(crate) fn set_attributes<D: Drives, L: Ledger>(
    mounted: &mut Mounted,
    cache: &mut Cache,
    drives: &mut D,
    slot: u16,
    job: &Job,
    steps: &mut Steps<L>,
) -> Result<(), Failed>
    requires { MayChangeFile (D.disks drives.old) mounted.old cache.old slot }
    ensures { DoesByDisk D.Drives 2 mounted.old mounted.new cache.old cache.new drives.old drives.new steps.old steps.new (λ image files does. (f : FileEntry) → entry_in mounted.old slot ≡ File f
        → does (SetsAttributes (file_in f.user f.name) (name_of files.kind f).number (attributes_in job.now.name))) result }
{
    let file = file_at(mounted, slot);
    let file = FileEntry {
        name: marked(&file.name, &attributes_over(&job.name, &file.name)),
        ..file
    };
    put_entry(mounted, cache, drives, slot, &Entry::File { file }, steps)
}

/// Gives the entry in a slot the new name of a job, which has no such entry. Attributes stay.
pub(crate) fn rename_entry<D: Drives, L: Ledger>(
    mounted: &mut Mounted,
    cache: &mut Cache,
    drives: &mut D,
    slot: u16,
    job: &Job,
    steps: &mut Steps<L>,
) -> Result<(), Failed>
    requires { MayRenameEntry (D.disks drives.old) mounted.old cache.old job.now slot }
    ensures { DoesByDisk D.Drives 2 mounted.old mounted.new cache.old cache.new drives.old drives.new steps.old steps.new (λ image files does. (f : FileEntry) → entry_in mounted.old slot ≡ File f
        → does (RenamesEntry (file_in f.user f.name) (name_of files.kind f).number (new_file_of_job job.now))) result }
{
    let file = file_at(mounted, slot);
    let file = FileEntry {
        name: marked(&job.new_name, &file.name),
        ..file
    };
    put_entry(mounted, cache, drives, slot, &Entry::File { file }, steps)
}

/// Gives the XFCB of a job's file the new name, which has none.
pub(crate) fn rename_xfcb<D: Drives, L: Ledger>(
    mounted: &mut Mounted,
    cache: &mut Cache,
    drives: &mut D,
    job: &Job,
    steps: &mut Steps<L>,
) -> Result<(), Failed>
    requires { MayRenameXfcb (D.disks drives.old) mounted.old cache.old job.now }
    ensures { DoesByDisk D.Drives 2 mounted.old mounted.new cache.old cache.new drives.old drives.new steps.old steps.new (λ image files does. does (RenamesXfcb (file_of_job job.now) (new_file_of_job job.now))) result }
{
    let Some(found) = find_xfcb(mounted, job) else {
        unreachable!();
    };
    let xfcb = XfcbEntry {
        name: plain_name(&job.new_name),
        ..found.xfcb
    };
    put_entry(
        mounted,
        cache,
        drives,
        found.slot,
        &Entry::Xfcb { xfcb },
        steps,
    )
}
