ghost use Rattle.std.specs.Prelude.{◌≡◌, ◌/◌, ◌%◌, ◌≤◌, ℕ, List, map, nat_le};
ghost use Rattle.mpm_dirent.specs.declared.limits.TheConstants.{LAST_EXTENT};
ghost use Rattle.mpm_mount.specs.Drives.{Drive, extents_of};
ghost use Rattle.mpm_mount.specs.Directories.{Stands};
ghost use Rattle.mpm_mount.specs.Attributes.{attributes_of};
ghost use Rattle.mpm_files.specs.Turning.{IsNewEntry};
ghost use Rattle.mpm_files.specs.Units.{AddsEntry};
ghost use Rattle.mpm_files.specs.Plans.{file_of_job};
ghost use Rattle.mpm_files.specs.DiskParts.{MayAddEntry, DoesByDisk};

use crate::entries::put_entry;
use crate::lookups::file_at;
use crate::marking::marked;
use mpm_base::Steps;
use mpm_cache::Cache;
use mpm_dirent::{Entry, FileEntry};
use mpm_jobs::Job;
use mpm_mount::{Mounted, lowest_entry};
use mpm_port::{Drives, Failed};
use std::sync::ledger::Ledger;

/// A name with the attributes of a job's file, which are those of its lowest entry.
fn attributes(mounted: &Mounted, job: &Job) -> [u8; 11]
    ensures { (image : List ℕ) (files : Drive) → Stands image mounted.now files → map (nat_le 128) result ≡ attributes_of (extents_of files (file_of_job job.now)) }
{
    mounted.recall_directory();
    match lowest_entry(mounted, job.user, &job.name) {
        Some(found) => file_at(mounted, found.slot).name,
        None => [0; 11],
    }
}

/// A new directory entry of a job's file, for an extent: it holds no block.
fn new_entry(mounted: &Mounted, job: &Job, extent: u16) -> FileEntry
    requires { extent ≤ LAST_EXTENT }
    ensures { IsNewEntry mounted.now job.now extent result }
{
    FileEntry {
        user: job.user,
        name: marked(&job.name, &attributes(mounted, job)),
        ex: (extent % 32) as u8,
        s1: 0,
        s2: (extent / 32) as u8,
        rc: 0,
        blocks: [0; 16],
    }
}

/// Adds a directory entry for an extent of a job's file, with the attributes of the file.
pub(crate) fn add_entry<D: Drives, L: Ledger>(
    mounted: &mut Mounted,
    cache: &mut Cache,
    drives: &mut D,
    job: &Job,
    extent: u16,
    steps: &mut Steps<L>,
) -> Result<(), Failed>
    requires { MayAddEntry (D.disks drives.old) mounted.old cache.old job.now extent }
    ensures { DoesByDisk D.Drives 2 mounted.old mounted.new cache.old cache.new drives.old drives.new steps.old steps.new (λ image files does. does (AddsEntry (file_of_job job.now) extent)) result }
{
    mounted.recall_directory();
    match mounted.free_slot() {
        Some(slot) => {
            let file = new_entry(mounted, job, extent);
            put_entry(mounted, cache, drives, slot, &Entry::File { file }, steps)
        }
        None => unreachable!(),
    }
}
