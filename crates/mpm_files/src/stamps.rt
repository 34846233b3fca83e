ghost use Rattle.std.specs.Prelude.{◌≡◌, [], ◌∷◌, Some, ◌/◌};
ghost use Rattle.mpm_dirent.specs.declared.kinds.Entry.TheVariants.{File};
ghost use Rattle.mpm_sectors.specs.Disks.{IsReadyDisk};
ghost use Rattle.mpm_files.specs.Units.{Idles, stamped, with_stamp};
ghost use Rattle.mpm_files.specs.Plans.{file_of_job};
ghost use Rattle.mpm_files.specs.Lookups.{stamped_in, stamped_entry};
ghost use Rattle.mpm_files.specs.Standing.{exchanged_in};
ghost use Rattle.mpm_files.specs.DiskParts.{MayPutEntry, MayPutStamped, GoesByDisk, DoesByDisk, PutsStamped};

use crate::entries::{put_entries, put_entry};
use crate::lookups::{FoundEntry, find_xfcb, find_xfcb_beside};
use mpm_base::Steps;
use mpm_cache::Cache;
use mpm_dirent::{Entry, XfcbEntry};
use mpm_jobs::Job;
use mpm_mount::Mounted;
use mpm_port::{Drives, Failed};
use mpm_sectors::SlotEntry;
use std::sync::ledger::Ledger;

/// Which of the two stamps of an XFCB.
#[derive(Clone, Copy, Debug, PartialEq, Eq)]
pub(crate) enum Stamp {
    /// When the file was made, or read.
    First,
    /// When it was written.
    Second,
}

/// An XFCB with one of its stamps.
fn stamped(xfcb: &XfcbEntry, stamp: Stamp, moment: [u8; 4]) -> XfcbEntry
    ensures { result ≡ stamped_entry stamp moment xfcb.now }
{
    match stamp {
        Stamp::First => XfcbEntry {
            first: moment,
            ..*xfcb
        },
        Stamp::Second => XfcbEntry {
            second: moment,
            ..*xfcb
        },
    }
}

/// Puts a stamp into the XFCB of a job's file, where there is a stamp, and an XFCB.
#[tactic(auto, using(crate::proofs::WorkingLaws::works_not))]
pub(crate) fn put_stamp<D: Drives, L: Ledger>(
    mounted: &mut Mounted,
    cache: &mut Cache,
    drives: &mut D,
    job: &Job,
    stamp: Stamp,
    moment: Option<[u8; 4]>,
    steps: &mut Steps<L>,
) -> Result<(), Failed>
    requires ready { IsReadyDisk (D.disks drives.old) mounted.old.drive mounted.old.kind cache.old }
    ensures { GoesByDisk D.Drives 2 mounted.old mounted.new cache.old cache.new drives.old drives.new steps.old steps.new (λ image files goes. goes (stamped (stamped_in stamp) (file_of_job job.now) moment files)) result }
{
    let moment = match moment {
        Some(moment) => moment,
        None => return Ok(()),
    };
    let found = match find_xfcb(mounted, job) {
        Some(found) => found,
        None => return Ok(()),
    };
    let xfcb = stamped(&found.xfcb, stamp, moment);
    put_entry(
        mounted,
        cache,
        drives,
        found.slot,
        &Entry::Xfcb { xfcb },
        steps,
    )
}

/// Does the unit of a call that changes nothing but perhaps for the first stamp of its file's XFCB.
pub(crate) fn idle<D: Drives, L: Ledger>(
    mounted: &mut Mounted,
    cache: &mut Cache,
    drives: &mut D,
    job: &Job,
    moment: Option<[u8; 4]>,
    steps: &mut Steps<L>,
) -> Result<(), Failed>
    requires ready { IsReadyDisk (D.disks drives.old) mounted.old.drive mounted.old.kind cache.old }
    ensures { DoesByDisk D.Drives 2 mounted.old mounted.new cache.old cache.new drives.old drives.new steps.old steps.new (λ image files does. does (Idles (file_of_job job.now) moment)) result }
{
    put_stamp(mounted, cache, drives, job, Stamp::First, moment, steps)
}

/// Puts an entry of the job's file in the place of another of its entries, and the second stamp into its XFCB: in one write where
/// that is in the same sector, else after it.
pub(crate) fn put_stamped<D: Drives, L: Ledger>(
    mounted: &mut Mounted,
    cache: &mut Cache,
    drives: &mut D,
    placed: &FoundEntry,
    job: &Job,
    moment: Option<[u8; 4]>,
    steps: &mut Steps<L>,
) -> Result<(), Failed>
    requires { MayPutStamped (D.disks drives.old) mounted.old cache.old placed.now }
    ensures { PutsStamped D.Drives 4 mounted.old mounted.new cache.old cache.new drives.old drives.new steps.old steps.new placed.now (file_of_job job.now) moment result }
{
    let second = match moment {
        Some(second) => second,
        None => return put_apart(mounted, cache, drives, placed, job, moment, steps),
    };
    match find_xfcb_beside(mounted, job, placed.slot) {
        Some(found) => {
            let first = SlotEntry {
                slot: placed.slot,
                entry: Entry::File { file: placed.file },
            };
            let xfcb = stamped(&found.xfcb, Stamp::Second, second);
            let beside = SlotEntry {
                slot: found.slot,
                entry: Entry::Xfcb { xfcb },
            };
            put_entries(mounted, cache, drives, &first, &beside, steps)
        }
        None => put_apart(mounted, cache, drives, placed, job, moment, steps),
    }
}

/// Puts an entry of the job's file in the place of another, and then the second stamp.
#[tactic(auto, using(crate::proofs::WorkingLaws::ready_behind))]
fn put_apart<D: Drives, L: Ledger>(
    mounted: &mut Mounted,
    cache: &mut Cache,
    drives: &mut D,
    placed: &FoundEntry,
    job: &Job,
    moment: Option<[u8; 4]>,
    steps: &mut Steps<L>,
) -> Result<(), Failed>
    requires { MayPutEntry (D.disks drives.old) mounted.old cache.old placed.now.slot (File placed.now.file) }
    ensures { GoesByDisk D.Drives 4 mounted.old mounted.new cache.old cache.new drives.old drives.new steps.old steps.new (λ image files goes. goes (with_stamp (file_of_job job.now) moment files (exchanged_in image mounted.old files placed.now.slot (File placed.now.file) ∷ []))) result }
{
    match put_entry(
        mounted,
        cache,
        drives,
        placed.slot,
        &Entry::File { file: placed.file },
        steps,
    ) {
        Ok(()) => put_stamp(mounted, cache, drives, job, Stamp::Second, moment, steps),
        Err(failed) => Err(failed),
    }
}
