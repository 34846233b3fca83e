ghost use Rattle.std.specs.Prelude.{◌≡◌, Some, None};
ghost use Rattle.mpm_jobs.specs.declared.jobs.JobKind.TheVariants as kinds;
ghost use Rattle.mpm_files.specs.Turning as turning;
ghost use Rattle.mpm_files.specs.Working.{MayDoUnitOf, DoesNextWithin};

use crate::adding::add_entry;
use crate::entries::put_entry;
use crate::protecting::{put_label, put_xfcb};
use crate::renaming::{rename_entry, rename_xfcb};
use crate::searching::has_file;
use crate::stamps::idle;
use crate::work::Work;
use mpm_base::Steps;
use mpm_cache::Cache;
use mpm_dirent::Entry;
use mpm_mount::Mounted;
use mpm_port::{Drives, Failed};
use std::sync::ledger::Ledger;

/// The slot of the XFCB that goes next in a deletion: that of the file whose last entry went.
fn xfcb_due(mounted: &Mounted, work: &Work) -> Option<u16>
    ensures { result ≡ turning.xfcb_due mounted.now work.now }
{
    match work.last {
        Some(found) => {
            if has_file(mounted, work.job.user, &found.name) {
                None
            } else {
                mounted.xfcb(work.job.user, &found.name)
            }
        }
        None => None,
    }
}

/// Removes the next entry of a deletion: the XFCB of the file whose last entry went, or the first entry that fits.
pub(crate) fn delete_next<D: Drives, L: Ledger>(
    mounted: &mut Mounted,
    cache: &mut Cache,
    drives: &mut D,
    work: &mut Work,
    steps: &mut Steps<L>,
) -> Result<(), Failed>
    requires { MayDoUnitOf kinds.Delete (D.disks drives.old) mounted.old cache.old work.old }
    ensures { DoesNextWithin D.Drives 2 mounted.old mounted.new work.old work.new cache.old cache.new drives.old drives.new steps.old steps.new result }
{
    mounted.recall_directory();
    let due = xfcb_due(mounted, work);
    work.cleared = None;
    match due {
        Some(slot) => put_entry(mounted, cache, drives, slot, &Entry::Free, steps),
        None => match mounted.next(work.job.user, &work.job.name, None) {
            Some(found) => {
                work.last = Some(found);
                put_entry(mounted, cache, drives, found.slot, &Entry::Free, steps)
            }
            None => unreachable!(),
        },
    }
}

/// Does the next unit of a renaming: an XFCB of the new name goes, then the file's lowest entry gets that name, and last its XFCB.
pub(crate) fn rename_next<D: Drives, L: Ledger>(
    mounted: &mut Mounted,
    cache: &mut Cache,
    drives: &mut D,
    work: &mut Work,
    steps: &mut Steps<L>,
) -> Result<(), Failed>
    requires { MayDoUnitOf kinds.Rename (D.disks drives.old) mounted.old cache.old work.old }
    ensures { DoesNextWithin D.Drives 2 mounted.old mounted.new work.old work.new cache.old cache.new drives.old drives.new steps.old steps.new result }
{
    mounted.recall_directory();
    work.cleared = None;
    match mounted.xfcb(work.job.user, &work.job.new_name) {
        Some(slot) => put_entry(mounted, cache, drives, slot, &Entry::Free, steps),
        None => match mounted.next(work.job.user, &work.job.name, None) {
            Some(found) => rename_entry(mounted, cache, drives, found.slot, &work.job, steps),
            None => rename_xfcb(mounted, cache, drives, &work.job, steps),
        },
    }
}

/// Does the next unit of a job that makes a file: its entry, and then its XFCB.
pub(crate) fn make_next<D: Drives, L: Ledger>(
    mounted: &mut Mounted,
    cache: &mut Cache,
    drives: &mut D,
    work: &mut Work,
    steps: &mut Steps<L>,
) -> Result<(), Failed>
    requires { MayDoUnitOf kinds.Make (D.disks drives.old) mounted.old cache.old work.old }
    ensures { DoesNextWithin D.Drives 2 mounted.old mounted.new work.old work.new cache.old cache.new drives.old drives.new steps.old steps.new result }
{
    work.cleared = None;
    if work.ended == 0 {
        add_entry(mounted, cache, drives, &work.job, 0, steps)
    } else {
        put_xfcb(mounted, cache, drives, &work.job, steps)
    }
}

/// Does the unit of a job that puts the directory label.
pub(crate) fn label_next<D: Drives, L: Ledger>(
    mounted: &mut Mounted,
    cache: &mut Cache,
    drives: &mut D,
    work: &mut Work,
    steps: &mut Steps<L>,
) -> Result<(), Failed>
    requires { MayDoUnitOf kinds.Label (D.disks drives.old) mounted.old cache.old work.old }
    ensures { DoesNextWithin D.Drives 2 mounted.old mounted.new work.old work.new cache.old cache.new drives.old drives.new steps.old steps.new result }
{
    work.cleared = None;
    put_label(mounted, cache, drives, &work.job, steps)
}

/// Does the unit of a job that puts an XFCB.
pub(crate) fn xfcb_next<D: Drives, L: Ledger>(
    mounted: &mut Mounted,
    cache: &mut Cache,
    drives: &mut D,
    work: &mut Work,
    steps: &mut Steps<L>,
) -> Result<(), Failed>
    requires { MayDoUnitOf kinds.Xfcb (D.disks drives.old) mounted.old cache.old work.old }
    ensures { DoesNextWithin D.Drives 2 mounted.old mounted.new work.old work.new cache.old cache.new drives.old drives.new steps.old steps.new result }
{
    work.cleared = None;
    put_xfcb(mounted, cache, drives, &work.job, steps)
}

/// Does the unit of a job that puts a stamp at most.
pub(crate) fn idle_next<D: Drives, L: Ledger>(
    mounted: &mut Mounted,
    cache: &mut Cache,
    drives: &mut D,
    work: &mut Work,
    steps: &mut Steps<L>,
) -> Result<(), Failed>
    requires { MayDoUnitOf kinds.Nothing (D.disks drives.old) mounted.old cache.old work.old }
    ensures { DoesNextWithin D.Drives 2 mounted.old mounted.new work.old work.new cache.old cache.new drives.old drives.new steps.old steps.new result }
{
    work.cleared = None;
    idle(mounted, cache, drives, &work.job, work.job.stamp, steps)
}
