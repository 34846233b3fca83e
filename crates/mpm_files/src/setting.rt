ghost use Rattle.std.specs.Prelude.{◌≡◌, Some, None};
ghost use Rattle.mpm_jobs.specs.declared.jobs.JobKind.TheVariants as kinds;
ghost use Rattle.mpm_files.specs.Turning as turning;
ghost use Rattle.mpm_files.specs.Working.{MayDoUnitOf, DoesNextWithin};

use crate::renaming::set_attributes;
use crate::work::Work;
use mpm_base::Steps;
use mpm_cache::Cache;
use mpm_mount::{Found, Mounted};
use mpm_port::{Drives, Failed};
use std::sync::ledger::Ledger;

/// The last entry that was changed, by the name of the job.
fn last_of_job(work: &Work) -> Option<Found>
    ensures { result ≡ turning.last_of_job work.now }
{
    match work.last {
        Some(found) => Some(Found {
            name: work.job.name,
            ..found
        }),
        None => None,
    }
}

/// Sets the attributes of the first entry of a job's file above the last that has them.
pub(crate) fn set_next<D: Drives, L: Ledger>(
    mounted: &mut Mounted,
    cache: &mut Cache,
    drives: &mut D,
    work: &mut Work,
    steps: &mut Steps<L>,
) -> Result<(), Failed>
    requires { MayDoUnitOf kinds.Attributes (D.disks drives.old) mounted.old cache.old work.old }
    ensures { DoesNextWithin D.Drives 2 mounted.old mounted.new work.old work.new cache.old cache.new drives.old drives.new steps.old steps.new result }
{
    mounted.recall_directory();
    let last = last_of_job(work);
    work.cleared = None;
    match mounted.next(work.job.user, &work.job.name, last) {
        Some(found) => {
            work.last = Some(found);
            set_attributes(mounted, cache, drives, found.slot, &work.job, steps)
        }
        None => unreachable!(),
    }
}
