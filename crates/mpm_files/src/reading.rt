ghost use Rattle.mpm_files.specs.Plans.{file_of_job};
ghost use Rattle.mpm_files.specs.DiskParts.{MayMoveRecord, ReadsByDisk};

use crate::entries::disk_of;
use crate::lookups::{find_entry, held_sector};
use mpm_base::Steps;
use mpm_cache::Cache;
use mpm_jobs::Job;
use mpm_mount::Mounted;
use mpm_port::{Drives, Failed};
use std::sync::ledger::Ledger;

/// Reads a record of a job's file, visible or not, whose block is held: by one call of the drives, or by none where its sector is
/// cached.
pub(crate) fn read_record<D: Drives, L: Ledger>(
    mounted: &Mounted,
    cache: &mut Cache,
    drives: &mut D,
    job: &Job,
    n: u32,
    out: &mut [u8; 128],
    steps: &mut Steps<L>,
) -> Result<(), Failed>
    requires { MayMoveRecord (D.disks drives.old) mounted.now cache.old (file_of_job job.now) n }
    ensures { ReadsByDisk D.Drives mounted.now cache.old cache.new drives.old drives.new steps.old steps.new (file_of_job job.now) n out.new result }
{
    let found = find_entry(mounted, job, n);
    let sector = held_sector(mounted, &found.file, n);
    disk_of(mounted).read(cache, drives, sector, out, steps)
}
