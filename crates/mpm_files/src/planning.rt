ghost use Rattle.std.specs.Prelude.{◌≡◌};
ghost use Rattle.mpm_files.specs.Counting.{unit_count, renamed_count};
ghost use Rattle.mpm_files.specs.Serving.{turns_in};
ghost use Rattle.mpm_files.specs.Finding.{HasFewRecords, BeginsJobOn};

use crate::counting::{Count, count_reads, count_writes};
use crate::searching::{Sought, count_entries};
use crate::work::Work;
use mpm_jobs::{Job, JobKind};
use mpm_mount::Mounted;

/// How many units a job has, and why it ends after them.
#[tactic(auto, unfolding(crate::specs::Counting::unit_count))]
fn count_units(mounted: &Mounted, job: &Job) -> Count
    requires { HasFewRecords job.now }
    ensures { result ≡ unit_count mounted.now job.now }
{
    match job.kind {
        JobKind::Read | JobKind::TestWrite => count_reads(mounted, job),
        JobKind::Write => count_writes(mounted, job),
        JobKind::Make => Count::of(1 + u32::from(job.count != 0)),
        JobKind::Delete => Count::of(count_entries(mounted, job, Sought::Deleted)),
        JobKind::Rename => Count::of(count_renamed(mounted, job)),
        JobKind::Attributes => Count::of(count_entries(mounted, job, Sought::OfFile)),
        JobKind::Label | JobKind::Xfcb | JobKind::Nothing => Count::of(1),
    }
}

/// How many entries a renaming changes: those of the file, its XFCB, and the XFCB of the new name.
fn count_renamed(mounted: &Mounted, job: &Job) -> u32
    ensures { result ≡ renamed_count mounted.now job.now }
{
    let has_xfcb = mounted.xfcb(job.user, &job.name).is_some();
    let has_other = mounted.xfcb(job.user, &job.new_name).is_some();
    count_entries(mounted, job, Sought::OfFile) + u32::from(has_xfcb) + u32::from(has_other)
}

/// Begins a job on a mounted drive: how many turns it takes. No device is asked.
pub fn plan(mounted: &Mounted, job: &Job) -> Work
    requires { HasFewRecords job.now }
    ensures { BeginsJobOn mounted.now job.now result }
{
    let count = count_units(mounted, job);
    Work {
        job: *job,
        units: count.units,
        ended: 0,
        moved: 0,
        error: count.error,
        has_missed: false,
        last: None,
        cleared: None,
    }
}

/// How many turns a job takes.
pub fn turns(work: &Work) -> u32
    ensures { result ≡ turns_in work.now }
{
    work.turns()
}
