ghost use Rattle.mpm_files.specs.Stepping as stepping;
ghost use Rattle.std.specs.Prelude.{length, ◌≡◌, ◌+◌, ◌*◌, ◌<◌, ◌≤◌, None};
ghost use Rattle.mpm_dirent.specs.declared.limits.TheConstants.{LAST_NAMED};
ghost use Rattle.mpm_jobs.specs.declared.jobs.JobKind.TheVariants as kinds;
ghost use Rattle.mpm_files.specs.Plans.{record_at};
ghost use Rattle.mpm_files.specs.Serving.{stamp_left};
ghost use Rattle.mpm_files.specs.Turning as turning;
ghost use Rattle.mpm_files.specs.Working.{MayDoUnitOf, DoesNextWithin};
ghost use Rattle.mpm_files.specs.UnitParts.{MayWriteNext, ReadsNext};

use crate::adding::add_entry;
use crate::clearing::{clear_block, clears_blocks};
use crate::reading::read_record;
use crate::records::{lacks_block, lacks_entry};
use crate::work::Work;
use crate::writing::{Record, put_fresh, put_held};
use mpm_base::Steps;
use mpm_cache::Cache;
use mpm_jobs::Job;
use mpm_mount::Mounted;
use mpm_port::{Drives, Failed};
use std::sync::ledger::Ledger;

/// The bytes of a record among those of a job.
fn bytes_at(job: &Job, place: u32) -> [u8; 128]
    requires { place < 32 }
    ensures { result ≡ record_at job.now.bytes place }
{
    let from = 128 * place as usize;
    let mut bytes = [0; 128];
    bytes.copy_from_slice(&job.bytes[from..from + 128]);
    bytes
}

/// The stamp that comes with a record, where so many are done.
fn stamp(job: &Job, done: u32) -> Option<[u8; 4]>
    ensures { result ≡ stamp_left job.now.stamp done }
{
    if done == 0 { job.stamp } else { None }
}

/// Puts a record that was read after those that were read before it.
fn keep(work: &mut Work, bytes: &[u8; 128])
    requires { work.old.moved < 32 }
    ensures kept { work.new ≡ turning.with_record_read work.old bytes.now }
    ensures size { length work.old.job.bytes ≡ 4096 }
{
    let from = 128 * usize::from(work.moved);
    work.job.bytes[from..from + 128].copy_from_slice(bytes);
    work.moved += 1;
}

/// Reads the next record of a job.
pub(crate) fn read_next<D: Drives, L: Ledger>(
    mounted: &mut Mounted,
    cache: &mut Cache,
    drives: &mut D,
    work: &mut Work,
    steps: &mut Steps<L>,
) -> Result<(), Failed>
    requires { MayDoUnitOf kinds.Read (D.disks drives.old) mounted.old cache.old work.old }
    ensures { ReadsNext D.Drives mounted.old mounted.new work.old work.new cache.old cache.new drives.old drives.new steps.old steps.new result }
{
    work.cleared = None;
    let n = work.job.first + work.ended;
    let mut record = [0; 128];
    match read_record(mounted, cache, drives, &work.job, n, &mut record, steps) {
        Ok(()) => {
            keep(work, &record);
            Ok(())
        }
        Err(failed) => Err(failed),
    }
}

/// What comes next of a record that is written.
#[derive(Clone, Copy, Debug, PartialEq, Eq)]
enum Step {
    /// Its directory entry.
    Entry,
    /// The clearing of its block.
    Block,
    /// The record.
    Record,
}

/// What comes next of a record of a job that writes.
fn next_step(mounted: &Mounted, work: &Work, n: u32) -> Step
    requires { n ≤ LAST_NAMED }
    ensures { result ≡ stepping.step_of mounted.now work.now n }
{
    if lacks_entry(mounted, &work.job, n) {
        Step::Entry
    } else if clears_blocks(mounted.kind())
        && lacks_block(mounted, &work.job, n)
        && work.cleared.is_none()
    {
        Step::Block
    } else {
        Step::Record
    }
}

/// Writes the next record of a job, into the block that is held for it or a fresh one.
fn write_record<D: Drives, L: Ledger>(
    mounted: &mut Mounted,
    cache: &mut Cache,
    drives: &mut D,
    work: &mut Work,
    steps: &mut Steps<L>,
) -> Result<(), Failed>
    requires { MayWriteNext (D.disks drives.old) mounted.old cache.old work.old }
    ensures { DoesNextWithin D.Drives 20 mounted.old mounted.new work.old work.new cache.old cache.new drives.old drives.new steps.old steps.new result }
{
    let n = work.job.first + u32::from(work.moved);
    let record = Record {
        number: n,
        bytes: bytes_at(&work.job, u32::from(work.moved)),
        moment: stamp(&work.job, u32::from(work.moved)),
    };
    let cleared = work.cleared;
    work.cleared = None;
    work.moved += 1;
    if lacks_block(mounted, &work.job, n) {
        put_fresh(mounted, cache, drives, &work.job, &record, cleared, steps)
    } else {
        put_held(mounted, cache, drives, &work.job, &record, steps)
    }
}

/// Does the next unit of a job that writes: the directory entry of a record, the clearing of its block, or the record.
pub(crate) fn write_next<D: Drives, L: Ledger>(
    mounted: &mut Mounted,
    cache: &mut Cache,
    drives: &mut D,
    work: &mut Work,
    steps: &mut Steps<L>,
) -> Result<(), Failed>
    requires { MayDoUnitOf kinds.Write (D.disks drives.old) mounted.old cache.old work.old }
    ensures { DoesNextWithin D.Drives 20 mounted.old mounted.new work.old work.new cache.old cache.new drives.old drives.new steps.old steps.new result }
{
    let n = work.job.first + u32::from(work.moved);
    match next_step(mounted, work, n) {
        Step::Entry => {
            work.cleared = None;
            add_entry(mounted, cache, drives, &work.job, (n / 128) as u16, steps)
        }
        Step::Block => match clear_block(mounted, cache, drives, steps) {
            Ok(block) => {
                work.cleared = Some(block);
                Ok(())
            }
            Err(failed) => Err(failed),
        },
        Step::Record => write_record(mounted, cache, drives, work, steps),
    }
}

/// Reads the next record of a job, and where it has the bytes that are named, writes it.
pub(crate) fn test_next<D: Drives, L: Ledger>(
    mounted: &mut Mounted,
    cache: &mut Cache,
    drives: &mut D,
    work: &mut Work,
    steps: &mut Steps<L>,
) -> Result<(), Failed>
    requires { MayDoUnitOf kinds.TestWrite (D.disks drives.old) mounted.old cache.old work.old }
    ensures { DoesNextWithin D.Drives 6 mounted.old mounted.new work.old work.new cache.old cache.new drives.old drives.new steps.old steps.new result }
{
    work.cleared = None;
    if work.has_missed {
        return Ok(());
    }
    let n = work.job.first + work.ended;
    let mut there = [0; 128];
    read_record(mounted, cache, drives, &work.job, n, &mut there, steps)?;
    if there != bytes_at(&work.job, work.ended) {
        work.has_missed = true;
        return Ok(());
    }
    let record = Record {
        number: n,
        bytes: bytes_at(&work.job, u32::from(work.job.count) + work.ended),
        moment: stamp(&work.job, work.ended),
    };
    work.moved += 1;
    put_held(mounted, cache, drives, &work.job, &record, steps)
}
