ghost use Rattle.std.specs.Prelude.{◌<◌};
ghost use Rattle.mpm_files.specs.Serving.{turns_in};
ghost use Rattle.mpm_files.specs.Working.{MayDoUnit, MayTurn, TakesTurn};
ghost use Rattle.mpm_files.specs.UnitParts.{DoesNextUnit, DoesTurnUnit, EndsTurn};

use crate::changing::{delete_next, idle_next, label_next, make_next, rename_next, xfcb_next};
use crate::moving::{read_next, test_next, write_next};
use crate::setting::set_next;
use crate::work::Work;
use mpm_base::Steps;
use mpm_cache::Cache;
use mpm_jobs::JobKind;
use mpm_mount::Mounted;
use mpm_port::{Drives, Failed};
use std::sync::ledger::Ledger;

/// Whether turns of a job are left.
#[derive(Clone, Copy, Debug, PartialEq, Eq)]
pub enum Progress {
    /// Some are.
    Again,
    /// The last has ended.
    Done,
}

/// Does the next unit of a job, by its sort.
fn do_next<D: Drives, L: Ledger>(
    mounted: &mut Mounted,
    cache: &mut Cache,
    drives: &mut D,
    work: &mut Work,
    steps: &mut Steps<L>,
) -> Result<(), Failed>
    requires { MayDoUnit (D.disks drives.old) mounted.old cache.old work.old }
    ensures { DoesNextUnit D.Drives mounted.old mounted.new work.old work.new cache.old cache.new drives.old drives.new steps.old steps.new result }
{
    match work.job.kind {
        JobKind::Read => read_next(mounted, cache, drives, work, steps),
        JobKind::Write => write_next(mounted, cache, drives, work, steps),
        JobKind::TestWrite => test_next(mounted, cache, drives, work, steps),
        JobKind::Make => make_next(mounted, cache, drives, work, steps),
        JobKind::Delete => delete_next(mounted, cache, drives, work, steps),
        JobKind::Rename => rename_next(mounted, cache, drives, work, steps),
        JobKind::Attributes => set_next(mounted, cache, drives, work, steps),
        JobKind::Label => label_next(mounted, cache, drives, work, steps),
        JobKind::Xfcb => xfcb_next(mounted, cache, drives, work, steps),
        JobKind::Nothing => idle_next(mounted, cache, drives, work, steps),
    }
}

/// Does the unit of a turn, where it has one.
#[tactic(auto, using(crate::proofs::WorkingLaws::works_not))]
fn do_unit<D: Drives, L: Ledger>(
    mounted: &mut Mounted,
    cache: &mut Cache,
    drives: &mut D,
    work: &mut Work,
    steps: &mut Steps<L>,
) -> Result<(), Failed>
    requires { MayTurn (D.disks drives.old) mounted.old cache.old work.old }
    ensures { DoesTurnUnit D.Drives mounted.old mounted.new work.old work.new cache.old cache.new drives.old drives.new steps.old steps.new result }
{
    if work.ended < work.units {
        do_next(mounted, cache, drives, work, steps)
    } else {
        Ok(())
    }
}

/// Does the next unit of a job's plan, by 20 calls of the drives at most; one that reads, by one, or by none where the sector of
/// its record is cached.
pub fn turn<D: Drives, L: Ledger>(
    mounted: &mut Mounted,
    cache: &mut Cache,
    work: &mut Work,
    drives: &mut D,
    steps: &mut Steps<L>,
) -> Result<Progress, Failed>
    requires { MayTurn (D.disks drives.old) mounted.old cache.old work.old }
    ensures { TakesTurn D.Drives mounted.old mounted.new work.old work.new cache.old cache.new drives.old drives.new steps.old steps.new result }
{
    match do_unit(mounted, cache, drives, work, steps) {
        Ok(()) => Ok(end_turn(work)),
        Err(failed) => Err(failed),
    }
}

/// Counts a turn that has ended.
fn end_turn(work: &mut Work) -> Progress
    requires { work.old.ended < turns_in work.old }
    ensures { EndsTurn work.old work.new result }
{
    work.ended += 1;
    if work.ended < work.turns() {
        Progress::Again
    } else {
        Progress::Done
    }
}
