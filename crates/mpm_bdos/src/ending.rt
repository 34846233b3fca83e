ghost use Rattle.std.specs.Prelude.{◌≡◌};
ghost use Rattle.mpm_bdos.specs.Ending as spec;

use mpm_file_functions::{Ended, FileFunction, RecordEnd, RecordError};
use mpm_files::Work;

/// Whether a call on so many records was cut before one that another process has locked: its job does fewer.
fn is_cut_short(function: FileFunction, count: u8, multi: u8) -> bool
    ensures { result ≡ spec.is_cut_short function count multi }
{
    match function {
        FileFunction::WriteSequential | FileFunction::WriteRandom | FileFunction::TestAndWrite =>
            count < multi,
        _ => false,
    }
}

/// How many records a call's job does, if it has one.
fn count_of(work: &Option<Work>) -> u8
    ensures { result ≡ spec.count_of work.now }
{
    match work {
        Some(work) => work.job.count,
        None => 0,
    }
}

/// How many it has done.
pub(crate) fn moved_by(work: &Option<Work>) -> u8
    ensures { result ≡ spec.moved_by work.now }
{
    match work {
        Some(work) => work.moved(),
        None => 0,
    }
}

/// Why it ended, once its turns have.
fn error_of(work: &Option<Work>) -> Option<RecordError>
    ensures { result ≡ spec.error_of work.now }
{
    match work {
        Some(work) => work.error(),
        None => None,
    }
}

/// What the records of a call on so many come to by its job.
#[tactic(auto, unfolding(crate::specs::Ending::ended))]
pub(crate) fn ended(function: FileFunction, multi: u8, work: &Option<Work>) -> Ended
    ensures { result ≡ spec.ended function multi work.now }
{
    Ended {
        moved: moved_by(work),
        end: RecordEnd::of(
            error_of(work),
            is_cut_short(function, count_of(work), multi),
        ),
    }
}
