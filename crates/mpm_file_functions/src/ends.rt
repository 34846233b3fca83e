ghost use Rattle.std.specs.Prelude.{◌≡◌, ◌≤◌, IfSome};
ghost use Rattle.mpm_file_functions.specs.Ends as spec;

use crate::errors::RecordError;
use crate::functions::FileFunction;

/// What ends the records of a call. (MP/M II Programmer's Guide, functions 20, 21, 33, 34, 40, 41 and 42.)
#[derive(Clone, Copy, Debug, PartialEq, Eq)]
pub enum RecordEnd {
    /// A record can't be read or written.
    Failing(RecordError),
    /// Another process has locked it.
    LockedOff,
    /// The process has as many locks as it may.
    TooManyLocks,
    /// As many records are locked in all as there is room for.
    NoLockRoom,
}

/// So many records are done in order, and then what ended them.
#[derive(Clone, Copy, Debug, PartialEq, Eq)]
pub struct Ended {
    /// How many are done.
    pub moved: u8,
    /// What ended them, if anything did.
    pub end: Option<RecordEnd>,
}

/// The code of an extent that isn't there.
fn no_extent_code(function: FileFunction) -> u16
    ensures { result ≡ spec.no_extent_code function }
{
    match function {
        FileFunction::ReadSequential => 1,
        _ => 4,
    }
}

/// The code of a full directory.
fn no_space_code(function: FileFunction) -> u16
    ensures { result ≡ spec.no_space_code function }
{
    match function {
        FileFunction::WriteRandom => 5,
        _ => 1,
    }
}

/// The code of a record that can't be read or written.
fn error_code(function: FileFunction, error: RecordError) -> u16
    ensures { result ≡ spec.error_code_of function error }
{
    match error {
        RecordError::UnwrittenExtent => no_extent_code(function),
        RecordError::UnwrittenData => 1,
        RecordError::NoDirectorySpace => no_space_code(function),
        RecordError::NoDataBlock => 2,
        RecordError::Mismatch => 7,
    }
}

impl RecordEnd {
    /// What ended the records of a call: what ended its job, or the lock of another process before which it was cut.
    pub fn of(error: Option<RecordError>, is_cut: bool) -> Option<RecordEnd>
        ensures { result ≡ spec.end_by error is_cut }
    {
        match error {
            Some(error) => Some(RecordEnd::Failing(error)),
            None if is_cut => Some(RecordEnd::LockedOff),
            None => None,
        }
    }

    /// The code in which a function answers it.
    pub fn code(self, function: FileFunction) -> u16
        ensures value { result ≡ spec.code_of function self }
        ensures few { result ≤ 14 }
    {
        match self {
            RecordEnd::Failing(error) => error_code(function, error),
            RecordEnd::LockedOff => 8,
            RecordEnd::TooManyLocks => 12,
            RecordEnd::NoLockRoom => 14,
        }
    }
}

/// The value of a call on records: how many are done, and a code; 0 where all are done.
pub fn coded(function: FileFunction, moved: u8, end: Option<RecordEnd>) -> u16
    requires { IfSome end (λ _. moved ≤ 15) }
    ensures { result ≡ spec.coded function moved end }
{
    match end {
        Some(end) => 4096 * u16::from(moved) + end.code(function),
        None => 0,
    }
}

/// How many of the records of a call on so many are done by its value: all, or as many as its four high bits have.
pub fn done_by(multi: u8, value: u16) -> u8
    requires { multi ≤ 16 }
    ensures value { result ≡ spec.done_by multi value }
    ensures few { result ≤ 16 }
{
    if value == 0 {
        multi
    } else {
        (value / 4096) as u8
    }
}

/// Whether a call on records leaves its control block as it was.
pub fn does_stay(moved: u8, end: Option<RecordEnd>) -> bool
    ensures { result ≡ spec.does_stay moved end }
{
    moved == 0 && end.is_some()
}
