ghost use Rattle.std.specs.Prelude.{◌≡◌, count_by, bytes_eq};
ghost use Rattle.std.specs.List.{list_any};
ghost use Rattle.mpm_dirent.specs.Names as names;
ghost use Rattle.mpm_mount.specs.Files as lookups;
ghost use Rattle.mpm_files.specs.Counting as spec;
ghost use Rattle.mpm_names.specs.Readings.{IsNumber};

use mpm_blocks::geometry;
use mpm_dirent::{Entry, plain_name};
use mpm_jobs::Job;
use mpm_mount::Mounted;
use mpm_names::matches;

/// Which directory entries are counted.
#[derive(Clone, Copy, Debug, PartialEq, Eq)]
pub(crate) enum Sought {
    /// Those of the job's file.
    OfFile,
    /// Those that the job deletes: of the files that fit, and the XFCBs of such that are there.
    Deleted,
}

/// Whether two names are one without the attributes in bit 7.
fn is_same_name(a: &[u8; 11], b: &[u8; 11]) -> bool
    ensures { result ≡ bytes_eq (names.plain a.now) (names.plain b.now) }
{
    plain_name(a) == plain_name(b)
}

/// Whether an entry is of a user's file.
fn is_part_of(user: u8, name: &[u8; 11], entry: &Entry) -> bool
    ensures { result ≡ lookups.is_part_of (lookups.file_in user name.now) entry.now }
{
    match entry {
        Entry::File { file } => user == file.user && is_same_name(name, &file.name),
        _ => false,
    }
}

/// Whether a user's file fits the name of a job.
fn is_fitting(job: &Job, user: u8, name: &[u8; 11]) -> bool
    ensures { result ≡ lookups.is_fitting job.now.user job.now.name (lookups.file_in user name.now) }
{
    user == job.user && matches(&job.name, &plain_name(name))
}

/// Whether a user's file is there.
#[tactic(auto, using(crate::proofs::EntryCounts::any_more, crate::proofs::EntryCounts::any_found, crate::proofs::EntryCounts::taken_whole))]
pub(crate) fn has_file(mounted: &Mounted, user: u8, name: &[u8; 11]) -> bool
    ensures { result ≡ list_any (lookups.is_part_of (lookups.file_in user name.now)) mounted.now.entries }
{
    let kind = mounted.kind();
    for slot in 0..geometry(kind).drm + 1 {
        if is_part_of(user, name, mounted.entry(slot)) {
            return true;
        }
    }
    false
}

/// Whether a job deletes an entry.
fn is_deleted(mounted: &Mounted, job: &Job, entry: &Entry) -> bool
    ensures { result ≡ spec.is_deleted mounted.now job.now.user job.now.name entry.now }
{
    match entry {
        Entry::File { file } => is_fitting(job, file.user, &file.name),
        Entry::Xfcb { xfcb } => {
            is_fitting(job, xfcb.user, &xfcb.name) && has_file(mounted, xfcb.user, &xfcb.name)
        }
        _ => false,
    }
}

/// Whether an entry is among those that are counted.
fn is_sought(mounted: &Mounted, job: &Job, sought: Sought, entry: &Entry) -> bool
    ensures { result ≡ spec.is_sought mounted.now job.now sought entry.now }
{
    match sought {
        Sought::OfFile => is_part_of(job.user, &job.name, entry),
        Sought::Deleted => is_deleted(mounted, job, entry),
    }
}

/// How many directory entries are such.
#[tactic(auto, using(crate::proofs::EntryCounts::count_more, crate::proofs::EntryCounts::taken_whole))]
pub(crate) fn count_entries(mounted: &Mounted, job: &Job, sought: Sought) -> u32
    ensures { IsNumber (count_by (spec.is_sought mounted.now job.now sought) mounted.now.entries) 512 result }
{
    let kind = mounted.kind();
    let mut count = 0;
    for slot in 0..geometry(kind).drm + 1 {
        count += u32::from(is_sought(mounted, job, sought, mounted.entry(slot)));
    }
    count
}
