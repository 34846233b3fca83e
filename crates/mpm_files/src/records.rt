ghost use Rattle.std.specs.Prelude.{◌≡◌, ◌/◌, ◌≤◌, true};
ghost use Rattle.mpm_dirent.specs.declared.limits.TheConstants.{LAST_NAMED};
ghost use Rattle.mpm_mount.specs.Drives as drives;
ghost use Rattle.mpm_mount.specs.Files.{is_file};
ghost use Rattle.mpm_mount.specs.Directories.{extent_slot};
ghost use Rattle.mpm_files.specs.Plans.{file_of_job};
ghost use Rattle.mpm_files.specs.Counting as spec;
ghost use Rattle.mpm_mount.specs.Records as records;

use mpm_base::Kind;
use mpm_blocks::geometry;
use mpm_dirent::Entry;
use mpm_file_functions::RecordError;
use mpm_jobs::Job;
use mpm_mount::{Mounted, block_place};

/// The entry number of a record's directory entry.
pub(crate) fn entry_number(kind: Kind, n: u32) -> u32
    ensures { result ≡ drives.entry_number kind (n / 128) }
{
    n / 128 / (u32::from(geometry(kind).mask) + 1)
}

/// The slot of a record's directory entry.
pub(crate) fn slot_of(mounted: &Mounted, job: &Job, n: u32) -> Option<u16>
    requires { n ≤ LAST_NAMED }
    ensures { result ≡ extent_slot mounted.now (file_of_job job.now) (n / 128) }
{
    mounted.extent(job.user, &job.name, (n / 128) as u16)
}

/// Whether a record has no directory entry.
pub(crate) fn lacks_entry(mounted: &Mounted, job: &Job, n: u32) -> bool
    requires { n ≤ LAST_NAMED }
    ensures { result ≡ spec.lacks_entry mounted.now (file_of_job job.now) n }
{
    slot_of(mounted, job, n).is_none()
}

/// The number of a record's block in its directory entry, which is that of a file; 0 where it holds none.
fn block_number(kind: Kind, entry: &Entry, n: u32) -> u16
    requires { is_file entry.now ≡ true }
    ensures { result ≡ spec.number_in kind n entry.now }
{
    match entry {
        Entry::File { file } => file.blocks[block_place(kind, n)],
        _ => unreachable!(),
    }
}

/// Whether no block is held for a record.
#[tactic(auto, using(mpm_mount::proofs::Positions::slot_within))]
pub(crate) fn lacks_block(mounted: &Mounted, job: &Job, n: u32) -> bool
    requires { n ≤ LAST_NAMED }
    ensures { result ≡ spec.lacks_block mounted.now (file_of_job job.now) n }
{
    let kind = mounted.kind();
    mounted.recall_directory();
    match slot_of(mounted, job, n) {
        Some(slot) => block_number(kind, mounted.entry(slot), n) == 0,
        None => true,
    }
}

/// What keeps a record of a job from being read.
pub(crate) fn record_error(mounted: &Mounted, job: &Job, n: u32) -> Option<RecordError>
    requires { n ≤ LAST_NAMED }
    ensures { result ≡ records.record_error mounted.now (file_of_job job.now) n }
{
    mpm_mount::record_error(mounted, job.user, &job.name, n)
}
