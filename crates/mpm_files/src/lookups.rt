ghost use Rattle.std.specs.Prelude.{◌≡◌, ◌≢◌, ◌%◌, ◌<◌};
ghost use Rattle.mpm_blocks.specs.Geometries as geometries;
ghost use Rattle.mpm_mount.specs.Drives as drives;
ghost use Rattle.mpm_mount.specs.Faults.{block_at};
ghost use Rattle.mpm_files.specs.Plans.{file_of_job};
ghost use Rattle.mpm_files.specs.Lookups.{HasEntry, IsHeldAt};
ghost use Rattle.mpm_files.specs.Turning.{IsFileAt};
ghost use Rattle.mpm_files.specs.Finding.{HasFileAt, IsEntered, FindsXfcb, FindsXfcbBeside};

use crate::records::slot_of;
use mpm_dirent::{Entry, FileEntry, XfcbEntry};
use mpm_jobs::Job;
use mpm_mount::{Mounted, block_place, block_records};

/// A directory entry of a file, as that of a record, and its slot.
#[derive(Clone, Copy)]
pub(crate) struct FoundEntry {
    pub(crate) slot: u16,
    pub(crate) file: FileEntry,
}

/// The XFCB of a file, and its slot.
#[derive(Clone, Copy)]
pub(crate) struct FoundXfcb {
    pub(crate) slot: u16,
    pub(crate) xfcb: XfcbEntry,
}

/// The file's entry in a slot.
pub(crate) fn file_at(mounted: &Mounted, slot: u16) -> FileEntry
    requires { HasFileAt mounted.now slot }
    ensures { IsFileAt mounted.now slot result }
{
    mounted.recall_directory();
    match mounted.entry(slot) {
        Entry::File { file } => *file,
        _ => unreachable!(),
    }
}

/// The directory entry of a record of a job's file, which has one.
pub(crate) fn find_entry(mounted: &Mounted, job: &Job, n: u32) -> FoundEntry
    requires { IsEntered mounted.now (file_of_job job.now) n }
    ensures { HasEntry mounted.now (file_of_job job.now) n result.slot result.file }
{
    mounted.recall_directory();
    match slot_of(mounted, job, n) {
        Some(slot) => FoundEntry {
            slot,
            file: file_at(mounted, slot),
        },
        None => unreachable!(),
    }
}

/// Finds the XFCB of a job's file.
pub(crate) fn find_xfcb(mounted: &Mounted, job: &Job) -> Option<FoundXfcb>
    ensures { FindsXfcb mounted.now (file_of_job job.now) result }
{
    mounted.recall_directory();
    let slot = match mounted.xfcb(job.user, &job.name) {
        Some(slot) => slot,
        None => return None,
    };
    match mounted.entry(slot) {
        Entry::Xfcb { xfcb } => Some(FoundXfcb { slot, xfcb: *xfcb }),
        _ => unreachable!(),
    }
}

/// The sector of a record, whose directory entry holds its block.
pub(crate) fn held_sector(mounted: &Mounted, file: &FileEntry, n: u32) -> u32
    requires { block_at file.now (drives.block_place mounted.now.kind n) ≢ 0 }
    ensures { IsHeldAt mounted.now.kind file.now n result }
{
    let kind = mounted.kind();
    let block = file.blocks[block_place(kind, n)];
    u32::from(block) * block_records(kind) + n % block_records(kind)
}

/// The place of a record in its block.
pub(crate) fn index_in(mounted: &Mounted, n: u32) -> u8
    ensures index { result ≡ n % geometries.block_records mounted.now.kind }
    ensures within { result < geometries.block_records mounted.now.kind }
{
    (n % block_records(mounted.kind())) as u8
}

/// Finds the XFCB of a job's file where it is in the sector of a slot.
#[tactic(auto, using(crate::proofs::FoundEntries::none_beside, crate::proofs::FoundEntries::not_beside))]
pub(crate) fn find_xfcb_beside(mounted: &Mounted, job: &Job, slot: u16) -> Option<FoundXfcb>
    ensures { FindsXfcbBeside mounted.now (file_of_job job.now) slot result }
{
    match find_xfcb(mounted, job) {
        Some(found) => {
            if found.slot / 4 == slot / 4 {
                Some(found)
            } else {
                None
            }
        }
        None => None,
    }
}
