ghost use Rattle.std.specs.Prelude.{◌≡◌, ◌+◌, ◌-◌, ◌≤◌, Some, None, false, if◌then◌else◌};
ghost use Rattle.mpm_dirent.specs.declared.limits.TheConstants.{LAST_NAMED};
ghost use Rattle.mpm_base.specs.Counts.{one_if};
ghost use Rattle.mpm_blocks.specs.Geometries as geometries;
ghost use Rattle.mpm_mount.specs.Directories as directory;
ghost use Rattle.mpm_files.specs.Plans as plans;
ghost use Rattle.mpm_files.specs.Counting as spec;
ghost use Rattle.mpm_mount.specs.Records as records;
ghost use Rattle.mpm_files.specs.Finding.{HasFewRecords, HasFreeRoom, HasNeeds};
ghost use Rattle.mpm_names.specs.Readings.{IsNumber};

use crate::records;
use mpm_base::Kind;
use mpm_blocks::geometry;
use mpm_file_functions::RecordError;
use mpm_jobs::Job;
use mpm_mount::{Mounted, block_place, block_records};

/// How many units a job has, and why it ends after them.
#[derive(Clone, Copy, Debug, PartialEq, Eq)]
pub(crate) struct Count {
    pub(crate) units: u32,
    pub(crate) error: Option<RecordError>,
}

impl Count {
    /// So many units, and nothing that ends the job after them.
    pub(crate) fn of(units: u32) -> Count
        ensures { result ≡ record { units = units; error = None } }
    {
        Count { units, error: None }
    }

    /// So many units, and then a record that can't be done.
    fn failing(units: u32, error: RecordError) -> Count
        ensures { result ≡ record { units = units; error = Some error } }
    {
        Count {
            units,
            error: Some(error),
        }
    }
}

/// How many directory entries are free, and how many records there is room for in free blocks.
#[derive(Clone, Copy)]
struct Room {
    entries: u32,
    records: u32,
}

/// What a record needs of the drive, beside what the record before it has brought.
#[derive(Clone, Copy)]
struct Needs {
    entry: bool,
    block: bool,
}

/// Counts the records of a job that can be read.
#[tactic(auto, using(crate::proofs::ReadCounts::none_read))]
pub(crate) fn count_reads(mounted: &Mounted, job: &Job) -> Count
    requires { HasFewRecords job.now }
    ensures { result ≡ spec.read_count (records.record_error mounted.now (plans.file_of_job job.now)) job.now.first job.now.count }
{
    let count = u32::from(job.count);
    for k in 0..count {
        match records::record_error(mounted, job, job.first + k) {
            Some(error) => return Count::failing(k, error),
            None => {}
        }
    }
    Count::of(count)
}

impl Room {
    /// What is free on a drive.
    fn of(mounted: &Mounted) -> Room
        ensures { HasFreeRoom (directory.free_entries_in mounted.now) (directory.free_records_in mounted.now) result }
    {
        Room {
            entries: u32::from(mounted.free_entries()),
            records: mounted.free_records(),
        }
    }

    /// Why a record can't be written that needs so much.
    fn error(self, needs: Needs) -> Option<RecordError>
        ensures { result ≡ spec.room_error needs.entry needs.block self.entries self.records }
    {
        if needs.entry && self.entries == 0 {
            Some(RecordError::NoDirectorySpace)
        } else if needs.block && self.records == 0 {
            Some(RecordError::NoDataBlock)
        } else {
            None
        }
    }

    /// What is free after it is written.
    fn after(self, needs: Needs, kind: Kind) -> Room
        ensures { HasFreeRoom (self.entries - one_if needs.entry) (self.records - (if needs.block then geometries.block_records kind else 0)) result }
    {
        let records = if needs.block { block_records(kind) } else { 0 };
        Room {
            entries: self.entries.saturating_sub(u32::from(needs.entry)),
            records: self.records.saturating_sub(records),
        }
    }
}

impl Needs {
    /// The units of such a record: its own, and one for an entry, and one for a block where that is cleared by itself.
    fn units(self, kind: Kind) -> u32
        ensures { IsNumber (spec.record_units kind self.entry self.block) 3 result }
    {
        let clears = geometry(kind).mask != 0 && self.block;
        1 + u32::from(self.entry) + u32::from(clears)
    }
}

/// Whether two records have one directory entry.
fn are_in_one_entry(kind: Kind, m: u32, n: u32) -> bool
    ensures { result ≡ spec.same_entry kind m n }
{
    records::entry_number(kind, m) == records::entry_number(kind, n)
}

/// Whether two records have one block.
fn are_in_one_block(kind: Kind, m: u32, n: u32) -> bool
    ensures { result ≡ spec.same_block kind m n }
{
    are_in_one_entry(kind, m, n) && block_place(kind, m) == block_place(kind, n)
}

/// What record n of a job needs, after others of the job or as the first.
fn needs_of(mounted: &Mounted, job: &Job, is_later: bool, n: u32) -> Needs
    requires { n ≤ LAST_NAMED }
    ensures { HasNeeds (spec.entry_more mounted.now.kind (spec.lacks_entry mounted.now (plans.file_of_job job.now)) is_later n) (spec.block_more mounted.now.kind (spec.lacks_block mounted.now (plans.file_of_job job.now)) is_later n) result }
{
    let kind = mounted.kind();
    let before = n.saturating_sub(1);
    let has_entry = is_later && are_in_one_entry(kind, n, before);
    let has_block = is_later && are_in_one_block(kind, n, before);
    Needs {
        entry: records::lacks_entry(mounted, job, n) && !has_entry,
        block: records::lacks_block(mounted, job, n) && !has_block,
    }
}

/// Counts the units of the records that a job writes.
#[tactic(auto, using(crate::proofs::WritesCounted::none_written))]
pub(crate) fn count_writes(mounted: &Mounted, job: &Job) -> Count
    requires { HasFewRecords job.now }
    ensures { result ≡ spec.write_count mounted.now.kind (spec.lacks_entry mounted.now (plans.file_of_job job.now)) (spec.lacks_block mounted.now (plans.file_of_job job.now))
        (directory.free_entries_in mounted.now) (directory.free_records_in mounted.now) false job.now.first job.now.count }
{
    let kind = mounted.kind();
    let mut room = Room::of(mounted);
    let mut units = 0;
    for k in 0..u32::from(job.count) {
        let needs = needs_of(mounted, job, k > 0, job.first + k);
        match room.error(needs) {
            Some(error) => return Count::failing(units, error),
            None => {}
        }
        units += needs.units(kind);
        room = room.after(needs, kind);
    }
    Count::of(units)
}
