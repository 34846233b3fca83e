ghost use Rattle.std.specs.Prelude.{◌≡◌, ◌+◌, ◌≤◌, [], ◌∷◌, length, slice_set, ◌/◌, ◌%◌, None};
ghost use Rattle.mpm_dirent.specs.declared.limits.TheConstants.{LAST_RECORD};
ghost use Rattle.mpm_blocks.specs.Sectors.{sectors_of};
ghost use Rattle.mpm_mount.specs.Drives.{with_extent};
ghost use Rattle.mpm_mount.specs.Faults.{name_of};
ghost use Rattle.mpm_mount.specs.Images.{contents_of, extent_in};
ghost use Rattle.mpm_sectors.specs.Writes.{block_writes};
ghost use Rattle.mpm_files.specs.Units.{WritesRecord, with_stamp};
ghost use Rattle.mpm_files.specs.Plans as plans;
ghost use Rattle.mpm_files.specs.Plans.{file_of_job};
ghost use Rattle.mpm_files.specs.Lookups as entries;
ghost use Rattle.mpm_files.specs.Standing as spec;
ghost use Rattle.mpm_files.specs.DiskParts.{MayMoveRecord, MayFillBlock, MayPutSector, MayRaiseEntry, MayPutBlock, MayTakeBlock, GoesByDisk, DoesByDisk, PutsRecordByDisk};

use crate::clearing::{CLEARED, clears_blocks};
use crate::entries::disk_of;
use crate::lookups::{FoundEntry, find_entry, held_sector, index_in};
use crate::stamps::{Stamp, put_stamp, put_stamped};
use mpm_base::Steps;
use mpm_cache::Cache;
use mpm_dirent::FileEntry;
use mpm_jobs::Job;
use mpm_mount::{Mounted, block_place, last_extent};
use mpm_port::{Drives, Failed};
use mpm_sectors::FreshBlock;
use std::sync::ledger::Ledger;

/// A record that is written, and the moment of the stamp that comes with it.
#[derive(Clone, Copy)]
pub(crate) struct Record {
    /// Its number in its file, from 0.
    pub(crate) number: u32,
    pub(crate) bytes: [u8; 128],
    pub(crate) moment: Option<[u8; 4]>,
}

/// Whether a record lies above the last extent of an entry, or above the record count of that.
fn is_above(file: &FileEntry, n: u32) -> bool
    ensures { result ≡ entries.is_above n file.now }
{
    let last = u32::from(last_extent(file));
    last < n / 128 || (n / 128 == last && u32::from(file.rc) <= n % 128)
}

/// A file's entry with the last extent and the record count that a record gives it.
fn raised(file: &FileEntry, n: u32) -> FileEntry
    requires { n ≤ LAST_RECORD }
    ensures { result ≡ entries.raised_entry n file.now }
{
    if is_above(file, n) {
        FileEntry {
            ex: (n / 128 % 32) as u8,
            s1: 0,
            s2: (n / 128 / 32) as u8,
            rc: (n % 128 + 1) as u8,
            ..*file
        }
    } else {
        *file
    }
}

/// The blocks of an entry with another one at a place.
fn with_block(blocks: &[u16; 16], place: usize, block: u16) -> [u16; 16]
    requires { place ≤ 15 }
    ensures blocks { result ≡ slice_set blocks.now place block }
    ensures size { length blocks.now ≡ 16 }
{
    let mut blocks = *blocks;
    blocks[place] = block;
    blocks
}

/// A file's entry with a block for a record, and with the last extent and the record count that the record gives it.
fn taken(mounted: &Mounted, file: &FileEntry, n: u32, block: u16) -> FileEntry
    requires { n ≤ LAST_RECORD }
    ensures file { result ≡ entries.taken_entry mounted.now.kind n block file.now }
    ensures size { length file.now.blocks ≡ 16 }
{
    let blocks = with_block(&file.blocks, block_place(mounted.kind(), n), block);
    raised(&FileEntry { blocks, ..*file }, n)
}

/// How many sectors of a fresh block are cleared before its record comes, where it may be taken.
fn cleared_of(mounted: &Mounted, cleared: Option<u16>, block: u16) -> Option<u8>
    ensures { result ≡ spec.cleared_of (plans.clears_blocks mounted.now.kind) cleared block }
{
    if !clears_blocks(mounted.kind()) {
        return Some(0);
    }
    match cleared {
        Some(cleared) if cleared == block => Some(CLEARED),
        _ => None,
    }
}

/// Writes a record of a job's file into its block, which is held: then last extent and record count of its directory entry,
/// where they rise, and the second stamp.
pub(crate) fn put_held<D: Drives, L: Ledger>(
    mounted: &mut Mounted,
    cache: &mut Cache,
    drives: &mut D,
    job: &Job,
    written: &Record,
    steps: &mut Steps<L>,
) -> Result<(), Failed>
    requires { MayMoveRecord (D.disks drives.old) mounted.old cache.old (file_of_job job.now) written.now.number }
    ensures { DoesByDisk D.Drives 5 mounted.old mounted.new cache.old cache.new drives.old drives.new steps.old steps.new (λ image files does. does (WritesRecord (file_of_job job.now) written.now.number written.now.bytes written.now.moment)) result }
{
    let found = find_entry(mounted, job, written.number);
    let sector = held_sector(mounted, &found.file, written.number);
    match put_sector(mounted, cache, drives, sector, &written.bytes, steps) {
        Ok(()) => put_raised(mounted, cache, drives, job, written, &found, steps),
        Err(failed) => Err(failed),
    }
}

/// Writes a record of a job's file, which has an entry for it, with a fresh block: zeros into the block's other sectors, the
/// record, its directory entry with the block, and the second stamp. The block is the lowest free one; where a block is cleared
/// in a turn of its own, it is the one that was cleared.
pub(crate) fn put_fresh<D: Drives, L: Ledger>(
    mounted: &mut Mounted,
    cache: &mut Cache,
    drives: &mut D,
    job: &Job,
    written: &Record,
    cleared: Option<u16>,
    steps: &mut Steps<L>,
) -> Result<(), Failed>
    requires { MayFillBlock (D.disks drives.old) mounted.old cache.old (file_of_job job.now) written.now.number cleared }
    ensures { DoesByDisk D.Drives 20 mounted.old mounted.new cache.old cache.new drives.old drives.new steps.old steps.new (λ image files does. does (WritesRecord (file_of_job job.now) written.now.number written.now.bytes written.now.moment)) result }
{
    let found = find_entry(mounted, job, written.number);
    let block = match mounted.free_block() {
        Some(block) => block,
        None => unreachable!(),
    };
    let clear = match cleared_of(mounted, cleared, block) {
        Some(clear) => clear,
        None => unreachable!(),
    };
    let index = index_in(mounted, written.number);
    let fresh = FreshBlock {
        number: block,
        clear,
    };
    let taking = Taking { found, block };
    match put_with_block(mounted, cache, drives, fresh, index, &written.bytes, steps) {
        Ok(()) => put_taken(mounted, cache, drives, job, written, &taking, steps),
        Err(failed) => Err(failed),
    }
}

/// Writes a sector of a mounted drive.
fn put_sector<D: Drives, L: Ledger>(
    mounted: &Mounted,
    cache: &mut Cache,
    drives: &mut D,
    sector: u32,
    bytes: &[u8; 128],
    steps: &mut Steps<L>,
) -> Result<(), Failed>
    requires { MayPutSector (D.disks drives.old) mounted.now cache.old sector }
    ensures { PutsRecordByDisk D.Drives 1 mounted.now cache.old cache.new drives.old drives.new steps.old steps.new bytes.now (record { sector = sector; bytes = bytes.now } ∷ []) result }
{
    disk_of(mounted).put(cache, drives, sector, bytes, steps)
}

/// Puts last extent and record count of the directory entry of a record that is there, where they rise, and the second stamp.
fn put_raised<D: Drives, L: Ledger>(
    mounted: &mut Mounted,
    cache: &mut Cache,
    drives: &mut D,
    job: &Job,
    written: &Record,
    found: &FoundEntry,
    steps: &mut Steps<L>,
) -> Result<(), Failed>
    requires { MayRaiseEntry (D.disks drives.old) mounted.old cache.old (file_of_job job.now) written.now.number found.now.slot found.now.file }
    ensures { GoesByDisk D.Drives 4 mounted.old mounted.new cache.old cache.new drives.old drives.new steps.old steps.new (λ image files goes. goes (with_stamp (file_of_job job.now) written.now.moment files
        (spec.raises mounted.old.kind written.now.number found.now.file files (extent_in (sectors_of image mounted.old.kind) mounted.old.kind found.now.file)))) result }
{
    if is_above(&found.file, written.number) {
        let raised = FoundEntry {
            slot: found.slot,
            file: raised(&found.file, written.number),
        };
        put_stamped(mounted, cache, drives, &raised, job, written.moment, steps)
    } else {
        put_stamp(
            mounted,
            cache,
            drives,
            job,
            Stamp::Second,
            written.moment,
            steps,
        )
    }
}

/// Writes a record into a free block, after zeros in the block's other sectors, of which some are zeros already.
fn put_with_block<D: Drives, L: Ledger>(
    mounted: &Mounted,
    cache: &mut Cache,
    drives: &mut D,
    block: FreshBlock,
    index: u8,
    bytes: &[u8; 128],
    steps: &mut Steps<L>,
) -> Result<(), Failed>
    requires { MayPutBlock (D.disks drives.old) mounted.now cache.old block index }
    ensures { PutsRecordByDisk D.Drives 16 mounted.now cache.old cache.new drives.old drives.new steps.old steps.new bytes.now (block_writes mounted.now.kind block.number block.clear index bytes.now) result }
{
    disk_of(mounted).put_block(cache, drives, block, index, bytes, steps)
}

/// The directory entry of a record, and the free block that it takes for it.
#[derive(Clone, Copy)]
struct Taking {
    found: FoundEntry,
    block: u16,
}

/// Puts a directory entry with a free block for a record, and the second stamp.
fn put_taken<D: Drives, L: Ledger>(
    mounted: &mut Mounted,
    cache: &mut Cache,
    drives: &mut D,
    job: &Job,
    written: &Record,
    taking: &Taking,
    steps: &mut Steps<L>,
) -> Result<(), Failed>
    requires { MayTakeBlock (D.disks drives.old) mounted.old cache.old (file_of_job job.now) written.now.number taking.now.found.slot taking.now.found.file taking.now.block }
    ensures { GoesByDisk D.Drives 4 mounted.old mounted.new cache.old cache.new drives.old drives.new steps.old steps.new (λ image files goes. goes (with_stamp (file_of_job job.now) written.now.moment files
        (with_extent files (name_of mounted.old.kind taking.now.found.file) (spec.with_taken mounted.old.kind written.now.number
        (contents_of (sectors_of image mounted.old.kind) mounted.old.kind taking.now.block) (extent_in (sectors_of image mounted.old.kind) mounted.old.kind taking.now.found.file)) ∷ []))) result }
{
    let found = &taking.found;
    let taken = FoundEntry {
        slot: found.slot,
        file: taken(mounted, &found.file, written.number, taking.block),
    };
    put_stamped(mounted, cache, drives, &taken, job, written.moment, steps)
}
