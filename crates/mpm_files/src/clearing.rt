ghost use Rattle.std.specs.Prelude.{◌≡◌};
ghost use Rattle.mpm_sectors.specs.Writes.{zeros_from, block_sector};
ghost use Rattle.mpm_files.specs.Plans as plans;
ghost use Rattle.mpm_files.specs.DiskParts.{MayClearNext, MayClearBlock, ClearsByDisk, PutsByDisk};

use crate::entries::disk_of;
use mpm_base::{Kind, Steps};
use mpm_blocks::geometry;
use mpm_cache::Cache;
use mpm_mount::{Mounted, block_records};
use mpm_port::{Drives, Failed};
use std::sync::ledger::Ledger;

/// How many sectors of a block are cleared before its record comes: a turn takes 20 calls of the drives at most, and two are left
/// for the directory entry.
pub(crate) const CLEARED: u8 = 18;

/// Whether a block is cleared in a turn of its own.
pub(crate) fn clears_blocks(kind: Kind) -> bool
    ensures { result ≡ plans.clears_blocks kind }
{
    geometry(kind).mask != 0
}

/// Clears the first sectors of the lowest free block, as a block is cleared in a turn of its own. Says which one it is.
pub(crate) fn clear_block<D: Drives, L: Ledger>(
    mounted: &Mounted,
    cache: &mut Cache,
    drives: &mut D,
    steps: &mut Steps<L>,
) -> Result<u16, Failed>
    requires { MayClearNext (D.disks drives.old) mounted.now cache.old }
    ensures { ClearsByDisk D.Drives mounted.now cache.old cache.new drives.old drives.new steps.old steps.new result }
{
    let block = match mounted.free_block() {
        Some(block) => block,
        None => unreachable!(),
    };
    match clear_first(mounted, cache, drives, block, steps) {
        Ok(()) => Ok(block),
        Err(failed) => Err(failed),
    }
}

/// Clears the first sectors of a free block, where a block is cleared in a turn of its own.
fn clear_first<D: Drives, L: Ledger>(
    mounted: &Mounted,
    cache: &mut Cache,
    drives: &mut D,
    block: u16,
    steps: &mut Steps<L>,
) -> Result<(), Failed>
    requires { MayClearBlock (D.disks drives.old) mounted.now cache.old block }
    ensures { PutsByDisk D.Drives 18 mounted.now cache.old cache.new drives.old drives.new steps.old steps.new (zeros_from (block_sector mounted.now.kind block) 18) result }
{
    let first = u32::from(block) * block_records(mounted.kind());
    disk_of(mounted).clear(cache, drives, first, u32::from(CLEARED), steps)
}
