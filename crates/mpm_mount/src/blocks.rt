ghost use Rattle.std.specs.Prelude.{◌≡◌, ◌≤◌, ◌==◌, ◌||◌, not};
ghost use Rattle.mpm_blocks.specs.Geometries.{last_block};
ghost use Rattle.mpm_blocks.specs.Maps.{is_used};
ghost use Rattle.mpm_dirent.specs.declared.kinds.Entry.TheVariants.{File};
ghost use Rattle.mpm_mount.specs.Drives as drives;
ghost use Rattle.mpm_mount.specs.Faults as faults;
ghost use Rattle.mpm_mount.specs.Using.{HasBlocks, ClaimsTo, FreesTo, clashes, claimed_unless_zero, freed_unless_zero};

use crate::slots::places;
use mpm_base::Kind;
use mpm_blocks::{BlockMap, geometry};
use mpm_dirent::FileEntry;

/// Whether a block of an entry, at a place below 16, is none that files have.
fn is_outside(kind: Kind, file: &FileEntry, place: usize) -> bool
    requires { place ≤ 15 }
    ensures { result ≡ faults.is_outside kind file.now place }
{
    let sizes = geometry(kind);
    let block = file.blocks[place];
    block != 0 && (block < sizes.directory_blocks || sizes.dsm < block)
}

/// Whether an entry has a block's number that isn't 0 and that no file's block has: one of the directory's, or one after the last.
#[tactic(auto, using(crate::proofs::UsedBlocks::some_found, crate::proofs::UsedBlocks::some_none))]
pub fn has_outside(kind: Kind, file: &FileEntry) -> bool
    ensures { result ≡ faults.some_place kind (faults.is_outside kind file.now) }
{
    for place in 0..places(kind) {
        if is_outside(kind, file, place) {
            return true;
        }
    }
    false
}

/// Uses a block, where the number isn't 0; false exactly where it was used.
fn claim_one(block: u16, blocks: &mut BlockMap) -> bool
    requires { block ≤ last_block blocks.old.kind }
    ensures answer { result ≡ (block == 0 || not (is_used blocks.old block)) }
    ensures after { blocks.new ≡ claimed_unless_zero blocks.old block }
{
    block == 0 || blocks.claim(block)
}

/// Frees a block, where the number isn't 0.
fn free_one(block: u16, blocks: &mut BlockMap)
    requires { block ≤ last_block blocks.old.kind }
    ensures { blocks.new ≡ freed_unless_zero blocks.old block }
{
    if block != 0 {
        blocks.free(block);
    }
}

/// Uses the blocks of a file's entry; false exactly where one of them was used.
pub(crate) fn claim_all(kind: Kind, file: &FileEntry, blocks: &mut BlockMap) -> bool
    requires { HasBlocks kind (File file.now) blocks.old }
    ensures answer { result ≡ not (faults.some_place kind (clashes blocks.old file.now)) }
    ensures claims { ClaimsTo file.now (drives.places kind) blocks.old blocks.new }
{
    let mut are_free = true;
    for place in 0..places(kind) {
        are_free &= claim_one(file.blocks[place], blocks);
    }
    are_free
}

/// Frees the blocks of a file's entry.
pub(crate) fn free_all(kind: Kind, file: &FileEntry, blocks: &mut BlockMap)
    requires { HasBlocks kind (File file.now) blocks.old }
    ensures { FreesTo file.now (drives.places kind) blocks.old blocks.new }
{
    for place in 0..places(kind) {
        free_one(file.blocks[place], blocks);
    }
}
