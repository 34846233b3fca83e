ghost use Rattle.std.specs.Prelude.{◌≡◌, ◌≤◌, ◌==◌, ◌&&◌, not, length, position};
ghost use Rattle.mpm_mount.specs.Drives as drives;
ghost use Rattle.mpm_mount.specs.Faults.{block_at, has_at as has_before, some_place};
ghost use Rattle.mpm_repair.specs.FaultLists as spec;

use mpm_base::Kind;
use mpm_dirent::{Entry, FileEntry};
use mpm_mount::places;

/// The lowest slot that shares a block with a file's entry: an earlier one, or its own, where a block stands twice in it.
pub(crate) fn shared_slot(kind: Kind, earlier: &[Entry], slot: u16, file: &FileEntry) -> Option<u16>
    requires { length earlier.now ≤ 65535 }
    ensures { result ≡ spec.shared_in kind earlier.now slot file.now }
{
    match sharing_slot(kind, file, earlier) {
        Some(other) => Some(other as u16),
        None if has_double(kind, file) => Some(slot),
        None => None,
    }
}

/// The place of the first of some entries that shares a block with a file's.
fn sharing_slot(kind: Kind, file: &FileEntry, entries: &[Entry]) -> Option<usize>
    ensures { result ≡ position (spec.shares_block kind file.now) entries.now }
{
    entries
        .iter()
        .position(|entry| shares_block(kind, file, entry))
}

/// Whether an entry has a block that a file's entry names.
#[tactic(auto, unfolding(crate::specs::FaultLists::shares_block), using(crate::proofs::Shared::shares_none))]
fn shares_block(kind: Kind, file: &FileEntry, entry: &Entry) -> bool
    ensures { result ≡ spec.shares_block kind file.now entry.now }
{
    match entry {
        Entry::File { file: other } => shares_with(kind, file, other),
        _ => false,
    }
}

/// Whether two entries of files share a block.
#[tactic(auto, using(mpm_mount::proofs::UsedBlocks::some_found, mpm_mount::proofs::UsedBlocks::some_none))]
fn shares_with(kind: Kind, file: &FileEntry, other: &FileEntry) -> bool
    ensures { result ≡ some_place kind (λ i. not (block_at file.now i == 0) && has_before other.now (drives.places kind) (block_at file.now i)) }
{
    for place in 0..places(kind) {
        let block = file.blocks[place];
        if block != 0 && has_block(other, places(kind), block) {
            return true;
        }
    }
    false
}

/// Whether a block stands twice in a file's entry.
#[tactic(auto, using(mpm_mount::proofs::UsedBlocks::some_found, mpm_mount::proofs::UsedBlocks::some_none))]
fn has_double(kind: Kind, file: &FileEntry) -> bool
    ensures { result ≡ spec.has_double kind file.now }
{
    for place in 0..places(kind) {
        let block = file.blocks[place];
        if block != 0 && has_block(file, place, block) {
            return true;
        }
    }
    false
}

/// Whether a block is one of the first of a file's entry.
#[tactic(auto, using(crate::proofs::Shared::has_found, crate::proofs::Shared::has_nowhere))]
fn has_block(file: &FileEntry, count: usize, block: u16) -> bool
    requires { count ≤ 16 }
    ensures { result ≡ has_before file.now count block }
{
    for place in 0..count {
        if file.blocks[place] == block {
            return true;
        }
    }
    false
}
