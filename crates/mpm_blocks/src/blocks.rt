ghost use Rattle.std.specs.Prelude.{◌≡◌, ◌≤◌, ◌<◌, IfOk, IfSome, not, vec_len, length, position, count_by};
ghost use Rattle.mpm_blocks.specs.Geometries.{last_block};
ghost use Rattle.mpm_blocks.specs.Maps.{used_to, new_map, is_used, least_of, free_count, claimed, freed};

use crate::OutOfMemory;
use crate::disk::geometry;
use mpm_base::Kind;
use std::alloc::Global;
use std::marker::Model;

/// Which blocks of a disk are used.
#[derive(Drop)]
pub struct BlockMap {
    kind: Kind,
    used: Vec<bool>,
}

impl Model for BlockMap {
    ghost use Rattle.std.specs.Prelude.{◌≡◌, ◌+◌, vec_len};
    ghost use Rattle.mpm_blocks.specs.Geometries.{last_block};
    ghost use Rattle.mpm_blocks.specs.Maps.{Blocks};

    ghost Value = { Blocks };

    ghost view = { λ map. record { kind = map.kind; used = map.used.items } };

    ghost invariant = { λ map. vec_len map.used ≡ last_block map.kind + 1 };
}

impl BlockMap {
    /// The map of an empty disk: the directory's blocks are used, and no other.
    #[tactic(auto, using(crate::proofs::Sizes::last_small))]
    pub fn new(alloc: Global, kind: Kind) -> Result<BlockMap, OutOfMemory>
        ensures { IfOk result (λ map. map ≡ new_map kind) }
    {
        let sizes = geometry(kind);
        let used = used_below(alloc, sizes.directory_blocks, sizes.dsm + 1)?;
        Ok(BlockMap { kind, used })
    }

    /// The lowest free block; none exactly where no block is free.
    #[tactic(auto, using(crate::proofs::Sizes::last_small))]
    pub fn least(&self) -> Option<u16>
        ensures least { result ≡ least_of self.now }
        ensures within { IfSome result (λ block. block ≤ last_block self.now.kind) }
    {
        first_free(self.used.as_slice())
    }

    /// Uses a block, at most the last; false exactly where it was used.
    pub fn claim(&mut self, block: u16) -> bool
        requires { block ≤ last_block self.old.kind }
        ensures answer { result ≡ not (is_used self.old block) }
        ensures after { self.new ≡ claimed self.old block }
    {
        let was_free = !self.used[usize::from(block)];
        self.used[usize::from(block)] = true;
        was_free
    }

    /// Frees a block, at most the last.
    pub fn free(&mut self, block: u16)
        requires { block ≤ last_block self.old.kind }
        ensures { self.new ≡ freed self.old block }
    {
        self.used[usize::from(block)] = false;
    }

    /// How many blocks are free.
    #[tactic(auto, using(crate::proofs::Sizes::last_small))]
    pub fn left(&self) -> u16
        ensures { result ≡ free_count self.now }
    {
        count_free(self.used.as_slice())
    }
}

/// A place for each of some blocks, of which those below a bound are used.
fn used_below(alloc: Global, bound: u16, count: u16) -> Result<Vec<bool>, OutOfMemory>
    ensures items { IfOk result (λ used. used.items ≡ used_to bound count) }
    ensures size { IfOk result (λ used. vec_len used ≡ count) }
{
    let mut used = Vec::new(alloc);
    for block in 0..count {
        used.push(block < bound)?;
    }
    Ok(used)
}

/// The lowest place that is free.
fn first_free(used: &[bool]) -> Option<u16>
    requires { length used.now ≤ 65535 }
    ensures place { result ≡ position not used.now }
    ensures within { IfSome result (λ block. block < length used.now) }
{
    for (block, is_used) in used.iter().enumerate() {
        if !*is_used {
            return Some(block as u16);
        }
    }
    None
}

/// How many places are free.
fn count_free(used: &[bool]) -> u16
    requires { length used.now ≤ 65535 }
    ensures { result ≡ count_by not used.now }
{
    let mut count = 0;
    for is_used in used {
        if !*is_used {
            count += 1;
        }
    }
    count
}
