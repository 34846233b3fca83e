ghost use Rattle.std.specs.Prelude.{◌≡◌, ℕ, ◌≤◌, [], length, Option, IfOk, IfNone};
ghost use Rattle.mpm_port.specs.Disks.{Disks};

use crate::OutOfMemory;
use lru::LruCache;
use mpm_base::Steps;
use mpm_port::{Drives, Failed};
use std::alloc::Global;
use std::marker::Model;
use std::num::NonZeroUsize;
use std::sync::ledger::Ledger;

/// How many sectors are cached at most.
const ROOM: usize = 256;

/// A sector of a drive.
#[derive(Clone, Copy, PartialEq, Eq, Hash)]
pub(crate) struct SectorPlace {
    drive: u8,
    sector: u32,
}

/// The sectors of all drives that were used last, at most 256 of them. Writes go through to the drives.
///
/// Contracts see a list of pairs, each of a place and its bytes, the one that was used last first.
#[derive(Drop)]
pub struct Cache {
    sectors: LruCache<SectorPlace, [u8; 128]>,
}

impl Model for Cache {
    ghost use Rattle.std.specs.Prelude.{◌≡◌, ℕ, List};
    ghost use Rattle.mpm_cache.specs.declared.cache.SectorPlace.{SectorPlace};

    ghost Value = { List (SectorPlace × List ℕ) };

    ghost view = { λ c. c.sectors.entries };

    ghost invariant = { λ c. c.sectors.cap ≡ 256 };
}

impl Cache {
    ghost use Rattle.mpm_cache.specs.Cached.{IsCachedOnce, cached_at, used, IsPut, taken_out, SameCached, CachesSector, Forgets};
    ghost use Rattle.mpm_cache.specs.Coherent.{IsCoherent, HasNoAlias};
    ghost use Rattle.mpm_cache.specs.Calls.{MayRead, MayWrite, ReadsThrough, WritesThrough};

    /// No sector is cached. Room for 256 is taken here but for their bytes.
    #[tactic(auto, using(crate::proofs::CoherentLaws::coherent_none, crate::proofs::AliasLaws::no_alias_none))]
    pub fn new(alloc: Global) -> Result<Cache, OutOfMemory>
        ensures empty { IfOk result (λ cache. cache ≡ []) }
        ensures coherent { IfOk result (λ cache. (disks : Disks) → IsCoherent cache disks) }
        ensures apart { IfOk result (λ cache. (disks : Disks) (drive : ℕ) → HasNoAlias cache disks drive) }
    {
        let room = NonZeroUsize::new(ROOM).unwrap();
        let sectors = LruCache::new(alloc, room)?;
        Ok(Cache { sectors })
    }

    /// How many sectors are cached.
    pub fn cached(&self) -> usize
        ensures count { result ≡ length self.now }
        ensures few { result ≤ 256 }
    {
        self.sectors.len()
    }

    /// The cached bytes of a sector, which is used last now.
    fn find(&mut self, drive: u8, sector: u32) -> Option<[u8; 128]>
        ensures found { result ≡ cached_at self.old drive sector }
        ensures used { self.new ≡ used drive sector self.old }
        ensures same { SameCached self.old self.new }
        ensures nothing { IfNone result (self.new ≡ self.old) }
    {
        self.sectors.get(&SectorPlace { drive, sector }).copied()
    }

    /// Caches a sector, in place of what is cached of it. A new one takes memory, and isn't cached where there is none; the
    /// sector that wasn't used longest goes where there is no room.
    fn keep(&mut self, drive: u8, sector: u32, bytes: &[u8; 128])
        ensures put { IsPut drive sector bytes.now self.old self.new }
        ensures kept { CachesSector drive sector bytes.now self.old self.new }
    {
        let _ = self.sectors.put(SectorPlace { drive, sector }, *bytes);
    }

    /// Says what is so of the cached sectors at any time: none is cached twice.
    fn recall_once(&self)
        ensures { IsCachedOnce self.now }
    {
        let _ = self.sectors.len();
    }

    /// Caches a sector no more.
    fn forget(&mut self, drive: u8, sector: u32)
        ensures out { self.new ≡ taken_out drive sector self.old }
        ensures forgotten { Forgets drive sector self.old self.new }
    {
        self.recall_once();
        let _ = self.sectors.pop(&SectorPlace { drive, sector });
    }

    /// Reads a sector of a drive, which costs no call of the drives where it is cached, and one where it isn't. `steps` counts
    /// that call. What `out` holds where the drive failed isn't said.
    ///
    /// What is cached is to be what the attached images have, and stays so.
    pub fn read<D: Drives, L: Ledger>(
        &mut self,
        drives: &mut D,
        drive: u8,
        sector: u32,
        out: &mut [u8; 128],
        steps: &mut Steps<L>,
    ) -> Result<(), Failed>
        requires { MayRead self.old (D.disks drives.old) drive sector }
        ensures { ReadsThrough D.Drives drive sector out.new self.old self.new drives.old drives.new steps.old steps.new result }
    {
        if let Some(bytes) = self.find(drive, sector) {
            *out = bytes;
            return Ok(());
        }
        steps.tick();
        match drives.read(drive, sector, out) {
            Ok(()) => {
                self.keep(drive, sector, out);
                Ok(())
            }
            Err(failed) => Err(failed),
        }
    }

    /// Writes a sector through to its drive, by one call, which `steps` counts. Where that failed the sector isn't cached.
    ///
    /// What is cached is to be what the attached images have, and the drive is to have no alias in the cache: no other drive
    /// of which a sector is cached has its image. The first stays so.
    pub fn write<D: Drives, L: Ledger>(
        &mut self,
        drives: &mut D,
        drive: u8,
        sector: u32,
        bytes: &[u8; 128],
        steps: &mut Steps<L>,
    ) -> Result<(), Failed>
        requires { MayWrite self.old (D.disks drives.old) drive sector }
        ensures { WritesThrough D.Drives drive sector bytes.now self.old self.new drives.old drives.new steps.old steps.new result }
    {
        steps.tick();
        match drives.write(drive, sector, bytes) {
            Ok(()) => {
                self.keep(drive, sector, bytes);
                Ok(())
            }
            Err(failed) => {
                self.forget(drive, sector);
                Err(failed)
            }
        }
    }
}
