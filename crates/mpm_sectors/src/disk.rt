ghost use Rattle.std.specs.Prelude.{◌≡◌, ◌+◌, ◌/◌, ◌<◌, ◌≤◌, Some};
ghost use Rattle.mpm_port.specs.Disks.{size_of};
ghost use Rattle.mpm_blocks.specs.Geometries.{geometry_of, last_block, block_records, logical_sectors};
ghost use Rattle.mpm_dirent.specs.Proper.{IsProper};
ghost use Rattle.mpm_cache.specs.Coherent.{IsCoherent};
ghost use Rattle.mpm_sectors.specs.Disks.{IsReadyDisk};

use crate::slots::{entry_bytes, put_entry};
use mpm_base::{Kind, Steps};
use mpm_blocks::{geometry, place};
use mpm_cache::Cache;
use mpm_dirent::Entry;
use mpm_port::{Drives, Failed};
use std::sync::ledger::Ledger;

/// A directory entry, and the slot that it goes into.
#[derive(Clone, Copy)]
pub struct SlotEntry {
    /// The slot, from 0.
    pub slot: u16,
    /// The entry.
    pub entry: Entry,
}

/// A fresh allocation block, of which some of the first sectors are zeros already.
#[derive(Clone, Copy, Debug, PartialEq, Eq)]
pub struct FreshBlock {
    /// Its number.
    pub number: u16,
    /// How many sectors are zeros.
    pub clear: u8,
}

/// A drive with the kind of its disk. Sectors are counted from 0 after the system's tracks, in the order in which they are
/// used; `steps` counts the calls of the drives.
///
/// Each call asks that the drive is attached to an image of its kind's size and that what is cached is what the images have,
/// which it keeps, also where the drive failed. What writes asks too that no other drive of which a sector is cached has this
/// one's image.
#[derive(Clone, Copy, Debug, PartialEq, Eq)]
pub struct Disk {
    /// The drive's number.
    pub drive: u8,
    /// The kind of its disk.
    pub kind: Kind,
}

impl Disk {
    ghost use Rattle.mpm_sectors.specs.Calling.{ReadsSector, PutsSector, ClearsSectors, PutsBlock, PutsSlot, PutsSlots};

    /// Reads a sector, which costs no call of the drives where it is cached, and one where it isn't.
    #[tactic(auto, using(crate::proofs::Bounds::sector_inside, crate::proofs::OtherImages::elsewhere_same, crate::proofs::OtherImages::told_same, mpm_cache::proofs::AliasLaws::alone_after))]
    pub fn read<D: Drives, L: Ledger>(
        &self,
        cache: &mut Cache,
        drives: &mut D,
        sector: u32,
        out: &mut [u8; 128],
        steps: &mut Steps<L>,
    ) -> Result<(), Failed>
        requires size { size_of (D.disks drives.old) self.now.drive ≡ Some (geometry_of self.now.kind).bytes }
        requires within { sector < logical_sectors self.now.kind }
        requires coherent { IsCoherent cache.old (D.disks drives.old) }
        ensures { ReadsSector D.Drives self.now sector out.new cache.old cache.new drives.old drives.new steps.old steps.new result }
    {
        cache.read(drives, self.drive, place(self.kind, sector), out, steps)
    }

    /// Writes a sector, by one call of the drives.
    #[tactic(auto, using(crate::proofs::Bounds::sector_inside, crate::proofs::WriteLaws::put_elsewhere, mpm_cache::proofs::AliasLaws::alone_after))]
    pub fn put<D: Drives, L: Ledger>(
        &self,
        cache: &mut Cache,
        drives: &mut D,
        sector: u32,
        bytes: &[u8; 128],
        steps: &mut Steps<L>,
    ) -> Result<(), Failed>
        requires ready { IsReadyDisk (D.disks drives.old) self.now.drive self.now.kind cache.old }
        requires within { sector < logical_sectors self.now.kind }
        ensures { PutsSector D.Drives self.now sector bytes.now cache.old cache.new drives.old drives.new steps.old steps.new result }
    {
        cache.write(drives, self.drive, place(self.kind, sector), bytes, steps)
    }

    /// Writes zeros into some sectors in a row, by a call of the drives each, up to the first that fails.
    #[tactic(auto, using(crate::proofs::LeavesLaws::ready_after))]
    pub fn clear<D: Drives, L: Ledger>(
        &self,
        cache: &mut Cache,
        drives: &mut D,
        first: u32,
        count: u32,
        steps: &mut Steps<L>,
    ) -> Result<(), Failed>
        requires ready { IsReadyDisk (D.disks drives.old) self.now.drive self.now.kind cache.old }
        requires within { first + count ≤ logical_sectors self.now.kind }
        ensures { ClearsSectors D.Drives self.now first count cache.old cache.new drives.old drives.new steps.old steps.new result }
    {
        for number in 0..count {
            match self.put(cache, drives, first + number, &[0; 128], steps) {
                Ok(()) => {}
                Err(failed) => return Err(failed),
            }
        }
        Ok(())
    }

    /// Writes a record at its index into a fresh allocation block. Zeros go into the sectors that aren't zeros already, and then
    /// comes the record, by a call of the drives each, up to the first that fails.
    #[tactic(auto, using(crate::proofs::LeavesLaws::ready_after))]
    pub fn put_block<D: Drives, L: Ledger>(
        &self,
        cache: &mut Cache,
        drives: &mut D,
        block: FreshBlock,
        index: u8,
        bytes: &[u8; 128],
        steps: &mut Steps<L>,
    ) -> Result<(), Failed>
        requires ready { IsReadyDisk (D.disks drives.old) self.now.drive self.now.kind cache.old }
        requires block { block.number ≤ last_block self.now.kind }
        requires clear { block.clear ≤ block_records self.now.kind }
        requires index { index < block_records self.now.kind }
        ensures { PutsBlock D.Drives self.now block index bytes.now cache.old cache.new drives.old drives.new steps.old steps.new result }
    {
        let records = u32::from(geometry(self.kind).block) / 128;
        let first = u32::from(block.number) * records;
        let clear = u32::from(block.clear);
        let index = u32::from(index);
        match self.clear(
            cache,
            drives,
            first + clear,
            index.saturating_sub(clear),
            steps,
        ) {
            Ok(()) => {}
            Err(failed) => return Err(failed),
        }
        let behind = clear.max(index + 1);
        match self.clear(cache, drives, first + behind, records - behind, steps) {
            Ok(()) => {}
            Err(failed) => return Err(failed),
        }
        self.put(cache, drives, first + index, bytes, steps)
    }

    /// Writes a directory entry into its slot: its sector is read, which costs a call of the drives where it isn't cached, and
    /// written by one more. Of an XFCB or a label the bytes without a field stay where the slot had one of the two; else they become 0.
    #[tactic(auto, using(crate::proofs::LeavesLaws::ready_after))]
    pub fn put_slot<D: Drives, L: Ledger>(
        &self,
        cache: &mut Cache,
        drives: &mut D,
        slot: u16,
        entry: &Entry,
        steps: &mut Steps<L>,
    ) -> Result<(), Failed>
        requires ready { IsReadyDisk (D.disks drives.old) self.now.drive self.now.kind cache.old }
        requires within { slot ≤ (geometry_of self.now.kind).drm }
        requires proper { IsProper (geometry_of self.now.kind).wide entry.now }
        ensures { PutsSlot D.Drives self.now slot entry.now cache.old cache.new drives.old drives.new steps.old steps.new result }
    {
        let wide = geometry(self.kind).wide;
        let bytes = entry_bytes(entry, wide);
        let mut sector = [0; 128];
        match self.read(cache, drives, u32::from(slot / 4), &mut sector, steps) {
            Ok(()) => {}
            Err(failed) => return Err(failed),
        }
        put_entry(&mut sector, slot % 4, entry, &bytes);
        self.put(cache, drives, u32::from(slot / 4), &sector, steps)
    }

    /// Writes two directory entries into their slots, which are of one sector, as `put_slot` writes one.
    #[tactic(auto, using(crate::proofs::LeavesLaws::ready_after))]
    pub fn put_slots<D: Drives, L: Ledger>(
        &self,
        cache: &mut Cache,
        drives: &mut D,
        first: &SlotEntry,
        second: &SlotEntry,
        steps: &mut Steps<L>,
    ) -> Result<(), Failed>
        requires ready { IsReadyDisk (D.disks drives.old) self.now.drive self.now.kind cache.old }
        requires within { first.now.slot ≤ (geometry_of self.now.kind).drm }
        requires same { second.now.slot / 4 ≡ first.now.slot / 4 }
        requires proper { IsProper (geometry_of self.now.kind).wide first.now.entry }
        requires second { IsProper (geometry_of self.now.kind).wide second.now.entry }
        ensures { PutsSlots D.Drives self.now first.now second.now cache.old cache.new drives.old drives.new steps.old steps.new result }
    {
        let wide = geometry(self.kind).wide;
        let bytes = entry_bytes(&first.entry, wide);
        let second_bytes = entry_bytes(&second.entry, wide);
        let mut sector = [0; 128];
        match self.read(cache, drives, u32::from(first.slot / 4), &mut sector, steps) {
            Ok(()) => {}
            Err(failed) => return Err(failed),
        }
        put_entry(&mut sector, first.slot % 4, &first.entry, &bytes);
        put_entry(&mut sector, second.slot % 4, &second.entry, &second_bytes);
        self.put(cache, drives, u32::from(first.slot / 4), &sector, steps)
    }
}
