//! What is written on disks in memory, where each call of the drives fails in turn.
ghost use Rattle.std.specs.Prelude.{◌≡◌, ℕ, ◌<◌, List, Some, OnOk};
ghost use Rattle.mpm_port.specs.Disks.{size_of};
ghost use Rattle.mpm_port.specs.MemoryDisks.{disks_of, IsFree};
ghost use Rattle.mpm_blocks.specs.Geometries.{geometry_of};
ghost use Rattle.mpm_cache.specs.Coherent.{IsCoherent, HasNoAlias};

use mpm_base::{Kind, Steps};
use mpm_blocks::geometry;
use mpm_cache::Cache;
use mpm_dirent::{Entry, XfcbEntry};
use mpm_port::{Drives, MemoryDrives};
use mpm_sectors::{Disk, FreshBlock, SlotEntry};
use std::alloc::Global;
use std::marker::Brand;
use std::sync::ledger::{Blank, Ledger};
use std::test::Fail;

/// A record that comes into a fresh block, and how many sectors are written for it.
#[derive(Clone, Copy)]
struct Fresh {
    kind: Kind,
    clear: u8,
    index: u8,
    writes: u8,
}

/// The first block that is written: it isn't the directory's on any disk.
const FIRST: u16 = 10;

/// Attaches drive 0 to an image of bytes E5h, which is call 1; of the calls of writers that make one more call each, from 1 on,
/// the last one fails, up to a number of writers.
fn attach_one(alloc: Global, drives: &mut MemoryDrives, kind: Kind, writers: u8) -> Result<(), Fail>
    requires { (name : List ℕ) → IsFree drives.old name }
    ensures size { OnOk result (size_of (disks_of drives.new) 0 ≡ Some (geometry_of kind).bytes) }
{
    let image = vec![in alloc; 0xE5; geometry(kind).bytes as usize]?;
    drives.add("A", image.as_slice())?;
    match drives.attach(0, "A") {
        Ok(()) => fail_last(drives, writers),
        Err(_) => Err(Fail::from("the drive is not attached")),
    }
}

/// The last call of each writer is to fail, from the first writer on, after call 1.
fn fail_last(drives: &mut MemoryDrives, writers: u8) -> Result<(), Fail>
    ensures { OnOk result (size_of (disks_of drives.new) 0 ≡ size_of (disks_of drives.old) 0) }
{
    let mut call: u64 = 1;
    for number in 0..writers {
        call = call.saturating_add(u64::from(number) + 1);
        drives.fail_at(call)?;
    }
    Ok(())
}

/// Writes the record into a block, and says whether that went well.
#[tactic(auto, using(mpm_sectors::proofs::LeavesLaws::ready_of))]
fn put_block<L: Ledger>(
    cache: &mut Cache,
    drives: &mut MemoryDrives,
    steps: &mut Steps<L>,
    block: u16,
    fresh: Fresh,
) -> bool
    requires size { size_of (disks_of drives.old) 0 ≡ Some (geometry_of fresh.kind).bytes }
    requires coherent { IsCoherent cache.old (disks_of drives.old) }
    requires apart { HasNoAlias cache.old (disks_of drives.old) 0 }
    ensures size { size_of (disks_of drives.new) 0 ≡ Some (geometry_of fresh.kind).bytes }
    ensures coherent { IsCoherent cache.new (disks_of drives.new) }
    ensures apart { HasNoAlias cache.new (disks_of drives.new) 0 }
{
    let sizes = geometry(fresh.kind);
    let records = sizes.block / 128;
    if block > sizes.dsm || u16::from(fresh.clear) > records || u16::from(fresh.index) >= records {
        return false;
    }
    let disk = Disk {
        drive: 0,
        kind: fresh.kind,
    };
    let taken = FreshBlock {
        number: block,
        clear: fresh.clear,
    };
    disk.put_block(cache, drives, taken, fresh.index, &[7; 128], steps) == Ok(())
}

/// Whether a sector has a byte throughout.
fn holds<L: Ledger>(
    cache: &mut Cache,
    drives: &mut MemoryDrives,
    steps: &mut Steps<L>,
    kind: Kind,
    sector: u32,
    byte: u8,
) -> bool
    requires size { size_of (disks_of drives.old) 0 ≡ Some (geometry_of kind).bytes }
    requires coherent { IsCoherent cache.old (disks_of drives.old) }
    ensures size { size_of (disks_of drives.new) 0 ≡ Some (geometry_of kind).bytes }
    ensures coherent { IsCoherent cache.new (disks_of drives.new) }
{
    let mut out = [0; 128];
    if sector >= 1_950 {
        return false;
    }
    let disk = Disk { drive: 0, kind };
    disk.read(cache, drives, sector, &mut out, steps) == Ok(()) && out == [byte; 128]
}

/// What a sector of a block has after so many of its writes.
fn byte_after(fresh: Fresh, writes: u8, sector: u8) -> u8 {
    if sector == fresh.index {
        return if writes >= fresh.writes { 7 } else { 0xE5 };
    }
    let earlier = u8::from(fresh.clear <= fresh.index && fresh.index < sector);
    if sector < fresh.clear
        || sector.saturating_sub(fresh.clear).saturating_sub(earlier) >= writes
    {
        0xE5
    } else {
        0
    }
}

/// Writes the record into one block after the other, where one more write goes well each time, and all of them at last.
fn put_blocks<L: Ledger>(
    cache: &mut Cache,
    drives: &mut MemoryDrives,
    steps: &mut Steps<L>,
    fresh: Fresh,
) -> bool
    requires size { size_of (disks_of drives.old) 0 ≡ Some (geometry_of fresh.kind).bytes }
    requires coherent { IsCoherent cache.old (disks_of drives.old) }
    requires apart { HasNoAlias cache.old (disks_of drives.old) 0 }
    ensures { size_of (disks_of drives.new) 0 ≡ Some (geometry_of fresh.kind).bytes }
{
    for number in 0..u16::from(fresh.writes) + 1 {
        let went_well = put_block(cache, drives, steps, FIRST + number, fresh);
        if went_well != (number == u16::from(fresh.writes)) {
            return false;
        }
    }
    true
}

/// Whether each sector of a block has what so many writes leave.
fn block_holds<L: Ledger>(
    cache: &mut Cache,
    drives: &mut MemoryDrives,
    steps: &mut Steps<L>,
    fresh: Fresh,
    writes: u8,
) -> bool
    requires size { size_of (disks_of drives.old) 0 ≡ Some (geometry_of fresh.kind).bytes }
    requires coherent { IsCoherent cache.old (disks_of drives.old) }
    ensures size { size_of (disks_of drives.new) 0 ≡ Some (geometry_of fresh.kind).bytes }
    ensures coherent { IsCoherent cache.new (disks_of drives.new) }
{
    let records = (geometry(fresh.kind).block / 128) as u8;
    let first = (u32::from(FIRST) + u32::from(writes)) * u32::from(records);
    for sector in 0..records {
        let byte = byte_after(fresh, writes, sector);
        if !holds(
            cache,
            drives,
            steps,
            fresh.kind,
            first + u32::from(sector),
            byte,
        ) {
            return false;
        }
    }
    true
}

/// Whether each block has what was written into it, as a cache that is empty reads it.
fn blocks_hold<L: Ledger>(
    alloc: Global,
    drives: &mut MemoryDrives,
    steps: &mut Steps<L>,
    fresh: Fresh,
) -> Result<bool, Fail>
    requires size { size_of (disks_of drives.old) 0 ≡ Some (geometry_of fresh.kind).bytes }
{
    let mut cache = Cache::new(alloc)?;
    for number in 0..u16::from(fresh.writes) + 1 {
        if !block_holds(&mut cache, drives, steps, fresh, number as u8) {
            return Ok(false);
        }
    }
    Ok(true)
}

/// What is tried on a disk.
#[derive(Clone, Copy)]
enum Trial {
    /// A record is written into fresh blocks: each failure leaves the sectors before it written, and no other.
    Blocks { clear: u8, index: u8, writes: u8 },
    /// The first sector of a floppy's directory is acted on.
    Entries,
    /// A sector of a floppy is written.
    Place,
}

/// Tries it with an empty cache, and says whether all is as it should be.
fn passes<L: Ledger>(
    alloc: Global,
    cache: &mut Cache,
    drives: &mut MemoryDrives,
    steps: &mut Steps<L>,
    kind: Kind,
    trial: Trial,
) -> Result<bool, Fail>
    requires size { size_of (disks_of drives.old) 0 ≡ Some (geometry_of kind).bytes }
    requires coherent { IsCoherent cache.old (disks_of drives.old) }
    requires apart { HasNoAlias cache.old (disks_of drives.old) 0 }
{
    match trial {
        Trial::Blocks {
            clear,
            index,
            writes,
        } => {
            let fresh = Fresh {
                kind,
                clear,
                index,
                writes,
            };
            if !put_blocks(cache, drives, steps, fresh) {
                return Ok(false);
            }
            blocks_hold(alloc, drives, steps, fresh)
        }
        Trial::Entries => match kind {
            Kind::Ibm3740 => Ok(are_written(cache, drives, steps)),
            _ => Ok(false),
        },
        Trial::Place => match kind {
            Kind::Ibm3740 => Ok(is_placed(cache, drives, steps)),
            _ => Ok(false),
        },
    }
}

/// Tries it on a drive in memory, so many writers on which fail in turn. The drives are lent, so that little is held where something
/// isn't as it should be.
fn is_so<L: Ledger>(
    alloc: Global,
    blank: Blank,
    drives: &mut MemoryDrives,
    kind: Kind,
    writers: u8,
    trial: Trial,
) -> Result<bool, Fail>
    requires name { blank.name ≡ L.name }
    requires parts { blank.parts ≡ L.parts }
    requires some { 0 < L.parts }
    requires free { (name : List ℕ) → IsFree drives.old name }
{
    let mut steps = Steps::<L>::new(blank);
    attach_one(alloc, drives, kind, writers)?;
    let mut cache = Cache::new(alloc)?;
    passes(alloc, &mut cache, drives, &mut steps, kind, trial)
}

/// Tries it on a new drive in memory, and counts the calls.
fn check(alloc: Global, kind: Kind, writers: u8, trial: Trial) -> Result<(), Fail> {
    let mut drives = MemoryDrives::new(alloc);
    match is_so::<Brand>(alloc, Blank::new(1), &mut drives, kind, writers, trial) {
        Ok(true) => Ok(()),
        Ok(false) => Err(Fail::from("the disk has other bytes")),
        Err(fail) => Err(fail),
    }
}

/// Writes a record into fresh blocks, where one more write goes well each time.
fn check_blocks(alloc: Global, kind: Kind, clear: u8, index: u8, writes: u8) -> Result<(), Fail> {
    let trial = Trial::Blocks {
        clear,
        index,
        writes,
    };
    check(alloc, kind, writes, trial)
}

#[test]
fn a_record_comes_behind_the_zeros_of_its_block(rt: HostRuntime) -> Result<(), Fail> {
    check_blocks(rt.alloc(), Kind::Ibm3740, 0, 0, 8)?;
    check_blocks(rt.alloc(), Kind::Ibm3740, 0, 5, 8)?;
    check_blocks(rt.alloc(), Kind::Hd4, 0, 15, 16)
}

#[test]
fn a_block_that_was_cleared_in_part_gets_the_rest(rt: HostRuntime) -> Result<(), Fail> {
    check_blocks(rt.alloc(), Kind::Hd8, 18, 5, 15)
}

#[test]
fn a_record_may_lie_in_the_rest_of_its_block(rt: HostRuntime) -> Result<(), Fail> {
    check_blocks(rt.alloc(), Kind::Hd8, 18, 20, 14)
}

/// An XFCB of user 1.
const XFCB: XfcbEntry = XfcbEntry {
    user: 1,
    name: *b"A       TXT",
    mode: 0x80,
    decode: 3,
    password: [4; 8],
    first: [5; 4],
    second: [6; 4],
};

/// Its bytes, with those that no field says.
fn xfcb_bytes(reserved: u8) -> [u8; 32] {
    let mut bytes =
        *b"\x11A       TXT\x80\x03\0\0\x04\x04\x04\x04\x04\x04\x04\x04\x05\x05\x05\x05\x06\x06\x06\x06";
    bytes[14] = reserved;
    bytes[15] = reserved;
    bytes
}

/// What is done to the first sector of a floppy's directory.
#[derive(Clone, Copy)]
enum Line {
    /// All its bytes are this one.
    Put(u8),
    /// A slot gets the XFCB.
    PutXfcb(u16),
    /// A slot gets a free entry.
    Free(u16),
    /// A slot gets the XFCB, and another one a free entry.
    PutBoth(u16, u16),
    /// Nothing: the sector's slots are as these.
    Has([Slot; 4]),
}

/// What a slot has.
#[derive(Clone, Copy)]
enum Slot {
    /// Bytes E5h.
    Unused,
    /// The XFCB.
    New,
    /// The XFCB, which is freed.
    Freed,
    /// Bytes 12h.
    Other,
    /// Bytes 12h, which are freed.
    FreedOther,
    /// The XFCB in the place of bytes 12h.
    Changed,
}

/// The bytes of a slot.
fn bytes_of(slot: Slot) -> [u8; 32] {
    let mut bytes = match slot {
        Slot::Unused => [0xE5; 32],
        Slot::New | Slot::Freed => xfcb_bytes(0),
        Slot::Other | Slot::FreedOther => [0x12; 32],
        Slot::Changed => xfcb_bytes(0x12),
    };
    match slot {
        Slot::Freed | Slot::FreedOther => bytes[0] = 0xE5,
        _ => {}
    }
    bytes
}

/// Does it, and says whether that went well.
#[tactic(auto, using(mpm_sectors::proofs::LeavesLaws::ready_of))]
fn acts<L: Ledger>(
    cache: &mut Cache,
    drives: &mut MemoryDrives,
    steps: &mut Steps<L>,
    line: Line,
) -> bool
    requires size { size_of (disks_of drives.old) 0 ≡ Some 256256 }
    requires coherent { IsCoherent cache.old (disks_of drives.old) }
    requires apart { HasNoAlias cache.old (disks_of drives.old) 0 }
    ensures size { size_of (disks_of drives.new) 0 ≡ Some 256256 }
    ensures coherent { IsCoherent cache.new (disks_of drives.new) }
    ensures apart { HasNoAlias cache.new (disks_of drives.new) 0 }
{
    let disk = Disk {
        drive: 0,
        kind: Kind::Ibm3740,
    };
    let xfcb = Entry::Xfcb { xfcb: XFCB };
    match line {
        Line::Put(byte) => disk.put(cache, drives, 0, &[byte; 128], steps) == Ok(()),
        Line::PutXfcb(slot) if slot < 4 => disk.put_slot(cache, drives, slot, &xfcb, steps)
            == Ok(()),
        Line::Free(slot) if slot < 4 => disk.put_slot(cache, drives, slot, &Entry::Free, steps)
            == Ok(()),
        Line::PutBoth(slot, other) if slot < 4 && other < 4 => {
            let first = SlotEntry { slot, entry: xfcb };
            let second = SlotEntry {
                slot: other,
                entry: Entry::Free,
            };
            disk.put_slots(cache, drives, &first, &second, steps) == Ok(())
        }
        Line::Has(slots) => has(cache, drives, steps, sector(&slots)),
        _ => false,
    }
}

/// A sector of four slots.
fn sector(slots: &[Slot; 4]) -> [u8; 128] {
    let mut bytes = [0; 128];
    for (place, slot) in slots.iter().enumerate() {
        for (byte, value) in bytes_of(*slot).iter().enumerate() {
            if let Some(old) = bytes.get_mut(32 * place + byte) {
                *old = *value;
            }
        }
    }
    bytes
}

/// Whether the first sector of the directory has these bytes.
fn has<L: Ledger>(
    cache: &mut Cache,
    drives: &mut MemoryDrives,
    steps: &mut Steps<L>,
    bytes: [u8; 128],
) -> bool
    requires size { size_of (disks_of drives.old) 0 ≡ Some 256256 }
    requires coherent { IsCoherent cache.old (disks_of drives.old) }
    requires apart { HasNoAlias cache.old (disks_of drives.old) 0 }
    ensures size { size_of (disks_of drives.new) 0 ≡ Some 256256 }
    ensures coherent { IsCoherent cache.new (disks_of drives.new) }
    ensures apart { HasNoAlias cache.new (disks_of drives.new) 0 }
{
    let mut out = [0; 128];
    let disk = Disk {
        drive: 0,
        kind: Kind::Ibm3740,
    };
    disk.read(cache, drives, 0, &mut out, steps) == Ok(()) && out == bytes
}

/// Acts line by line, and says whether each went as it says.
fn go_so<L: Ledger>(
    cache: &mut Cache,
    drives: &mut MemoryDrives,
    steps: &mut Steps<L>,
    lines: &[(Line, bool)],
) -> bool
    requires size { size_of (disks_of drives.old) 0 ≡ Some 256256 }
    requires coherent { IsCoherent cache.old (disks_of drives.old) }
    requires apart { HasNoAlias cache.old (disks_of drives.old) 0 }
{
    for (line, goes_well) in lines {
        if acts(cache, drives, steps, *line) != *goes_well {
            return false;
        }
    }
    true
}

/// Acts on the first sector of the directory: its reading fails, a write of one entry, and the one write of two.
fn are_written<L: Ledger>(
    cache: &mut Cache,
    drives: &mut MemoryDrives,
    steps: &mut Steps<L>,
) -> bool
    requires size { size_of (disks_of drives.old) 0 ≡ Some 256256 }
    requires coherent { IsCoherent cache.old (disks_of drives.old) }
    requires apart { HasNoAlias cache.old (disks_of drives.old) 0 }
{
    let lines = [
        (Line::PutXfcb(1), false),
        (Line::PutXfcb(1), false),
        (Line::Has([Slot::Unused; 4]), true),
        (Line::PutXfcb(1), true),
        (
            Line::Has([Slot::Unused, Slot::New, Slot::Unused, Slot::Unused]),
            true,
        ),
        (Line::PutBoth(0, 1), false),
        (
            Line::Has([Slot::Unused, Slot::New, Slot::Unused, Slot::Unused]),
            true,
        ),
        (Line::PutBoth(0, 1), true),
        (
            Line::Has([Slot::New, Slot::Freed, Slot::Unused, Slot::Unused]),
            true,
        ),
        (Line::Put(0x12), true),
        (Line::PutXfcb(3), true),
        (Line::Free(2), true),
        (
            Line::Has([Slot::Other, Slot::Other, Slot::FreedOther, Slot::Changed]),
            true,
        ),
    ];
    go_so(cache, drives, steps, &lines)
}

/// Calls 2, 4 and 7 fail: the sector's reading, its writing, and the one write of two entries. What fails changes nothing, and
/// other entries and the bytes that an entry has no field for stay.
#[test]
fn entries_are_written_by_their_sectors(rt: HostRuntime) -> Result<(), Fail> {
    check(rt.alloc(), Kind::Ibm3740, 3, Trial::Entries)
}

/// Sector 16 of a floppy after the system's tracks, the first of block 2, is sector 71 of the image.
#[tactic(auto, using(mpm_sectors::proofs::LeavesLaws::ready_of))]
fn is_placed<L: Ledger>(cache: &mut Cache, drives: &mut MemoryDrives, steps: &mut Steps<L>) -> bool
    requires size { size_of (disks_of drives.old) 0 ≡ Some 256256 }
    requires coherent { IsCoherent cache.old (disks_of drives.old) }
    requires apart { HasNoAlias cache.old (disks_of drives.old) 0 }
{
    let disk = Disk {
        drive: 0,
        kind: Kind::Ibm3740,
    };
    let mut out = [0; 128];
    disk.put(cache, drives, 16, &[9; 128], steps) == Ok(())
        && drives.read(0, 71, &mut out) == Ok(())
        && out == [9; 128]
}

#[test]
fn sectors_go_where_the_skew_puts_them(rt: HostRuntime) -> Result<(), Fail> {
    check(rt.alloc(), Kind::Ibm3740, 0, Trial::Place)
}
