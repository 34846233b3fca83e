//! Scenes of the cache before drives in memory, whose calls are counted by those that are to fail.
ghost use Rattle.std.specs.Prelude.{◌≡◌, ℕ, ◌<◌, List, Some, IfOk, OnOk, length};
ghost use Rattle.mpm_port.specs.Disks.{IsInsideDrive, size_of};
ghost use Rattle.mpm_port.specs.MemoryDisks.{disks_of, IsFree};
ghost use Rattle.mpm_cache.specs.Coherent.{IsCoherent, HasNoAlias};

use mpm_base::Steps;
use mpm_cache::Cache;
use mpm_port::{Drives, Failed, MemoryDrives};
use std::alloc::Global;
use std::marker::Brand;
use std::sync::ledger::{Blank, Ledger};
use std::test::Fail;

/// How many sectors the drive has: one more than can be cached.
const SECTORS: u32 = 257;

/// A line of a scene: what is done to the drive, and what comes of it.
#[derive(Clone, Copy)]
enum Line {
    /// A sector is read, whose first byte is this one.
    Reads(u32, u8),
    /// All sectors are read in order.
    ReadsAll,
    /// A sector is read, and the drive fails.
    ReadFails(u32),
    /// A sector is written with this byte.
    Writes(u32, u8),
    /// A sector is written with this byte, and the drive fails.
    WriteFails(u32, u8),
}

/// The first byte of a sector as it is at first.
fn first_byte(sector: u32) -> u8 {
    (sector % 251) as u8
}

/// The image: each sector has its first byte throughout.
fn sectors(alloc: Global) -> Result<Vec<u8>, Fail>
    ensures { IfOk result (λ image. length image.items ≡ 32896) }
{
    let mut image = Vec::with_capacity(alloc, 32896)?;
    for sector in 0..SECTORS {
        image.extend_from_slice(&[first_byte(sector); 128])?;
    }
    Ok(image)
}

/// Attaches drives 0 and 1 to one image, which is calls 1 and 2.
fn attach_both(alloc: Global, drives: &mut MemoryDrives) -> Result<(), Fail>
    requires { (name : List ℕ) → IsFree drives.old name }
    ensures inside { OnOk result ((sector : ℕ) → sector < 257 → IsInsideDrive (size_of (disks_of drives.new) 0) sector) }
    ensures alias { OnOk result ((sector : ℕ) → sector < 257 → IsInsideDrive (size_of (disks_of drives.new) 1) sector) }
{
    let image = sectors(alloc)?;
    drives.add("A", image.as_slice())?;
    match drives.attach(0, "A") {
        Ok(()) => {}
        Err(_) => return Err(Fail::from("the drive is not attached")),
    }
    match drives.attach(1, "A") {
        Ok(()) => Ok(()),
        Err(_) => Err(Fail::from("the other drive is not attached")),
    }
}

/// Reads a sector of drive 0, and answers its first byte.
#[tactic(auto, using(mpm_cache::proofs::AliasLaws::alone_after))]
fn read<L: Ledger>(
    cache: &mut Cache,
    drives: &mut MemoryDrives,
    steps: &mut Steps<L>,
    sector: u32,
) -> Result<u8, Failed>
    requires coherent { IsCoherent cache.old (disks_of drives.old) }
    requires apart { HasNoAlias cache.old (disks_of drives.old) 0 }
    requires inside { (sector : ℕ) → sector < 257 → IsInsideDrive (size_of (disks_of drives.old) 0) sector }
    ensures coherent { IsCoherent cache.new (disks_of drives.new) }
    ensures apart { HasNoAlias cache.new (disks_of drives.new) 0 }
    ensures inside { (sector : ℕ) → sector < 257 → IsInsideDrive (size_of (disks_of drives.new) 0) sector }
{
    if sector >= SECTORS {
        return Err(Failed);
    }
    let mut out = [0; 128];
    match cache.read(drives, 0, sector, &mut out, steps) {
        Ok(()) => Ok(out[0]),
        Err(failed) => Err(failed),
    }
}

/// Writes a sector of drive 0 with one byte throughout.
#[tactic(auto, using(mpm_cache::proofs::AliasLaws::alone_after))]
fn write<L: Ledger>(
    cache: &mut Cache,
    drives: &mut MemoryDrives,
    steps: &mut Steps<L>,
    sector: u32,
    byte: u8,
) -> Result<(), Failed>
    requires coherent { IsCoherent cache.old (disks_of drives.old) }
    requires apart { HasNoAlias cache.old (disks_of drives.old) 0 }
    requires inside { (sector : ℕ) → sector < 257 → IsInsideDrive (size_of (disks_of drives.old) 0) sector }
    ensures coherent { IsCoherent cache.new (disks_of drives.new) }
    ensures apart { HasNoAlias cache.new (disks_of drives.new) 0 }
    ensures inside { (sector : ℕ) → sector < 257 → IsInsideDrive (size_of (disks_of drives.new) 0) sector }
{
    if sector >= SECTORS {
        return Err(Failed);
    }
    cache.write(drives, 0, sector, &[byte; 128], steps)
}

/// Reads all sectors in order, and says whether each is as it was at first.
fn read_all<L: Ledger>(cache: &mut Cache, drives: &mut MemoryDrives, steps: &mut Steps<L>) -> bool
    requires coherent { IsCoherent cache.old (disks_of drives.old) }
    requires apart { HasNoAlias cache.old (disks_of drives.old) 0 }
    requires inside { (sector : ℕ) → sector < 257 → IsInsideDrive (size_of (disks_of drives.old) 0) sector }
    ensures coherent { IsCoherent cache.new (disks_of drives.new) }
    ensures apart { HasNoAlias cache.new (disks_of drives.new) 0 }
    ensures inside { (sector : ℕ) → sector < 257 → IsInsideDrive (size_of (disks_of drives.new) 0) sector }
{
    for sector in 0..SECTORS {
        if read(cache, drives, steps, sector) != Ok(first_byte(sector)) {
            return false;
        }
    }
    true
}

/// Plays a line, and says whether what comes of it is as it says.
fn passes<L: Ledger>(
    cache: &mut Cache,
    drives: &mut MemoryDrives,
    steps: &mut Steps<L>,
    line: Line,
) -> bool
    requires coherent { IsCoherent cache.old (disks_of drives.old) }
    requires apart { HasNoAlias cache.old (disks_of drives.old) 0 }
    requires inside { (sector : ℕ) → sector < 257 → IsInsideDrive (size_of (disks_of drives.old) 0) sector }
    ensures coherent { IsCoherent cache.new (disks_of drives.new) }
    ensures apart { HasNoAlias cache.new (disks_of drives.new) 0 }
    ensures inside { (sector : ℕ) → sector < 257 → IsInsideDrive (size_of (disks_of drives.new) 0) sector }
{
    match line {
        Line::Reads(sector, byte) => read(cache, drives, steps, sector) == Ok(byte),
        Line::ReadsAll => read_all(cache, drives, steps),
        Line::ReadFails(sector) => read(cache, drives, steps, sector) == Err(Failed),
        Line::Writes(sector, byte) => write(cache, drives, steps, sector, byte) == Ok(()),
        Line::WriteFails(sector, byte) => write(cache, drives, steps, sector, byte) == Err(Failed),
    }
}

/// Plays lines one after the other.
fn pass_all<L: Ledger>(
    cache: &mut Cache,
    drives: &mut MemoryDrives,
    steps: &mut Steps<L>,
    lines: &[Line],
) -> Result<(), Fail>
    requires coherent { IsCoherent cache.old (disks_of drives.old) }
    requires apart { HasNoAlias cache.old (disks_of drives.old) 0 }
    requires inside { (sector : ℕ) → sector < 257 → IsInsideDrive (size_of (disks_of drives.old) 0) sector }
{
    for (number, line) in lines.iter().enumerate() {
        if !passes(cache, drives, steps, *line) {
            return Err(Fail::new(format_args!("line {number} of the scene, from 0")));
        }
    }
    Ok(())
}

/// Writes a sector of drive 0, and says whether drive 1 has it, whose image is the same.
fn is_read_by_the_other<L: Ledger>(
    cache: &mut Cache,
    drives: &mut MemoryDrives,
    steps: &mut Steps<L>,
) -> bool
    requires coherent { IsCoherent cache.old (disks_of drives.old) }
    requires apart { HasNoAlias cache.old (disks_of drives.old) 0 }
    requires inside { (sector : ℕ) → sector < 257 → IsInsideDrive (size_of (disks_of drives.old) 0) sector }
    requires alias { (sector : ℕ) → sector < 257 → IsInsideDrive (size_of (disks_of drives.old) 1) sector }
{
    let mut out = [0; 128];
    cache.write(drives, 0, 7, &[90; 128], steps) == Ok(())
        && cache.read(drives, 1, 7, &mut out, steps) == Ok(())
        && out[0] == 90
}

/// A scene: lines that are played, or none, where drive 1 is to read what is written to drive 0.
type Scene<'a> = Option<&'a [Line]>;

/// Plays a scene with an empty cache, on drives of which these two calls fail. The drives are lent, so that little is held where
/// something isn't as it should be.
fn play_on<L: Ledger>(
    alloc: Global,
    blank: Blank,
    drives: &mut MemoryDrives,
    failing: [u64; 2],
    scene: Scene,
) -> Result<(), Fail>
    requires name { blank.name ≡ L.name }
    requires parts { blank.parts ≡ L.parts }
    requires some { 0 < L.parts }
    requires free { (name : List ℕ) → IsFree drives.old name }
{
    let mut steps = Steps::<L>::new(blank);
    attach_both(alloc, drives)?;
    drives.fail_at(failing[0])?;
    drives.fail_at(failing[1])?;
    let mut cache = Cache::new(alloc)?;
    match scene {
        Some(lines) => pass_all(&mut cache, drives, &mut steps, lines),
        None => {
            if is_read_by_the_other(&mut cache, drives, &mut steps) {
                Ok(())
            } else {
                Err(Fail::from("drive 1 has other bytes"))
            }
        }
    }
}

/// Plays a scene with an empty cache on new drives of which these two calls fail, and counts the calls.
fn play_scene(alloc: Global, failing: [u64; 2], scene: Scene) -> Result<(), Fail> {
    let mut drives = MemoryDrives::new(alloc);
    play_on::<Brand>(alloc, Blank::new(1), &mut drives, failing, scene)
}

/// Plays lines on drives of which these two calls fail.
fn play(alloc: Global, failing: [u64; 2], lines: &[Line]) -> Result<(), Fail> {
    play_scene(alloc, failing, Some(lines))
}

/// The second read of a sector makes no call of the drive, so that call 4 is that of another sector.
#[test]
fn a_sector_that_is_read_twice_costs_one_call(rt: HostRuntime) -> Result<(), Fail> {
    play(
        rt.alloc(),
        [4, 0],
        &[
            Line::Reads(7, 7),
            Line::Reads(7, 7),
            Line::ReadFails(8),
            Line::Reads(8, 8),
            Line::Reads(7, 7),
        ],
    )
}

/// Each write is a call, and what it wrote is read without one. A write that failed isn't cached.
#[test]
fn writes_go_through(rt: HostRuntime) -> Result<(), Fail> {
    play(
        rt.alloc(),
        [5, 6],
        &[
            Line::Writes(1, 90),
            Line::Reads(1, 90),
            Line::Writes(1, 91),
            Line::Reads(1, 91),
            Line::WriteFails(1, 92),
            Line::ReadFails(1),
            Line::Reads(1, 91),
            Line::Reads(2, 2),
        ],
    )
}

/// Of 257 sectors that are read in order the first is cached no more: to read it again is call 260.
#[test]
fn the_sector_that_was_not_used_longest_goes(rt: HostRuntime) -> Result<(), Fail> {
    play(
        rt.alloc(),
        [260, 0],
        &[
            Line::ReadsAll,
            Line::Reads(256, 5),
            Line::Reads(1, 1),
            Line::ReadFails(0),
            Line::Reads(0, 0),
            Line::Reads(1, 1),
        ],
    )
}

/// What is cached stays: after two sectors were read and a third was written, none of them costs a call, so that call 6 is that
/// of a fourth.
#[test]
fn other_sectors_stay_cached(rt: HostRuntime) -> Result<(), Fail> {
    play(
        rt.alloc(),
        [6, 0],
        &[
            Line::Reads(7, 7),
            Line::Reads(8, 8),
            Line::Reads(7, 7),
            Line::Reads(7, 7),
            Line::Writes(9, 90),
            Line::Reads(8, 8),
            Line::Reads(7, 7),
            Line::Reads(9, 90),
            Line::ReadFails(10),
        ],
    )
}

/// A drive may be written while another one that isn't cached has its image, and what was written is read by that one.
#[test]
fn a_drive_with_the_same_image_reads_what_was_written(rt: HostRuntime) -> Result<(), Fail> {
    play_scene(rt.alloc(), [0, 0], None)
}
