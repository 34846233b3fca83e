//! One run in two ways, of whose devices one call fails: by its words, and by the calls of the machine that these stand for, over
//! equal files, drives and sinks. Both end alike, with the same text and the same disk.
ghost use Rattle.std.specs.Prelude.{◌≡◌, ◌<◌, Some, IsSome};
ghost use Rattle.std.specs.Bool.{OnTrue};
ghost use Rattle.mpm_port.specs.Disks.{size_of};
ghost use Rattle.mpm_port.specs.MemoryDisks.{disks_of};

use crate::play::{run_booted, run_by_words};
use mpm_base::Kind;
use mpm_images::{file, held, image, put_text};
use mpm_port::{Drives, MemoryDrives, MemorySink};
use mpm_top::Status;
use std::alloc::Global;
use std::test::Fail;

/// What is typed: the program's name.
const KEYS: &[u8] = b"0 key 0 hi\\r\n";

/// The program HI.PRL, of 119 bytes without an address to be moved, in four records: its header of two, its code, and the bits of that.
/// From 4100h on it writes sixteen records at once (44), those from its own first byte on (26), to OUT.TXT (21), which it makes (22);
/// says so (9); and ends (0).
const PROGRAM: [&[u8]; 3] = [
    b"\0\x77",
    b"",
    b"\x11\x10\x00\x0E\x2C\xCD\x05\x40\x11\x00\x41\x0E\x1A\xCD\x05\x40\
\x11\x40\x41\x0E\x16\xCD\x05\x40\x11\x40\x41\x0E\x15\xCD\x05\x40\
\x11\x70\x41\x0E\x09\xCD\x05\x40\x0E\x00\xCD\x05\x40\0\0\0\0\0\0\0\0\0\0\0\0\0\0\0\0\0\0\0\
\0OUT     TXT\0\0\0\0\0\0\0\0\0\0\0\0\0\0\0\0\0\0\0\0\0\0\0\0\0\0\0\0\0\0\0\0\0\0\0\0\
done\r\n$",
];

/// The words of the run, and its steps.
const WORDS: [&str; 3] = ["run", "file", "2000"];

const STEPS: u64 = 2000;

/// What a run writes where nothing fails.
const WHOLE: &[u8] = b"c0 0A>hi\\r\nc0 done\\r\nc0 0A>\\\n";

/// Puts the program's records into an image, from the first block of files on.
fn put_program(image: &mut [u8]) {
    for number in 0..4 {
        let text: &[u8] = match PROGRAM.get(number as usize) {
            Some(text) => text,
            None => b"",
        };
        put_text(image, Kind::Ibm3740, 16 + number, text);
    }
}

/// What a run is over, beside its files.
#[derive(Drop)]
struct Devices {
    drives: MemoryDrives,
    sink: MemorySink,
}

/// The image of a disk that has the program.
fn disk(alloc: Global) -> Result<Vec<u8>, Fail> {
    let mut entry = held(Kind::Ibm3740, file(b'H', 0, 4), 0, 2);
    entry[2] = b'I';
    entry[9..12].copy_from_slice(b"PRL");
    let mut image = image(alloc, Kind::Ibm3740, &[entry])?;
    put_program(image.as_mut_slice());
    Ok(image)
}

/// What a run is on: its machine file, and the image of its disk.
#[derive(Clone, Copy)]
struct Played<'a> {
    machine: &'a [u8],
    disk: &'a [u8],
}

/// Drives with a disk, and a sink, whose calls of these numbers fail.
fn failing_devices(alloc: Global, disk: &[u8], call: u64, put: u64) -> Result<Devices, Fail> {
    let mut drives = MemoryDrives::new(alloc);
    drives.fail_at(call)?;
    drives.add("a.img", disk)?;
    let mut sink = MemorySink::new(alloc, 512)?;
    sink.fail_at(put)?;
    Ok(Devices { drives, sink })
}

/// Whether a sector of both disks has the same bytes.
fn is_same(first: &mut MemoryDrives, second: &mut MemoryDrives, sector: u32) -> bool
    requires inside { sector < 2002 }
    requires first { size_of (disks_of first.old) 0 ≡ Some 256256 }
    requires second { size_of (disks_of second.old) 0 ≡ Some 256256 }
    ensures first { size_of (disks_of first.new) 0 ≡ Some 256256 }
    ensures second { size_of (disks_of second.new) 0 ≡ Some 256256 }
{
    let mut one = [0; 128];
    let mut other = [0; 128];
    let is_first = first.read(0, sector, &mut one) == Ok(());
    let is_second = second.read(0, sector, &mut other) == Ok(());
    is_first && is_second && one == other
}

/// Attaches the disk, of 2,002 sectors.
fn is_attached(drives: &mut MemoryDrives) -> bool
    ensures { OnTrue result (size_of (disks_of drives.new) 0 ≡ Some 256256) }
{
    drives.attach(0, "a.img") == Ok(()) && is_floppy(drives)
}

/// Whether its attached drive has the size of a floppy disk.
fn is_floppy(drives: &mut MemoryDrives) -> bool
    requires { IsSome (size_of (disks_of drives.old) 0) }
    ensures { OnTrue result (size_of (disks_of drives.new) 0 ≡ Some 256256) }
{
    match drives.size(0) {
        Ok(bytes) => bytes == 256_256,
        Err(_) => false,
    }
}

/// In how many sectors the directory, the program and what it writes are, from the first on.
const WRITTEN: u32 = 130;

/// Whether two disks have the same bytes: everywhere, or in the sectors that a run may write. The call that is to fail is one that was
/// made, or the next.
fn are_same(first: &mut MemoryDrives, second: &mut MemoryDrives, is_whole: bool) -> bool {
    let _ = first.attach(0, "a.img");
    let _ = second.attach(0, "a.img");
    if !is_attached(first) || !is_attached(second) {
        return false;
    }
    for sector in 0..2002 {
        if (is_whole || sector < WRITTEN) && !is_same(first, second, sector) {
            return false;
        }
    }
    true
}

/// How a run ends of which that call of the drives or of the sink fails, both ways, which are alike.
fn ends(alloc: Global, played: Played<'_>, call: u64, put: u64) -> Result<Status, Fail> {
    let mut first = failing_devices(alloc, played.disk, call, put)?;
    ends_beside(alloc, played, call, put, &mut first)
}

/// How a run ends by its words over these devices, and by the calls of the machine over equal ones, which is alike.
fn ends_beside(
    alloc: Global,
    played: Played<'_>,
    call: u64,
    put: u64,
    first: &mut Devices,
) -> Result<Status, Fail> {
    let mut second = failing_devices(alloc, played.disk, call, put)?;
    match ends_alike(alloc, played.machine, first, &mut second)? {
        Some(status) => Ok(status),
        None => Err(Fail::new(format_args!("call {call}, put {put}: the ways differ"))),
    }
}

/// How a run ends both ways, where these are alike, and nothing but the whole text comes where nothing fails; then all of the disks is
/// looked at.
fn ends_alike(
    alloc: Global,
    machine: &[u8],
    first: &mut Devices,
    second: &mut Devices,
) -> Result<Option<Status>, Fail> {
    let texts = (machine, KEYS);
    let status = run_by_words(alloc, texts, &WORDS, &mut first.drives, &mut first.sink)?;
    let other = run_booted(
        alloc,
        texts,
        STEPS,
        false,
        true,
        &mut second.drives,
        &mut second.sink,
    )?;
    let is_ran = status == Status::Ran;
    let is_whole = !is_ran || first.sink.written() == WHOLE;
    let is_same = status == other
        && first.sink.written() == second.sink.written()
        && are_same(&mut first.drives, &mut second.drives, is_ran);
    Ok(if is_whole && is_same {
        Some(status)
    } else {
        None
    })
}

/// How many calls of the drives a run makes, each of which fails once.
fn failing_calls(alloc: Global, played: Played<'_>) -> Result<u64, Fail> {
    for call in 1..200 {
        match ends(alloc, played, call, 0)? {
            Status::DiskFault { .. } => {}
            Status::Ran => return Ok(call.saturating_sub(1)),
            _ => return Err(Fail::from("a call that ends the run otherwise")),
        }
    }
    Err(Fail::from("a run without an end"))
}

/// How many calls of the sink a run makes, each of which fails once.
fn failing_puts(alloc: Global, played: Played<'_>) -> Result<u64, Fail> {
    for put in 1..200 {
        match ends(alloc, played, 0, put)? {
            Status::WriteFault { .. } => {}
            Status::Ran => return Ok(put.saturating_sub(1)),
            _ => return Err(Fail::from("a put that ends the run otherwise")),
        }
    }
    Err(Fail::from("a run without an end"))
}

/// How many calls of the drive a run makes: it is attached, its size is asked, and its directory of 16 sectors is read. The program's four
/// records are read. The making reads and writes a sector of the directory. Each of two new blocks takes eight sectors, and each of the
/// other 14 records one, with a sector of the directory that counts each. In the end the drive is synced.
const CALLS: u64 = 18 + 4 + 2 + 16 + 14 + 16 + 1;

/// How many calls of the drives and of the sink fail so, on a machine of one console, a segment of the pages 40h to 7Fh, and drive A, a
/// floppy disk, whose turns take so many steps.
fn failing(alloc: Global, turn: u64) -> Result<(u64, u64), Fail> {
    let machine = format!(in alloc;
        "version = 1\nconsoles = 1\nscript = 'keys'\ndisk_turn = {turn}\n[[segment]]\nbase = 64\npages = 64\n[[drive]]\nletter = 'A'\nkind = 'ibm3740'\nimage = 'a.img'\n"
    )?;
    let disk = disk(alloc)?;
    let played = Played {
        machine: machine.as_bytes(),
        disk: disk.as_slice(),
    };
    let calls = failing_calls(alloc, played)?;
    let puts = failing_puts(alloc, played)?;
    Ok((calls, puts))
}

#[test]
fn each_failure_ends_both_ways_alike_at_once(rt: HostRuntime) -> Result<(), Fail> {
    assert_eq!(rt; failing(rt.alloc(), 0)?, (CALLS, 3));
    Ok(())
}

#[test]
fn each_failure_ends_both_ways_alike_in_turns(rt: HostRuntime) -> Result<(), Fail> {
    assert_eq!(rt; failing(rt.alloc(), 20)?, (CALLS, 3));
    Ok(())
}
