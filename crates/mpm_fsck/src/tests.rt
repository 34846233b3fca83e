//! Drives that fail, call by call, which the built program's can't: it reads an image once, as it opens it. All else that the checker says of
//! images and makes of them is tried of the built program (tests/fsck.py).
ghost use Rattle.std.specs.Prelude.{ℕ, List};
ghost use Rattle.mpm_port.specs.MemoryDisks.{IsFree};

use crate::fsck::fsck_words;
use crate::status::FsckStatus;
use mpm_base::Kind;
use mpm_images::{EntryBytes, UNUSED, file, held, image, read_record};
use mpm_port::{MemoryDrives, MemoryFiles, MemorySink};
use std::alloc::Global;
use std::test::Fail;

/// The words that check `a.img`, and those that apply a list to it.
const CHECK: [&str; 3] = ["check", "ibm3740", "a.img"];

const APPLY: [&str; 4] = ["apply", "ibm3740", "a.img", "a.txt"];

/// How a run ended, whether it wrote nothing, and the byte with which slot 9 begins then.
type Left = (FsckStatus, bool, Option<u8>);

/// Some words as texts.
fn texts(alloc: Global, words: &[&str]) -> Result<Vec<String>, Fail> {
    let mut texts = Vec::new(alloc);
    for word in words {
        texts.push(String::from_str(alloc, word)?)?;
    }
    Ok(texts)
}

/// How a run over devices in memory ends.
fn ending(
    alloc: Global,
    words: &[&str],
    files: &mut MemoryFiles,
    drives: &mut MemoryDrives,
    sink: &mut MemorySink,
) -> Result<FsckStatus, Fail> {
    let texts = texts(alloc, words)?;
    Ok(fsck_words(alloc, texts.as_slice(), files, drives, sink))
}

/// A file of one record, in block 7.
fn in_one_block(letter: u8) -> EntryBytes {
    held(Kind::Ibm3740, file(letter, 0, 1), 0, 7)
}

/// Adds the image `a.img`, of which slots 3 and 9 name one block.
fn add_image(alloc: Global, drives: &mut MemoryDrives) -> Result<(), Fail>
    requires { (name : List ℕ) → IsFree drives.old name }
{
    let mut entries = [UNUSED; 10];
    entries[3] = in_one_block(b'C');
    entries[9] = in_one_block(b'J');
    let bytes = image(alloc, Kind::Ibm3740, &entries)?;
    drives.add("a.img", bytes.as_slice())?;
    Ok(())
}

/// The byte with which slot 9 begins.
fn first_byte(drives: &mut MemoryDrives) -> Option<u8> {
    match read_record(drives, Kind::Ibm3740, 2) {
        Some(sector) => Some(sector[32]),
        None => None,
    }
}

/// What a run leaves.
fn left_by(
    alloc: Global,
    words: &[&str],
    files: &mut MemoryFiles,
    drives: &mut MemoryDrives,
    sink: &mut MemorySink,
) -> Result<Left, Fail> {
    let status = ending(alloc, words, files, drives, sink)?;
    Ok((status, sink.written().is_empty(), first_byte(drives)))
}

/// What a run leaves over that image and a list that names one of both slots, where a call of the drives of a number fails.
fn run_failing_on(
    alloc: Global,
    words: &[&str],
    call: u64,
    files: &mut MemoryFiles,
    drives: &mut MemoryDrives,
    sink: &mut MemorySink,
) -> Result<Left, Fail>
    requires { (name : List ℕ) → IsFree drives.old name }
{
    add_image(alloc, drives)?;
    files.add("a.txt", b"fault 9 4 3\n")?;
    drives.fail_at(call)?;
    left_by(alloc, words, files, drives, sink)
}

/// So over new devices.
fn run_failing(alloc: Global, words: &[&str], call: u64) -> Result<Left, Fail> {
    let mut sink = MemorySink::new(alloc, 100)?;
    let mut files = MemoryFiles::new(alloc);
    let mut drives = MemoryDrives::new(alloc);
    run_failing_on(alloc, words, call, &mut files, &mut drives, &mut sink)
}

/// The number of a call that fails, and what a run leaves then.
type Row = (u64, Left);

/// Whether a run of whose drives a call fails ends so: where it is one of the first, with nothing written and slot 9 as it was; else by
/// these rows.
fn all_end(alloc: Global, words: &[&str], calls: u64, rows: &[Row]) -> Result<bool, Fail> {
    let lost = (FsckStatus::DiskFault, true, Some(0));
    for call in 1..=calls {
        if run_failing(alloc, words, call)? != lost {
            return Ok(false);
        }
    }
    for (call, left) in rows {
        if run_failing(alloc, words, *call)? != *left {
            return Ok(false);
        }
    }
    Ok(true)
}

/// An attach, the size, and the sixteen sectors of the directory. The call after these reads slot 9 for the test.
#[test]
fn a_check_ends_where_a_drive_fails(rt: HostRuntime) -> Result<(), Fail> {
    let found = (FsckStatus::Unsound { count: 1 }, false, None);
    assert!(rt; all_end(rt.alloc(), &CHECK, 18, &[(19, found)])?);
    Ok(())
}

/// Besides these one sector that is read and written, and the sync: from there on the slot is free. The call after it reads slot 9.
#[test]
fn a_list_is_applied_up_to_where_a_drive_fails(rt: HostRuntime) -> Result<(), Fail> {
    let unsynced = (FsckStatus::DiskFault, true, Some(0xE5));
    let done = (FsckStatus::Done, false, None);
    assert!(rt; all_end(rt.alloc(), &APPLY, 20, &[(21, unsynced), (22, done)])?);
    Ok(())
}
