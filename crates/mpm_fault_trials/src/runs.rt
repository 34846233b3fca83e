//! Whole runs over files, drives and a sink in memory: what comes where a call of the drives fails. What runs write whose calls all go well,
//! or whose files or outputs fail, is shown by the cases of the built program.
use crate::play::strings;
use mpm_base::Kind;
use mpm_images::image;
use mpm_port::{MemoryDrives, MemoryFiles, MemorySink};
use mpm_top::{Status, run_words};
use std::alloc::Global;
use std::test::Fail;

/// A machine of one console with the drives A and C, of which C stands first.
pub(crate) const TWO_DRIVES: &[u8] = b"version = 1
consoles = 1
[[segment]]
base = 0
pages = 192
[[drive]]
letter = 'C'
kind = 'ibm3740'
image = 'c'
[[drive]]
letter = 'A'
kind = 'ibm3740'
image = 'a'
";

/// What ten steps of these machines write.
const PROMPT: &[u8] = b"c0 0A>\\\n";

/// Files with one of the name `file`.
fn files(alloc: Global, bytes: &[u8]) -> Result<MemoryFiles, Fail> {
    let mut files = MemoryFiles::new(alloc);
    files.add("file", bytes)?;
    Ok(files)
}

/// Drives with the images `a` and `c` of E5h, whose call of that number fails.
pub(crate) fn drives(alloc: Global, call: u64) -> Result<MemoryDrives, Fail> {
    let image = image(alloc, Kind::Ibm3740, &[])?;
    drives_of(alloc, image.as_slice(), call)
}

/// Drives with an image of two names.
fn drives_of(alloc: Global, image: &[u8], call: u64) -> Result<MemoryDrives, Fail> {
    let mut drives = MemoryDrives::new(alloc);
    drives.fail_at(call)?;
    drives.add("a", image)?;
    drives.add("c", image)?;
    Ok(drives)
}

/// How words end over a file `file` with these bytes and two images, where that call of the drives fails, and whether just this text is
/// written.
fn ends(
    alloc: Global,
    words: &[&str],
    bytes: &[u8],
    call: u64,
    text: &[u8],
) -> Result<(Status, bool), Fail> {
    let words = strings(alloc, words)?;
    ends_by(alloc, words.as_slice(), bytes, call, text)
}

fn ends_by(
    alloc: Global,
    words: &[String],
    bytes: &[u8],
    call: u64,
    text: &[u8],
) -> Result<(Status, bool), Fail> {
    let mut files = files(alloc, bytes)?;
    ends_over(alloc, words, &mut files, call, text)
}

fn ends_over(
    alloc: Global,
    words: &[String],
    files: &mut MemoryFiles,
    call: u64,
    text: &[u8],
) -> Result<(Status, bool), Fail> {
    let mut drives = drives(alloc, call)?;
    ends_writing(alloc, words, files, &mut drives, text)
}

fn ends_writing(
    alloc: Global,
    words: &[String],
    files: &mut MemoryFiles,
    drives: &mut MemoryDrives,
    text: &[u8],
) -> Result<(Status, bool), Fail> {
    let mut sink = MemorySink::new(alloc, 1024)?;
    let status = run_words(alloc, words, files, drives, &mut sink);
    Ok((status, sink.written() == text))
}

/// Each drive is attached, its size is asked, and its directory of 16 sectors is read, A before C: calls 1 to 36. After the
/// steps each is synced, and lines are closed.
#[test]
fn a_failed_call_of_a_drive_is_told(rt: HostRuntime) -> Result<(), Fail> {
    let run: &[&str] = &["run", "file", "10"];
    for call in 1..40 {
        let (ending, text): (Status, &[u8]) = match call {
            1..=36 => (Status::DiskFault { step: 0 }, b""),
            37..=38 => (Status::DiskFault { step: 10 }, PROMPT),
            _ => (Status::Ran, PROMPT),
        };
        let ended = ends(rt.alloc(), run, TWO_DRIVES, call, text)?;
        assert_eq!(rt; ended, (ending, true), "call {call}");
    }
    Ok(())
}
