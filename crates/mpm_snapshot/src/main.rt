//! Cores of a machine's processes: it saves one as a file, and runs one on by itself.
#![tactic(auto)]

mod ending;
mod lines;
mod resuming;
mod saving;
mod snapshot;
mod status;
mod words;

use crate::snapshot::snapshot_words;
use crate::status::SnapStatus;
use mpm_devices::Passage;
use mpm_host::{HeldPlaces, RealDrives, RealFiles, RealSink, WordsError, words_after_name};
use std::process::ExitCode;

/// Does what the words after the program's name ask.
fn run(rt: HostRuntime) -> SnapStatus {
    let alloc = rt.alloc();
    let words = match words_after_name(alloc, &rt) {
        Ok(words) => words,
        Err(WordsError::NotText) => return SnapStatus::Usage,
        Err(WordsError::OutOfMemory) => return SnapStatus::OutOfMemory,
    };
    let Ok(passage) = Passage::new(alloc) else {
        return SnapStatus::OutOfMemory;
    };
    let mut files = RealFiles::new(rt);
    let mut drives = RealDrives::new(rt);
    let mut sink = RealSink::new(rt.stdout(), passage, rt);
    snapshot_words(alloc, words.as_slice(), &mut files, &mut drives, &mut sink)
}

fn main(rt: HostRuntime) -> ExitCode {
    let _places = HeldPlaces::take(&rt);
    let status = run(rt);
    ending::report(&rt, status);
    ExitCode::from(ending::number(status))
}
