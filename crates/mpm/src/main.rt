//! MP/M II as a machine: runs what its words ask, over the host's files and drives and its standard output.
#![tactic(auto)]

mod ending;

use mpm_devices::Passage;
use mpm_host::{HeldPlaces, RealDrives, RealFiles, RealSink, WordsError, words_after_name};
use mpm_top::{Status, run_words};
use std::process::ExitCode;

/// Runs what the words after the program's name ask.
fn run(rt: HostRuntime) -> Status {
    let alloc = rt.alloc();
    let words = match words_after_name(alloc, &rt) {
        Ok(words) => words,
        Err(WordsError::NotText) => return Status::Usage,
        Err(WordsError::OutOfMemory) => return Status::OutOfMemory,
    };
    let Ok(passage) = Passage::new(alloc) else {
        return Status::OutOfMemory;
    };
    let mut files = RealFiles::new(rt);
    let mut drives = RealDrives::new(rt);
    let mut sink = RealSink::new(rt.stdout(), passage, rt);
    run_words(alloc, words.as_slice(), &mut files, &mut drives, &mut sink)
}

fn main(rt: HostRuntime) -> ExitCode {
    let _places = HeldPlaces::take(&rt);
    let status = run(rt);
    ending::report(&rt, status);
    ExitCode::from(ending::number(status))
}
