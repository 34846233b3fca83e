//! A checker of the images of disks: it lists what keeps one from mounting, and frees directory entries by such a list.
#![tactic(auto)]

mod checking;
mod ending;
mod fsck;
mod mending;
mod opening;
mod status;
mod words;

use crate::fsck::fsck_words;
use crate::status::FsckStatus;
use mpm_devices::Passage;
use mpm_host::{HeldPlaces, RealDrives, RealFiles, RealSink, WordsError, words_after_name};
use std::process::ExitCode;

/// No memory was found: the allocator's own error.
pub use std::alloc::AllocError as OutOfMemory;

/// Does what the words after the program's name ask.
fn run(rt: HostRuntime) -> FsckStatus {
    let alloc = rt.alloc();
    let words = match words_after_name(alloc, &rt) {
        Ok(words) => words,
        Err(WordsError::NotText) => return FsckStatus::Usage,
        Err(WordsError::OutOfMemory) => return FsckStatus::OutOfMemory,
    };
    let Ok(passage) = Passage::new(alloc) else {
        return FsckStatus::OutOfMemory;
    };
    let mut files = RealFiles::new(rt);
    let mut drives = RealDrives::new(rt);
    let mut sink = RealSink::new(rt.stdout(), passage, rt);
    fsck_words(alloc, words.as_slice(), &mut files, &mut drives, &mut sink)
}

fn main(rt: HostRuntime) -> ExitCode {
    let _places = HeldPlaces::take(&rt);
    let status = run(rt);
    ending::report(&rt, status);
    ExitCode::from(ending::number(status))
}

#[cfg(test)]
mod tests;
