//! What the devices do with a call that fails for a moment, and with files that not all systems have. All else is tried of the built programs
//! (tests/endings.py, tests/fsck.py, tests/program.py).
use crate::opening::is_without_right;
use crate::reading::append_first;
use crate::{RealDrives, RealSink};
use mpm_devices::Passage;
use mpm_port::{Drives, Failed, FetchError, Fetched, Sink};
use std::io::{self, ErrorKind, Read, Write};
use std::test::Fail;

/// Gives and takes a byte at a time, but not in each call: the first is interrupted, the next finds nothing ready, and so on.
#[derive(Drop)]
struct Halting {
    calls: u8,
    bytes: [u8; 4],
    done: usize,
}

impl Halting {
    /// Whose reads give these bytes, and whose writes take so many.
    fn new(bytes: [u8; 4]) -> Halting {
        Halting {
            calls: 0,
            bytes,
            done: 0,
        }
    }

    /// What becomes of the next call.
    fn call(&mut self, waits: bool) -> io::Result<()> {
        self.calls = self.calls.wrapping_add(1);
        match self.calls % 3 {
            1 => Err(io::Error::from(ErrorKind::Interrupted)),
            2 if waits => Err(io::Error::from(ErrorKind::WouldBlock)),
            _ => Ok(()),
        }
    }
}

impl Read for Halting {
    fn read(&mut self, buf: &mut [u8]) -> io::Result<usize> {
        self.call(false)?;
        if self.done >= self.bytes.len() || buf.is_empty() {
            return Ok(0);
        }
        buf[0] = self.bytes[self.done];
        self.done += 1;
        Ok(1)
    }
}

impl Write for Halting {
    fn write(&mut self, buf: &[u8]) -> io::Result<usize> {
        self.call(true)?;
        if buf.is_empty() {
            return Ok(0);
        }
        if self.done >= self.bytes.len() {
            return Err(io::Error::from(ErrorKind::StorageFull));
        }
        self.bytes[self.done] = buf[0];
        self.done += 1;
        Ok(1)
    }

    fn flush(&mut self) -> io::Result<()> {
        Ok(())
    }
}

#[test]
fn a_read_goes_on_where_it_was_interrupted(rt: HostRuntime) -> Result<(), Fail> {
    let mut out = Vec::new(rt.alloc());
    let mut reader = Halting::new(*b"four");
    let is_whole = append_first(&mut reader, 9, &mut out) == Ok(Fetched::Whole);
    assert!(rt; is_whole && out.as_slice() == b"four".as_slice());
    Ok(())
}

#[test]
fn a_put_goes_on_where_it_was_interrupted_or_found_no_room(rt: HostRuntime) -> Result<(), Fail> {
    let mut writer = Halting::new([0; 4]);
    let passage = Passage::new(rt.alloc())?;
    let (whole, part) = {
        let mut sink = RealSink::new(&mut writer, passage, rt);
        (sink.put(b"on"), sink.put(b"ward"))
    };
    let is_taken = writer.bytes == *b"onwa";
    assert!(rt; is_taken && whole == Ok(()) && part == Err(Failed));
    Ok(())
}

#[test]
fn there_is_no_drive_behind_p(rt: HostRuntime) {
    let mut drives = RealDrives::new(rt);
    let is_none = drives.attach(16, "/proc/self/status") == Err(FetchError::Failed);
    assert!(rt; is_none);
}

/// Whether two drives have a file that may only be read, and a write to it fails. What is written is what was read.
fn is_only_read<D: Drives>(drives: &mut D, name: &str) -> bool {
    if drives.attach(0, name) != Ok(()) || drives.attach(1, name) != Ok(()) {
        return false;
    }
    let Ok(size) = drives.size(1) else {
        return false;
    };
    if size < 128 {
        return false;
    }
    let mut sector = [0; 128];
    if drives.read(1, 0, &mut sector) != Ok(()) {
        return false;
    }
    drives.write(1, 0, &sector) == Err(Failed)
}

#[test]
fn a_file_that_may_only_be_read_takes_no_write(rt: HostRuntime) {
    // Nobody may write this one, whatever his rights.
    let mut drives = RealDrives::new(rt);
    let only_read = is_only_read(&mut drives, "/sys/kernel/notes");
    assert!(rt; only_read);
}

#[test]
fn only_a_missing_right_leaves_an_image_to_be_read(rt: HostRuntime) {
    let without_right = is_without_right(ErrorKind::PermissionDenied)
        && is_without_right(ErrorKind::ReadOnlyFilesystem);
    let otherwise = is_without_right(ErrorKind::ExecutableFileBusy)
        || is_without_right(ErrorKind::NotFound)
        || is_without_right(ErrorKind::Interrupted);
    assert!(rt; without_right && !otherwise);
}

/// Whether drive A, once it is attached to a file whose length isn't that of what was read of it, isn't synced.
fn is_of_another_length(drives: &mut RealDrives, name: &str) -> bool {
    drives.attach(0, name) == Ok(()) && drives.sync(0) == Err(Failed)
}

#[test]
fn a_file_whose_length_is_not_that_of_its_bytes_is_not_synced(rt: HostRuntime) {
    let mut drives = RealDrives::new(rt);
    let of_another = is_of_another_length(&mut drives, "/proc/self/status");
    assert!(rt; of_another);
}
