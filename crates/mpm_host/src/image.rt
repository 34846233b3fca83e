ghost use Rattle.std.specs.Prelude.{◌≡◌, ◌+◌, ◌*◌, ◌≤◌, IfOk, length};
ghost use Rattle.mpm_host.specs.Attached.{held_after};

use crate::opening::open_regular;
use crate::reading::append_first;
use mpm_port::{Bytes, FetchError};
use std::fs::File;
use std::marker::Model;
use std::os::unix::fs::FileExt;

/// How many bytes of a file are read: one more than the largest image has. No kind of disk is of that size, so that a larger
/// file is no image.
const MOST: usize = 8_388_609;

/// An open file of the host, the name that it was opened by, and the image that it holds: its bytes as they were read, with what
/// was written to it since.
#[derive(Drop)]
pub(crate) struct Image {
    file: File,
    name: Bytes,
    bytes: Bytes,
}

impl Model for Image {
    ghost use Rattle.mpm_host.specs.Attached.{Held};

    ghost Value = { Held };

    ghost view = { λ i. record { name = i.name; bytes = i.bytes } };
}

impl Image {
    /// Opens the regular file of that name, and reads it.
    pub(crate) fn open(host: &HostRuntime, name: &str) -> Result<Image, FetchError>
        ensures { IfOk result (λ image. image.name ≡ name.now) }
    {
        let Ok(mut file) = open_regular(host, name) else {
            return Err(FetchError::Failed);
        };
        let Ok(name) = Bytes::copy(host.alloc(), name.as_bytes()) else {
            return Err(FetchError::OutOfMemory);
        };
        let Ok(mut bytes) = Vec::with_capacity(host.alloc(), length_of(&file)) else {
            return Err(FetchError::OutOfMemory);
        };
        match append_first(&mut file, MOST, &mut bytes) {
            Ok(_) => Ok(Image {
                file,
                name,
                bytes: Bytes::of(bytes),
            }),
            Err(error) => Err(error),
        }
    }

    /// The bytes of the image.
    pub(crate) fn as_slice(&self) -> &[u8]
        ensures { result.now ≡ self.now.bytes }
    {
        self.bytes.as_slice()
    }

    /// Writes a sector to the file, and then into the image where that was done, and says whether it was.
    pub(crate) fn write(&mut self, sector: u32, bytes: &[u8; 128]) -> bool
        requires { 128 * sector + 128 ≤ length self.old.bytes }
        ensures { self.new ≡ held_after self.old sector bytes.now result }
    {
        let from = 128 * sector as usize;
        let before = &self.bytes.as_slice()[from..from + 128];
        if !write_or_restore(&self.file, from as u64, bytes, before) {
            return false;
        }
        self.bytes.write_sector(sector, bytes);
        true
    }

    /// Brings the file to where it stays, and says whether that was done. It is not done where the file has another length than
    /// the image, as where it was cut short from outside.
    pub(crate) fn sync(&self) -> bool {
        length_of(&self.file) == self.bytes.as_slice().len() && self.file.sync_all().is_ok()
    }
}

/// The length of a file as far as it is read, and 0 where the system doesn't tell it.
fn length_of(file: &File) -> usize {
    match file.metadata() {
        Ok(metadata) => metadata.len().min(MOST as u64) as usize,
        Err(_) => 0,
    }
}

/// Writes bytes at a place of a file, and says whether that was done. The system may have taken a part of them where it was not,
/// so that what was there is written back, as far as it takes it.
pub(crate) fn write_or_restore<F: FileExt>(
    file: &F,
    place: u64,
    bytes: &[u8],
    before: &[u8],
) -> bool {
    if file.write_all_at(bytes, place).is_ok() {
        return true;
    }
    let _ = file.write_all_at(before, place);
    false
}
