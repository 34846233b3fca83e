//! In which order drives are synced at the end of a run, which no contract of a device tells.
use crate::play::strings;
use crate::runs::{TWO_DRIVES, drives};
use mpm_port::{Drives, Failed, FetchError, MemoryDrives, MemoryFiles, MemorySink};
use mpm_top::{Status, run_words};
use std::test::Fail;

/// Drives over memory that note the first four that are synced.
#[derive(Drop)]
struct Noting {
    drives: MemoryDrives,
    synced: [u8; 4],
    count: usize,
}

impl Drives for Noting {
    ghost use Rattle.mpm_port.specs.MemoryDisks.{disks_of, told_of, is_unsynced, memory_agrees};

    ghost disks = { λ d. disks_of d.drives };

    ghost told = { λ d. told_of d.drives };

    ghost unsynced = { λ d. is_unsynced d.drives };

    ghost faults = { λ d. d.drives.faults };

    ghost failed_names = { λ d. d.drives.failed };

    ghost agrees = { λ d. memory_agrees d.drives };

    fn attach(&mut self, drive: u8, name: &str) -> Result<(), FetchError> {
        self.drives.attach(drive, name)
    }

    fn size(&mut self, drive: u8) -> Result<u64, Failed> {
        self.drives.size(drive)
    }

    fn read(&mut self, drive: u8, sector: u32, out: &mut [u8; 128]) -> Result<(), Failed> {
        self.drives.read(drive, sector, out)
    }

    fn write(&mut self, drive: u8, sector: u32, bytes: &[u8; 128]) -> Result<(), Failed> {
        self.drives.write(drive, sector, bytes)
    }

    fn sync(&mut self, drive: u8) -> Result<(), Failed> {
        if self.count < 4 {
            self.synced[self.count] = drive;
            self.count += 1;
        }
        self.drives.sync(drive)
    }
}

/// The machine file lists C before A.
#[test]
fn each_drive_is_synced_once_by_letter(rt: HostRuntime) -> Result<(), Fail> {
    let words = strings(rt.alloc(), &["run", "file", "10"])?;
    let mut files = MemoryFiles::new(rt.alloc());
    files.add("file", TWO_DRIVES)?;
    let mut drives = Noting {
        drives: drives(rt.alloc(), 0)?,
        synced: [0xFF; 4],
        count: 0,
    };
    let mut sink = MemorySink::new(rt.alloc(), 1024)?;
    let status = run_words(
        rt.alloc(),
        words.as_slice(),
        &mut files,
        &mut drives,
        &mut sink,
    );
    assert_eq!(rt; status, Status::Ran);
    assert_eq!(rt; drives.synced, [0, 2, 0xFF, 0xFF]);
    Ok(())
}
