//! What is read of a drive in memory, and written to it, by the place of a record: the image `a.img`, to which drive 0 is attached for
//! that. Each read or write is so three calls of the drives: numbers of calls that are to fail count them all.
ghost use Rattle.std.specs.Bool.{OnTrue};
ghost use Rattle.mpm_port.specs.Disks.{IsInsideDrive, size_of};
ghost use Rattle.mpm_port.specs.MemoryDisks.{disks_of};

use crate::place;
use mpm_base::Kind;
use mpm_port::{Drives, MemoryDrives};

/// Attaches the image: whether it has a sector.
#[tactic(auto, unfolding(mpm_port::specs::MemoryDisks::after_access))]
fn has_sector(drives: &mut MemoryDrives, sector: u32) -> bool
    ensures { OnTrue result (IsInsideDrive (size_of (disks_of drives.new) 0) sector) }
{
    if drives.attach(0, "a.img") != Ok(()) {
        return false;
    }
    let Ok(size) = drives.size(0) else {
        return false;
    };
    128 * u64::from(sector) + 128 <= size
}

/// The bytes of a record that is counted after the system's tracks, if the image has it.
pub fn read_record(drives: &mut MemoryDrives, kind: Kind, number: u32) -> Option<[u8; 128]> {
    let sector = place(kind, number);
    let mut bytes = [0; 128];
    if has_sector(drives, sector) && drives.read(0, sector, &mut bytes) == Ok(()) {
        Some(bytes)
    } else {
        None
    }
}

/// Writes such a record: whether the image has it.
pub fn is_written(drives: &mut MemoryDrives, kind: Kind, number: u32, bytes: &[u8; 128]) -> bool {
    let sector = place(kind, number);
    has_sector(drives, sector) && drives.write(0, sector, bytes) == Ok(())
}
