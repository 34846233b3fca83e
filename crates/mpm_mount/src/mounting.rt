ghost use Rattle.std.specs.Prelude.{IsSome};
ghost use Rattle.mpm_port.specs.Disks.{size_of};
ghost use Rattle.mpm_mount.specs.Mounting.{FillDirectory, Mounts, ChecksSize, MountsEntries};

use crate::directory::Mounted;
use crate::errors::MountError;
use crate::faults::first_fault;
use crate::reading::read_directory;
use mpm_base::Kind;
use mpm_blocks::{BlockMap, geometry};
use mpm_dirent::Entry;
use mpm_port::Drives;
use std::alloc::Global;

/// Mounts an attached drive of a kind.
///
/// `MountError::Image` comes exactly where the image has that first fault, `MountError::DiskFault` only where the device
/// failed.
pub fn mount<D: Drives>(
    alloc: Global,
    drives: &mut D,
    drive: u8,
    kind: Kind,
) -> Result<Mounted, MountError>
    requires { IsSome (size_of (D.disks drives.old) drive) }
    ensures { Mounts D.Drives drive kind drives.old drives.new result }
{
    match check_size(drives, drive, kind) {
        Ok(()) => {}
        Err(error) => return Err(error),
    }
    match read_directory(alloc, drives, drive, kind) {
        Ok(entries) => mount_entries(alloc, drive, kind, entries),
        Err(error) => Err(error),
    }
}

/// Whether an attached drive has the size of its kind.
fn check_size<D: Drives>(drives: &mut D, drive: u8, kind: Kind) -> Result<(), MountError>
    requires { IsSome (size_of (D.disks drives.old) drive) }
    ensures { ChecksSize D.Drives drive kind drives.old drives.new result }
{
    match drives.size(drive) {
        Err(_) => Err(MountError::DiskFault),
        Ok(bytes) if bytes == u64::from(geometry(kind).bytes) => Ok(()),
        Ok(_) => Err(MountError::Image { cause: 1, place: 0 }),
    }
}

/// The directory of these entries, by slot, or its first fault.
pub fn mount_entries(
    alloc: Global,
    drive: u8,
    kind: Kind,
    entries: Vec<Entry>,
) -> Result<Mounted, MountError>
    requires { FillDirectory kind entries.items }
    ensures { MountsEntries drive kind entries.items result }
{
    let mut blocks = match BlockMap::new(alloc, kind) {
        Ok(blocks) => blocks,
        Err(_) => return Err(MountError::OutOfMemory),
    };
    match first_fault(kind, entries.as_slice(), &mut blocks) {
        Some(fault) => Err(MountError::Image {
            cause: fault.cause,
            place: fault.place,
        }),
        None => Ok(Mounted::of(drive, kind, entries, blocks)),
    }
}
