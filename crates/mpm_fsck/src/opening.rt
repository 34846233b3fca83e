ghost use Rattle.std.specs.Prelude.{◌≡◌, Some, ⊤};
ghost use Rattle.mpm_blocks.specs.Geometries.{geometry_of};
ghost use Rattle.mpm_port.specs.Disks.{size_of};
ghost use Rattle.mpm_fsck.specs.Outside.{drives_seen};
ghost use Rattle.mpm_fsck.specs.Steps.{Opens};
ghost use Rattle.mpm_fsck.specs.Parts.{ReadsImageEntries};

use crate::status::FsckStatus;
use mpm_base::Kind;
use mpm_blocks::geometry;
use mpm_dirent::Entry;
use mpm_mount::{MountError, read_directory};
use mpm_port::{Drives, FetchError};
use std::alloc::Global;

/// Attaches drive A to the image of a name, which has to have the size of its kind.
pub(crate) fn open<D: Drives>(kind: Kind, name: &str, drives: &mut D) -> Result<(), FsckStatus>
    ensures { Opens kind name.now (drives_seen D.Drives drives.old) (drives_seen D.Drives drives.new) (λ _ image. ⊤) result }
{
    match drives.attach(0, name) {
        Ok(()) => {}
        Err(FetchError::Failed) => return Err(FsckStatus::DiskFault),
        Err(FetchError::OutOfMemory) => return Err(FsckStatus::OutOfMemory),
    }
    match drives.size(0) {
        Err(_) => Err(FsckStatus::DiskFault),
        Ok(bytes) if bytes == u64::from(geometry(kind).bytes) => Ok(()),
        Ok(_) => Err(FsckStatus::WrongSize),
    }
}

/// Reads the directory of drive A, whose image has the size of its kind.
pub(crate) fn read<D: Drives>(
    alloc: Global,
    kind: Kind,
    drives: &mut D,
) -> Result<Vec<Entry>, FsckStatus>
    requires { size_of (D.disks drives.old) 0 ≡ Some (geometry_of kind).bytes }
    ensures { ReadsImageEntries D.Drives kind drives.old drives.new result }
{
    match read_directory(alloc, drives, 0, kind) {
        Ok(entries) => Ok(entries),
        Err(MountError::DiskFault) => Err(FsckStatus::DiskFault),
        Err(_) => Err(FsckStatus::OutOfMemory),
    }
}
