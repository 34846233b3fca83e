ghost use Rattle.std.specs.Prelude.{◌≡◌, ◌*◌, ◌≤◌, ◌++◌, Some, IfOk, IfErr, IfSome, OnOk, length};
ghost use Rattle.std.specs.List.{All};
ghost use Rattle.mpm_blocks.specs.Geometries.{geometry_of};
ghost use Rattle.mpm_blocks.specs.Sectors.{sectors_of};
ghost use Rattle.mpm_port.specs.Disks.{size_of};
ghost use Rattle.mpm_port.specs.Frames.{OnlyCountsFaults};
ghost use Rattle.mpm_dirent.specs.Entries.{part};
ghost use Rattle.mpm_dirent.specs.Proper.{IsProper};
ghost use Rattle.mpm_mount.specs.Directories.{IsWholeEntry};
ghost use Rattle.mpm_mount.specs.Images.{entries_of, entries_in};
ghost use Rattle.mpm_mount.specs.Mounting.{FillDirectory, CountsFault, IsDevice, IsSectorOf, ReadsEntries};

use crate::OutOfMemory;
use crate::errors::MountError;
use mpm_base::Kind;
use mpm_blocks::{geometry, place};
use mpm_dirent::{Entry, read_entry};
use mpm_port::Drives;
use std::alloc::Global;

/// Reads the directory of an attached drive whose image has the size of its kind: its entries by slot, as many as there are slots.
///
/// No fault is sought in them; `MountError::DiskFault` comes only where the device failed, and `MountError::Image` never.
pub fn read_directory<D: Drives>(
    alloc: Global,
    drives: &mut D,
    drive: u8,
    kind: Kind,
) -> Result<Vec<Entry>, MountError>
    requires { size_of (D.disks drives.old) drive ≡ Some (geometry_of kind).bytes }
    ensures entries { IfOk result (λ entries. IfSome ((D.disks drives.old).image drive) (λ image. entries.items ≡ entries_of (sectors_of image kind) kind)) }
    ensures slots { IfOk result (λ entries. FillDirectory kind entries.items) }
    ensures device { IfErr result IsDevice }
    ensures count { CountsFault (D.faults drives.old) (D.faults drives.new) result }
    ensures same { OnlyCountsFaults D.Drives drives.old drives.new }
{
    let mut entries = Vec::new(alloc);
    for sector in 0..(u32::from(geometry(kind).drm) + 1) / 4 {
        match read_sector(drives, drive, kind, sector, &mut entries) {
            Ok(()) => {}
            Err(error) => return Err(error),
        }
    }
    Ok(entries)
}

/// Reads the four entries of a sector of the directory, after those that were read.
fn read_sector<D: Drives>(
    drives: &mut D,
    drive: u8,
    kind: Kind,
    sector: u32,
    entries: &mut Vec<Entry>,
) -> Result<(), MountError>
    requires { IsSectorOf kind (size_of (D.disks drives.old) drive) sector }
    ensures { ReadsEntries D.Drives drive kind sector entries.old.items entries.new.items drives.old drives.new result }
{
    let mut bytes = [0; 128];
    match drives.read(drive, place(kind, sector), &mut bytes) {
        Ok(()) => {}
        Err(_) => return Err(MountError::DiskFault),
    }
    match push_entries(&bytes, geometry(kind).wide, entries) {
        Ok(()) => Ok(()),
        Err(_) => Err(MountError::OutOfMemory),
    }
}

/// Puts the four entries of a sector after those that are there.
fn push_entries(bytes: &[u8; 128], wide: bool, entries: &mut Vec<Entry>) -> Result<(), OutOfMemory>
    ensures entries { OnOk result (entries.new.items ≡ entries.old.items ++ entries_in bytes.now wide 4) }
    ensures proper { All (IsProper wide) entries.old.items → OnOk result (All (IsProper wide) entries.new.items) }
    ensures whole { All IsWholeEntry entries.old.items → OnOk result (All IsWholeEntry entries.new.items) }
{
    for place in 0..4 {
        entries.push(read_entry(&entry_bytes(bytes, place), wide))?;
    }
    Ok(())
}

/// The bytes of one of the four entries of a sector.
fn entry_bytes(bytes: &[u8; 128], place: usize) -> [u8; 32]
    requires { place ≤ 3 }
    ensures part { result ≡ part (32 * place) 32 bytes.now }
    ensures size { length result ≡ 32 }
{
    let mut entry = [0; 32];
    entry.copy_from_slice(&bytes[32 * place..32 * place + 32]);
    entry
}
