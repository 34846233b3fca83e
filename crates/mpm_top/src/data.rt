ghost use Rattle.std.specs.Prelude.{◌≡◌, ◌<◌, ◌+◌, ℕ, List, Option, Some, IfSome, option_map};
ghost use Rattle.mpm_base.specs.declared.kind.Kind.TheVariants.{Hd4};
ghost use Rattle.mpm_port.specs.Disks.{size_of, sector_of as sector_said};
ghost use Rattle.mpm_port.specs.MemoryDisks.{disks_of};
ghost use Rattle.mpm_mount.specs.Drives.{Drive, visible_of};
ghost use Rattle.mpm_mount.specs.Directories.{Stands};
ghost use Rattle.mpm_directories.specs.Places.{directory_at};
ghost use Rattle.mpm_top.specs.Data.{HasDriveA, data_file, data_of, data_on, sector_in as sector_within, MayReadData};
ghost use Rattle.mpm_top.specs.RunParts.{HasHd4A, WeighsRecord, ReadsFirst, ReadsSectorOfA};

use mpm_devices::SteadyDrives;
use mpm_dirent::{Entry, FileEntry};
use mpm_machine::Machine;
use mpm_mount::Mounted;
use mpm_port::Drives;

/// The file whose records are summed.
const NAME: [u8; 11] = *b"DATA    DAT";

/// The sum over the first 32 records of DATA.DAT of user 0 on drive A, an `hd4` disk, counted from 1: that number times the
/// record's first byte. A record that isn't there counts as 0. The machine has the drive mounted.
pub(crate) fn data_sum(machine: &Machine, drives: &mut SteadyDrives) -> u64
    requires { HasHd4A (disks_of drives.old) machine.now.bdos.mounted }
    ensures { (on : List (Option Drive)) → HasDriveA (disks_of drives.old) (directory_at machine.now.bdos.mounted 0) on → result ≡ data_on on }
{
    match machine.directory(0) {
        Some(mounted) => sum_of(mounted, drives),
        None => unreachable!(),
    }
}

/// The sum over those records of a mounted drive A.
fn sum_of(mounted: &Mounted, drives: &mut SteadyDrives) -> u64
    requires size { size_of (disks_of drives.old) 0 ≡ Some 4194304 }
    requires kind { mounted.now.kind ≡ Hd4 }
    ensures { (image : List ℕ) (files : Drive) → (disks_of drives.old).image 0 ≡ Some image → Stands image mounted.now files
        → result ≡ data_of files }
{
    let mut sum: u64 = 0;
    for place in 0..32 {
        sum += weighed(mounted, place, drives);
    }
    sum
}

/// A record's part of the sum.
fn weighed(mounted: &Mounted, place: u8, drives: &mut SteadyDrives) -> u64
    requires { MayReadData (disks_of drives.old) mounted.now place }
    ensures { WeighsRecord (disks_of drives.old) (disks_of drives.new) mounted.now place result }
{
    (u64::from(place) + 1) * u64::from(first_byte(mounted, place, drives))
}

/// The first byte of a record, 0 where it isn't there.
fn first_byte(mounted: &Mounted, place: u8, drives: &mut SteadyDrives) -> u8
    requires { MayReadData (disks_of drives.old) mounted.now place }
    ensures { ReadsFirst (disks_of drives.old) (disks_of drives.new) mounted.now place result }
{
    match sector_of(mounted, place) {
        Some(sector) => {
            let bytes = sector_at(sector, drives);
            bytes[0]
        }
        None => 0,
    }
}

/// The sector of a record that is there.
#[tactic(auto, using(mpm_mount::proofs::Positions::slot_within))]
fn sector_of(mounted: &Mounted, place: u8) -> Option<u32>
    requires kind { mounted.now.kind ≡ Hd4 }
    requires place { place < 32 }
    ensures record { (image : List ℕ) (files : Drive) → Stands image mounted.now files
        → visible_of files data_file place ≡ option_map (sector_said image) result }
    ensures within { IfSome result (λ sector. sector < 32768) }
{
    mounted.recall_directory();
    match mounted.extent(0, &NAME, 0) {
        Some(slot) => match mounted.entry(slot) {
            Entry::File { file } => sector_in(file, place),
            Entry::Free => None,
            Entry::Xfcb { .. } => None,
            Entry::Label { .. } => None,
            Entry::Kept { .. } => None,
        },
        None => None,
    }
}

/// The sector of a record, where the entry of its file's extent 0 has it.
fn sector_in(file: &FileEntry, place: u8) -> Option<u32>
    requires { place < 32 }
    ensures { result ≡ sector_within place file.now }
{
    let block = file.blocks[usize::from(place / 16)];
    if place < file.rc && block != 0 {
        Some(16 * u32::from(block) + u32::from(place % 16))
    } else {
        None
    }
}

/// A sector of the drive.
fn sector_at(sector: u32, drives: &mut SteadyDrives) -> [u8; 128]
    requires size { size_of (disks_of drives.old) 0 ≡ Some 4194304 }
    requires sector { sector < 32768 }
    ensures { ReadsSectorOfA (disks_of drives.old) (disks_of drives.new) sector result }
{
    let mut bytes = [0; 128];
    match drives.read(0, sector, &mut bytes) {
        Ok(()) => bytes,
        Err(_) => unreachable!(),
    }
}
