ghost use Rattle.std.specs.Prelude.{◌≡◌, ◌+◌, ◌*◌, ◌≤◌, [], Some, false, OnOk, IsFalse};
ghost use Rattle.mpm_blocks.specs.Geometries.{geometry_of};
ghost use Rattle.mpm_port.specs.Disks.{size_of};
ghost use Rattle.mpm_fault_lines.specs.Lists.{listed, listed_at};
ghost use Rattle.mpm_repair.specs.Freeing as spec;

use mpm_base::Kind;
use mpm_blocks::{geometry, place};
use mpm_fault_lines::Slots;
use mpm_port::{Drives, Failed};

/// The first byte of a free directory entry.
const FREE: u8 = 0xE5;

/// Frees some slots of the directory of an attached drive of its kind's size, sector by sector in rising order, and syncs
/// it. A sector without such a slot isn't written. Where the device fails, the slots of the first sectors are free.
pub fn free_slots<D: Drives>(
    drives: &mut D,
    drive: u8,
    kind: Kind,
    slots: &Slots,
) -> Result<(), Failed>
    requires { size_of (D.disks drives.old) drive ≡ Some (geometry_of kind).bytes }
    ensures frees { spec.FreesSlots D.Drives drive (spec.FreesOn drive kind (listed slots.now ((geometry_of kind).drm + 1))) (spec.FreesFirst drive kind slots.now) drives.old drives.new result }
    ensures synced { OnOk result (D.unsynced drives.new drive ≡ false) }
{
    match free_sectors(drives, drive, kind, slots) {
        Ok(()) => drives.sync(drive),
        Err(failed) => Err(failed),
    }
}

/// Frees them without a sync.
fn free_sectors<D: Drives>(
    drives: &mut D,
    drive: u8,
    kind: Kind,
    slots: &Slots,
) -> Result<(), Failed>
    requires { size_of (D.disks drives.old) drive ≡ Some (geometry_of kind).bytes }
    ensures { spec.FreesSlots D.Drives drive (spec.FreesOn drive kind (listed slots.now ((geometry_of kind).drm + 1))) (spec.FreesFirst drive kind slots.now) drives.old drives.new result }
{
    for sector in 0..(u32::from(geometry(kind).drm) + 1) / 4 {
        match free_sector(drives, drive, kind, sector, slots) {
            Ok(()) => {}
            Err(failed) => return Err(failed),
        }
    }
    Ok(())
}

/// Frees those of one sector of the directory, if it has any.
fn free_sector<D: Drives>(
    drives: &mut D,
    drive: u8,
    kind: Kind,
    sector: u32,
    slots: &Slots,
) -> Result<(), Failed>
    requires size { size_of (D.disks drives.old) drive ≡ Some (geometry_of kind).bytes }
    requires within { 4 * sector + 4 ≤ (geometry_of kind).drm + 1 }
    ensures { spec.FreesSlots D.Drives drive (spec.FreesOn drive kind (spec.listed_from slots.now (4 * sector) 4)) (spec.FreesPerhaps drive kind (spec.listed_from slots.now (4 * sector) 4)) drives.old drives.new result }
{
    if !has_any(slots, sector) {
        return Ok(());
    }
    let spot = place(kind, sector);
    let mut bytes = [0; 128];
    match drives.read(drive, spot, &mut bytes) {
        Ok(()) => {}
        Err(failed) => return Err(failed),
    }
    free_in(slots, sector, &mut bytes);
    drives.write(drive, spot, &bytes)
}

/// Whether a sector of the directory has such a slot.
fn has_any(slots: &Slots, sector: u32) -> bool
    requires { sector ≤ 127 }
    ensures { IsFalse result → spec.listed_from slots.now (4 * sector) 4 ≡ [] }
{
    for place in 0..4 {
        if slots.has((4 * sector + place) as u16) {
            return true;
        }
    }
    false
}

/// Frees those of a sector of the directory in its bytes.
fn free_in(slots: &Slots, sector: u32, bytes: &mut [u8; 128])
    requires { sector ≤ 127 }
    ensures { bytes.new ≡ spec.freed_within (spec.listed_from slots.now (4 * sector) 4) bytes.old }
{
    for place in 0..4 {
        free_one(slots, sector, place, bytes);
    }
}

/// Frees one of them, by its place in the sector.
#[tactic(auto, unfolding(crate::specs::Freeing::freed_within))]
fn free_one(slots: &Slots, sector: u32, place: u32, bytes: &mut [u8; 128])
    requires sector { sector ≤ 127 }
    requires place { place ≤ 3 }
    ensures { bytes.new ≡ spec.freed_within (listed_at slots.now (4 * sector + place)) bytes.old }
{
    if slots.has((4 * sector + place) as u16) {
        bytes[32 * place as usize] = FREE;
    }
}
