ghost use Rattle.std.specs.Prelude.{◌≡◌, [], ◌∷◌};
ghost use Rattle.mpm_blocks.specs.Sectors.{Sectors};
ghost use Rattle.mpm_mount.specs.Drives.{Drive};
ghost use Rattle.mpm_mount.specs.Changes.{exchanged};
ghost use Rattle.mpm_mount.specs.Directories.{entry_in, with_entry};
ghost use Rattle.mpm_files.specs.Lookups.{IsSoundDirectory};
ghost use Rattle.mpm_files.specs.Standing.{exchanged_in};
ghost use Rattle.mpm_files.specs.DiskParts.{MayPutEntry, MayPutEntries, GoesByDisk};

use mpm_base::Steps;
use mpm_cache::Cache;
use mpm_dirent::Entry;
use mpm_mount::Mounted;
use mpm_port::{Drives, Failed};
use mpm_sectors::{Disk, SlotEntry};
use std::sync::ledger::Ledger;

/// The disk of a mounted drive.
pub(crate) fn disk_of(mounted: &Mounted) -> Disk
    ensures disk { result ≡ record { drive = mounted.now.drive; kind = mounted.now.kind } }
    ensures sound { IsSoundDirectory mounted.now }
{
    Disk {
        drive: mounted.drive(),
        kind: mounted.kind(),
    }
}

/// Puts a directory entry in the place of another: on the disk, and where that went well in the directory in memory.
#[tactic(auto, using(mpm_sectors::proofs::LeavesLaws::few_slot_calls))]
pub(crate) fn put_entry<D: Drives, L: Ledger>(
    mounted: &mut Mounted,
    cache: &mut Cache,
    drives: &mut D,
    slot: u16,
    entry: &Entry,
    steps: &mut Steps<L>,
) -> Result<(), Failed>
    requires { MayPutEntry (D.disks drives.old) mounted.old cache.old slot entry.now }
    ensures { GoesByDisk D.Drives 2 mounted.old mounted.new cache.old cache.new drives.old drives.new steps.old steps.new (λ image files goes. goes (exchanged_in image mounted.old files slot entry.now ∷ [])) result }
{
    let disk = disk_of(mounted);
    match disk.put_slot(cache, drives, slot, entry, steps) {
        Ok(()) => {
            mounted.put(slot, *entry);
            Ok(())
        }
        Err(failed) => Err(failed),
    }
}

/// Puts two directory entries of one sector in the place of others, by one write.
#[tactic(auto, using(crate::proofs::EntryPuts::beside_within, mpm_sectors::proofs::LeavesLaws::few_slot_calls))]
pub(crate) fn put_entries<D: Drives, L: Ledger>(
    mounted: &mut Mounted,
    cache: &mut Cache,
    drives: &mut D,
    first: &SlotEntry,
    second: &SlotEntry,
    steps: &mut Steps<L>,
) -> Result<(), Failed>
    requires { MayPutEntries (D.disks drives.old) mounted.old cache.old first.now second.now }
    ensures { GoesByDisk D.Drives 2 mounted.old mounted.new cache.old cache.new drives.old drives.new steps.old steps.new (λ image files goes. (last : Drive)
        → ((sectors : Sectors) → exchanged sectors (exchanged_in image mounted.old files first.now.slot first.now.entry) (entry_in (with_entry mounted.old first.now.slot first.now.entry) second.now.slot) second.now.entry ≡ last)
        → goes (exchanged_in image mounted.old files first.now.slot first.now.entry ∷ last ∷ [])) result }
{
    let disk = disk_of(mounted);
    match disk.put_slots(cache, drives, first, second, steps) {
        Ok(()) => {
            mounted.put(first.slot, first.entry);
            mounted.put(second.slot, second.entry);
            Ok(())
        }
        Err(failed) => Err(failed),
    }
}
