//! Two floppy disks in memory, as the drives A and B, one of which may fail where it is written.
ghost use Rattle.std.specs.Prelude.{◌≡◌, ◌≤◌, ◌<◌, ℕ, List, IsSome, IfOk, OnOk};
ghost use Rattle.mpm_port.specs.Causes.{Rose, HasCause};
ghost use Rattle.mpm_port.specs.Disks.{size_of};
ghost use Rattle.mpm_port.specs.MemoryDisks.{IsFree, disks_of};
ghost use Rattle.mpm_directories.specs.Places.{AreInPlace};
ghost use Rattle.mpm_file_scenes.specs.Floppies.{AreTwo, IsFloppy, AreFloppies};

use mpm_base::Kind;
use mpm_bdos::in_places;
use mpm_images::{EntryBytes, guard, image, named, with};
use mpm_mount::{Mounted, mount};
use mpm_port::{Drives, Failed, FetchError, MemoryDrives};
use std::alloc::Global;
use std::test::Fail;

/// A disk with a label by which passwords hold and that has one itself, and with the files A; G, guarded against reading; P,
/// read-only by T1' and guarded; and R, read-only.
pub fn small_disk() -> [EntryBytes; 7] {
    [
        guard(32, b'L', 0x81),
        named(0, b'A'),
        named(0, b'G'),
        guard(16, b'G', 0x80),
        with(named(0, b'P'), 9, b'T' + 128),
        guard(16, b'P', 0x80),
        with(named(0, b'R'), 9, b'T' + 128),
    ]
}

/// The name of a file of the full disk, by its slot. That of slot 0 is A.TXT.
pub(crate) fn name_of_slot(slot: u8) -> [u8; 11] {
    let mut name = *b"A       TXT";
    name[1] = b' ' + slot % 26;
    name[2] = b' ' + slot / 26 % 3;
    name
}

/// A disk whose 64 directory entries are files, and without a label.
pub fn full_disk() -> [EntryBytes; 64] {
    let mut entries = [named(0, b'A'); 64];
    for (slot, entry) in entries.iter_mut().enumerate() {
        entry[1..12].copy_from_slice(&name_of_slot((slot % 64) as u8));
    }
    entries
}

/// The two disks, which drive fails in each call that writes to it, if one does, and the drives that were written and not synced.
#[derive(Drop)]
pub(crate) struct Floppies {
    pub(crate) drives: MemoryDrives,
    failing: Option<u8>,
    unsynced: [bool; 256],
    faults: u64,
}

/// A count of faults with one more.
#[tactic(auto, using(mpm_port::proofs::Faults::rose))]
fn one_more_fault(faults: u64) -> u64
    ensures rose { Rose faults result }
    ensures later { faults ≤ result }
{
    faults.saturating_add(1)
}

/// The answer of a call, which is counted where the drive failed.
fn counted<T>(faults: &mut u64, answer: Result<T, Failed>) -> Result<T, Failed>
    ensures same { result ≡ answer }
    ensures cause { HasCause faults.old faults.new result }
{
    match answer {
        Ok(value) => Ok(value),
        Err(Failed) => {
            *faults = one_more_fault(*faults);
            Err(Failed)
        }
    }
}

impl Drives for Floppies {
    ghost use Rattle.std.specs.Prelude.{false, slice_index_or};
    ghost use Rattle.mpm_port.specs.MemoryDisks.{disks_of, told_of, memory_agrees};

    ghost disks = { λ d. disks_of d.drives };

    ghost told = { λ d. told_of d.drives };

    ghost unsynced = { λ d drive. slice_index_or d.unsynced drive false };

    ghost faults = { λ d. d.faults };

    ghost failed_names = { λ d. d.drives.failed };

    ghost agrees = { λ d. memory_agrees d.drives };

    fn attach(&mut self, drive: u8, name: &str) -> Result<(), FetchError> {
        match self.drives.attach(drive, name) {
            Ok(()) => {
                self.unsynced[usize::from(drive)] = false;
                Ok(())
            }
            Err(error) => Err(error),
        }
    }

    fn size(&mut self, drive: u8) -> Result<u64, Failed> {
        counted(&mut self.faults, self.drives.size(drive))
    }

    fn read(&mut self, drive: u8, sector: u32, out: &mut [u8; 128]) -> Result<(), Failed> {
        counted(&mut self.faults, self.drives.read(drive, sector, out))
    }

    fn write(&mut self, drive: u8, sector: u32, bytes: &[u8; 128]) -> Result<(), Failed> {
        self.unsynced[usize::from(drive)] = true;
        if self.failing == Some(drive) {
            return counted(&mut self.faults, Err(Failed));
        }
        counted(&mut self.faults, self.drives.write(drive, sector, bytes))
    }

    fn sync(&mut self, drive: u8) -> Result<(), Failed> {
        match counted(&mut self.faults, self.drives.sync(drive)) {
            Ok(()) => {
                self.unsynced[usize::from(drive)] = false;
                Ok(())
            }
            Err(Failed) => Err(Failed),
        }
    }
}

/// Adds the images of drives A and B, with these entries.
fn add_both(
    alloc: Global,
    drives: &mut MemoryDrives,
    a: &[EntryBytes],
    b: &[EntryBytes],
) -> Result<(), Fail>
    requires { (name : List ℕ) → IsFree drives.old name }
{
    let a = image(alloc, Kind::Ibm3740, a)?;
    let b = image(alloc, Kind::Ibm3740, b)?;
    drives.add("a", a.as_slice())?;
    drives.add("b", b.as_slice())?;
    Ok(())
}

/// Two disks with these entries, and the drive that fails, if one does.
pub(crate) fn two_disks(
    alloc: Global,
    a: &[EntryBytes],
    b: &[EntryBytes],
    failing: Option<u8>,
) -> Result<Floppies, Fail> {
    let mut drives = MemoryDrives::new(alloc);
    add_both(alloc, &mut drives, a, b)?;
    Ok(Floppies {
        drives,
        failing,
        unsynced: [false; 256],
        faults: 0,
    })
}

/// Attaches drives A and B to them.
fn attach_both(drives: &mut Floppies) -> Result<(), Fail>
    ensures { OnOk result (AreTwo (disks_of drives.new.drives)) }
{
    match (drives.attach(0, "a"), drives.attach(1, "b")) {
        (Ok(()), Ok(())) => Ok(()),
        _ => Err(Fail::from("a drive isn't attached")),
    }
}

/// The directory of one of them.
fn mounted_drive(alloc: Global, drives: &mut Floppies, number: u8) -> Result<Mounted, Fail>
    requires some { IsSome (size_of (disks_of drives.old.drives) number) }
    requires low { number < 2 }
    ensures floppy { IfOk result (λ mounted. IsFloppy (disks_of drives.old.drives) number mounted) }
    ensures same { disks_of drives.new.drives ≡ disks_of drives.old.drives }
{
    match mount(alloc, drives, number, Kind::Ibm3740) {
        Ok(mounted) => Ok(mounted),
        Err(_) => Err(Fail::from("an image doesn't mount")),
    }
}

/// Both, mounted.
fn mounted_places(alloc: Global, drives: &mut Floppies) -> Result<Vec<Option<Mounted>>, Fail>
    requires { AreTwo (disks_of drives.old.drives) }
    ensures floppies { IfOk result (λ places. AreFloppies (disks_of drives.new.drives) places.items) }
    ensures same { disks_of drives.new.drives ≡ disks_of drives.old.drives }
    ensures placed { IfOk result (λ places. AreInPlace places.items) }
{
    let a = mounted_drive(alloc, drives, 0)?;
    let b = mounted_drive(alloc, drives, 1)?;
    let mut mounted = Vec::new(alloc);
    mounted.push(b)?;
    mounted.push(a)?;
    Ok(in_places(alloc, mounted)?)
}

/// Both, attached and mounted, with whatever is on them.
pub(crate) fn attached_places(
    alloc: Global,
    drives: &mut Floppies,
) -> Result<Vec<Option<Mounted>>, Fail>
    ensures two { OnOk result (AreTwo (disks_of drives.new.drives)) }
    ensures floppies { IfOk result (λ places. AreFloppies (disks_of drives.new.drives) places.items) }
    ensures placed { IfOk result (λ places. AreInPlace places.items) }
{
    attach_both(drives)?;
    mounted_places(alloc, drives)
}
