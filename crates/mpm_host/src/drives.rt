ghost use Rattle.std.specs.Prelude.{◌≡◌, ◌+◌, ◌*◌, ◌<◌, Some, None, true, IsSome, IsOk, OnOk, OnErr, IsTrue, ◌↔◌, length};
ghost use Rattle.mpm_port.specs.Causes.{HasCause};
ghost use Rattle.mpm_port.specs.Disks.{IsInsideDrive, size_of};
ghost use Rattle.mpm_port.specs.DriveCalls.{AnswersWrite};
ghost use Rattle.mpm_host.specs.Attached.{no_drives, held_by, disks_of, told_of, KeepsOtherImages, real_agrees, is_unsynced, after_attach, after_write, after_access};

use crate::image::Image;
use mpm_port::{Drives, Failed, FailedNames, FetchError};
use std::array;
use std::marker::Model;

/// The drives A to P, numbered from 0, over regular files of the host by their paths. The image of a drive is read as it is
/// attached, at most 8 MiB and a byte; reads are answered from memory, and each write goes to the file and then to memory. A
/// file that may be written has one drive at a time: as long as it is attached it is refused to every drive, also by another
/// name and in another run. One that may only be read is attached too, to many drives, and a write to it fails.
#[derive(Drop)]
pub struct RealDrives {
    host: HostRuntime,
    images: [Option<Image>; 16],
    unsynced: [bool; 16],
    failed: FailedNames,
    faults: u64,
}

impl Model for RealDrives {
    ghost use Rattle.std.specs.Prelude.{◌≡◌, length};
    ghost use Rattle.mpm_host.specs.Attached.{RealDisks};

    ghost Value = { RealDisks };

    ghost view = { λ d. record { held = d.images; unsynced = d.unsynced; failed = d.failed; faults = d.faults } };

    ghost invariant = { λ d. length d.images ≡ 16 };
}

impl RealDrives {
    /// No drive is attached, and no call has failed.
    pub fn new(host: HostRuntime) -> RealDrives
        ensures { result ≡ no_drives }
    {
        RealDrives {
            host,
            images: array::from_fn(|_| None),
            unsynced: [false; 16],
            failed: FailedNames::new(host.alloc()),
            faults: 0,
        }
    }

    /// The image of an attached drive.
    fn image(&self, drive: u8) -> &Image
        requires { IsSome (held_by self.now.held drive) }
        ensures held { held_by self.now.held drive ≡ Some result.now }
        ensures within { drive < 16 }
    {
        let Some(Some(image)) = self.images.get(usize::from(drive)) else {
            unreachable!();
        };
        image
    }

    /// The drive of a place is attached to an image.
    fn hold(&mut self, place: usize, image: Image)
        requires { place < 16 }
        ensures { self.new ≡ after_attach self.old place image }
    {
        self.images[place] = Some(image);
        self.unsynced[place] = false;
    }

    /// Writes a sector of an attached drive, and says whether that was done.
    fn write_image(&mut self, drive: u8, sector: u32, bytes: &[u8; 128]) -> bool
        requires { IsInsideDrive (size_of (disks_of self.old) drive) sector }
        ensures after { self.new ≡ after_write self.old drive sector bytes.now result }
        ensures unsynced { is_unsynced self.new drive ≡ true }
    {
        let place = usize::from(drive);
        self.unsynced[place] = true;
        match &mut self.images[place] {
            Some(image) => image.write(sector, bytes),
            None => unreachable!(),
        }
    }

    /// The answer of a call that is done or has failed; a failed one is counted.
    #[tactic(auto, using(mpm_port::proofs::Faults::rose))]
    fn answer(&mut self, done: bool) -> Result<(), Failed>
        ensures ok { IsOk result ↔ IsTrue done }
        ensures after { self.new ≡ after_access self.old done }
        ensures cause { HasCause self.old.faults self.new.faults result }
    {
        if done {
            return Ok(());
        }
        self.faults = self.faults.saturating_add(1);
        Err(Failed)
    }
}

impl Drives for RealDrives {
    ghost disks = { disks_of };

    ghost told = { told_of };

    ghost unsynced = { is_unsynced };

    ghost faults = { λ d. d.faults };

    ghost failed_names = { λ d. d.failed };

    ghost agrees = { real_agrees };

    fn attach(&mut self, drive: u8, name: &str) -> Result<(), FetchError> {
        let place = usize::from(drive);
        if place >= self.images.len() {
            return Err(self.failed.refuse(name));
        }
        match Image::open(&self.host, name) {
            Ok(image) => {
                self.hold(place, image);
                Ok(())
            }
            Err(FetchError::Failed) => Err(self.failed.refuse(name)),
            Err(FetchError::OutOfMemory) => Err(FetchError::OutOfMemory),
        }
    }

    fn size(&mut self, drive: u8) -> Result<u64, Failed> {
        Ok(self.image(drive).as_slice().len() as u64)
    }

    fn read(&mut self, drive: u8, sector: u32, out: &mut [u8; 128]) -> Result<(), Failed> {
        let from = 128 * sector as usize;
        out.copy_from_slice(&self.image(drive).as_slice()[from..from + 128]);
        Ok(())
    }

    /// A call that fails changes no image in memory, and one that went well none of another drive.
    #[tactic(auto, using(crate::proofs::Holding::writes, crate::proofs::Holding::writes_none, crate::proofs::Holding::writes_beside, crate::proofs::Holding::untold_still))]
    fn write(&mut self, drive: u8, sector: u32, bytes: &[u8; 128]) -> Result<(), Failed>
        requires { IsInsideDrive (size_of (disks_of self.old) drive) sector }
        ensures answers { AnswersWrite disks_of told_of is_unsynced (λ d. d.faults) (λ d. d.failed) drive sector bytes.now self.old self.new result }
        ensures unchanged { OnErr result (disks_of self.new ≡ disks_of self.old) }
        ensures beside { OnOk result (KeepsOtherImages drive (disks_of self.old) (disks_of self.new)) }
    {
        let done = self.write_image(drive, sector, bytes);
        self.answer(done)
    }

    fn sync(&mut self, drive: u8) -> Result<(), Failed> {
        let synced = self.image(drive).sync();
        if synced {
            self.unsynced[usize::from(drive)] = false;
        }
        self.answer(synced)
    }
}
