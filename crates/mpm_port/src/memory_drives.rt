ghost use Rattle.std.specs.Prelude.{◌≡◌, ◌≢◌, ◌↔◌, ℕ, List, Some, IsSome, OnOk, OnErr, is_ok, IsErr, IsTrue, if◌then◌else◌};
ghost use Rattle.mpm_port.specs.Calls.{next_is_listed};
ghost use Rattle.mpm_port.specs.Causes.{FailsWhere};
ghost use Rattle.mpm_port.specs.Disks.{IsInsideDrive, size_of};
ghost use Rattle.mpm_port.specs.DriveCalls.{AnswersAttach, AnswersSize, AnswersRead, AnswersWrite, AnswersSync};
ghost use Rattle.mpm_port.specs.MemoryDisks.{no_disks, disks_of, told_of, is_unsynced, IsFree, with_image, listing_call, attach_fails, after_attach, after_access, BeginsAccess, after_write, after_sync, memory_agrees};
ghost use Rattle.mpm_port.specs.Named.{contents_of};

use crate::calls::Schedule;
use crate::links::Links;
use crate::named::{FailedNames, Shelf};
use crate::{Drives, Failed, FetchError, OutOfMemory};
use std::alloc::Global;
use std::marker::Model;

/// Drives whose images are kept in memory.
///
/// A call fails exactly where its number is listed or, in `attach`, no image has the name; a `write` that fails has
/// written nothing. An `attach` may lack memory for the drive, or for the failed name.
#[derive(Drop)]
pub struct MemoryDrives {
    images: Shelf,
    links: Links,
    failed: FailedNames,
    calls: Schedule,
    faults: u64,
    unsynced: [bool; 256],
}

impl Model for MemoryDrives {
    ghost use Rattle.mpm_port.specs.MemoryDisks.{MemoryDisks};

    ghost Value = { MemoryDisks };

    ghost view = { λ d. record { images = d.images; links = d.links; failed = d.failed; calls = d.calls; faults = d.faults; unsynced = d.unsynced } };
}

impl MemoryDrives {
    /// No image is there, no drive is attached, and no call is to fail.
    #[tactic(auto, using(crate::proofs::Shelves::no_name), unfolding(crate::specs::MemoryDisks::none_unsynced))]
    pub fn new(alloc: Global) -> MemoryDrives
        ensures empty { result ≡ no_disks }
        ensures free { (name : List ℕ) → IsFree result name }
    {
        MemoryDrives {
            images: Shelf::new(alloc),
            links: Links::new(alloc),
            failed: FailedNames::new(alloc),
            calls: Schedule::new(alloc),
            faults: 0,
            unsynced: [false; 256],
        }
    }

    /// Adds an image, or replaces one that is there, to which no drive may be attached.
    #[tactic(auto, using(crate::proofs::Shelves::contents_of_here, crate::proofs::Shelves::contents_of_other))]
    pub fn add(&mut self, name: &str, bytes: &[u8]) -> Result<(), OutOfMemory>
        requires { IsFree self.old name.now }
        ensures after { self.new ≡ (if is_ok result then with_image self.old name.now bytes.now else self.old) }
        ensures here { OnOk result (contents_of self.new.images name.now ≡ Some bytes.now) }
        ensures others { (other : List ℕ) → other ≢ name.now → contents_of self.new.images other ≡ contents_of self.old.images other }
        ensures sizes { (drive : ℕ) → size_of (disks_of self.new) drive ≡ size_of (disks_of self.old) drive }
    {
        self.images.set(name.as_bytes(), bytes)
    }

    /// Lists a call of `Drives` that is to fail, by its number, counted from 1.
    pub fn fail_at(&mut self, call: u64) -> Result<(), OutOfMemory>
        ensures { self.new ≡ (if is_ok result then listing_call self.old call else self.old) }
    {
        self.calls.fail_at(call)
    }

    /// Counts a call, and says whether it is to fail; where it is, a fault is counted too.
    #[tactic(auto, using(crate::proofs::Faults::rose), unfolding(crate::specs::MemoryDisks::after_access))]
    fn is_failing(&mut self) -> bool
        ensures { BeginsAccess self.old self.new result }
    {
        let listed = self.calls.begin();
        if listed {
            self.faults = self.faults.saturating_add(1);
        }
        listed
    }

    /// The image of an attached drive.
    fn image(&self, drive: u8) -> &[u8]
        requires { IsSome (size_of (disks_of self.now) drive) }
        ensures { (disks_of self.now).image drive ≡ Some result.now }
    {
        let Some(name) = self.links.name(drive) else {
            unreachable!();
        };
        let Some(image) = self.images.get(name) else {
            unreachable!();
        };
        image
    }
}

impl Drives for MemoryDrives {
    ghost disks = { disks_of };

    ghost told = { told_of };

    ghost unsynced = { is_unsynced };

    ghost faults = { λ d. d.faults };

    ghost failed_names = { λ d. d.failed };

    ghost agrees = { memory_agrees };

    #[tactic(auto, using(crate::proofs::Attached::attaches, crate::proofs::Shelves::name_of_other, crate::proofs::Flags::flag_here, crate::proofs::Flags::flag_other), unfolding(crate::specs::MemoryDisks::after_attach, crate::specs::MemoryDisks::attach_fails))]
    fn attach(&mut self, drive: u8, name: &str) -> Result<(), FetchError>
        ensures after { self.new ≡ after_attach self.old drive name.now result }
        ensures cause { FailsWhere (attach_fails self.old name.now) result }
        ensures answers { AnswersAttach disks_of told_of is_unsynced (λ d. d.faults) (λ d. d.failed) drive name.now self.old self.new result }
    {
        let listed = self.calls.begin();
        if listed || self.images.get(name.as_bytes()).is_none() {
            return Err(self.failed.refuse(name));
        }
        match self.links.set(drive, name.as_bytes()) {
            Ok(()) => {
                self.unsynced[usize::from(drive)] = false;
                Ok(())
            }
            Err(_) => Err(FetchError::OutOfMemory),
        }
    }

    fn size(&mut self, drive: u8) -> Result<u64, Failed>
        requires { IsSome (size_of (disks_of self.old) drive) }
        ensures after { self.new ≡ after_access self.old }
        ensures fails { IsErr result ↔ IsTrue (next_is_listed self.old.calls) }
        ensures answers { AnswersSize disks_of told_of is_unsynced (λ d. d.faults) (λ d. d.failed) drive self.old self.new result }
    {
        if self.is_failing() {
            return Err(Failed);
        }
        Ok(self.image(drive).len() as u64)
    }

    fn read(&mut self, drive: u8, sector: u32, out: &mut [u8; 128]) -> Result<(), Failed>
        requires { IsInsideDrive (size_of (disks_of self.old) drive) sector }
        ensures after { self.new ≡ after_access self.old }
        ensures fails { IsErr result ↔ IsTrue (next_is_listed self.old.calls) }
        ensures err { OnErr result (out.new ≡ out.old) }
        ensures answers { AnswersRead disks_of told_of is_unsynced (λ d. d.faults) (λ d. d.failed) drive sector out.new self.old self.new result }
    {
        if self.is_failing() {
            return Err(Failed);
        }
        let from = 128 * sector as usize;
        out.copy_from_slice(&self.image(drive)[from..from + 128]);
        Ok(())
    }

    #[tactic(auto, using(crate::proofs::Attached::told_same, crate::proofs::Flags::flag_here, crate::proofs::Flags::flag_other), unfolding(crate::specs::MemoryDisks::after_write, crate::specs::MemoryDisks::after_access, crate::specs::MemoryDisks::images_with_sector))]
    fn write(&mut self, drive: u8, sector: u32, bytes: &[u8; 128]) -> Result<(), Failed>
        requires { IsInsideDrive (size_of (disks_of self.old) drive) sector }
        ensures after { self.new ≡ after_write self.old drive sector bytes.now }
        ensures fails { IsErr result ↔ IsTrue (next_is_listed self.old.calls) }
        ensures answers { AnswersWrite disks_of told_of is_unsynced (λ d. d.faults) (λ d. d.failed) drive sector bytes.now self.old self.new result }
    {
        self.unsynced[usize::from(drive)] = true;
        if self.is_failing() {
            return Err(Failed);
        }
        let Some(name) = self.links.name(drive) else {
            unreachable!();
        };
        self.images.write_sector(name, sector, bytes);
        Ok(())
    }

    #[tactic(auto, using(crate::proofs::Flags::flag_here, crate::proofs::Flags::flag_other), unfolding(crate::specs::MemoryDisks::after_sync, crate::specs::MemoryDisks::after_access))]
    fn sync(&mut self, drive: u8) -> Result<(), Failed>
        requires { IsSome (size_of (disks_of self.old) drive) }
        ensures after { self.new ≡ after_sync self.old drive }
        ensures fails { IsErr result ↔ IsTrue (next_is_listed self.old.calls) }
        ensures answers { AnswersSync disks_of told_of is_unsynced (λ d. d.faults) (λ d. d.failed) drive self.old self.new result }
    {
        if self.is_failing() {
            return Err(Failed);
        }
        self.unsynced[usize::from(drive)] = false;
        Ok(())
    }
}
