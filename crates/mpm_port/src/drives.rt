ghost use Rattle.std.specs.Prelude.{◌≡◌, ℕ, Bool, List, Some, IsSome, IfSome};
ghost use Rattle.mpm_port.specs.Disks.{Disks, ToldImage, Brings, IsInsideDrive, size_of};
ghost use Rattle.mpm_port.specs.DriveCalls.{AnswersAttach, AnswersSize, AnswersRead, AnswersWrite, AnswersSync};

use crate::{Failed, FetchError};

/// Drives of 128-byte sectors, each attached to an image by its name.
pub trait Drives {
    /// The image of each attached drive, and the name that it was attached by.
    ghost disks: { Self → Disks };

    /// What is known of the image of each name.
    ghost told: { Self → List ℕ → ToldImage };

    /// Whether a write to the drive was asked for since it was last attached, or synced without a failure.
    ghost unsynced: { Self → ℕ → Bool };

    /// The count of faults, at most 2^64 - 1.
    ghost faults: { Self → ℕ };

    /// The names on which a call of `attach` answered Failed, oldest first.
    ghost failed_names: { Self → List (List ℕ) };

    /// Attaches a drive to the image of that name, also one that was attached before. After a failure it is attached as it was.
    fn attach(&mut self, drive: u8, name: &str) -> Result<(), FetchError>
        ensures { AnswersAttach disks told unsynced faults failed_names drive name.now self.old self.new result };

    /// The size of the drive in bytes.
    fn size(&mut self, drive: u8) -> Result<u64, Failed>
        requires { IsSome (size_of (disks self.old) drive) }
        ensures { AnswersSize disks told unsynced faults failed_names drive self.old self.new result };

    /// Reads a sector of the drive.
    fn read(&mut self, drive: u8, sector: u32, out: &mut [u8; 128]) -> Result<(), Failed>
        requires { IsInsideDrive (size_of (disks self.old) drive) sector }
        ensures { AnswersRead disks told unsynced faults failed_names drive sector out.new self.old self.new result };

    /// Writes a sector of the drive. A failed call leaves the sector as it was or as asked.
    fn write(&mut self, drive: u8, sector: u32, bytes: &[u8; 128]) -> Result<(), Failed>
        requires { IsInsideDrive (size_of (disks self.old) drive) sector }
        ensures { AnswersWrite disks told unsynced faults failed_names drive sector bytes.now self.old self.new result };

    /// Brings what was written to the drive to where it stays.
    fn sync(&mut self, drive: u8) -> Result<(), Failed>
        requires { IsSome (size_of (disks self.old) drive) }
        ensures { AnswersSync disks told unsynced faults failed_names drive self.old self.new result };

    /// What is known of the image of an attached drive's name is what the drive has.
    ghost agrees: { (drives : Self) (drive : ℕ) (name : List ℕ) → (disks drives).name_of drive ≡ Some name
        → IfSome ((disks drives).image drive) (Brings (told drives name)) };
}
