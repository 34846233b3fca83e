ghost use Rattle.std.specs.Prelude.{◌≡◌, not, is_some};
ghost use Rattle.mpm_port.specs.Causes.{FailsWhere};
ghost use Rattle.mpm_port.specs.DriveCalls.{AnswersAttach};
ghost use Rattle.mpm_port.specs.Named.{contents_of};
ghost use Rattle.mpm_port.specs.MemoryDisks.{disks_of, told_of, is_unsynced, after_attach, memory_agrees};
ghost use Rattle.mpm_devices.specs.Steady.{IsSteady};

use mpm_port::{Drives, Failed, FetchError, MemoryDrives};
use std::marker::Model;

/// Drives over memory of which no call is to fail: their count of faults stays 0. Contracts see the drives.
#[derive(Drop)]
pub struct SteadyDrives {
    drives: MemoryDrives,
}

impl Model for SteadyDrives {
    ghost use Rattle.mpm_port.specs.MemoryDisks.{MemoryDisks};
    ghost use Rattle.mpm_devices.specs.Steady.{IsSteady};

    ghost Value = { MemoryDisks };

    ghost view = { λ d. d.drives };

    ghost invariant = { λ d. IsSteady d.drives };
}

impl SteadyDrives {
    /// Those drives, of which no call is to fail.
    pub fn of(drives: MemoryDrives) -> SteadyDrives
        requires { IsSteady drives }
        ensures { result ≡ drives }
    {
        SteadyDrives { drives }
    }
}

impl Drives for SteadyDrives {
    ghost disks = { disks_of };

    ghost told = { told_of };

    ghost unsynced = { is_unsynced };

    ghost faults = { λ _. 0 };

    ghost failed_names = { λ d. d.failed };

    ghost agrees = { memory_agrees };

    #[tactic(auto, unfolding(mpm_port::specs::MemoryDisks::after_attach, mpm_port::specs::MemoryDisks::attach_fails))]
    fn attach(&mut self, drive: u8, name: &str) -> Result<(), FetchError>
        ensures after { self.new ≡ after_attach self.old drive name.now result }
        ensures cause { FailsWhere (not (is_some (contents_of self.old.images name.now))) result }
        ensures answers { AnswersAttach disks_of told_of is_unsynced (λ _. 0) (λ d. d.failed) drive name.now self.old self.new result }
    {
        self.drives.attach(drive, name)
    }

    #[tactic(auto, unfolding(mpm_port::specs::MemoryDisks::after_access))]
    fn size(&mut self, drive: u8) -> Result<u64, Failed> {
        self.drives.size(drive)
    }

    #[tactic(auto, unfolding(mpm_port::specs::MemoryDisks::after_access))]
    fn read(&mut self, drive: u8, sector: u32, out: &mut [u8; 128]) -> Result<(), Failed> {
        self.drives.read(drive, sector, out)
    }

    #[tactic(auto, unfolding(mpm_port::specs::MemoryDisks::after_write, mpm_port::specs::MemoryDisks::after_access))]
    fn write(&mut self, drive: u8, sector: u32, bytes: &[u8; 128]) -> Result<(), Failed> {
        self.drives.write(drive, sector, bytes)
    }

    #[tactic(auto, unfolding(mpm_port::specs::MemoryDisks::after_sync, mpm_port::specs::MemoryDisks::after_access))]
    fn sync(&mut self, drive: u8) -> Result<(), Failed> {
        self.drives.sync(drive)
    }
}
