ghost use Rattle.std.specs.Prelude.{◌≡◌, true, [], All};
ghost use Rattle.mpm_machine_file.specs.Drives.{all_differ};
ghost use Rattle.mpm_machine_file.specs.MachineFiles.{IsDrive};
ghost use Rattle.mpm_drives.specs.Calling.{MountsDrive, MountsDrives};

use crate::error::BootError;
use mpm_machine_file::DriveSpec;
use mpm_mount::{MountError, Mounted, mount};
use mpm_port::{Drives, FetchError};
use std::alloc::Global;
use std::marker::Model;

/// The mounted drives of a machine, in order of their letters. Contracts see the list of their directories.
#[derive(Drop)]
pub struct MountedDrives {
    items: Vec<Mounted>,
}

impl Model for MountedDrives {
    ghost use Rattle.std.specs.Prelude.{List};
    ghost use Rattle.mpm_mount.specs.Directories.{Directory};

    ghost Value = { List Directory };

    ghost view = { λ drives. drives.items.items };
}

impl MountedDrives {
    /// No drive.
    pub fn none(alloc: Global) -> MountedDrives
        ensures { result ≡ [] }
    {
        MountedDrives {
            items: Vec::new(alloc),
        }
    }

    /// Attaches and mounts the drives that a machine file lists, one after another up to the first that can't be; they are
    /// listed by letter. No write is asked for, and no other drive changes; after a success each of these is synced.
    ///
    /// # Errors
    /// `BootError::Image` comes exactly where that drive is the first whose image has a fault, `BootError::DiskFault` only
    /// where the drives' count rose or the drive's image name joined their failed names.
    pub fn mount<D: Drives>(
        alloc: Global,
        specs: &[DriveSpec],
        drives: &mut D,
    ) -> Result<MountedDrives, BootError>
        requires apart { all_differ specs.now ≡ true }
        requires each { All IsDrive specs.now }
        ensures { MountsDrives D.Drives specs.now drives.old drives.new result }
    {
        let mut items = Vec::new(alloc);
        for spec in specs {
            match mount_drive(alloc, spec, drives) {
                Ok(mounted) => match items.push(mounted) {
                    Ok(()) => {}
                    Err(_) => return Err(BootError::OutOfMemory),
                },
                Err(error) => return Err(error),
            }
        }
        Ok(MountedDrives { items })
    }

    /// The mounted drives as a list, in order of their letters.
    pub fn into_mounted(self) -> Vec<Mounted>
        ensures { result.items ≡ self }
    {
        self.items
    }
}

/// Attaches a drive of a machine file to its image, and mounts it.
fn mount_drive<D: Drives>(
    alloc: Global,
    spec: &DriveSpec,
    drives: &mut D,
) -> Result<Mounted, BootError>
    requires { IsDrive spec.now }
    ensures { MountsDrive D.Drives spec.now drives.old drives.new result }
{
    let drive = spec.letter - b'A';
    match drives.attach(drive, spec.image.as_str()) {
        Ok(()) => {}
        Err(FetchError::Failed) => return Err(BootError::DiskFault),
        Err(FetchError::OutOfMemory) => return Err(BootError::OutOfMemory),
    }
    match mount(alloc, drives, drive, spec.kind) {
        Ok(mounted) => Ok(mounted),
        Err(MountError::Image { cause, place }) => Err(BootError::Image {
            drive,
            cause,
            place,
        }),
        Err(MountError::DiskFault) => Err(BootError::DiskFault),
        Err(MountError::OutOfMemory) => Err(BootError::OutOfMemory),
    }
}
