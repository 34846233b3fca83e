ghost use Rattle.std.specs.Prelude.{IsSome, IfSome};
ghost use Rattle.mpm_port.specs.Disks.{size_of};
ghost use Rattle.mpm_bdos.specs.Syncing.{AreAttached, SyncsPlace, SyncsMounted};

use crate::bdos::Bdos;
use crate::directories::Directories;
use mpm_base::Steps;
use mpm_mount::Mounted;
use mpm_port::{Drives, Failed};
use std::sync::ledger::Ledger;

/// Brings what was written to a drive to where it stays, where it is mounted.
fn sync_place<D: Drives, L: Ledger>(
    place: &Option<Mounted>,
    drives: &mut D,
    steps: &mut Steps<L>,
) -> Result<(), Failed>
    requires { IfSome place.now (λ directory. IsSome (size_of (D.disks drives.old) directory.drive)) }
    ensures { SyncsPlace D.Drives place.now drives.old drives.new steps.old steps.new result }
{
    match place {
        Some(mounted) => {
            steps.tick();
            drives.sync(mounted.drive())
        }
        None => Ok(()),
    }
}

impl Directories {
    /// Brings what was written to the mounted drives to where it stays, one after another up to the first that fails.
    fn sync<D: Drives, L: Ledger>(&self, drives: &mut D, steps: &mut Steps<L>) -> Result<(), Failed>
        requires { AreAttached (D.disks drives.old) self.now }
        ensures { SyncsMounted D.Drives self.now drives.old drives.new steps.old steps.new result }
    {
        for place in self.places.as_slice() {
            if let Err(Failed) = sync_place(place, drives, steps) {
                return Err(Failed);
            }
        }
        Ok(())
    }
}

impl Bdos {
    ghost use Rattle.mpm_bdos.specs.Syncing.{SyncsMounted};
    ghost use Rattle.mpm_bdos.specs.Turns.{FitsDrives};

    /// Brings what was written to the mounted drives to where it stays, one drive after another in order of their letters, up to
    /// the first that fails: after a success each of them is synced. `steps` counts the calls.
    #[tactic(auto, using(crate::proofs::Fitting::fit_attached))]
    pub fn sync<D: Drives, L: Ledger>(
        &self,
        drives: &mut D,
        steps: &mut Steps<L>,
    ) -> Result<(), Failed>
        requires { FitsDrives D.disks self.now.mounted self.now.cached drives.old }
        ensures { SyncsMounted D.Drives self.now.mounted drives.old drives.new steps.old steps.new result }
    {
        self.mounted.sync(drives, steps)
    }
}
