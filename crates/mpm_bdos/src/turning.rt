ghost use Rattle.mpm_bdos.specs.Turns.{TurnsPlace, TurnsDrive};
ghost use Rattle.mpm_bdos.specs.ServiceTurns.{TurnsWork, TurnsHeldCall};
ghost use Rattle.mpm_bdos.specs.Asking.{MayTurnPlace, MayTurnDrive, MayTurnWork, MayTurnHeldCall};

use crate::directories::Directories;
use crate::service::{Held, Service};
use mpm_base::Steps;
use mpm_cache::Cache;
use mpm_files::{Progress, Work};
use mpm_mount::Mounted;
use mpm_port::{Drives, Failed};
use std::sync::ledger::Ledger;

/// Does the next turn of a job on a drive, which is mounted.
pub(crate) fn turn_at<D: Drives, L: Ledger>(
    place: &mut Option<Mounted>,
    cache: &mut Cache,
    work: &mut Work,
    drives: &mut D,
    steps: &mut Steps<L>,
) -> Result<Progress, Failed>
    requires { MayTurnPlace (D.disks drives.old) place.old cache.old work.old }
    ensures { TurnsPlace D.Drives place.old place.new work.old work.new cache.old cache.new drives.old drives.new steps.old steps.new result }
{
    match place {
        Some(mounted) => {
            let result = mpm_files::turn(mounted, cache, work, drives, steps);
            // Whatever the turn made of it, it is a directory of its kind.
            mounted.recall_directory();
            result
        }
        None => unreachable!(),
    }
}

impl Directories {
    /// Does the next turn of a job on the drive of a number, which is mounted.
    #[tactic(auto, using(crate::proofs::Fitting::labels_stay, crate::proofs::Fitting::in_place_after, crate::proofs::Fitting::images_after, crate::proofs::Fitting::stays_after, crate::proofs::Fitting::told_after, crate::proofs::Fitting::unsynced_after))]
    pub(crate) fn turn<D: Drives, L: Ledger>(
        &mut self,
        number: u8,
        cache: &mut Cache,
        work: &mut Work,
        drives: &mut D,
        steps: &mut Steps<L>,
    ) -> Result<Progress, Failed>
        requires { MayTurnDrive D.disks number self.old cache.old work.old drives.old }
        ensures { TurnsDrive D.Drives number self.old self.new work.old work.new cache.old cache.new drives.old drives.new steps.old steps.new result }
    {
        let place = usize::from(number);
        turn_at(&mut self.places[place], cache, work, drives, steps)
    }
}

impl Service {
    /// Does the next turn of the job, if the call has one.
    #[tactic(auto, using(crate::proofs::Fitting::stays_same, crate::proofs::Fitting::told_same, crate::proofs::Fitting::unsynced_same))]
    pub(crate) fn turn<D: Drives, L: Ledger>(
        &mut self,
        mounted: &mut Directories,
        cache: &mut Cache,
        drives: &mut D,
        steps: &mut Steps<L>,
    ) -> Result<Progress, Failed>
        requires { MayTurnWork D.disks self.old mounted.old cache.old drives.old }
        ensures { TurnsWork D.Drives self.old self.new mounted.old mounted.new cache.old cache.new drives.old drives.new steps.old steps.new result }
    {
        let number = self.drive;
        match &mut self.work {
            Some(work) => mounted.turn(number, cache, work, drives, steps),
            None => Ok(Progress::Done),
        }
    }
}

/// Does the next turn of the job of the call in service, if it has one.
pub(crate) fn turn_service<D: Drives, L: Ledger>(
    service: &mut Held,
    mounted: &mut Directories,
    cache: &mut Cache,
    drives: &mut D,
    steps: &mut Steps<L>,
) -> Result<Progress, Failed>
    requires { MayTurnHeldCall D.disks service.old mounted.old cache.old drives.old }
    ensures { TurnsHeldCall D.Drives service.old service.new mounted.old mounted.new cache.old cache.new drives.old drives.new steps.old steps.new result }
{
    match &mut *service.place {
        Some(service) => service.turn(mounted, cache, drives, steps),
        None => unreachable!(),
    }
}
