use crate::bdos::Bdos;
use mpm_base::{Call, Pid, Reply, Steps};
use mpm_clock::Moment;
use mpm_file_functions::Extended;
use mpm_port::{Drives, Failed};
use mpm_procs::Process;
use std::sync::ledger::Ledger;

impl Bdos {
    ghost use Rattle.std.specs.Prelude.{◌≡◌, None, IsSome};
    ghost use Rattle.mpm_clock.specs.Times.{IsTime};
    ghost use Rattle.mpm_file_functions.specs.Functions.{function_of};
    ghost use Rattle.mpm_bdos.specs.Serving.{IsCaller};
    ghost use Rattle.mpm_bdos.specs.Turns.{FitsDrives, images_of};
    ghost use Rattle.mpm_bdos.specs.Asking.{MayDoTurns, StandForSome};
    ghost use Rattle.mpm_bdos.specs.Starting.{caller_of};
    ghost use Rattle.mpm_bdos.specs.AtOnce.{DoesTurns, ServesAtOnce};

    /// Does so many turns of the call in service, one after another, up to the first in which its drive fails. Where the call has
    /// work, so many of its turns must be left. Each takes 20 calls of the drives at most.
    ///
    /// # Errors
    /// Where the drive of the call failed: each other drive is as it was.
    pub fn do_turns<D: Drives, L: Ledger>(
        &mut self,
        turns: u32,
        drives: &mut D,
        steps: &mut Steps<L>,
    ) -> Result<(), Failed>
        requires { MayDoTurns D.disks turns self.old drives.old }
        ensures { DoesTurns D.Drives turns self.old self.new drives.old drives.new steps.old steps.new result }
    {
        for _turn in 0..turns {
            if let Err(Failed) = self.turn(drives, steps) {
                return Err(Failed);
            }
        }
        Ok(())
    }

    /// The call in service is left as far as it is.
    fn leave_service(&mut self)
        ensures { self.new ≡ record self.old { service = None } }
    {
        self.service.leave();
    }

    /// Does a process's call on files and drives at once: it enters service, its turns follow one another, and it is answered,
    /// with its extended error, if it has one. Each turn takes 20 calls of the drives at most; where no drive is mounted, or it has
    /// no job, as one that is refused, none. After it no call is in service. (MP/M II Programmer's Guide, "BDOS Function Calls",
    /// "BDOS Error Handling".)
    ///
    /// # Errors
    /// Where the drive of the call failed: then it isn't answered, and its directory is no more that of its image.
    pub fn call_at_once<D: Drives, L: Ledger>(
        &mut self,
        p: Pid,
        call: &Call,
        process: &Process,
        now: Moment,
        drives: &mut D,
        steps: &mut Steps<L>,
        reply: &mut Reply,
    ) -> Result<Option<Extended>, Failed>
        requires caller { IsCaller (caller_of p process.now) }
        requires file { IsSome (function_of call.now.function) }
        requires time { IsTime now }
        requires fits { FitsDrives D.disks self.old.mounted self.old.cached drives.old }
        requires stand { StandForSome (images_of (D.disks drives.old)) self.old.mounted }
        ensures { ServesAtOnce D.Drives self.old self.new p process.now call.now now reply.old reply.new drives.old drives.new steps.old steps.new result }
    {
        let turns = self.start(p, call, process, now);
        match self.do_turns(turns, drives, steps) {
            Ok(()) => Ok(self.reply(reply)),
            Err(Failed) => {
                self.leave_service();
                Err(Failed)
            }
        }
    }
}
