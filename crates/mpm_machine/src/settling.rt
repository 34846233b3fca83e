//! The end of a run: the call in service is carried to its end, the drives are synced, and unfinished lines are closed.
ghost use Rattle.std.specs.Prelude.{◌≡◌, ◌+◌, ◌*◌, ◌<◌, ◌≤◌, Some, None, OnOk, IfErr};

use crate::due::end_all;
use crate::machine::{Machine, StepFault};
use mpm_base::{Pid, Steps};
use mpm_port::{Drives, Failed, Sink};
use mpm_render::Render;
use std::sync::ledger::Ledger;

impl Machine {
    ghost use Rattle.mpm_port.specs.Frames.{SameDrives};
    ghost use Rattle.mpm_render.specs.Outputs.{closed};
    ghost use Rattle.mpm_output.specs.Outside.{seen};
    ghost use Rattle.mpm_service.specs.Disk.{served_process};
    ghost use Rattle.mpm_service.specs.Ahead.{turns_left};
    ghost use Rattle.mpm_bdos.specs.Syncing.{mounted_count};
    ghost use Rattle.mpm_bdos.specs.Turns.{FitsDrives};
    ghost use Rattle.mpm_system.specs.Whole.{IsWhole};
    ghost use Rattle.mpm_machine.specs.Faults.{counts, EndsByCause, itself};
    ghost use Rattle.mpm_machine.specs.Mounting.{HasNoDrive, KeepsMounted};
    ghost use Rattle.mpm_machine.specs.Failing.{leaving};
    ghost use Rattle.mpm_machine.specs.Standing.{StandingAt};
    ghost use Rattle.mpm_machine.specs.Parts.{IsBetweenSteps};
    ghost use Rattle.mpm_machine.specs.AtEnd.{EndsRun, StopsAtEnd, StopsSettling, drive_calls, SyncsAll, AfterTurns};
    ghost use Rattle.mpm_machine.specs.Setup.{set_up};
    ghost use Rattle.mpm_machine.specs.EndParts.{Carries, MayEndLast, EndsCall, SyncsAndCloses};

    /// The end of a run: the call in service is carried to its end, each drive is synced, in order of the letters, and unfinished lines
    /// are closed. Where a drive fails nothing more is written, and the lines are left to `Render::finish`. Only `Render::finish` may
    /// follow, as no step follows the end.
    pub fn settle<D: Drives, S: Sink, L: Ledger>(
        &mut self,
        drives: &mut D,
        render: &mut Render,
        sink: &mut S,
        calls: &mut Steps<L>,
    ) -> Result<(), StepFault>
        // The system is whole: its processes, lists and memory fit together. Nobody is left to be answered. What is kept of file calls and
        // the images stand for some files.
        requires between { IsBetweenSteps D.disks self.old drives.old }
        // After a success the text of all outputs is written, those of the call in service among them, and unfinished lines are closed.
        // The machine and the images stand for what the call comes to.
        ensures ok { StandingAt self.old render.old (S.written sink.old) (D.disks drives.old) (λ s first. OnOk result (EndsRun render.old.trace self.new (S.written sink.new) (D.disks drives.new) s first)) }
        // Where a drive failed within a turn, nothing of the end is written, and each drive that was owed a sync is owed it still. Where one
        // failed as it was synced, all is written but the ends of unfinished lines. Where the sink failed, a first part of what the end adds is written.
        ensures stops { StandingAt self.old render.old (S.written sink.old) (D.disks drives.old) (λ s first. IfErr result (λ fault. StopsAtEnd fault (leaving S.written D.disks render.new sink.new drives.new self.new.bdos.mounted) self.old.bdos
            (drive_calls D.unsynced drives.old calls.old) (drive_calls D.unsynced drives.new calls.new) s first)) }
        // A success leaves the system whole.
        ensures whole { OnOk result (IsWhole self.new.system) }
        // A success leaves the counts of faults. An error comes only where the count of the device that it names rose; the other count
        // stays. Whether calls are traced stays too.
        ensures ends { EndsByCause itself render.old.trace render.new.trace (counts S.faults D.faults sink.old drives.old) (counts S.faults D.faults sink.new drives.new) result }
        // In any case each drive keeps its name, kind and size, and other images stay as they were.
        ensures keeps { KeepsMounted (D.told drives.old) (D.told drives.new) (D.disks drives.old) (D.disks drives.new) self.old.bdos.mounted self.new.bdos.mounted }
        // A success syncs each mounted drive by one call, after the turns that were left.
        ensures synced { OnOk result (AfterTurns self.old.system self.old.bdos (SyncsAll self.new.bdos.mounted) (drive_calls D.unsynced drives.old calls.old) (drive_calls D.unsynced drives.new calls.new)) }
        // Where an error came in a turn, each drive that was owed a sync is owed it still. Where it came as drives were synced, those before the one that
        // failed are. Where it came as lines were closed, all are.
        ensures syncs { IfErr result (λ fault. StopsSettling fault self.new.bdos.mounted self.old.bdos
            (drive_calls D.unsynced drives.old calls.old) (drive_calls D.unsynced drives.new calls.new) self.old.system) }
        // Each turn that is left calls a drive at most 20 times, and each sync calls one once.
        ensures calls { calls.new ≤ calls.old + 20 * turns_left self.old.system.kernel.disk + mounted_count self.old.bdos.mounted }
        // Where no call is in service no image changes.
        ensures idle { self.old.system.kernel.disk.served ≡ None → SameDrives D.Drives drives.old drives.new }
        // No name joins those on which an attach failed.
        ensures names { D.failed_names drives.new ≡ D.failed_names drives.old }
        // Where no drive is mounted none is called, so only the sink can fail.
        ensures none { HasNoDrive self.old.bdos.mounted → IfErr result (λ fault. fault ≡ StepFault.WriteFault) × (drives.new ≡ drives.old) }
    {
        match self.carry(drives, render, sink, calls) {
            Ok(()) => self.close(drives, render, sink, calls),
            Err(fault) => Err(fault),
        }
    }

    /// Each drive is synced, in order of the letters, and unfinished lines are closed.
    fn close<D: Drives, S: Sink, L: Ledger>(
        &self,
        drives: &mut D,
        render: &mut Render,
        sink: &mut S,
        calls: &mut Steps<L>,
    ) -> Result<(), StepFault>
        requires { FitsDrives D.disks self.now.bdos.mounted self.now.bdos.cached drives.old }
        ensures { SyncsAndCloses D.Drives (set_up S.Sink self.now drives.old render.old sink.old calls.old) (set_up S.Sink self.now drives.new render.new sink.new calls.new) result }
    {
        if let Err(Failed) = self.bdos.sync(drives, calls) {
            return Err(StepFault::DiskFault);
        }
        match render.finish(sink) {
            Ok(()) => Ok(()),
            Err(Failed) => Err(StepFault::WriteFault),
        }
    }

    /// The call in service, if there is one, is carried to its end.
    fn carry<D: Drives, S: Sink, L: Ledger>(
        &mut self,
        drives: &mut D,
        render: &mut Render,
        sink: &mut S,
        calls: &mut Steps<L>,
    ) -> Result<(), StepFault>
        requires between { IsBetweenSteps D.disks self.old drives.old }
        ensures { Carries D.Drives (set_up S.Sink self.old drives.old render.old sink.old calls.old) (set_up S.Sink self.new drives.new render.new sink.new calls.new) result }
    {
        match self.system.kernel.disk().serving() {
            Some(p) => self.carry_call(p, drives, render, sink, calls),
            None => Ok(()),
        }
    }

    /// The turns that are left to it are done, and it is answered; the ends that are then due come.
    fn carry_call<D: Drives, S: Sink, L: Ledger>(
        &mut self,
        p: Pid,
        drives: &mut D,
        render: &mut Render,
        sink: &mut S,
        calls: &mut Steps<L>,
    ) -> Result<(), StepFault>
        requires between { IsBetweenSteps D.disks self.old drives.old }
        requires served { served_process self.old.system.kernel.disk ≡ Some p }
        ensures { Carries D.Drives (set_up S.Sink self.old drives.old render.old sink.old calls.old) (set_up S.Sink self.new drives.new render.new sink.new calls.new) result }
    {
        let turns = self.system.kernel.finish_disk_call();
        if let Err(Failed) = self.bdos.do_turns(turns, drives, calls) {
            return Err(StepFault::DiskFault);
        }
        match self.end_call(p, render, sink) {
            Ok(()) => Ok(()),
            Err(Failed) => Err(StepFault::WriteFault),
        }
    }

    /// After its turns it is answered, and the ends that are due come.
    fn end_call<S: Sink>(&mut self, p: Pid, render: &mut Render, sink: &mut S) -> Result<(), Failed>
        requires { MayEndLast p self.old }
        ensures { EndsCall p (seen S.written S.faults render.old sink.old) (seen S.written S.faults render.new sink.new) self.old self.new result }
    {
        if let Err(Failed) = self.answer_call(p, render, sink) {
            return Err(Failed);
        }
        self.pay();
        if let Err(Failed) = end_all(&mut self.system, &mut self.reply, render, sink) {
            return Err(Failed);
        }
        self.pay();
        Ok(())
    }
}
