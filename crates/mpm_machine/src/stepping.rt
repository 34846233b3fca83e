ghost use Rattle.std.specs.Prelude.{◌≡◌, ◌<◌, false, Option, Some, None, is_some};

use crate::acting::begin_alone;
use crate::disk::{end_file_call, is_done_at_once};
use crate::due::end_all;
use crate::file_calls::{conclude_file_call, file_caller};
use crate::filing::{call_files, give_back, start_call};
use crate::finish::answer_all;
use crate::machine::{Machine, StepFault};
use mpm_base::{Pid, Steps};
use mpm_bdos::Extended;
use mpm_port::{Drives, Failed, Sink};
use mpm_render::Render;
use mpm_service::Turn;
use std::sync::ledger::Ledger;

impl Machine {
    ghost use Rattle.mpm_procs.specs.Table.{call_of};
    ghost use Rattle.mpm_output.specs.Outside.{seen};
    ghost use Rattle.mpm_machine.specs.Acting.{MayAnswer};
    ghost use Rattle.mpm_machine.specs.EndParts.{MayAnswerCall};
    ghost use Rattle.mpm_machine.specs.DiskStep.{is_done_at_once};
    ghost use Rattle.mpm_machine.specs.FileCalls.{file_caller, told_of, concluded};
    ghost use Rattle.mpm_machine.specs.Parts.{MayBeginStep, MayCallFiles, MayEnd, MayEndStep};
    ghost use Rattle.mpm_machine.specs.Setup.{set_up};
    ghost use Rattle.mpm_machine.specs.PartCalls.{ConcludesCall};
    ghost use Rattle.mpm_machine.specs.StepParts.{BeginsStep, CallsFiles, EndsStep, ServesDisk, PassesTurn, AnswersCall, PaysBack, EntersCall};

    /// What a step begins with, and the held calls that this completed. Answers whether it was an instruction. A drive may fail only
    /// where a file call is done at once, before anything is written.
    #[inline(always)]
    pub(crate) fn begin_step<D: Drives, S: Sink, L: Ledger>(
        &mut self,
        drives: &mut D,
        render: &mut Render,
        sink: &mut S,
        calls: &mut Steps<L>,
    ) -> Result<bool, StepFault>
        requires may { MayBeginStep D.disks self.old drives.old }
        ensures { BeginsStep D.Drives (set_up S.Sink self.old drives.old render.old sink.old calls.old) (set_up S.Sink self.new drives.new render.new sink.new calls.new) result }
    {
        match file_caller(&self.system) {
            Some(p) => self.begin_with_files(p, drives, render, sink, calls),
            None => match begin_alone(&mut self.system, &mut self.reply, render, sink) {
                Ok(instruction) => Ok(instruction),
                Err(Failed) => Err(StepFault::WriteFault),
            },
        }
    }

    /// As `begin_step`, where a process makes a file call. Answers false.
    #[cold]
    #[inline(never)]
    fn begin_with_files<D: Drives, S: Sink, L: Ledger>(
        &mut self,
        p: Pid,
        drives: &mut D,
        render: &mut Render,
        sink: &mut S,
        calls: &mut Steps<L>,
    ) -> Result<bool, StepFault>
        requires may { MayBeginStep D.disks self.old drives.old }
        requires caller { file_caller self.old.system ≡ Some p }
        ensures { BeginsStep D.Drives (set_up S.Sink self.old drives.old render.old sink.old calls.old) (set_up S.Sink self.new drives.new render.new sink.new calls.new) result }
    {
        self.system.make_file_call(p);
        match self.call_or_wait(p, drives, render, sink, calls) {
            Ok(()) => {
                answer_all(&mut self.system, &mut self.reply);
                Ok(false)
            }
            Err(fault) => Err(fault),
        }
    }

    /// A file call that a process has made is done at once, or waits for the disk.
    fn call_or_wait<D: Drives, S: Sink, L: Ledger>(
        &mut self,
        p: Pid,
        drives: &mut D,
        render: &mut Render,
        sink: &mut S,
        calls: &mut Steps<L>,
    ) -> Result<(), StepFault>
        requires may { MayCallFiles D.disks p self.old drives.old }
        ensures { CallsFiles D.Drives p (set_up S.Sink self.old drives.old render.old sink.old calls.old) (set_up S.Sink self.new drives.new render.new sink.new calls.new) result }
    {
        if !is_done_at_once(&self.system, p) {
            self.system.kernel.wait_for_disk(p);
            return Ok(());
        }
        match call_files(
            &self.system,
            &mut self.bdos,
            p,
            &mut self.reply,
            drives,
            calls,
        ) {
            Ok(extended) => self.conclude(p, extended, render, sink),
            Err(Failed) => Err(StepFault::DiskFault),
        }
    }

    /// A file call that is done at once is concluded, by what it came to.
    fn conclude<S: Sink>(
        &mut self,
        p: Pid,
        extended: Option<Extended>,
        render: &mut Render,
        sink: &mut S,
    ) -> Result<(), StepFault>
        requires { MayAnswer p self.old.system }
        ensures { ConcludesCall (concluded (told_of (call_of self.old.system.kernel.dispatcher.procs p) self.old.reply extended) p self.old.system) (seen S.written S.faults render.old sink.old) (seen S.written S.faults render.new sink.new) self.old self.new result }
    {
        match conclude_file_call(&mut self.system, p, extended, &self.reply, render, sink) {
            Ok(()) => Ok(()),
            Err(Failed) => Err(StepFault::WriteFault),
        }
    }

    /// The rest of a step: the disk's, the ends that are due, the records, and who runs.
    #[inline(always)]
    pub(crate) fn end_step<S: Sink>(
        &mut self,
        instruction: bool,
        render: &mut Render,
        sink: &mut S,
    ) -> Result<(), Failed>
        requires { MayEndStep self.old }
        ensures { EndsStep instruction (seen S.written S.faults render.old sink.old) (seen S.written S.faults render.new sink.new) self.old self.new result }
    {
        if let Err(Failed) = self.serve_disk(render, sink) {
            return Err(Failed);
        }
        if let Err(Failed) = end_all(&mut self.system, &mut self.reply, render, sink) {
            return Err(Failed);
        }
        self.pay();
        self.system.kernel.pick(instruction);
        Ok(())
    }

    /// The disk's step: where the last turn of the call in service is over, it is answered; those who ended give back what they owe,
    /// and the next call enters service.
    #[inline(always)]
    fn serve_disk<S: Sink>(&mut self, render: &mut Render, sink: &mut S) -> Result<(), Failed>
        requires { MayEndStep self.old }
        ensures { ServesDisk (seen S.written S.faults render.old sink.old) (seen S.written S.faults render.new sink.new) self.old self.new result }
    {
        if let Err(Failed) = self.pass_turn(render, sink) {
            return Err(Failed);
        }
        self.pay();
        self.enter_call();
        Ok(())
    }

    /// A step of the call in service, if there is one.
    fn pass_turn<S: Sink>(&mut self, render: &mut Render, sink: &mut S) -> Result<(), Failed>
        requires { MayEndStep self.old }
        ensures { PassesTurn (seen S.written S.faults render.old sink.old) (seen S.written S.faults render.new sink.new) self.old self.new result }
    {
        if self.system.kernel.disk().serving().is_none() {
            return Ok(());
        }
        if let Turn::Work { p, last } = self.system.kernel.turn_disk() {
            if last {
                return self.answer_call(p, render, sink);
            }
        }
        Ok(())
    }

    /// The call of a process is over, whose turns were served: its process is ready again, and it is answered.
    pub(crate) fn answer_call<S: Sink>(
        &mut self,
        p: Pid,
        render: &mut Render,
        sink: &mut S,
    ) -> Result<(), Failed>
        requires { MayAnswerCall p self.old }
        ensures { AnswersCall p (seen S.written S.faults render.old sink.old) (seen S.written S.faults render.new sink.new) self.old self.new result }
    {
        let extended = self.bdos.reply(&mut self.reply);
        end_file_call(&mut self.system, p, extended, &mut self.reply, render, sink)
    }

    /// Where no call is in service, those who ended give back what they had open and marked: mostly nobody did.
    #[inline(always)]
    pub(crate) fn pay(&mut self)
        ensures { PaysBack self.old self.new }
    {
        if self.system.owed.has_some() {
            self.pay_back();
        }
    }

    /// As `pay`, where somebody may have ended.
    #[cold]
    #[inline(never)]
    fn pay_back(&mut self)
        ensures { PaysBack self.old self.new }
    {
        if self.system.kernel.disk().serving().is_none() {
            give_back(&mut self.bdos, &self.system.owed);
            self.system.owed.clear();
        }
    }

    /// Where no call is in service, the first that waits enters it, if one does.
    #[inline(always)]
    fn enter_call(&mut self)
        requires { MayEnd self.old }
        ensures { EntersCall self.old self.new }
    {
        if self.system.kernel.disk().serving().is_some() {
            return;
        }
        if let Turn::Starts { p } = self.system.kernel.turn_disk() {
            let turns = start_call(&self.system, &mut self.bdos, p);
            self.system.kernel.begin_disk_call(turns);
        }
    }
}
