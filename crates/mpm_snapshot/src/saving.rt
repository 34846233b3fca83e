ghost use Rattle.std.specs.Prelude.{◌≡◌, ◌≢◌, ◌≤◌, true, IfOk};
ghost use Rattle.mpm_script.specs.declared.line.TheConstants.{GREATEST_STEP};
ghost use Rattle.mpm_core_file.specs.CoreFiles.{IsCore};
ghost use Rattle.mpm_top.specs.Beginnings.{command_on};
ghost use Rattle.mpm_top.specs.Promises.{seen_by};
ghost use Rattle.mpm_snapshot.specs.Parts.{Took, RunsUnheard, PutsTaken, EndsSave, silent, status_of};

use crate::status::SnapStatus;
use crate::words::ToSave;
use mpm_base::Pid;
use mpm_core::Core;
use mpm_devices::Passage;
use mpm_machine::Machine;
use mpm_port::{Drives, Failed, Files, OutOfMemory, Sink};
use mpm_top::{Asked, Look, Status, run_command};
use std::alloc::Global;

/// Takes the core of a process of the machine at which it looks.
#[derive(Drop)]
pub(crate) struct Taker {
    core: Core,
    process: Pid,
    /// Whether the process had one.
    taken: bool,
}

impl Look for Taker {
    ghost use Rattle.mpm_snapshot.specs.Parts.{Took};

    ghost saw = { Took };

    fn look(&mut self, machine: &Machine) {
        self.taken = self.core.take(machine, self.process);
    }
}

impl Taker {
    /// One that has taken none yet.
    ///
    /// # Errors
    /// Where no memory is found.
    fn new(alloc: Global, process: Pid) -> Result<Taker, OutOfMemory>
        ensures { IfOk result (λ taker. taker.process ≡ process) }
    {
        let core = Core::new(alloc)?;
        Ok(Taker {
            core,
            process,
            taken: false,
        })
    }

    /// Writes the file of the core that was taken.
    fn write<S: Sink>(&self, sink: &mut S) -> SnapStatus
        requires { self.now.taken ≡ true → IsCore self.now.core }
        ensures { PutsTaken S.Sink self.now sink.old sink.new result }
    {
        if !self.taken {
            return SnapStatus::NoProcess;
        }
        match self.core.write(sink) {
            Ok(()) => SnapStatus::Done,
            Err(Failed) => SnapStatus::WriteFault,
        }
    }
}

/// How a save ends whose run ended early.
fn stopped(status: Status) -> SnapStatus
    requires { status ≢ Status.Ran }
    ensures { result ≡ status_of status }
{
    match status {
        Status::Ran => unreachable!(),
        Status::Usage => SnapStatus::Usage,
        Status::MachineFault => SnapStatus::MachineFault,
        Status::ScriptFault { line } => SnapStatus::ScriptFault { line },
        Status::ImageFault {
            drive,
            cause,
            place,
        } => SnapStatus::ImageFault {
            drive,
            cause,
            place,
        },
        Status::TooLong { what } => SnapStatus::TooLong { what },
        Status::ReadFault => SnapStatus::ReadFault,
        Status::DiskFault { step } => SnapStatus::DiskFault { step },
        Status::WriteFault { .. } => SnapStatus::WriteFault,
        Status::OutOfMemory => SnapStatus::OutOfMemory,
    }
}

/// Does what a command asks of a file, and takes the core of a process after its last step. Nobody hears the output.
fn run_unheard<F: Files, D: Drives>(
    alloc: Global,
    name: &str,
    asked: Asked,
    files: &mut F,
    drives: &mut D,
    taker: &mut Taker,
) -> Status
    requires { asked.steps ≤ GREATEST_STEP }
    ensures { RunsUnheard (drives.new ≡ drives.old) (F.missing files.old) (command_on name.now asked) (λ system. Took taker.old system taker.new) (silent F.Files D.Drives files.old drives.old) (silent F.Files D.Drives files.new drives.new) result }
{
    let Ok(passage) = Passage::new(alloc) else {
        return Status::OutOfMemory;
    };
    let mut passage = passage;
    run_command(alloc, name, asked, files, drives, &mut passage, taker)
}

/// Saves the core of a process after the last step of a command.
pub(crate) fn save<F: Files, D: Drives, S: Sink>(
    alloc: Global,
    name: &str,
    asked: ToSave,
    files: &mut F,
    drives: &mut D,
    sink: &mut S,
) -> SnapStatus
    requires { asked.asked.steps ≤ GREATEST_STEP }
    ensures { EndsSave (sink.new ≡ sink.old) (drives.new ≡ drives.old) (F.missing files.old) (command_on name.now asked.asked) asked.process
        (seen_by F.Files D.Drives S.Sink files.old drives.old sink.old) (seen_by F.Files D.Drives S.Sink files.new drives.new sink.new) result }
{
    let mut taker = match Taker::new(alloc, asked.process) {
        Ok(taker) => taker,
        Err(_) => return SnapStatus::OutOfMemory,
    };
    match run_unheard(alloc, name, asked.asked, files, drives, &mut taker) {
        Status::Ran => taker.write(sink),
        status => stopped(status),
    }
}
