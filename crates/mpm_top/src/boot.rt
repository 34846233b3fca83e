ghost use Rattle.std.specs.Prelude.{◌≡◌, ◌≤◌, Some, length};
ghost use Rattle.mpm_top.specs.Beginnings.{input_of as input_said};
ghost use Rattle.mpm_top.specs.Endings.{status_of};
ghost use Rattle.mpm_top.specs.BootParts.{BootsCommand, FetchesInput, BootsBytes, BootsFile, ReadsScript, ReadsNamed};

use crate::status::{Input, Status};
use crate::words::Form;
use mpm_machine::{BootError, Machine};
use mpm_machine_file::{MachineError, MachineFile, read_machine};
use mpm_port::{Drives, FetchError, Fetched, Files};
use mpm_script::{Script, ScriptError, read_script};
use std::alloc::Global;

impl Form {
    /// The input that the file of a command is.
    fn input(self) -> Input
        ensures { result ≡ input_said self }
    {
        match self {
            Form::Program => Input::ProgramBytes,
            Form::Run => Input::MachineText,
        }
    }
}

/// The machine with which a command of a form and a file begins, or how the command ends without one.
pub(crate) fn boot<F: Files, D: Drives>(
    alloc: Global,
    name: &str,
    form: Form,
    files: &mut F,
    drives: &mut D,
) -> Result<Box<Machine>, Status>
    ensures { BootsCommand F.Files D.Drives form name.now files.old files.new drives.old drives.new result }
{
    let bytes = match fetch(alloc, name, form.input(), files) {
        Ok(bytes) => bytes,
        Err(status) => return Err(status),
    };
    match form {
        Form::Program => boot_program(alloc, bytes.as_slice()),
        Form::Run => boot_machine(alloc, bytes.as_slice(), files, drives),
    }
}

/// The bytes of a file as an input, or how the command ends without them.
fn fetch<F: Files>(
    alloc: Global,
    name: &str,
    input: Input,
    files: &mut F,
) -> Result<Vec<u8>, Status>
    ensures { FetchesInput F.Files input name.now files.old files.new result }
{
    let mut bytes = Vec::new(alloc);
    match files.fetch(name, input.room(), &mut bytes) {
        Ok(Fetched::Whole) => Ok(bytes),
        Ok(Fetched::Longer) => Err(Status::TooLong { what: input }),
        Err(FetchError::Failed) => Err(Status::ReadFault),
        Err(FetchError::OutOfMemory) => Err(Status::OutOfMemory),
    }
}

/// The machine of a program's bytes. No drive is mounted.
#[inline(never)]
fn boot_program(alloc: Global, bytes: &[u8]) -> Result<Box<Machine>, Status>
    requires { length bytes.now ≤ 48512 }
    ensures { BootsBytes bytes.now result }
{
    match Machine::boot_program(alloc, bytes) {
        Ok(machine) => Ok(machine),
        Err(_) => Err(Status::OutOfMemory),
    }
}

/// The machine of a machine file's bytes and of the script that it names, or how the command ends without one.
#[inline(never)]
fn boot_machine<F: Files, D: Drives>(
    alloc: Global,
    bytes: &[u8],
    files: &mut F,
    drives: &mut D,
) -> Result<Box<Machine>, Status>
    ensures { BootsFile F.Files D.Drives bytes.now files.old files.new drives.old drives.new result }
{
    let file = match read_machine(alloc, bytes) {
        Ok(file) => file,
        Err(MachineError::Fault) => return Err(Status::MachineFault),
        Err(MachineError::OutOfMemory) => return Err(Status::OutOfMemory),
    };
    let script = match read_script_of(alloc, &file, files) {
        Ok(script) => script,
        Err(status) => return Err(status),
    };
    match Machine::boot(alloc, &file, script, drives) {
        Ok(machine) => Ok(machine),
        Err(error) => Err(refusal(error)),
    }
}

/// How a command ends whose machine isn't booted.
fn refusal(error: BootError) -> Status
    ensures { result ≡ status_of error }
{
    match error {
        BootError::Image {
            drive,
            cause,
            place,
        } => Status::ImageFault {
            drive,
            cause,
            place,
        },
        BootError::DiskFault => Status::DiskFault { step: 0 },
        BootError::OutOfMemory => Status::OutOfMemory,
    }
}

/// The events of the script that a machine file names, or how the command ends without them. Without a script there are
/// none.
fn read_script_of<F: Files>(
    alloc: Global,
    file: &MachineFile,
    files: &mut F,
) -> Result<Script, Status>
    ensures { ReadsScript F.Files file.now.script files.old files.new result }
{
    match &file.script {
        Some(name) => read_named(alloc, name.as_str(), files),
        None => Ok(Script::empty(alloc)),
    }
}

/// The events of the script of that name, or how the command ends without them.
fn read_named<F: Files>(alloc: Global, name: &str, files: &mut F) -> Result<Script, Status>
    ensures { ReadsNamed F.Files name.now files.old files.new result }
{
    let text = match fetch(alloc, name, Input::ScriptText, files) {
        Ok(text) => text,
        Err(status) => return Err(status),
    };
    match read_script(alloc, text.as_slice()) {
        Ok(script) => Ok(script),
        Err(ScriptError::Fault { line }) => Err(Status::ScriptFault { line }),
        Err(ScriptError::OutOfMemory) => Err(Status::OutOfMemory),
    }
}
