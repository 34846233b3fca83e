//! Runs of a machine that begins, and what they leave of its disk.
ghost use Rattle.std.specs.Prelude.{◌≡◌, ◌<◌, ◌≤◌};
ghost use Rattle.mpm_port.specs.MemoryDisks.{disks_of};
ghost use Rattle.mpm_machine.specs.Parts.{IsBetweenSteps};

use mpm_base::Steps;
use mpm_drives::BootError;
use mpm_machine::{Machine, StepFault};
use mpm_machine_file::read_machine;
use mpm_port::{Drives, MemoryDrives, MemoryFiles, MemorySink};
use mpm_render::Render;
use mpm_script::read_script;
use mpm_top::{Status, run_words};
use std::alloc::Global;
use std::marker::Brand;
use std::sync::ledger::{Blank, Ledger};
use std::test::Fail;

/// Does so many steps, at most 400,000, and ends the run where it is to end.
pub(crate) fn run<L: Ledger>(
    machine: &mut Machine,
    steps: u64,
    is_traced: bool,
    is_ended: bool,
    drives: &mut MemoryDrives,
    sink: &mut MemorySink,
    blank: Blank,
) -> Status
    requires most { steps ≤ 400000 }
    requires between { IsBetweenSteps disks_of machine.old drives.old }
    requires start { machine.old.system.steps ≡ 0 }
    requires name { blank.name ≡ L.name }
    requires parts { blank.parts ≡ L.parts }
    requires some { 0 < L.parts }
{
    let mut calls = Steps::<L>::new(blank);
    let mut render = Render::new(is_traced);
    match machine.run(steps, drives, &mut render, sink, &mut calls) {
        Ok(()) => {}
        Err(error) => return stopped(error.step, error.fault, &mut render, sink),
    }
    if !is_ended {
        return Status::Ran;
    }
    match machine.settle(drives, &mut render, sink, &mut calls) {
        Ok(()) => Status::Ran,
        Err(fault) => stopped(steps, fault, &mut render, sink),
    }
}

/// How a run ends that stopped: where a drive failed, the unfinished lines are closed.
fn stopped(step: u64, fault: StepFault, render: &mut Render, sink: &mut MemorySink) -> Status {
    match fault {
        StepFault::DiskFault => {
            let _ = render.finish(sink);
            Status::DiskFault { step }
        }
        StepFault::WriteFault => Status::WriteFault { step },
    }
}

/// How a run of a machine by its file and the text of its script goes, which has so many steps.
pub(crate) fn run_booted(
    alloc: Global,
    texts: (&[u8], &[u8]),
    steps: u64,
    is_traced: bool,
    is_ended: bool,
    drives: &mut MemoryDrives,
    sink: &mut MemorySink,
) -> Result<Status, Fail>
    requires most { steps ≤ 400000 }
{
    let (text, keys) = texts;
    if 1_000 < keys.len() {
        return Err(Fail::from("the script is too long"));
    }
    let file = read_machine(alloc, text)?;
    let script = read_script(alloc, keys)?;
    match Machine::boot(alloc, &file, script, drives) {
        Ok(mut machine) => {
            let blank = Blank::new(1);
            Ok(run::<Brand>(
                &mut machine,
                steps,
                is_traced,
                is_ended,
                drives,
                sink,
                blank,
            ))
        }
        Err(BootError::DiskFault) => Ok(Status::DiskFault { step: 0 }),
        Err(error) => Err(Fail::from(error)),
    }
}

/// Words as they come from a command line.
pub(crate) fn strings(alloc: Global, words: &[&str]) -> Result<Vec<String>, Fail> {
    let mut strings = Vec::new(alloc);
    for word in words {
        strings.push(String::from_str(alloc, word)?)?;
    }
    Ok(strings)
}

/// The files `file` and `keys`, with these texts.
fn files(alloc: Global, machine: &[u8], keys: &[u8]) -> Result<MemoryFiles, Fail> {
    let mut files = MemoryFiles::new(alloc);
    files.add("file", machine)?;
    files.add("keys", keys)?;
    Ok(files)
}

/// How a run by its words goes, over a machine file and its script of these texts.
pub(crate) fn run_by_words(
    alloc: Global,
    texts: (&[u8], &[u8]),
    words: &[&str],
    drives: &mut MemoryDrives,
    sink: &mut MemorySink,
) -> Result<Status, Fail> {
    let (machine, keys) = texts;
    let words = strings(alloc, words)?;
    let mut files = files(alloc, machine, keys)?;
    Ok(run_words(alloc, words.as_slice(), &mut files, drives, sink))
}

/// Calls the drives up to the call of a number, which fails, and lists one after that to fail.
pub(crate) fn fail_behind(drives: &mut MemoryDrives, number: u64, call: u64) -> Result<(), Fail> {
    drives.fail_at(number)?;
    drives.fail_at(number.saturating_add(call))?;
    for _ in 0..ROUND {
        if drives.attach(0, "a.img") != Ok(()) {
            return Ok(());
        }
    }
    Err(Fail::from("more calls were made than a round has"))
}

/// How many calls of a drive there is room for in a round: more than a run makes, and all that is done around it.
pub(crate) const ROUND: u64 = 600;
