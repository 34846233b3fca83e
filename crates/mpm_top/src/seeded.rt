ghost use Rattle.std.specs.Prelude.{◌≡◌, ◌≤◌, ◌<◌, true, List, Some, None, IfOk};
ghost use Rattle.mpm_script.specs.declared.line.TheConstants.{GREATEST_STEP};
ghost use Rattle.mpm_port.specs.MemoryDisks.{disks_of};
ghost use Rattle.mpm_drives.specs.Mounted.{NumberedDrive, placed};
ghost use Rattle.mpm_machine.specs.Files.{Between, StandsForFiles};
ghost use Rattle.mpm_machine.specs.Mounting.{untouched};
ghost use Rattle.mpm_machine.specs.After.{after};
ghost use Rattle.mpm_top.specs.Words.{texts};
ghost use Rattle.mpm_top.specs.Beginnings.{begun};
ghost use Rattle.mpm_top.specs.Seeds.{AreOf, AreFound, MayRunSeeded};
ghost use Rattle.mpm_top.specs.RunParts.{AreMadeOf, ReportsSeeded, AnswersSeeded, MayFindOf, MayRunCounted, RunsCounted};

use crate::data::data_sum;
use crate::report::put_report;
use crate::seeds::{Found, Seeded, generated, read_seeded};
use crate::status::Status;
use mpm_base::Steps;
use mpm_devices::{LineCounts, SteadyDrives};
use mpm_generator::Generated;
use mpm_machine::{BootError, Machine};
use mpm_machine_file::MachineFile;
use mpm_port::{Failed, OutOfMemory, Sink};
use mpm_render::Render;
use mpm_script::Script;
use std::alloc::Global;
use std::marker::Brand;
use std::sync::ledger::{Blank, Ledger};

/// Does what words ask of `gen`. Usage comes exactly where they have no such form.
pub(crate) fn run_seeded_words<S: Sink>(alloc: Global, words: &[String], sink: &mut S) -> Status
    ensures { AnswersSeeded (sink.new ≡ sink.old) (texts words.now) (S.written sink.old) (S.written sink.new) (S.faults sink.old) (S.faults sink.new) result }
{
    match read_seeded(words) {
        Some(asked) => run_seeded(alloc, asked, sink),
        None => Status::Usage,
    }
}

/// Runs the machine of a seed for so many steps, and reports what was found.
fn run_seeded<S: Sink>(alloc: Global, asked: Seeded, sink: &mut S) -> Status
    requires { MayRunSeeded asked }
    ensures { ReportsSeeded (sink.new ≡ sink.old) asked (S.written sink.old) (S.written sink.new) (S.faults sink.old) (S.faults sink.new) result }
{
    match find(alloc, asked) {
        Ok(found) => match put_report(&found, sink) {
            Ok(()) => Status::Ran,
            Err(Failed) => Status::WriteFault { step: asked.steps },
        },
        Err(_) => Status::OutOfMemory,
    }
}

/// What is found of the machine of a seed after so many steps.
///
/// # Errors
/// Where no memory is found.
fn find(alloc: Global, asked: Seeded) -> Result<Found, OutOfMemory>
    requires { MayRunSeeded asked }
    ensures { IfOk result (λ found. AreFound asked.seed asked.steps found) }
{
    match generated(alloc, asked.seed) {
        Ok(made) => find_in(alloc, asked, made),
        Err(error) => Err(error),
    }
}

/// What is found of a machine that was made of the seed.
fn find_in(alloc: Global, asked: Seeded, made: Generated) -> Result<Found, OutOfMemory>
    requires may { MayRunSeeded asked }
    requires are { AreMadeOf asked.seed made.machine made.script made.drives }
    ensures { IfOk result (λ found. AreFound asked.seed asked.steps found) }
{
    let Generated {
        machine: file,
        script,
        drives,
    } = made;
    let mut drives = SteadyDrives::of(drives);
    find_by(alloc, asked, &file, script, &mut drives)
}

/// What is found of the machine of a file and a script, over the drives of the seed.
fn find_by(
    alloc: Global,
    asked: Seeded,
    file: &MachineFile,
    script: Script,
    drives: &mut SteadyDrives,
) -> Result<Found, OutOfMemory>
    requires steps { asked.steps ≤ GREATEST_STEP }
    requires are { AreMadeOf asked.seed file.now script drives.old }
    ensures { IfOk result (λ found. AreFound asked.seed asked.steps found) }
{
    match Machine::boot(alloc, file, script, drives) {
        Ok(mut machine) => find_of(alloc, asked.steps, &mut machine, drives),
        Err(BootError::Image { .. }) => unreachable!(),
        // The drives don't fail, and the image is there: what is left is want of memory.
        Err(BootError::DiskFault) => Err(OutOfMemory),
        Err(BootError::OutOfMemory) => Err(OutOfMemory),
    }
}

/// What is found of a machine that begins, after so many steps.
fn find_of(
    alloc: Global,
    steps: u64,
    machine: &mut Machine,
    drives: &mut SteadyDrives,
) -> Result<Found, OutOfMemory>
    requires { MayFindOf machine.old steps drives.old }
    ensures { (on : List NumberedDrive) → StandsForFiles machine.old.system.kernel.disk machine.old.bdos (disks_of drives.old) (Between (untouched (placed on)))
        → IfOk result (λ found. AreOf steps (begun machine.old.system on) found) }
{
    match LineCounts::new(alloc) {
        Ok(mut counts) => {
            run_counted::<Brand>(machine, steps, drives, &mut counts, Blank::new(1));
            Ok(Found {
                lines: counts.of_consoles(),
                calls: counts.of_calls(),
                data: data_sum(machine, drives),
            })
        }
        Err(error) => Err(error),
    }
}

/// Runs a machine that begins for so many steps, with records of completed calls, and to its end, counts the lines, and syncs its drives.
/// Neither these nor the count fails.
fn run_counted<L: Ledger>(
    machine: &mut Machine,
    steps: u64,
    drives: &mut SteadyDrives,
    counts: &mut LineCounts,
    blank: Blank,
)
    requires { MayRunCounted machine.old steps drives.old blank.name L.name blank.parts L.parts }
    ensures { RunsCounted steps machine.old machine.new drives.old drives.new counts.old counts.new }
{
    let mut calls = Steps::<L>::new(blank);
    let mut render = Render::new(true);
    match machine.run(steps, drives, &mut render, counts, &mut calls) {
        Ok(()) => {}
        Err(_) => unreachable!(),
    }
    match machine.settle(drives, &mut render, counts, &mut calls) {
        Ok(()) => {}
        Err(_) => unreachable!(),
    }
}
