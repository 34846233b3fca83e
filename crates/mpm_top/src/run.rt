ghost use Rattle.std.specs.Prelude.{◌≡◌, ◌≤◌, ◌<◌, ◌↔◌, [], ℕ, List, Some, None, length, slice_index_or};
ghost use Rattle.mpm_script.specs.declared.line.TheConstants.{GREATEST_STEP};
ghost use Rattle.mpm_machine.specs.After.{after};
ghost use Rattle.mpm_top.specs.Words.{Command, texts, command_of};
ghost use Rattle.mpm_top.specs.Beginnings.{command_on, failed};
ghost use Rattle.mpm_top.specs.Runs.{printed, SyncsAttached};
ghost use Rattle.mpm_top.specs.Endings.{stopped_by, IsRefusal};
ghost use Rattle.mpm_top.specs.Promises.{Fails, Promises, seen_by};
ghost use Rattle.mpm_top.specs.Seeds.{seeded_of, EndsSeeded};
ghost use Rattle.mpm_top.specs.Parts.{DoesCommand, RunsToEnd};
ghost use Rattle.mpm_top.specs.RunParts.{MayRunToEnd, ClosesUnfinished};

use crate::boot::boot;
use crate::looking::{Look, Nobody};
use crate::seeded::run_seeded_words;
use crate::seeds::Seeded;
use crate::status::Status;
use crate::words::{Asked, Form, read_words};
use mpm_base::Steps;
use mpm_machine::{Machine, RunFault, StepFault};
use mpm_port::{Drives, Files, Sink};
use mpm_render::Render;
use std::alloc::Global;
use std::marker::Brand;
use std::sync::ledger::{Blank, Ledger};

/// Does what the words after the program's name ask.
#[tactic(auto, using(crate::proofs::SeedLaws::asks_one, crate::proofs::Syncing::still_attached))]
pub fn run_words<F: Files, D: Drives, S: Sink>(
    alloc: Global,
    words: &[String],
    files: &mut F,
    drives: &mut D,
    sink: &mut S,
) -> Status
    // Usage comes exactly where the words have no form of a command.
    ensures usage { (result ≡ Status.Usage) ↔ ((command_of (texts words.now) ≡ None) × (seeded_of (texts words.now) ≡ None)) }
    ensures usage_files { result ≡ Status.Usage → files.new ≡ files.old }
    ensures usage_drives { result ≡ Status.Usage → drives.new ≡ drives.old }

    // `program` and `run`: what was written, what the images stand for then, and why it ended so.
    ensures command { (command : Command) → command_of (texts words.now) ≡ Some command
        → Promises (sink.new ≡ sink.old) (F.missing files.old) command
        (seen_by F.Files D.Drives S.Sink files.old drives.old sink.old) (seen_by F.Files D.Drives S.Sink files.new drives.new sink.new) result }
    ensures program { (command : Command) → command_of (texts words.now) ≡ Some command → command.form ≡ Form.Program → drives.new ≡ drives.old }

    // Whatever was asked: what failed, that nothing is written where it is refused, that each drive is synced or attached as it was,
    // and that what the files hold stays.
    ensures fails { Fails (seen_by F.Files D.Drives S.Sink files.old drives.old sink.old) (seen_by F.Files D.Drives S.Sink files.new drives.new sink.new) result }
    ensures nothing { IsRefusal result → sink.new ≡ sink.old }
    ensures synced { result ≡ Status.Ran → SyncsAttached (D.disks drives.old) (D.disks drives.new) (D.unsynced drives.new) }
    ensures files { (other : List ℕ) → F.contents files.new other ≡ F.contents files.old other }

    // `gen`: the run of a seed's machine is reported in three lines, by the outputs of its model after those steps; files and drives are
    // as they were.
    ensures seeded { (asked : Seeded) → seeded_of (texts words.now) ≡ Some asked
        → EndsSeeded asked (S.written sink.old) (S.written sink.new) (S.faults sink.old) (S.faults sink.new) result }
    ensures seeded_files { (asked : Seeded) → seeded_of (texts words.now) ≡ Some asked → files.new ≡ files.old }
    ensures seeded_drives { (asked : Seeded) → seeded_of (texts words.now) ≡ Some asked → drives.new ≡ drives.old }
{
    let Some(asked) = read_words(words) else {
        return run_seeded_words(alloc, words, sink);
    };
    let mut nobody = Nobody;
    run_command(
        alloc,
        name_of(words),
        asked,
        files,
        drives,
        sink,
        &mut nobody,
    )
}

/// The name of the file that the second word says.
fn name_of(words: &[String]) -> &str
    requires { 3 ≤ length words.now }
    ensures { result.now ≡ slice_index_or (texts words.now) 1 [] }
{
    words[1].as_str()
}

/// Does what a command asks of a file. After its last step, before the end of its run, someone looks at its machine.
pub fn run_command<F: Files, D: Drives, S: Sink, V: Look>(
    alloc: Global,
    name: &str,
    asked: Asked,
    files: &mut F,
    drives: &mut D,
    sink: &mut S,
    look: &mut V,
) -> Status
    requires { asked.steps ≤ GREATEST_STEP }
    ensures { DoesCommand (sink.new ≡ sink.old) (drives.new ≡ drives.old) (F.missing files.old) (λ system. V.saw look.old system look.new) (command_on name.now asked)
        (seen_by F.Files D.Drives S.Sink files.old drives.old sink.old) (seen_by F.Files D.Drives S.Sink files.new drives.new sink.new) result }
{
    match boot(alloc, name, asked.form, files, drives) {
        Ok(mut machine) => {
            match run_to_end::<D, S, V, Brand>(
                &mut machine,
                asked,
                drives,
                sink,
                look,
                Blank::new(1),
            ) {
                Ok(()) => Status::Ran,
                Err(error) => stopped(error),
            }
        }
        Err(status) => status,
    }
}

/// How a command ends whose run stopped.
fn stopped(error: RunFault) -> Status
    ensures { result ≡ stopped_by error }
{
    match error.fault {
        StepFault::DiskFault => Status::DiskFault { step: error.step },
        StepFault::WriteFault => Status::WriteFault { step: error.step },
    }
}

/// Closes the unfinished lines where a drive failed; where the sink did nothing is written any more.
fn close<S: Sink>(fault: StepFault, render: &mut Render, sink: &mut S)
    ensures { ClosesUnfinished S.Sink fault render.old sink.old sink.new }
{
    match fault {
        StepFault::DiskFault => {
            let _ = render.finish(sink);
        }
        StepFault::WriteFault => {}
    }
}

/// Runs a machine that begins for so many steps, after which someone looks at it; carries the call in service to its end, syncs the
/// drives, and closes the unfinished lines. Where a drive fails these are closed too.
fn run_to_end<D: Drives, S: Sink, V: Look, L: Ledger>(
    machine: &mut Machine,
    asked: Asked,
    drives: &mut D,
    sink: &mut S,
    look: &mut V,
    blank: Blank,
) -> Result<(), RunFault>
    requires { MayRunToEnd D.disks machine.old asked.steps drives.old blank.name L.name blank.parts L.parts }
    ensures { RunsToEnd D.Drives (λ system. V.saw look.old system look.new) asked machine.old drives.old drives.new
        (printed S.written S.faults sink.old) (printed S.written S.faults sink.new) result }
{
    let mut steps = Steps::<L>::new(blank);
    let mut render = Render::new(asked.trace);
    match machine.run(asked.steps, drives, &mut render, sink, &mut steps) {
        Ok(()) => {}
        Err(error) => {
            close(error.fault, &mut render, sink);
            return Err(error);
        }
    }
    look.look(machine);
    match machine.settle(drives, &mut render, sink, &mut steps) {
        Ok(()) => Ok(()),
        Err(fault) => {
            close(fault, &mut render, sink);
            Err(RunFault {
                step: asked.steps,
                fault,
            })
        }
    }
}
