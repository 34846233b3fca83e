ghost use Rattle.mpm_core_file.specs.CoreFiles.{IsCore};
ghost use Rattle.mpm_snapshot.specs.Parts.{FetchesFile, PutsRun, EndsResume};
ghost use Rattle.mpm_snapshot.specs.Endings.{Came, IsReadCore};

use crate::lines::line;
use crate::status::SnapStatus;
use mpm_core::Core;
use mpm_core_file::LARGEST_SIZE;
use mpm_port::{Failed, FetchError, Files, Sink};
use std::alloc::Global;

/// The first bytes of a file, as many as the largest core has, and one more.
#[tactic(auto, using(crate::proofs::ResumeLaws::came))]
fn fetch_core<F: Files>(alloc: Global, name: &str, files: &mut F) -> Result<Vec<u8>, SnapStatus>
    ensures { FetchesFile F.Files name.now (λ text. Came (F.missing files.old name.now) (F.contents files.old name.now) text.items) files.old files.new result }
{
    let mut text = Vec::new(alloc);
    match files.fetch(name, LARGEST_SIZE + 1, &mut text) {
        Ok(_) => Ok(text),
        Err(FetchError::Failed) => Err(SnapStatus::ReadFault),
        Err(FetchError::OutOfMemory) => Err(SnapStatus::OutOfMemory),
    }
}

/// Reads the core that a file has.
fn read_core<F: Files>(
    alloc: Global,
    name: &str,
    files: &mut F,
    core: &mut Core,
) -> Result<(), SnapStatus>
    ensures { FetchesFile F.Files name.now (λ _. IsReadCore (F.missing files.old name.now) (F.contents files.old name.now) core.new) files.old files.new result }
{
    let text = match fetch_core(alloc, name, files) {
        Ok(text) => text,
        Err(status) => return Err(status),
    };
    match core.read(text.as_slice()) {
        Ok(()) => Ok(()),
        Err(fault) => Err(SnapStatus::CoreFault { place: fault.place }),
    }
}

/// Runs the core on that a file has, by at most so many instructions, and writes a line about it.
pub(crate) fn resume<F: Files, S: Sink>(
    alloc: Global,
    name: &str,
    most: u64,
    files: &mut F,
    sink: &mut S,
) -> SnapStatus
    ensures { EndsResume F.Files S.Sink name.now most files.old files.new sink.old sink.new result }
{
    let mut core = match Core::new(alloc) {
        Ok(core) => core,
        Err(_) => return SnapStatus::OutOfMemory,
    };
    match read_core(alloc, name, files, &mut core) {
        Ok(()) => run_on(&mut core, most, sink),
        Err(status) => status,
    }
}

/// Runs a core on by at most so many instructions, and writes a line about it.
fn run_on<S: Sink>(core: &mut Core, most: u64, sink: &mut S) -> SnapStatus
    requires { IsCore core.old }
    ensures { PutsRun S.Sink most core.old sink.old sink.new result }
{
    let replayed = core.replay(most);
    match sink.put(line(core.head(), replayed).as_slice()) {
        Ok(()) => SnapStatus::Done,
        Err(Failed) => SnapStatus::WriteFault,
    }
}
