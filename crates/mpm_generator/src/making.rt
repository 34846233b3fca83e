ghost use Rattle.std.specs.Prelude.{◌≡◌, IfOk, length};
ghost use Rattle.mpm_port.specs.MemoryDisks.{no_disks, with_image};
ghost use Rattle.mpm_generator.specs.Machines.{machine as machine_said, script as script_said, name_of_image, typed as typed_text, drives_of};
ghost use Rattle.mpm_generator.specs.Generating.{IsMachineWith};

use crate::imaging::image;
use mpm_base::{Kind, SegmentSpec};
use mpm_machine_file::{DriveSpec, DriveSpecs, MachineFile, Segments, Text};
use mpm_port::{MemoryDrives, OutOfMemory};
use mpm_script::{Script, ScriptError, read_script};
use std::alloc::Global;

/// A machine that is made of a seed, with what is typed at its consoles, and its drives.
#[derive(Drop)]
pub struct Generated {
    /// The machine.
    pub machine: MachineFile,
    /// What is typed at its consoles.
    pub script: Script,
    /// Its drives, with their images.
    pub drives: MemoryDrives,
}

/// The machine of a seed.
///
/// # Errors
/// Where no memory is found.
pub fn generate(alloc: Global, seed: u32) -> Result<Generated, OutOfMemory>
    ensures { IfOk result (IsMachineWith (drives_of seed)) }
{
    match drives(alloc, seed) {
        Ok(drives) => with_drives(alloc, drives),
        Err(error) => Err(error),
    }
}

/// The machine with these drives.
fn with_drives(alloc: Global, drives: MemoryDrives) -> Result<Generated, OutOfMemory>
    ensures { IfOk result (IsMachineWith drives) }
{
    match machine(alloc) {
        Ok(machine) => match script(alloc) {
            Ok(script) => Ok(Generated {
                machine,
                script,
                drives,
            }),
            Err(error) => Err(error),
        },
        Err(error) => Err(error),
    }
}

/// Two consoles, two segments of all pages, a drive.
fn machine(alloc: Global) -> Result<MachineFile, OutOfMemory>
    ensures { IfOk result (λ machine. machine ≡ machine_said) }
{
    let segments = segments(alloc)?;
    let drives = drive(alloc)?;
    Ok(MachineFile {
        consoles: 2,
        printers: 0,
        tick_every: 1000,
        disk_turn: 20,
        date: 1,
        hour: 0,
        minute: 0,
        second: 0,
        segments,
        drives,
        script: None,
        spool: false,
        sched: false,
    })
}

/// Two segments, each of 192 pages from 0 on.
fn segments(alloc: Global) -> Result<Segments, OutOfMemory>
    ensures { IfOk result (λ segments. segments ≡ machine_said.segments) }
{
    let whole = SegmentSpec {
        base: 0,
        pages: 192,
    };
    let segments = vec![in alloc; whole; 2]?;
    Ok(Segments::of(segments))
}

/// Drive A.
fn drive(alloc: Global) -> Result<DriveSpecs, OutOfMemory>
    ensures { IfOk result (λ drives. drives ≡ machine_said.drives) }
{
    let image = Text::of(String::from_str(alloc, "a")?);
    let mut drives = Vec::new(alloc);
    match drives.push(DriveSpec {
        letter: b'A',
        kind: Kind::Hd4,
        image,
    }) {
        Ok(()) => Ok(DriveSpecs::of(drives)),
        Err(_) => Err(OutOfMemory),
    }
}

/// The script.
#[tactic(auto, using(crate::proofs::Typed::script_is, crate::proofs::Typed::no_fault))]
fn script(alloc: Global) -> Result<Script, OutOfMemory>
    ensures { IfOk result (λ script. script ≡ script_said) }
{
    match read_script(alloc, typed()) {
        Ok(script) => Ok(script),
        Err(ScriptError::OutOfMemory) => Err(OutOfMemory),
        Err(ScriptError::Fault { line: _ }) => unreachable!(),
    }
}

/// What is typed, as a script: the name of a program at each console.
#[tactic(auto, unfolding(crate::specs::Machines::typed))]
fn typed() -> &'static [u8]
    ensures text { result.now ≡ typed_text }
    ensures size { length result.now ≡ 26 }
{
    b"0 key 0 g0\\r\n0 key 1 g1\\r\n"
}

/// The drive's image, under its name.
fn drives(alloc: Global, seed: u32) -> Result<MemoryDrives, OutOfMemory>
    ensures { IfOk result (λ drives. drives ≡ drives_of seed) }
{
    match image(alloc, seed) {
        Ok(image) => named(alloc, image.as_slice()),
        Err(error) => Err(error),
    }
}

/// An image under the name that the machine gives.
fn named(alloc: Global, image: &[u8]) -> Result<MemoryDrives, OutOfMemory>
    ensures { IfOk result (λ drives. drives ≡ with_image no_disks name_of_image image.now) }
{
    let mut drives = MemoryDrives::new(alloc);
    match drives.add("a", image) {
        Ok(()) => Ok(drives),
        Err(error) => Err(error),
    }
}
