//! A program that is placed into the one segment of a machine without residents, and its run.
ghost use Rattle.std.specs.Prelude.{ℕ, ◌≡◌, ◌<◌, ◌≤◌, ◌+◌, ◌*◌, length, get_or};
ghost use Rattle.std.specs.Bool.{OnTrue};
ghost use Rattle.mpm_machine_file.specs.MachineFiles.{IsMachine};
ghost use Rattle.mpm_system.specs.Opening.{IsBare, MayPlace};

use crate::play::run;
use mpm_base::{Name8, Seg};
use mpm_drives::BootError;
use mpm_machine::Machine;
use mpm_machine_file::MachineFile;
use mpm_port::{MemoryDrives, MemorySink};
use mpm_script::Script;
use mpm_top::Status;
use std::alloc::Global;
use std::marker::Brand;
use std::sync::ledger::Blank;
use std::test::Fail;

/// Whether the first segment has room for a program.
fn has_room(file: &MachineFile, program: &[u8]) -> bool
    ensures there { OnTrue result (0 < length file.now.segments) }
    ensures room { OnTrue result (length program.now + 640 ≤ 256 * (get_or file.now.segments 0 (record { base = 0; pages = 0 })).pages) }
{
    let segments = file.segments.as_slice();
    if segments.is_empty() || 48512 < program.len() {
        return false;
    }
    program.len() + 640 <= 256 * usize::from(segments[0].pages)
}

/// Places a program in the first segment, if there is room: whether it is process 0.
fn is_placed(machine: &mut Machine, file: &MachineFile, program: &[u8]) -> bool
    requires file { IsMachine file.now }
    requires bare { IsBare machine.old.system }
    requires free { (size : ℕ) → 0 < length file.now.segments → size + 640 ≤ 256 * (get_or file.now.segments 0 (record { base = 0; pages = 0 })).pages
        → MayPlace machine.old.system 0 0 size }
    ensures bare { IsBare machine.new.system }
    ensures disk { machine.new.system.kernel.disk ≡ machine.old.system.kernel.disk }
    ensures bdos { machine.new.bdos ≡ machine.old.bdos }
{
    if !has_room(file, program) {
        return false;
    }
    let p = machine.place(Seg(0), Name8(*b"FIRST   "), 200, 0, program);
    p.0 == 0
}

/// How the run of a program in the first segment ends, which has so many steps and is traced.
pub(crate) fn run_placed(
    alloc: Global,
    file: &MachineFile,
    drives: &mut MemoryDrives,
    sink: &mut MemorySink,
    program: &[u8],
    steps: u64,
) -> Result<Status, Fail>
    requires file { IsMachine file.now }
    requires most { steps ≤ 400000 }
{
    let script = Script::empty(alloc);
    match Machine::boot_bare(alloc, file, script, drives) {
        Ok(mut machine) => {
            let placed = is_placed(&mut machine, file, program);
            let blank = Blank::new(1);
            let status = run::<Brand>(&mut machine, steps, true, true, drives, sink, blank);
            if placed {
                Ok(status)
            } else {
                Err(Fail::from("the program has no room"))
            }
        }
        Err(BootError::DiskFault) => Ok(Status::DiskFault { step: 0 }),
        Err(error) => Err(Fail::from(error)),
    }
}
