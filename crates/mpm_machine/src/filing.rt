ghost use Rattle.std.specs.Prelude.{◌≡◌, ◌<◌, ◌*◌, Option, Some, None, IfOk};
ghost use Rattle.mpm_procs.specs.Table.{Lives, call_of};
ghost use Rattle.mpm_file_functions.specs.declared.functions.FileFunction.{FileFunction};
ghost use Rattle.mpm_file_functions.specs.Functions.{function_of};
ghost use Rattle.mpm_bdos.specs.Serving.{nothing_kept};
ghost use Rattle.mpm_directories.specs.Places.{in_places as in_their_places};
ghost use Rattle.mpm_machine.specs.Files.{all_left};
ghost use Rattle.mpm_machine.specs.Holding.{HoldsDrives};
ghost use Rattle.mpm_machine.specs.Filed.{left_if};
ghost use Rattle.mpm_machine.specs.Parts.{DoesCall, WorksOnDrives, CallsDirectly};
ghost use Rattle.mpm_machine.specs.PartCalls.{CountsRecords, LooksAt, MayCallAtOnce, MayCallDisk, MayStartCall, HasEnteredService, GivesBack};

use mpm_base::{Pid, Reply, Steps};
use mpm_bdos::{Bdos, Extended, FileFunction, in_places};
use mpm_mount::Mounted;
use mpm_port::{Drives, Failed};
use mpm_procs::Process;
use mpm_service::Turn;
use mpm_system::{Owed, System};
use std::alloc::{AllocError, Global};
use std::sync::ledger::Ledger;

/// Gives back what those had open and marked who ended and owe it, slot by slot.
pub(crate) fn give_back(bdos: &mut Bdos, owed: &Owed)
    ensures { GivesBack (all_left owed.now) bdos.old bdos.new }
{
    for number in 0..32 {
        let gone = owed.owes(number);
        leave_if(bdos, Pid(number), gone);
    }
}

/// Gives back what a process has open and marked, if it is gone.
fn leave_if(bdos: &mut Bdos, p: Pid, gone: bool)
    ensures { GivesBack (left_if gone p) bdos.old bdos.new }
{
    if gone {
        bdos.give_back(p);
    }
}

/// A process as a file call looks at it.
fn looked_at(process: &Process) -> Process
    requires { CountsRecords process.now }
    ensures { LooksAt process.now result }
{
    Process {
        user: process.user % 16,
        ..*process
    }
}

/// Does the call on files that a process keeps, but for what becomes of the process: with its extended error, if it has one. Where a
/// call is in service, it is one that no disk serves.
pub(crate) fn call_files<D: Drives, L: Ledger>(
    system: &System,
    bdos: &mut Bdos,
    p: Pid,
    reply: &mut Reply,
    drives: &mut D,
    calls: &mut Steps<L>,
) -> Result<Option<Extended>, Failed>
    requires { MayCallAtOnce D.disks p system.now bdos.old drives.old }
    ensures { DoesCall D.Drives p system.now bdos.old bdos.new reply.new drives.old drives.new calls.old calls.new result }
{
    let call = system.kernel.kept_call(p);
    match FileFunction::of(call.function) {
        Some(_) => call_disk(system, bdos, p, reply, drives, calls),
        None => Ok(call_directly(system, bdos, p, reply)),
    }
}

/// As `call_files`, for a call that the disk serves.
fn call_disk<D: Drives, L: Ledger>(
    system: &System,
    bdos: &mut Bdos,
    p: Pid,
    reply: &mut Reply,
    drives: &mut D,
    calls: &mut Steps<L>,
) -> Result<Option<Extended>, Failed>
    requires { MayCallDisk D.disks p system.now bdos.old drives.old }
    ensures { DoesCall D.Drives p system.now bdos.old bdos.new reply.new drives.old drives.new calls.old calls.new result }
{
    let caller = looked_at(system.kernel.living(p));
    let now = system.kernel.now();
    bdos.call_at_once(
        p,
        system.kernel.kept_call(p),
        &caller,
        now,
        drives,
        calls,
        reply,
    )
}

/// As `call_files`, for a call that no disk serves.
fn call_directly(system: &System, bdos: &Bdos, p: Pid, reply: &mut Reply) -> Option<Extended>
    requires lives { Lives system.now.kernel.dispatcher.procs p }
    requires function { function_of (call_of system.now.kernel.dispatcher.procs p).function ≡ None }
    ensures { CallsDirectly p system.now bdos.now reply.new result }
{
    reply.answer(0);
    bdos.direct(system.kernel.kept_call(p), system.kernel.living(p), reply)
}

/// The call of a process enters service, in the situation of this moment: how many turns it takes.
#[cold]
#[inline(never)]
pub(crate) fn start_call(system: &System, bdos: &mut Bdos, p: Pid) -> u32
    requires { MayStartCall p system.now }
    ensures { HasEnteredService p result system.now bdos.old bdos.new }
{
    let caller = looked_at(system.kernel.living(p));
    bdos.start(p, system.kernel.kept_call(p), &caller, system.kernel.now())
}

/// The disk's work in a step: where this is the last one of a turn, that turn of the call in service is done on its drive.
pub(crate) fn work<D: Drives, L: Ledger>(
    system: &System,
    bdos: &mut Bdos,
    drives: &mut D,
    calls: &mut Steps<L>,
) -> Result<(), Failed>
    requires { HoldsDrives D.disks system.now.kernel bdos.old drives.old }
    ensures { WorksOnDrives D.Drives system.now bdos.old bdos.new drives.old drives.new calls.old calls.new result }
{
    if let Turn::Work { .. } = system.kernel.disk().ahead() {
        if let Err(Failed) = bdos.turn(drives, calls) {
            return Err(Failed);
        }
    }
    Ok(())
}

/// What is kept of files and drives as a machine begins, with these directories of its drives.
pub(crate) fn bdos_of(alloc: Global, mounted: Vec<Mounted>) -> Result<Bdos, AllocError>
    ensures { IfOk result (λ bdos. bdos ≡ nothing_kept (in_their_places mounted.items)) }
{
    let places = match in_places(alloc, mounted) {
        Ok(places) => places,
        Err(_) => return Err(AllocError),
    };
    match Bdos::new(alloc, places) {
        Ok(bdos) => Ok(bdos),
        Err(_) => Err(AllocError),
    }
}
