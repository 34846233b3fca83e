ghost use Rattle.std.specs.Prelude.{◌≡◌, ◌&&◌};
ghost use Rattle.mpm_procs.specs.Table.{Lives, lives};
ghost use Rattle.mpm_xdos.specs.Ending.{LivesInMemory};
ghost use Rattle.mpm_xdos.specs.Aborting.{copy_address as address_of_copy, has_name as has_name_of, is_described as is_described_by, described as described_by, target as target_of, waits_to_end as waits_to_end_of};
ghost use Rattle.mpm_xdos.specs.Calling.{FindsLiving, EndsOrPutsOff, AbortsProcess};

use crate::ending::end;
use mpm_banks::Banks;
use mpm_base::{Call, Pid};
use mpm_kernel::Kernel;
use mpm_procs::Process;

/// The process that the call 157 of a living process is to abort: by the address of its descriptor or, where that is 0, the
/// lowest of that name and that console. None where no such process lives, and where it is a resident, which has no segment.
/// (MP/M II Programmer's Guide, "Function 157: Abort Specified Process".)
#[tactic(auto, unfolding(crate::specs::Aborting::target))]
pub fn target(kernel: &Kernel, p: Pid) -> Option<Pid>
    requires { Lives kernel.now.dispatcher.procs p }
    ensures { FindsLiving (target_of kernel.now.dispatcher.procs p) kernel.now.dispatcher.procs result }
{
    let Some(q) = described(kernel, kernel.kept_call(p)) else {
        return None;
    };
    if kernel.segment(q).is_some() {
        Some(q)
    } else {
        None
    }
}

/// Aborts a living process: it ends, as by `end`; a resident, which has no segment, isn't aborted. While it holds the message
/// of a mutual exclusion queue, and while a call of it is in service, its end is put off: only `abort_due` becomes true. (MP/M
/// II Programmer's Guide, "Function 157: Abort Specified Process".)
pub fn abort(kernel: &mut Kernel, banks: &mut Banks, p: Pid)
    requires { LivesInMemory p kernel.old banks.old }
    ensures { AbortsProcess p kernel.old kernel.new banks.old banks.new }
{
    end_or_put_off(kernel, banks, p);
}

/// Whether the end of a process by an abort is put off: while a call of it is in service, and while it holds the message of a
/// mutual exclusion queue.
pub fn waits_to_end(kernel: &Kernel, p: Pid) -> bool
    ensures { result ≡ waits_to_end_of kernel.now p }
{
    kernel.is_served(p) || kernel.holds(p)
}

/// A process that isn't a resident ends, or its end is put off.
#[tactic(auto, unfolding(crate::specs::Aborting::abort_done, crate::specs::Aborting::memory_after_abort))]
fn end_or_put_off(kernel: &mut Kernel, banks: &mut Banks, p: Pid)
    requires { LivesInMemory p kernel.old banks.old }
    ensures { EndsOrPutsOff p kernel.old kernel.new banks.old banks.new }
{
    if kernel.segment(p).is_none() {
        return;
    }
    if waits_to_end(kernel, p) {
        kernel.process_mut(p).abort_due = true;
    } else {
        end(kernel, banks, p);
    }
}

/// The living process that a call describes, the lowest of them.
#[tactic(auto, using(mpm_queues::proofs::Finding::failed_none, mpm_queues::proofs::Finding::failed_more, mpm_queues::proofs::Finding::found_lowest, mpm_queues::proofs::Finding::found_none))]
fn described(kernel: &Kernel, call: &Call) -> Option<Pid>
    ensures { FindsLiving (described_by call.now kernel.now.dispatcher.procs) kernel.now.dispatcher.procs result }
{
    for number in 0..32 {
        if lives_described(kernel, call, Pid(number)) {
            return Some(Pid(number));
        }
    }
    None
}

/// Whether the process of that number lives, and is the one that a call describes.
fn lives_described(kernel: &Kernel, call: &Call, q: Pid) -> bool
    ensures { result ≡ (lives kernel.now.dispatcher.procs q && is_described_by call.now kernel.now.dispatcher.procs q) }
{
    kernel.lives(q) && is_described(kernel, call, q)
}

/// Whether a living process is the one that a call describes.
#[tactic(auto, unfolding(crate::specs::Aborting::is_described))]
fn is_described(kernel: &Kernel, call: &Call, q: Pid) -> bool
    requires { Lives kernel.now.dispatcher.procs q }
    ensures { result ≡ is_described_by call.now kernel.now.dispatcher.procs q }
{
    let address = u16::from_le_bytes([call.byte(0), call.byte(1)]);
    if address == 0 {
        has_name(call, kernel.living(q))
    } else {
        copy_address(q) == address
    }
}

/// Whether a process has the name and the console that a call gives.
#[tactic(auto, unfolding(crate::specs::Aborting::has_name))]
fn has_name(call: &Call, process: &Process) -> bool
    ensures { result ≡ has_name_of call.now process.now }
{
    process.name == call.name(4) && process.console == call.byte(12)
}

/// The address of the copy of a process's descriptor in common memory.
pub(crate) fn copy_address(q: Pid) -> u16
    ensures { result ≡ address_of_copy q }
{
    0xF800 + 52 * u16::from(q.0)
}
