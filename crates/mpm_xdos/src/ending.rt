ghost use Rattle.std.specs.Prelude.{◌≡◌, ◌&&◌, Some};
ghost use Rattle.mpm_banks.specs.Memory.{HasSegment};
ghost use Rattle.mpm_procs.specs.Table.{lives};
ghost use Rattle.mpm_xdos.specs.Ending.{LivesInMemory, vacated_if_empty, is_home as is_home_in, lives_in as lives_in_segment};
ghost use Rattle.mpm_xdos.specs.Calling.{EndsInMemory};

use mpm_banks::Banks;
use mpm_base::{Pid, Seg};
use mpm_kernel::Kernel;

/// Ends a living process. It is taken out of the kernel, to which its messages go back and in which its consoles and printers pass on. It
/// gives back the segments that it reserved, and its own where nobody else lives there.
#[tactic(auto, using(mpm_banks::proofs::SegmentLaws::count_all_released, crate::proofs::Homes::vacated_if_empty_none), unfolding(crate::specs::Ending::memory_without))]
pub fn end(kernel: &mut Kernel, banks: &mut Banks, p: Pid)
    requires { LivesInMemory p kernel.old banks.old }
    ensures { EndsInMemory p kernel.old kernel.new banks.old banks.new }
{
    let home = kernel.segment(p);
    kernel.discharge(p);
    banks.release_all(p);
    if let Some(seg) = home {
        leave(kernel, banks, seg);
    }
}

/// Frees a segment in which nobody lives.
#[tactic(auto, unfolding(crate::specs::Ending::vacated_if_empty))]
fn leave(kernel: &Kernel, banks: &mut Banks, seg: Seg)
    requires { HasSegment banks.old seg }
    ensures { banks.new ≡ vacated_if_empty banks.old kernel.now.dispatcher.procs (Some seg) }
{
    if !is_home(kernel, seg) {
        banks.vacate(seg);
    }
}

/// Whether a process lives in that segment.
#[tactic(auto, unfolding(crate::specs::Ending::is_home))]
fn is_home(kernel: &Kernel, seg: Seg) -> bool
    ensures { result ≡ is_home_in kernel.now.dispatcher.procs seg }
{
    for number in 0..32 {
        if lives_in(kernel, Pid(number), seg) {
            return true;
        }
    }
    false
}

/// Whether the process of that number lives, in that segment.
fn lives_in(kernel: &Kernel, p: Pid, seg: Seg) -> bool
    ensures { result ≡ lives_in_segment kernel.now.dispatcher.procs seg p }
{
    kernel.lives(p) && kernel.segment(p) == Some(seg)
}
