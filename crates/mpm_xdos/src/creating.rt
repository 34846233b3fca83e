ghost use Rattle.std.specs.Prelude.{◌≡◌, ℕ, Some, ◌≤◌, ◌<◌, ◌*◌, ◌+◌, ◌/◌, length};
ghost use Rattle.std.specs.List.{list_all};
ghost use Rattle.mpm_banks.specs.Memory.{HasSegment};
ghost use Rattle.mpm_kernel.specs.Kernel.{BecomesSound};
ghost use Rattle.mpm_xdos.specs.Creating.{child_of as child_asked_for, child_at as child_asked_at, children_of, home_base, all_admitted, has_console};
ghost use Rattle.mpm_xdos.specs.Calling.{MayCreate, CreatesProcesses, TellsMayCreate, MayAdmitAll};

use arrayvec::ArrayVec;
use mpm_banks::Banks;
use mpm_base::{FAILURE_CODE, Name8, Pid, Reply, Seg};
use mpm_kernel::Kernel;
use mpm_procs::{NewProcess, Process};

/// A descriptor's 16 bytes, and the word at its stack pointer.
const DESCRIPTOR: usize = 18;

/// Creates the processes that the descriptors of a living process's call ask for, in its segment: all of them or, where a
/// slot or a console lacks, none.
#[tactic(auto, unfolding(crate::specs::Creating::created, crate::specs::Creating::create_answer))]
pub fn create(kernel: &mut Kernel, banks: &Banks, p: Pid, reply: &mut Reply)
    requires { MayCreate p kernel.old banks.now }
    ensures { CreatesProcesses p kernel.old kernel.new banks.now reply.new }
{
    let base = base_of(banks, kernel.segment(p));
    let parent = *kernel.living(p);
    let descriptors = copied(kernel.kept_call(p).taken());
    if may_create(kernel, &parent, base, descriptors.as_slice()) {
        admit_all(kernel, &parent, base, descriptors.as_slice());
        reply.answer(0);
    } else {
        reply.answer(FAILURE_CODE);
    }
}

/// The base page of the segment that a process has.
fn base_of(banks: &Banks, home: Option<Seg>) -> u8
    requires { (seg : ℕ) → home ≡ Some seg → HasSegment banks.now seg }
    ensures { result ≡ home_base banks.now home }
{
    match home {
        Some(seg) => banks.spec(seg).base,
        None => 0,
    }
}

/// At most 576 bytes: those of 32 descriptors.
fn copied(bytes: &[u8]) -> ArrayVec<u8, 576>
    requires { length bytes.now ≤ 576 }
    ensures { result.items ≡ bytes.now }
{
    let mut copy = ArrayVec::new();
    for &byte in bytes {
        copy.push(byte);
    }
    copy
}

/// Whether there is a slot for each process that descriptors ask for, and its console.
#[tactic(auto, using(crate::proofs::Children::may_create_none, crate::proofs::Children::may_create_some))]
fn may_create(kernel: &Kernel, parent: &Process, base: u8, descriptors: &[u8]) -> bool
    ensures { TellsMayCreate (children_of parent.now base descriptors.now) kernel.now result }
{
    if kernel.free_slots() < descriptors.len() / DESCRIPTOR {
        return false;
    }
    have_consoles(kernel.consoles(), parent, base, descriptors)
}

/// Whether the machine has the console of each process that descriptors ask for.
fn have_consoles(consoles: u8, parent: &Process, base: u8, descriptors: &[u8]) -> bool
    ensures { result ≡ list_all (has_console consoles) (children_of parent.now base descriptors.now) }
{
    for number in 0..descriptors.len() / DESCRIPTOR {
        if consoles <= child_at(parent, base, descriptors, number).console {
            return false;
        }
    }
    true
}

/// Adds the processes that descriptors ask for, for which there are slots and consoles, one after the other.
fn admit_all(kernel: &mut Kernel, parent: &Process, base: u8, descriptors: &[u8])
    requires { MayAdmitAll (children_of parent.now base descriptors.now) kernel.old }
    ensures { BecomesSound (all_admitted (children_of parent.now base descriptors.now) kernel.old) kernel.new }
{
    for number in 0..descriptors.len() / DESCRIPTOR {
        let _admitted = kernel.admit(child_at(parent, base, descriptors, number));
    }
}

/// The process that one of the descriptors asks for.
fn child_at(parent: &Process, base: u8, descriptors: &[u8], number: usize) -> NewProcess
    requires { number < length descriptors.now / 18 }
    ensures { result ≡ child_asked_at parent.now base descriptors.now number }
{
    let first = DESCRIPTOR * number;
    child_of(parent, base, &descriptors[first..first + DESCRIPTOR])
}

/// The process that a descriptor asks for, in the segment, user and drive of the process that makes it.
#[tactic(auto, unfolding(crate::specs::Creating::child_of))]
fn child_of(parent: &Process, base: u8, descriptor: &[u8]) -> NewProcess
    requires { length descriptor.now ≡ 18 }
    ensures { result ≡ child_asked_for parent.now base descriptor.now }
{
    let mut name = [0; 8];
    name.copy_from_slice(&descriptor[6..14]);
    NewProcess {
        name: Name8(name),
        priority: descriptor[3],
        console: descriptor[14],
        seg: parent.seg,
        pc: u16::from_le_bytes([descriptor[16], descriptor[17]]),
        sp: u16::from_le_bytes([descriptor[4], descriptor[5]]).wrapping_add(2),
        dma: u16::from_le_bytes([0x80, base]),
        user: parent.user,
        drive: parent.drive,
    }
}
