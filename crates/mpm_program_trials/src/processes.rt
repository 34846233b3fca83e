//! Processes that a program creates, ends and aborts, and resident procedures, in scenes of one kernel.
ghost use Rattle.std.specs.Prelude.{◌≡◌, ◌≤◌, ◌*◌, length, IfOk};
ghost use Rattle.mpm_kernel.specs.Kernel.{IsSoundKernel};

use crate::processes::Line::{
    Abort, Begin, BeginResident, Create, End, FreeSlots, IsChild, IsDue, Lives, Next, Occupy,
    Reserve, Serve, Targets,
};
use mpm_banks::Banks;
use mpm_base::{Call, Name8, Pid, Reply, Seg, SegmentSpec, functions};
use mpm_clock::Moment;
use mpm_kernel::{Kernel, Turn};
use mpm_procs::{NewProcess, Process};
use mpm_xdos::{abort, create, end, target};
use std::alloc::{AllocError, Global};
use std::test::Fail;

mod procedures;

/// Memory with two segments of sixteen pages.
fn memory(alloc: Global) -> Result<Banks, AllocError> {
    let low = SegmentSpec {
        base: 0x40,
        pages: 16,
    };
    let high = SegmentSpec {
        base: 0x60,
        pages: 16,
    };
    Banks::new(alloc, &[low, high])
}

/// A process of the first segment, of user 3 on drive B.
fn parent() -> NewProcess
    ensures { result.console ≡ 0 }
{
    NewProcess {
        name: Name8(*b"PARENT  "),
        priority: 200,
        console: 0,
        seg: Some(Seg(0)),
        pc: 0x4100,
        sp: 0x4EFE,
        dma: 0x4080,
        user: 3,
        drive: 1,
    }
}

/// A kernel of two consoles with that process.
#[tactic(auto, using(mpm_kernel::proofs::SoundLaws::sound_new, mpm_kernel::proofs::SoundLaws::sound_in_slot))]
fn kernel(alloc: Global) -> Result<Kernel, AllocError>
    ensures { IfOk result (λ kernel. IsSoundKernel kernel) }
{
    let now = Moment {
        date: 1,
        hour: 0,
        minute: 0,
        second: 0,
    };
    let mut kernel = Kernel::new(alloc, 2, 1, now)?;
    let _p = kernel.admit(parent());
    Ok(kernel)
}

/// A call 144 of so many descriptors: of priority 199, with the stack at 4150h, where 4120h stands, and of that console.
fn describe(call: &mut Call, count: usize, console: u8)
    requires { count ≤ 32 }
    ensures { length call.new.bytes ≡ 18 * count }
{
    call.begin(functions::CREATE_PROCESS, 0x4130, 0x4080);
    for _number in 0..count {
        call.append(&[0, 0, 0, 199, 0x50, 0x41]);
        call.append(b"CHILD   ");
        call.append(&[console, 0, 0x20, 0x41]);
    }
}

/// What the first process, which lives in the first segment, is answered where it asks for so many processes of that
/// console.
#[tactic(auto, using(mpm_xdos::proofs::Beginning::sound_created))]
fn answer(kernel: &mut Kernel, banks: &Banks, count: usize, console: u8) -> Option<u16>
    requires sound { IsSoundKernel kernel.old }
    requires few { count ≤ 32 }
    ensures { IsSoundKernel kernel.new }
{
    if 1 <= banks.segments() && kernel.lives(Pid(0)) && kernel.segment(Pid(0)) == Some(Seg(0)) {
        describe(kernel.call_mut(Pid(0)), count, console);
        let mut reply = Reply::new();
        create(kernel, banks, Pid(0), &mut reply);
        return Some(reply.hl);
    }
    None
}

/// Ends the process of a number, which lives in the first segment.
#[tactic(auto, using(mpm_kernel::proofs::EndingLaws::sound_discharged))]
fn finish(kernel: &mut Kernel, banks: &mut Banks, p: Pid) -> bool
    requires { IsSoundKernel kernel.old }
    ensures { IsSoundKernel kernel.new }
{
    if 1 <= banks.segments() && kernel.lives(p) && kernel.segment(p) == Some(Seg(0)) {
        end(kernel, banks, p);
        return true;
    }
    false
}

/// A call 157 that gives the address of a process descriptor, a name, and a console.
fn name_to_abort(call: &mut Call, address: u16, name: &[u8; 8], console: u8) {
    call.begin(functions::ABORT_SPECIFIED_PROCESS, 0x4130, 0x4080);
    call.append(&address.to_le_bytes());
    call.append(&[0, 0]);
    call.append(name);
    call.append(&[console]);
}

/// The process that the first process is to abort, where it gives the address of a process descriptor, a name, and a console.
#[tactic(auto, using(mpm_procs::proofs::MapLaws::lives_after))]
fn aborted_by_first(kernel: &mut Kernel, address: u16, name: &[u8; 8], console: u8) -> Option<Pid>
    requires { IsSoundKernel kernel.old }
    ensures { IsSoundKernel kernel.new }
{
    if kernel.lives(Pid(0)) {
        name_to_abort(kernel.call_mut(Pid(0)), address, name, console);
        return target(kernel, Pid(0));
    }
    None
}

/// A process of that name and console, in the first segment or in none.
fn named(name: &[u8; 8], console: u8, seg: Option<Seg>) -> NewProcess {
    NewProcess {
        name: Name8(*name),
        console,
        seg,
        ..parent()
    }
}

/// One more process begins, where its console is there and a slot is free.
#[tactic(auto, using(mpm_kernel::proofs::SoundLaws::sound_in_slot))]
fn begin(kernel: &mut Kernel, new: NewProcess) -> bool
    requires { IsSoundKernel kernel.old }
    ensures { IsSoundKernel kernel.new }
{
    if new.console < kernel.consoles() {
        return kernel.admit(new).is_ok();
    }
    false
}

/// The call of the process that runs waits for the disk and enters service, where it serves nobody else.
#[tactic(auto, using(mpm_kernel::proofs::DiskLaws::sound_in_turns, mpm_kernel::proofs::SoundLaws::runner_lives), unfolding(mpm_kernel::specs::Disk::waiting_for_disk, mpm_service::specs::Disk::entered, mpm_service::specs::Disk::no_service))]
fn enter_service(kernel: &mut Kernel) -> bool
    requires { IsSoundKernel kernel.old }
    ensures { IsSoundKernel kernel.new }
{
    kernel.pick(false);
    let Some(p) = kernel.running() else {
        return false;
    };
    kernel.set_disk_turn(20);
    kernel.wait_for_disk(p);
    kernel.turn_disk() == Turn::Starts { p }
}

/// Aborts the process of a number, which lives in the first segment; answers whether it lives on.
#[tactic(auto, using(mpm_xdos::proofs::AbortLaws::sound_aborted))]
fn lives_after_abort(kernel: &mut Kernel, banks: &mut Banks, p: Pid) -> bool
    requires { IsSoundKernel kernel.old }
    ensures { IsSoundKernel kernel.new }
{
    if 1 <= banks.segments() && kernel.lives(p) && kernel.segment(p) == Some(Seg(0)) {
        abort(kernel, banks, p);
    }
    kernel.lives(p)
}

/// A line of a scene: what is done, with its answer, or what is seen. A process is named by its slot.
#[derive(Clone, Copy)]
enum Line<'a> {
    /// The first process asks for so many processes of a console, and is answered so.
    Create(usize, u8, u16),
    /// A program of that name and console begins.
    Begin(&'a [u8; 8], u8),
    /// A resident of that name and console begins.
    BeginResident(&'a [u8; 8], u8),
    /// A process that lives in the first segment ends.
    End(u8),
    /// A process reserves a segment of a base page and so many pages, and gets that one, if any.
    Reserve(u8, u8, u8, Option<u8>),
    /// The first segment is lived in.
    Occupy,
    /// Whom the first process is to abort, by the address of a descriptor, a name and a console.
    Targets(u16, &'a [u8; 8], u8, Option<u8>),
    /// A process that lives in the first segment is aborted; it lives on or not.
    Abort(u8, bool),
    /// The call of the process that runs next enters service.
    Serve,
    /// Whether the end of a process is put off.
    IsDue(u8, bool),
    /// Whether a process lives.
    Lives(u8, bool),
    /// So many more processes may live.
    FreeSlots(usize),
    /// Who runs next.
    Next(u8),
    /// A process is the child that the first one asked for, of that console.
    IsChild(u8, u8),
}

/// The slot of a process, if there is one.
fn slot(p: Option<Pid>) -> Option<u8> {
    match p {
        Some(p) => Some(p.0),
        None => None,
    }
}

/// A process reserves a segment: the number of that which it gets, if any.
fn reserve(banks: &mut Banks, p: Pid, base: u8, pages: u8) -> Option<u8> {
    match banks.reserve(p, Some(base), pages) {
        Some(seg) => Some(seg.0),
        None => None,
    }
}

/// The first segment, if it is there, is lived in.
fn occupy(banks: &mut Banks) -> bool {
    if banks.segments() < 1 {
        return false;
    }
    banks.occupy(Seg(0));
    true
}

/// Who runs next.
fn next(kernel: &mut Kernel) -> Option<u8>
    requires { IsSoundKernel kernel.old }
    ensures { IsSoundKernel kernel.new }
{
    kernel.pick(false);
    slot(kernel.running())
}

/// A line comes to pass, and all is so that it says.
fn passes(kernel: &mut Kernel, banks: &mut Banks, line: Line) -> bool
    requires { IsSoundKernel kernel.old }
    ensures { IsSoundKernel kernel.new }
{
    match line {
        Line::Create(count, console, value) => {
            count <= 32 && answer(kernel, banks, count, console) == Some(value)
        }
        Line::Begin(name, console) => begin(kernel, named(name, console, Some(Seg(0)))),
        Line::BeginResident(name, console) => begin(kernel, named(name, console, None)),
        Line::End(p) => finish(kernel, banks, Pid(p % 32)),
        Line::Reserve(p, base, pages, seg) => reserve(banks, Pid(p % 32), base, pages) == seg,
        Line::Occupy => occupy(banks),
        Line::Abort(p, lives) => lives_after_abort(kernel, banks, Pid(p % 32)) == lives,
        Line::Serve => enter_service(kernel),
        Line::Next(p) => next(kernel) == Some(p),
        Line::Targets(address, name, console, p) => {
            slot(aborted_by_first(kernel, address, name, console)) == p
        }
        _ => shows(kernel, line),
    }
}

/// What a line says of the kernel as it is is so.
fn shows(kernel: &Kernel, line: Line) -> bool {
    match line {
        Line::Lives(p, lives) => kernel.lives(Pid(p % 32)) == lives,
        Line::FreeSlots(count) => kernel.free_slots() == count,
        Line::IsDue(p, is_due) => match kernel.process(Pid(p % 32)) {
            Some(process) => process.abort_due == is_due,
            None => false,
        },
        Line::IsChild(p, console) => match kernel.process(Pid(p % 32)) {
            Some(process) => is_child(process, console),
            None => false,
        },
        _ => false,
    }
}

/// Whether a process is what the first one asked for: of its segment, user and drive, with the entry and the stack that the
/// descriptor names, and the DMA address of the base page.
fn is_child(child: &Process, console: u8) -> bool {
    child.name == Name8(*b"CHILD   ")
        && (child.priority, child.console) == (199, console)
        && (child.user, child.drive) == (3, 1)
        && (child.regs.pc, child.regs.sp) == (0x4120, 0x4152)
        && child.dma == 0x4080
        && child.seg == Some(Seg(0))
}

/// A scene of the first process alone, in the first of two segments.
fn play(alloc: Global, lines: &[Line]) -> Result<(), Fail> {
    let mut banks = memory(alloc)?;
    let mut kernel = kernel(alloc)?;
    play_on(&mut kernel, &mut banks, lines)
}

/// The lines of a scene, in order.
fn play_on(kernel: &mut Kernel, banks: &mut Banks, lines: &[Line]) -> Result<(), Fail>
    requires { IsSoundKernel kernel.old }
{
    for (number, line) in lines.iter().enumerate() {
        if !passes(kernel, banks, *line) {
            return Err(Fail::new(format_args!("line {number} of the scene, from 0")));
        }
    }
    Ok(())
}

#[test]
fn children_begin_in_their_parents_segment(rt: HostRuntime) -> Result<(), Fail> {
    play(
        rt.alloc(),
        &[
            Create(2, 1, 0),
            Lives(2, true),
            Lives(3, false),
            IsChild(1, 1),
            IsChild(2, 1),
            Next(1),
        ],
    )
}

#[test]
fn a_chain_for_which_slots_or_a_console_lack_makes_none(rt: HostRuntime) -> Result<(), Fail> {
    play(
        rt.alloc(),
        &[
            Create(1, 2, 0x00FF),
            Create(32, 0, 0x00FF),
            FreeSlots(31),
            Create(31, 0, 0),
            FreeSlots(0),
        ],
    )
}

#[test]
fn an_end_gives_back_what_was_reserved(rt: HostRuntime) -> Result<(), Fail> {
    play(
        rt.alloc(),
        &[
            Reserve(0, 0x60, 16, Some(1)),
            Reserve(1, 0x60, 16, None),
            End(0),
            Lives(0, false),
            Reserve(1, 0x60, 16, Some(1)),
        ],
    )
}

#[test]
fn a_segment_is_free_once_nobody_lives_there(rt: HostRuntime) -> Result<(), Fail> {
    play(
        rt.alloc(),
        &[
            Occupy,
            Create(1, 0, 0),
            End(0),
            Reserve(1, 0x40, 16, None),
            End(1),
            Reserve(2, 0x40, 16, Some(0)),
        ],
    )
}

#[test]
fn the_lowest_process_of_a_name_and_console_is_aborted(rt: HostRuntime) -> Result<(), Fail> {
    play(
        rt.alloc(),
        &[
            Begin(b"PROGRAM ", 0),
            Begin(b"PROGRAM ", 1),
            BeginResident(b"Tmp0    ", 0),
            Begin(b"Tmp0    ", 0),
            Targets(0, b"PROGRAM ", 0, Some(1)),
            Targets(0, b"PROGRAM ", 1, Some(2)),
            Targets(0, b"PROGRAM ", 2, None),
            Targets(0, b"PROGRAMS", 0, None),
            Targets(0, b"PARENT  ", 0, Some(0)),
            Targets(0, b"Tmp0    ", 0, None),
        ],
    )
}

#[test]
fn a_descriptor_is_found_by_its_address(rt: HostRuntime) -> Result<(), Fail> {
    play(
        rt.alloc(),
        &[
            Begin(b"PROGRAM ", 0),
            Begin(b"PROGRAM ", 1),
            BeginResident(b"Tmp0    ", 0),
            Begin(b"Tmp0    ", 0),
            Targets(0xF834, b"Tmp0    ", 7, Some(1)),
            Targets(0xF8D0, b"        ", 0, Some(4)),
            Targets(0xF89C, b"PROGRAM ", 0, None),
            Targets(0xF835, b"PROGRAM ", 0, None),
            Targets(0xF904, b"PROGRAM ", 0, None),
        ],
    )
}

#[test]
fn an_abort_waits_for_a_call_in_service(rt: HostRuntime) -> Result<(), Fail> {
    play(
        rt.alloc(),
        &[
            Begin(b"PROGRAM ", 0),
            Begin(b"PROGRAM ", 1),
            Next(0),
            Serve,
            Abort(0, true),
            IsDue(0, true),
            Abort(2, false),
            Abort(1, false),
        ],
    )
}
