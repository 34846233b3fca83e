//! Scenes: what happens to a kernel, line by line, and what is seen of it.
ghost use Rattle.std.specs.Prelude.{◌≡◌, ◌≤◌, length, IfOk, IfSome};
ghost use Rattle.std.specs.Bool.{OnTrue};
ghost use Rattle.mpm_kernel.specs.Kernel.{IsSoundKernel, CompletedLive};
ghost use Rattle.mpm_kernel.specs.Events.{MayCome};

use mpm_base::{Name8, Outcome, Pid, Reply, Seg, functions};
use mpm_clock::Moment;
use mpm_consoles::Unit;
use mpm_kernel::{Kernel, OutOfMemory};
use mpm_procs::NewProcess;
use mpm_script::Event;
use std::alloc::Global;
use std::test::Fail;

/// Where the block of a call stands.
pub const BLOCK: u16 = 0x0200;

/// What a call comes to.
#[derive(Clone, Copy)]
pub enum Completion {
    /// It is done, with that value.
    Done(u16),
    /// It is held.
    Held,
    /// It isn't done, and is to be asked for again.
    Again,
    /// It ends its caller.
    Ended,
}

/// A line of a scene: what happens, or what is seen. A process is named by its slot, the process that runs makes the calls,
/// and keys come to console 0.
#[derive(Clone, Copy)]
pub enum Line<'a> {
    /// A process of that priority begins, named `PROGRAM `.
    Begin(u8),
    /// A process of that priority begins, named `OTHER   `.
    BeginOther(u8),
    /// A resident of that priority begins.
    BeginResident(u8),
    /// Who runs after what was no instruction.
    Next(Option<u8>),
    /// Who runs after an instruction.
    NextAfterInstruction(Option<u8>),
    /// Who runs has interrupts on or off, and an EI that has not taken effect or not.
    Interrupts(bool, bool),
    /// A process ends.
    End(u8),
    /// A call of a function with a word.
    Ask(u8, u16, Completion),
    /// A call of a function with a word, which reads those bytes.
    AskWith(u8, u16, &'a [u8], Completion),
    /// Function 134 makes a queue for messages of a length and so many of them.
    Make(&'a [u8; 8], u16, u16, Completion),
    /// Function 136 deletes a queue.
    Delete(&'a [u8; 8], Completion),
    /// Function 135 opens a queue, function 151 calls its procedure.
    Name(u8, &'a [u8; 8], Completion),
    /// Function 137, 138, 139 or 140 passes a message by a pointer; one that it writes begins with that byte.
    Pass(u8, u8, u8, Completion),
    /// A tick of the clock.
    Tick,
    /// An interrupt that sets a flag.
    Flag(u8),
    /// A device that is ready with a byte.
    Ready(u8, u8),
    /// A key comes so many times.
    Keys(u8, u8),
    /// A byte is written to a console, with tabs expanded or not: so many spaces stand for it.
    Write(u8, u8, bool, u8),
    /// The last event aborts that process, as is answered once.
    Aborts(Option<u8>),
    /// The last call placed those bytes from an address on.
    Places(u16, &'a [u8]),
    /// The last call, event or end completed no held call.
    CompletesNone,
    /// It completed that of one process, which is answered 0.
    Completes(u8),
    /// It completed those of two processes in that order, which are answered 0.
    CompletesTwo(u8, u8),
    /// It completed that of one process, which is answered 0 and gets a message that begins with that byte at 0300h.
    Delivers(u8, u8),
    /// The last event, or the last call that echoes, wrote those bytes.
    Echoes(&'a [u8]),
    /// So many keys of console 0 were lost.
    Lost(u64),
    /// The second of the time.
    Second(u8),
    /// Who runs, with nothing done before.
    Runs(Option<u8>),
    /// Whether a process lives.
    Lives(u8, bool),
    /// So many more processes may live.
    FreeSlots(usize),
    /// The priority of a process.
    Priority(u8, u8),
    /// The multi-sector count of a process.
    Multi(u8, u8),
    /// The DMA address of a process, its error mode and its password.
    Keeps(u8, u16, u8, &'a [u8; 8]),
    /// The byte that a device sent last.
    Last(u8, u8),
    /// Whether a process holds the message of a mutual exclusion queue.
    Holds(u8, bool),
    /// A process is in the procedure of a queue, whose message it keeps.
    Inside(u8, u8, u16),
}

/// A process whose held call was completed, its value, and where its reply places bytes, with the first of them, 0 where it
/// places none.
#[derive(Clone, Copy, PartialEq, Eq)]
struct Handed {
    p: u8,
    hl: u16,
    at: u16,
    byte: u8,
}

/// The reply of the last call, and the first two processes whose held calls were completed by the last call, event or end.
#[derive(Drop)]
struct Seen {
    reply: Reply,
    first: Option<Handed>,
    second: Option<Handed>,
}

/// A kernel of two consoles and a printer with one process of priority 200, which runs, at 23:59:58 of day 300.
#[tactic(auto, using(mpm_kernel::proofs::SoundLaws::sound_new))]
pub(crate) fn kernel_of_one(alloc: Global) -> Result<Kernel, OutOfMemory>
    ensures { IfOk result (λ kernel. IsSoundKernel kernel) }
{
    let now = Moment {
        date: 300,
        hour: 23,
        minute: 59,
        second: 58,
    };
    let mut kernel = Kernel::new(alloc, 2, 1, now)?;
    let _begun = begin(&mut kernel, b"PROGRAM ", 200, Some(Seg(0)));
    kernel.pick(false);
    Ok(kernel)
}

/// A kernel of one console and no printer, with that process, and with a queue of the system's for 15 messages of 130 bytes.
///
/// # Errors
/// There isn't enough memory for it.
#[tactic(auto, using(mpm_kernel::proofs::SoundLaws::sound_new))]
pub fn kernel_with_system_queue(alloc: Global) -> Result<Kernel, OutOfMemory>
    ensures { IfOk result (λ kernel. IsSoundKernel kernel) }
{
    let now = Moment {
        date: 300,
        hour: 0,
        minute: 0,
        second: 0,
    };
    let mut kernel = Kernel::new(alloc, 1, 0, now)?;
    kernel.system_queue(Name8(*b"CliQ    "), 130, 15);
    let _begun = begin(&mut kernel, b"PROGRAM ", 200, Some(Seg(0)));
    kernel.pick(false);
    Ok(kernel)
}

/// A process begins, where a slot is free.
#[tactic(auto, using(mpm_kernel::proofs::SoundLaws::sound_in_slot))]
pub(crate) fn begin(kernel: &mut Kernel, name: &[u8; 8], priority: u8, seg: Option<Seg>) -> bool
    requires { IsSoundKernel kernel.old }
    ensures sound { IsSoundKernel kernel.new }
    ensures disk { kernel.new.disk ≡ kernel.old.disk }
{
    let p = kernel.admit(NewProcess {
        name: Name8(*name),
        priority,
        console: 0,
        seg,
        pc: 0x0100,
        sp: 0xBEFE,
        dma: 0x0080,
        user: 3,
        drive: 1,
    });
    p.is_ok()
}

/// The slot of a process, if there is one.
pub(crate) fn slot(p: Option<Pid>) -> Option<u8> {
    match p {
        Some(p) => Some(p.0),
        None => None,
    }
}

/// Who runs after a step, which was an instruction or not.
fn next(kernel: &mut Kernel, instruction: bool) -> Option<u8>
    requires { IsSoundKernel kernel.old }
    ensures { IsSoundKernel kernel.new }
{
    kernel.pick(instruction);
    slot(kernel.running())
}

/// Who runs, if anybody does, has its interrupts on or off, and an EI that has not taken effect or not.
fn set_interrupts(kernel: &mut Kernel, on: bool, shadow: bool) -> bool
    requires { IsSoundKernel kernel.old }
    ensures { IsSoundKernel kernel.new }
{
    let Some(p) = kernel.running() else {
        return false;
    };
    let regs = kernel.regs_mut(p);
    regs.iff1 = on;
    regs.shadow = shadow;
    true
}

/// Hands out a process whose held call was completed.
#[tactic(auto, using(mpm_kernel::proofs::SoundLaws::sound_completed, mpm_kernel::proofs::SoundLaws::live_handed_out))]
fn hand_out(kernel: &mut Kernel) -> Option<Handed>
    requires sound { IsSoundKernel kernel.old }
    requires live { CompletedLive kernel.old }
    ensures sound { IsSoundKernel kernel.new }
    ensures live { CompletedLive kernel.new }
{
    let mut reply = Reply::new();
    let p = kernel.completed(&mut reply);
    let byte = match reply.placed() {
        [byte, ..] => *byte,
        [] => 0,
    };
    match p {
        Some(p) => Some(Handed {
            p: p.0,
            hl: reply.hl,
            at: reply.at,
            byte,
        }),
        None => None,
    }
}

/// Hands out the first two processes whose held calls were completed.
fn hand_out_two(kernel: &mut Kernel, seen: &mut Seen)
    requires sound { IsSoundKernel kernel.old }
    requires live { CompletedLive kernel.old }
    ensures { IsSoundKernel kernel.new }
{
    seen.first = hand_out(kernel);
    seen.second = hand_out(kernel);
}

/// A process ends, if it lives.
#[tactic(auto, using(mpm_kernel::proofs::EndingLaws::sound_discharged, mpm_kernel::proofs::EndingLaws::live_discharged))]
fn end(kernel: &mut Kernel, seen: &mut Seen, p: u8) -> bool
    requires { IsSoundKernel kernel.old }
    ensures { IsSoundKernel kernel.new }
{
    if 32 <= p || !kernel.lives(Pid(p)) {
        return false;
    }
    kernel.discharge(Pid(p));
    hand_out_two(kernel, seen);
    true
}

/// Whether an event's device or its flag is there.
fn may_come(event: Event) -> bool
    ensures { OnTrue result (MayCome event) }
{
    match event {
        Event::Ready { device, .. } => device < 16,
        Event::Int { flag } => flag < 32,
        _ => true,
    }
}

/// An event comes, if its device or its flag is there.
#[tactic(auto, using(mpm_kernel::proofs::SoundLaws::sound_happened, mpm_kernel::proofs::SoundLaws::live_happened))]
fn happen(kernel: &mut Kernel, seen: &mut Seen, event: Event) -> bool
    requires { IsSoundKernel kernel.old }
    ensures { IsSoundKernel kernel.new }
{
    if !may_come(event) {
        return false;
    }
    kernel.event(event);
    hand_out_two(kernel, seen);
    true
}

/// A key comes to console 0 so many times.
fn press(kernel: &mut Kernel, seen: &mut Seen, byte: u8, count: u8) -> bool
    requires { IsSoundKernel kernel.old }
    ensures { IsSoundKernel kernel.new }
{
    for _time in 0..count {
        let _came = happen(kernel, seen, Event::Key { console: 0, byte });
    }
    true
}

/// The process that runs makes a call, which reads some bytes.
fn serve(
    kernel: &mut Kernel,
    function: u8,
    word: u16,
    bytes: &[u8],
    reply: &mut Reply,
) -> Option<Outcome>
    requires sound { IsSoundKernel kernel.old }
    requires few { length bytes.now ≤ 16 }
    ensures sound { IsSoundKernel kernel.new }
    ensures live { IfSome result (λ outcome. CompletedLive kernel.new) }
{
    let p = match kernel.running() {
        Some(p) => p,
        None => return None,
    };
    let call = kernel.call_mut(p);
    call.begin(function, word, 0x0080);
    call.append(bytes);
    Some(kernel.call(p, reply))
}

/// The outcome and the value of an answer.
fn expected(answer: Completion) -> (Outcome, u16) {
    match answer {
        Completion::Done(value) => (Outcome::Done, value),
        Completion::Held => (Outcome::Held, 0),
        Completion::Again => (Outcome::Retry, 0),
        Completion::Ended => (Outcome::Ended, 0),
    }
}

/// The process that runs makes a call, which reads at most 16 bytes: whether it comes to that answer.
fn ask(
    kernel: &mut Kernel,
    seen: &mut Seen,
    function: u8,
    word: u16,
    bytes: &[u8],
    answer: Completion,
) -> bool
    requires { IsSoundKernel kernel.old }
    ensures { IsSoundKernel kernel.new }
{
    if bytes.len() > 16 {
        return false;
    }
    match serve(kernel, function, word, bytes, &mut seen.reply) {
        Some(outcome) => {
            hand_out_two(kernel, seen);
            (outcome, seen.reply.hl) == expected(answer)
        }
        None => false,
    }
}

/// A call by a queue control block: a name, the length of a message, how many messages there are.
fn ask_by_name(
    kernel: &mut Kernel,
    seen: &mut Seen,
    function: u8,
    name: &[u8; 8],
    length: u16,
    count: u16,
    answer: Completion,
) -> bool
    requires { IsSoundKernel kernel.old }
    ensures { IsSoundKernel kernel.new }
{
    let [a, b, c, d, e, f, g, h] = *name;
    let [length_low, length_high] = length.to_le_bytes();
    let [count_low, count_high] = count.to_le_bytes();
    let block = [
        0,
        0,
        a,
        b,
        c,
        d,
        e,
        f,
        g,
        h,
        length_low,
        length_high,
        count_low,
        count_high,
    ];
    ask(kernel, seen, function, BLOCK, &block, answer)
}

/// A call by a user queue control block with its message: a pointer, the message's address 0300h, a name, a byte.
fn ask_by_pointer(
    kernel: &mut Kernel,
    seen: &mut Seen,
    function: u8,
    pointer: u8,
    name: &[u8; 8],
    byte: u8,
    answer: Completion,
) -> bool
    requires { IsSoundKernel kernel.old }
    ensures { IsSoundKernel kernel.new }
{
    let [a, b, c, d, e, f, g, h] = *name;
    let block = [pointer, 0, 0x00, 0x03, a, b, c, d, e, f, g, h, byte];
    ask(kernel, seen, function, BLOCK, &block, answer)
}

/// A byte is written to a console: the number of spaces that stand for it, None where the console isn't there.
#[tactic(auto, using(mpm_kernel::proofs::SoundLaws::sound_wrote))]
fn write(kernel: &mut Kernel, console: u8, byte: u8, tabs: bool) -> Option<u8>
    requires { IsSoundKernel kernel.old }
    ensures { IsSoundKernel kernel.new }
{
    if kernel.consoles() <= console {
        return None;
    }
    Some(kernel.write(Unit::Console { n: console }, byte, tabs))
}

/// The byte that a device sent last, None where there is no such device.
#[tactic(auto, using(mpm_kernel::proofs::SoundLaws::sound_devices))]
fn last(kernel: &mut Kernel, device: u8) -> Option<u8>
    requires { IsSoundKernel kernel.old }
    ensures { IsSoundKernel kernel.new }
{
    if device < 16 {
        Some(kernel.devices_mut().last[usize::from(device)])
    } else {
        None
    }
}

/// A line comes to pass, and all is so that it says.
fn passes(kernel: &mut Kernel, seen: &mut Seen, line: Line) -> bool
    requires { IsSoundKernel kernel.old }
    ensures { IsSoundKernel kernel.new }
{
    match line {
        Line::Begin(priority) => begin(kernel, b"PROGRAM ", priority, Some(Seg(0))),
        Line::BeginOther(priority) => begin(kernel, b"OTHER   ", priority, Some(Seg(1))),
        Line::BeginResident(priority) => begin(kernel, b"Tmp     ", priority, None),
        Line::Interrupts(on, shadow) => set_interrupts(kernel, on, shadow),
        Line::End(p) => end(kernel, seen, p),
        Line::Tick => happen(kernel, seen, Event::Tick),
        Line::Flag(flag) => happen(kernel, seen, Event::Int { flag }),
        Line::Ready(device, byte) => happen(kernel, seen, Event::Ready { device, byte }),
        Line::Keys(byte, count) => press(kernel, seen, byte, count),
        _ => answers(kernel, seen, line),
    }
}

/// A call, a dispatch or what is answered once comes to what the line says; so does what changes nothing.
fn answers(kernel: &mut Kernel, seen: &mut Seen, line: Line) -> bool
    requires { IsSoundKernel kernel.old }
    ensures { IsSoundKernel kernel.new }
{
    match line {
        Line::Next(p) => next(kernel, false) == p,
        Line::NextAfterInstruction(p) => next(kernel, true) == p,
        Line::Ask(function, word, answer) => ask(kernel, seen, function, word, &[], answer),
        Line::AskWith(function, word, bytes, answer) => {
            ask(kernel, seen, function, word, bytes, answer)
        }
        Line::Make(name, length, count, answer) => {
            ask_by_name(
                kernel,
                seen,
                functions::MAKE_QUEUE,
                name,
                length,
                count,
                answer,
            )
        }
        Line::Delete(name, answer) => ask_by_name(
            kernel,
            seen,
            functions::DELETE_QUEUE,
            name,
            0,
            0,
            answer,
        ),
        Line::Name(function, name, answer) => {
            ask_by_pointer(kernel, seen, function, 0, name, 0, answer)
        }
        Line::Pass(function, pointer, byte, answer) => {
            ask_by_pointer(kernel, seen, function, pointer, b"        ", byte, answer)
        }
        Line::Write(console, byte, tabs, spaces) => write(kernel, console, byte, tabs)
            == Some(spaces),
        Line::Aborts(p) => slot(kernel.take_abort()) == p,
        Line::Last(device, byte) => last(kernel, device) == Some(byte),
        _ => is_seen(seen, line) || shows(kernel, line),
    }
}

/// What a line says of the last call, event or end is so.
fn is_seen(seen: &Seen, line: Line) -> bool {
    match line {
        Line::Places(at, bytes) => seen.reply.at == at && seen.reply.placed() == bytes,
        Line::CompletesNone => seen.first == None && seen.second == None,
        Line::Completes(p) => seen.first == answered(p, 0, 0) && seen.second == None,
        Line::CompletesTwo(p, q) => {
            seen.first == answered(p, 0, 0) && seen.second == answered(q, 0, 0)
        }
        Line::Delivers(p, byte) => seen.first == answered(p, 0x0300, byte) && seen.second == None,
        _ => false,
    }
}

/// A process that is answered 0, with a byte at an address.
fn answered(p: u8, at: u16, byte: u8) -> Option<Handed> {
    Some(Handed { p, hl: 0, at, byte })
}

/// What a line says of the kernel as it is is so.
#[tactic(auto, using(mpm_kernel::proofs::UnitLaws::has_first_console))]
fn shows(kernel: &Kernel, line: Line) -> bool
    requires { IsSoundKernel kernel.now }
{
    match line {
        Line::Echoes(bytes) => kernel.echo().written() == bytes,
        Line::Lost(count) => kernel.lost(0) == count,
        Line::Second(second) => kernel.now().second == second,
        Line::Runs(p) => slot(kernel.running()) == p,
        Line::Lives(p, lives) => p < 32 && kernel.lives(Pid(p)) == lives,
        Line::FreeSlots(count) => kernel.free_slots() == count,
        Line::Holds(p, holds) => p < 32 && kernel.holds(Pid(p)) == holds,
        _ => is_in_process(kernel, line),
    }
}

/// What a line says of a process is so.
fn is_in_process(kernel: &Kernel, line: Line) -> bool {
    let (Line::Priority(p, _) | Line::Multi(p, _) | Line::Keeps(p, ..) | Line::Inside(p, ..)) = line
    else {
        return false;
    };
    if p >= 32 {
        return false;
    }
    let Some(process) = kernel.process(Pid(p)) else {
        return false;
    };
    match line {
        Line::Priority(_, priority) => process.priority == priority,
        Line::Multi(_, count) => process.multi == count,
        Line::Keeps(_, dma, mode, password) => {
            process.dma == dma && process.error_mode == mode && process.password == *password
        }
        Line::Inside(_, queue, message) => {
            process.procedure == Some(queue) && process.kept == message
        }
        _ => false,
    }
}

/// A scene of a kernel of two consoles and a printer, in which process 0 of priority 200 runs.
///
/// # Errors
/// The number of the first line that isn't so; or there isn't enough memory for the kernel.
pub fn play(alloc: Global, lines: &[Line]) -> Result<(), Fail> {
    let mut kernel = kernel_of_one(alloc)?;
    play_on(&mut kernel, lines)
}

/// A scene of such a kernel.
///
/// # Errors
/// The number of the first line that isn't so.
pub fn play_on(kernel: &mut Kernel, lines: &[Line]) -> Result<(), Fail>
    requires { IsSoundKernel kernel.old }
{
    let mut seen = Seen {
        reply: Reply::new(),
        first: None,
        second: None,
    };
    for (number, line) in lines.iter().enumerate() {
        if !passes(kernel, &mut seen, *line) {
            return Err(Fail::new(format_args!("line {number} of the scene, from 0")));
        }
    }
    Ok(())
}
