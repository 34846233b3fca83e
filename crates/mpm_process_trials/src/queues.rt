//! Messages between 32 processes, line by line: what is done with queues, and what is seen of them.
ghost use Rattle.std.specs.Prelude.{◌≡◌, ℕ, ◌<◌, true, length};
ghost use Rattle.std.specs.Bool.{OnTrue};
ghost use Rattle.mpm_procs.specs.Table.{Lives};
ghost use Rattle.mpm_queues.specs.Queues.{IsMade, waits_at};

use crate::queues::Comes::{Done, Ends, NotNow};
use crate::queues::Line::{
    Delete, Enlist, Find, Held, Keep, Kept, Leave, Length, Make, MakeMany, Places, Read, Refuse,
    Waits, Write,
};
use mpm_base::{Name8, Pid, Reply};
use mpm_procs::{NewProcess, Procs};
use mpm_queues::{MakeRefused, OutOfMemory, QueueOutcome, Queues};
use std::alloc::Global;
use std::test::Fail;

/// What a read or a write comes to.
#[derive(Clone, Copy)]
enum Comes {
    /// It can't be done now.
    NotNow,
    /// It is done.
    Done,
    /// It is done, and ends the wait of that process.
    Ends(u8),
}

/// A line: a call with its answer, or what is seen. A process is named by its slot, a queue by its number.
#[derive(Clone, Copy)]
enum Line<'a> {
    /// A queue is made, for messages of a length and so many of them, and gets that number.
    Make(&'a [u8; 8], u16, u16, u8),
    /// A queue isn't made, for that reason.
    Refuse(&'a [u8; 8], u16, u16, MakeRefused),
    /// Queues are made with names of equal bytes, from that number on, until all 32 are there.
    MakeMany(u8),
    /// The queue that has a name, if any.
    Find(&'a [u8; 8], Option<u8>),
    /// The length of a queue's messages, if it is there.
    Length(u8, Option<u16>),
    /// A queue that is there is deleted, or isn't.
    Delete(u8, bool),
    /// A process keeps a call with a message.
    Keep(u8, &'a [u8]),
    /// A process writes a message to a queue.
    Write(u8, u8, &'a [u8], Comes),
    /// A process reads from a queue.
    Read(u8, u8, Comes),
    /// The last read placed those bytes, and left the value of the reply.
    Places(&'a [u8]),
    /// A process of that priority waits at a queue, as a reader or a writer.
    Enlist(u8, u8, u8, bool),
    /// A process waits no more.
    Leave(u8),
    /// Whether a process waits.
    Waits(u8, bool),
    /// The call that a process keeps has those bytes.
    Kept(u8, &'a [u8]),
    /// The queue whose message a process holds, if any.
    Held(u8, Option<u8>),
}

/// Processes in all 32 slots.
fn processes(alloc: Global) -> Result<Procs, OutOfMemory> {
    let mut procs = Procs::new(alloc)?;
    for _slot in 0..32 {
        let _p = procs.add(NewProcess::default());
    }
    Ok(procs)
}

/// Whether all 32 processes live.
fn all_live(procs: &Procs) -> bool
    ensures { OnTrue result ((w : ℕ) → w < 32 → Lives procs.now w) }
{
    for p in 0..32 {
        if !procs.lives(Pid(p)) {
            return false;
        }
    }
    true
}

/// Whether a process may read from a queue or write to it.
#[tactic(auto, using(mpm_queues::proofs::WaitLaws::waiter_below))]
fn may_act(queues: &Queues, p: Pid, q: u8, procs: &Procs) -> bool
    ensures queue { OnTrue result (IsMade queues.now q) }
    ensures lives { OnTrue result (Lives procs.now p) }
    ensures waiting { OnTrue result ((w : ℕ) → waits_at queues.now q w ≡ true → Lives procs.now w) }
{
    procs.lives(p) && all_live(procs) && queues.length(q).is_some()
}

/// The answer of a queue.
fn outcome(comes: Comes) -> QueueOutcome {
    match comes {
        Comes::NotNow => QueueOutcome::NotNow,
        Comes::Done => QueueOutcome::Done { other: None },
        Comes::Ends(p) => QueueOutcome::Done {
            other: Some(Pid(p % 32)),
        },
    }
}

/// A process reads from a queue, where it may.
fn read(
    queues: &mut Queues,
    p: Pid,
    q: u8,
    procs: &mut Procs,
    reply: &mut Reply,
    comes: Comes,
) -> bool {
    may_act(queues, p, q, procs) && queues.read(p, q, procs, reply) == outcome(comes)
}

/// A process keeps a call with a message of at most 2,048 bytes.
fn keep(procs: &mut Procs, p: Pid, message: &[u8]) -> bool {
    if !procs.lives(p) || 2048 < message.len() {
        return false;
    }
    let call = procs.call_mut(p);
    call.begin(139, 0x0200, 0x0080);
    call.append(b"..........QQ");
    call.append(message);
    true
}

/// A process writes the message of the call that it keeps to a queue, where it may.
fn write(queues: &mut Queues, p: Pid, q: u8, procs: &mut Procs, comes: Comes) -> bool {
    may_act(queues, p, q, procs) && queues.write(p, q, procs) == outcome(comes)
}

/// A process waits at a queue, where it may: after an answer that it can't be done now.
fn enlist(queues: &mut Queues, p: Pid, priority: u8, q: u8, reader: bool) -> bool {
    if !queues.may_wait(p, q, reader) {
        return false;
    }
    queues.enlist(p, priority, q, reader);
    true
}

/// Queues are made with names of equal bytes, from a number on, until all 32 are there.
fn make_many(queues: &mut Queues, from: u8) -> bool {
    for number in from..32 {
        if queues.make(Name8([number; 8]), 2, 3) != Ok(number) {
            return false;
        }
    }
    true
}

/// A line comes to pass, and all is so that it says.
fn passes(queues: &mut Queues, procs: &mut Procs, reply: &mut Reply, line: Line) -> bool {
    match line {
        Line::Make(name, length, count, q) => queues.make(Name8(*name), length, count) == Ok(q),
        Line::Refuse(name, length, count, why) => queues.make(Name8(*name), length, count)
            == Err(why),
        Line::MakeMany(from) => make_many(queues, from),
        Line::Delete(q, answer) => queues.length(q).is_some() && queues.delete(q) == answer,
        Line::Keep(p, message) => keep(procs, Pid(p % 32), message),
        Line::Write(p, q, message, comes) => keep(procs, Pid(p % 32), message)
            && write(queues, Pid(p % 32), q, procs, comes),
        Line::Read(p, q, comes) => read(queues, Pid(p % 32), q, procs, reply, comes),
        Line::Enlist(p, priority, q, reader) => enlist(queues, Pid(p % 32), priority, q, reader),
        Line::Leave(p) => {
            queues.leave(Pid(p % 32));
            true
        }
        _ => shows(queues, procs, reply, line),
    }
}

/// What a line says of queues, processes and the reply as they are is so.
fn shows(queues: &Queues, procs: &Procs, reply: &Reply, line: Line) -> bool {
    match line {
        Line::Find(name, q) => queues.find(Name8(*name)) == q,
        Line::Length(q, length) => queues.length(q) == length,
        Line::Places(bytes) => reply.placed() == bytes && reply.hl == 7,
        Line::Waits(p, waits) => queues.waits(Pid(p % 32)) == waits,
        Line::Kept(p, bytes) => procs.lives(Pid(p % 32))
            && procs.call(Pid(p % 32)).taken() == bytes,
        Line::Held(p, q) => queues.held(Pid(p % 32)) == q,
        _ => false,
    }
}

/// A scene of 32 processes and no queue, in which a read leaves the value 7 of the reply.
fn play(alloc: Global, lines: &[Line]) -> Result<(), Fail> {
    let mut procs = processes(alloc)?;
    let mut queues = Queues::new(alloc)?;
    play_on(&mut queues, &mut procs, lines)
}

/// The lines of a scene, in order.
fn play_on(queues: &mut Queues, procs: &mut Procs, lines: &[Line]) -> Result<(), Fail> {
    let mut reply = Reply::new();
    reply.hl = 7;
    for (number, line) in lines.iter().enumerate() {
        if !passes(queues, procs, &mut reply, *line) {
            return Err(Fail::new(format_args!("line {number} of the scene, from 0")));
        }
    }
    Ok(())
}

#[test]
fn a_read_lets_a_waiting_writer_in(rt: HostRuntime) -> Result<(), Fail> {
    play(
        rt.alloc(),
        &[
            Make(b"LETTERS ", 1, 2, 0),
            Length(0, Some(1)),
            Write(1, 0, b"A", Done),
            Write(1, 0, b"B", Done),
            Write(5, 0, b"C", NotNow),
            Enlist(5, 100, 0, false),
            Read(2, 0, Ends(5)),
            Places(b"A"),
            Waits(5, false),
            Write(1, 0, b"D", NotNow),
            Read(2, 0, Done),
            Places(b"B"),
            Read(2, 0, Done),
            Places(b"C"),
            Read(2, 0, NotNow),
            Places(b"C"),
        ],
    )
}

#[test]
fn a_message_goes_to_the_first_of_two_readers(rt: HostRuntime) -> Result<(), Fail> {
    play(
        rt.alloc(),
        &[
            Make(b"QUEUE   ", 3, 4, 0),
            Read(8, 0, NotNow),
            Keep(8, b""),
            Keep(9, b"more"),
            Enlist(8, 200, 0, true),
            Enlist(9, 199, 0, true),
            Write(1, 0, b"onetwo", Ends(9)),
            Kept(9, b"..........QQone"),
            Kept(8, b"..........QQ"),
            Waits(8, true),
            Write(2, 0, b"2", Ends(8)),
            Kept(8, b"..........QQ2\0\0"),
            Read(4, 0, NotNow),
        ],
    )
}

#[test]
fn a_refusal_has_the_first_of_its_causes(rt: HostRuntime) -> Result<(), Fail> {
    play(
        rt.alloc(),
        &[
            Refuse(b"A       ", 1024, 3, MakeRefused::NoQueueRoom),
            Find(b"A       ", None),
            Make(b"A       ", 1024, 2, 0),
            Refuse(b"A       ", 2049, 0, MakeRefused::BadCount),
            Refuse(b"A       ", 2049, 1, MakeRefused::Exists),
            Make(b"a       ", 0, 65535, 1),
            MakeMany(2),
            Refuse(b"B       ", 1, 1, MakeRefused::NoQueueRoom),
            Find(&[17; 8], Some(17)),
        ],
    )
}

#[test]
fn a_deleted_queue_gives_its_number_back(rt: HostRuntime) -> Result<(), Fail> {
    play(
        rt.alloc(),
        &[
            Make(b"FIRST   ", 2, 1, 0),
            Make(b"SECOND  ", 2, 1, 1),
            Write(0, 0, b"ab", Done),
            Enlist(3, 10, 0, false),
            Delete(0, false),
            Leave(3),
            Delete(0, true),
            Length(0, None),
            Find(b"FIRST   ", None),
            Find(b"SECOND  ", Some(1)),
            Make(b"THIRD   ", 2, 1, 0),
            Read(0, 0, NotNow),
        ],
    )
}

#[test]
fn a_mutual_exclusion_message_is_held_until_it_is_written(rt: HostRuntime) -> Result<(), Fail> {
    play(
        rt.alloc(),
        &[
            Make(b"OTHER   ", 0, 1, 0),
            Make(b"MXdisk  ", 0, 1, 1),
            Write(1, 1, b"", Done),
            Read(1, 1, Done),
            Held(1, Some(1)),
            Held(2, None),
            Delete(1, false),
            Enlist(2, 50, 1, true),
            Write(7, 1, b"", Ends(2)),
            Held(1, None),
            Held(2, Some(1)),
            Write(7, 1, b"", Done),
            Held(2, None),
            Enlist(3, 50, 1, false),
            Read(4, 1, Ends(3)),
            Held(4, None),
            Delete(1, true),
        ],
    )
}
