//! Scenes of file calls on two floppy disks. Each is played twice: with its calls done at once, and turn by turn.
ghost use Rattle.std.specs.Prelude.{◌≡◌, ◌<◌, ℕ, true, OnOk, is_some};
ghost use Rattle.std.specs.Bool.{OnTrue};
ghost use Rattle.mpm_clock.specs.Times.{IsTime};
ghost use Rattle.mpm_bdos.specs.Serving.{IsCaller};
ghost use Rattle.mpm_bdos.specs.Starting.{caller_of};
ghost use Rattle.mpm_file_functions.specs.Functions.{function_of};
ghost use Rattle.mpm_file_scenes.specs.Standing.{IsBetweenCalls, IsWithinCall};

use crate::desk::{Desk, Line};
use crate::floppies::{Floppies, attached_places, two_disks};
use mpm_base::{Call, Pid, Reply, Steps, functions};
use mpm_bdos::{Bdos, DirectFunction, Extended, FileFunction};
use mpm_clock::{Clock, Moment};
use mpm_files::Progress;
use mpm_images::EntryBytes;
use mpm_port::{Drives, Failed};
use mpm_procs::{NewProcess, Process, Procs};
use std::alloc::Global;
use std::marker::Brand;
use std::sync::ledger::{Blank, Ledger};
use std::test::Fail;

/// What a call is answered.
#[derive(Clone, Copy, Debug, PartialEq, Eq)]
struct Answer {
    hl: u16,
    extended: Option<Extended>,
}

/// Whether a process's user and its multi-sector count are in their ranges.
fn may_call(process: &Process) -> bool
    ensures { (p : ℕ) → result ≡ true → IsCaller (caller_of p process.now) }
{
    process.user < 16 && process.multi >= 1 && process.multi <= 16
}

/// Whether a call is one on files and drives.
fn is_file_call(call: &Call) -> bool
    ensures { result ≡ is_some (function_of call.now.function) }
{
    FileFunction::of(call.function).is_some()
}

/// The moment of all calls.
fn moment() -> Moment
    ensures { IsTime result }
{
    Clock::new(1, 0, 0, 0).now()
}

/// The extended error of a call that is done at once, if it has one.
fn serves_at_once<D: Drives, L: Ledger>(
    bdos: &mut Bdos,
    drives: &mut D,
    steps: &mut Steps<L>,
    desk: &mut Desk,
    call: &Call,
    process: &Process,
) -> Result<Option<Extended>, Failed>
    requires between { IsBetweenCalls D.disks bdos.old drives.old }
    requires caller { (p : ℕ) → IsCaller (caller_of p process.now) }
    requires file { is_some (function_of call.now.function) ≡ true }
    ensures { OnOk result (IsBetweenCalls D.disks bdos.new drives.new) }
{
    let pid = Pid(desk.pid % 32);
    bdos.call_at_once(pid, call, process, moment(), drives, steps, &mut desk.reply)
}

/// What the call tells that asks which drives are mounted: its value and its extended error.
fn login_vector(bdos: &Bdos, process: &Process) -> (u16, Option<Extended>) {
    let mut call = Call::new();
    call.begin(functions::RETURN_LOGIN_VECTOR, 0, 0x80);
    let mut reply = Reply::new();
    let extended = bdos.direct(&call, process, &mut reply);
    (reply.hl, extended)
}

/// Serves a call turn by turn, and answers its extended error. It fails where the login vector changes before the call's last turn.
fn serves_in_turns<D: Drives, L: Ledger>(
    bdos: &mut Bdos,
    drives: &mut D,
    steps: &mut Steps<L>,
    desk: &mut Desk,
    call: &Call,
    process: &Process,
) -> Result<Option<Extended>, Failed>
    requires between { IsBetweenCalls D.disks bdos.old drives.old }
    requires caller { (p : ℕ) → IsCaller (caller_of p process.now) }
    requires file { is_some (function_of call.now.function) ≡ true }
    ensures { OnOk result (IsBetweenCalls D.disks bdos.new drives.new) }
{
    let mounted = login_vector(bdos, process);
    let turns = bdos.start(Pid(desk.pid % 32), call, process, moment());
    for _turn in 0..turns {
        if login_vector(bdos, process) != mounted {
            return Err(Failed);
        }
        bdos.turn(drives, steps)?;
    }
    Ok(bdos.reply(&mut desk.reply))
}

/// What a call of the desk is answered. It isn't where a drive fails, the caller is none that may call, or the function none of files and
/// drives.
fn asks<D: Drives, L: Ledger>(
    bdos: &mut Bdos,
    drives: &mut D,
    steps: &mut Steps<L>,
    desk: &mut Desk,
    function: u8,
) -> Option<Answer>
    requires { IsBetweenCalls D.disks bdos.old drives.old }
    ensures { OnTrue (is_some result) (IsBetweenCalls D.disks bdos.new drives.new) }
{
    let process = desk.process;
    if !may_call(&process) {
        return None;
    }
    let call = desk.call(function);
    if DirectFunction::of(function).is_some() {
        let extended = bdos.direct(&call, &process, &mut desk.reply);
        desk.take_block();
        let hl = desk.reply.hl;
        return Some(Answer { hl, extended });
    }
    if !is_file_call(&call) {
        return None;
    }
    let answered = if desk.in_turns {
        serves_in_turns(bdos, drives, steps, desk, &call, &process)
    } else {
        serves_at_once(bdos, drives, steps, desk, &call, &process)
    };
    match answered {
        Ok(extended) => {
            desk.take_block();
            let hl = desk.reply.hl;
            Some(Answer { hl, extended })
        }
        Err(_) => None,
    }
}

/// Whether the call in service takes so many turns.
fn takes_turns<D: Drives, L: Ledger>(
    bdos: &mut Bdos,
    drives: &mut D,
    steps: &mut Steps<L>,
    turns: u32,
) -> bool
    requires { IsWithinCall D.disks bdos.old drives.old 0 turns }
    ensures { OnTrue result (IsWithinCall D.disks bdos.new drives.new turns turns) }
{
    for turn in 0..turns {
        let expected = if turn + 1 < turns {
            Progress::Again
        } else {
            Progress::Done
        };
        match bdos.turn(drives, steps) {
            Ok(progress) => {
                if progress != expected {
                    return false;
                }
            }
            Err(_) => return false,
        }
    }
    true
}

/// Whether a call that enters service takes so many turns, and answers a value without an extended error after them.
fn serves<D: Drives, L: Ledger>(
    bdos: &mut Bdos,
    drives: &mut D,
    steps: &mut Steps<L>,
    desk: &mut Desk,
    function: u8,
    turns: u32,
    hl: u16,
) -> bool
    requires { IsBetweenCalls D.disks bdos.old drives.old }
    ensures { OnTrue result (IsBetweenCalls D.disks bdos.new drives.new) }
{
    let process = desk.process;
    if !may_call(&process) {
        return false;
    }
    let call = desk.call(function);
    if !is_file_call(&call) {
        return false;
    }
    if bdos.start(Pid(desk.pid % 32), &call, &process, moment()) != turns {
        return false;
    }
    if !takes_turns(bdos, drives, steps, turns) {
        return false;
    }
    let extended = bdos.reply(&mut desk.reply);
    desk.take_block();
    desk.reply.hl == hl && extended.is_none()
}

/// Whether a call answers a value without an extended error.
fn answers<D: Drives, L: Ledger>(
    bdos: &mut Bdos,
    drives: &mut D,
    steps: &mut Steps<L>,
    desk: &mut Desk,
    function: u8,
    hl: u16,
) -> bool
    requires { IsBetweenCalls D.disks bdos.old drives.old }
    ensures { OnTrue result (IsBetweenCalls D.disks bdos.new drives.new) }
{
    let expected = Answer { hl, extended: None };
    match asks(bdos, drives, steps, desk, function) {
        Some(answer) => answer == expected,
        None => false,
    }
}

/// Whether so many calls answer 0.
fn repeats<D: Drives, L: Ledger>(
    bdos: &mut Bdos,
    drives: &mut D,
    steps: &mut Steps<L>,
    desk: &mut Desk,
    count: u8,
    function: u8,
) -> bool
    requires { IsBetweenCalls D.disks bdos.old drives.old }
    ensures { OnTrue result (IsBetweenCalls D.disks bdos.new drives.new) }
{
    for _call in 0..count {
        if !answers(bdos, drives, steps, desk, function, 0) {
            return false;
        }
    }
    true
}

/// Whether the files of some slots of drive B are opened.
fn opens<D: Drives, L: Ledger>(
    bdos: &mut Bdos,
    drives: &mut D,
    steps: &mut Steps<L>,
    desk: &mut Desk,
    from: u8,
    to: u8,
) -> bool
    requires { IsBetweenCalls D.disks bdos.old drives.old }
    ensures { OnTrue result (IsBetweenCalls D.disks bdos.new drives.new) }
{
    for slot in from..to {
        desk.names_slot(slot);
        if !answers(bdos, drives, steps, desk, functions::OPEN_FILE, 0) {
            return false;
        }
    }
    true
}

/// Whether a call is refused by an extended error on a drive.
fn refuses<D: Drives, L: Ledger>(
    bdos: &mut Bdos,
    drives: &mut D,
    steps: &mut Steps<L>,
    desk: &mut Desk,
    function: u8,
    code: u8,
    drive: u8,
) -> bool
    requires { IsBetweenCalls D.disks bdos.old drives.old }
    ensures { OnTrue result (IsBetweenCalls D.disks bdos.new drives.new) }
{
    let expected = Answer {
        hl: u16::from(code) * 256 + 255,
        extended: Some(Extended { code, drive }),
    };
    match asks(bdos, drives, steps, desk, function) {
        Some(answer) => answer == expected,
        None => false,
    }
}

/// Plays a line after which the scene goes on, and says whether what is seen is so.
fn plays<D: Drives, L: Ledger>(
    bdos: &mut Bdos,
    drives: &mut D,
    steps: &mut Steps<L>,
    desk: &mut Desk,
    line: &Line<'_>,
) -> bool
    requires { IsBetweenCalls D.disks bdos.old drives.old }
    ensures { OnTrue result (IsBetweenCalls D.disks bdos.new drives.new) }
{
    match line {
        Line::Asks(function, hl) => answers(bdos, drives, steps, desk, *function, *hl),
        Line::Repeats(count, function) => repeats(bdos, drives, steps, desk, *count, *function),
        Line::Refused(function, code, drive) => {
            refuses(bdos, drives, steps, desk, *function, *code, *drive)
        }
        Line::Turns(function, turns, hl) => {
            serves(bdos, drives, steps, desk, *function, *turns, *hl)
        }
        Line::Fails(_) => false,
        Line::Opens(from, to) => opens(bdos, drives, steps, desk, *from, *to),
        Line::Ends(pid) => {
            bdos.give_back(Pid(*pid % 32));
            true
        }
        _ => desk.play(line),
    }
}

/// Whether a call on files and drives isn't answered.
fn fails<D: Drives, L: Ledger>(
    bdos: &mut Bdos,
    drives: &mut D,
    steps: &mut Steps<L>,
    desk: &mut Desk,
    function: u8,
) -> bool
    requires { IsBetweenCalls D.disks bdos.old drives.old }
{
    let hl = desk.reply.hl;
    FileFunction::of(function).is_some()
        && asks(bdos, drives, steps, desk, function).is_none()
        && desk.reply.hl == hl
}

/// Where a scene stops.
#[derive(Clone, Copy)]
enum Stop {
    /// Behind its last line.
    End,
    /// At a line that isn't so.
    Wrong(usize),
    /// At a call in which its drive fails, as it is to.
    Failed(usize),
}

/// Where a scene stops that goes on from a line.
fn first_stop<D: Drives, L: Ledger>(
    bdos: &mut Bdos,
    drives: &mut D,
    steps: &mut Steps<L>,
    desk: &mut Desk,
    lines: &[Line<'_>],
    from: usize,
) -> Stop
    requires { IsBetweenCalls D.disks bdos.old drives.old }
{
    for place in from..lines.len() {
        let line = &lines[place];
        if let Line::Fails(function) = line {
            return if fails(bdos, drives, steps, desk, *function) {
                Stop::Failed(place)
            } else {
                Stop::Wrong(place)
            };
        }
        if !plays(bdos, drives, steps, desk, line) {
            return Stop::Wrong(place);
        }
    }
    Stop::End
}

/// Mounts the disks as they are, and goes on from a line.
fn goes_on<L: Ledger>(
    alloc: Global,
    drives: &mut Floppies,
    steps: &mut Steps<L>,
    desk: &mut Desk,
    lines: &[Line<'_>],
    from: usize,
) -> Result<Stop, Fail> {
    let places = attached_places(alloc, drives)?;
    let mut bdos = Bdos::new(alloc, places)?;
    Ok(first_stop(&mut bdos, drives, steps, desk, lines, from))
}

/// The first line that isn't so on these disks.
fn wrong_on<L: Ledger>(
    alloc: Global,
    blank: Blank,
    drives: &mut Floppies,
    process: &Process,
    in_turns: bool,
    lines: &[Line<'_>],
) -> Result<Option<usize>, Fail>
    requires name { blank.name ≡ L.name }
    requires parts { blank.parts ≡ L.parts }
    requires some { 0 < L.parts }
{
    let mut steps = Steps::<L>::new(blank);
    let mut desk = Desk::new(process, in_turns);
    let mut from = 0;
    for _mounting in 0..lines.len() {
        match goes_on(alloc, drives, &mut steps, &mut desk, lines, from)? {
            Stop::End => return Ok(None),
            Stop::Wrong(place) => return Ok(Some(place)),
            Stop::Failed(place) => from = place.saturating_add(1),
        }
    }
    Ok(None)
}

/// The first line that isn't so on these disks, whose calls are counted.
fn wrong_by(
    alloc: Global,
    drives: &mut Floppies,
    process: &Process,
    in_turns: bool,
    lines: &[Line<'_>],
) -> Result<Option<usize>, Fail> {
    wrong_on::<Brand>(alloc, Blank::new(1), drives, process, in_turns, lines)
}

/// The first line that isn't so on two floppy disks with these entries, if there is one: the number of that line, from 0.
///
/// # Errors
/// There isn't enough memory for the disks.
pub fn first_wrong_line(
    alloc: Global,
    a: &[EntryBytes],
    b: &[EntryBytes],
    lines: &[Line<'_>],
) -> Result<Option<usize>, Fail> {
    first_wrong_failing(alloc, a, b, None, lines)
}

/// The first line that isn't so, where a drive may fail in each call that writes to it: with each call done at once, or else turn by turn.
///
/// # Errors
/// There isn't enough memory for the disks.
pub fn first_wrong_failing(
    alloc: Global,
    a: &[EntryBytes],
    b: &[EntryBytes],
    failing: Option<u8>,
    lines: &[Line<'_>],
) -> Result<Option<usize>, Fail> {
    let wrong = wrong_in(alloc, a, b, failing, false, lines)?;
    if wrong.is_some() {
        return Ok(wrong);
    }
    wrong_in(alloc, a, b, failing, true, lines)
}

/// The first line that isn't so on two new disks, where calls are done turn by turn or not.
fn wrong_in(
    alloc: Global,
    a: &[EntryBytes],
    b: &[EntryBytes],
    failing: Option<u8>,
    in_turns: bool,
    lines: &[Line<'_>],
) -> Result<Option<usize>, Fail> {
    let mut drives = two_disks(alloc, a, b, failing)?;
    let mut procs = Procs::new(alloc)?;
    let _ = procs.add(NewProcess::default());
    if !procs.lives(Pid(0)) {
        return Err(Fail::from("no process lives"));
    }
    let process = procs.get(Pid(0));
    wrong_by(alloc, &mut drives, process, in_turns, lines)
}
