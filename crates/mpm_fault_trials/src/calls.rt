//! File calls of a program on each kind of disk, at once and in turns of twenty steps, of which each call of the drive fails. It is seen in
//! which step the run ends, what text comes before, and what is there of the disk, which mounts again. Of the calls that read the directory
//! as a drive is mounted, the first and the last fail here; all of them fail in `runs` and in `ways`.
//!
//! A call of the program is four instructions, and the fifth of its steps is the gate's; the next call's first is in the step after that
//! in which it is over. Where it enters service in step e and takes t turns, turn i is in step e + 20 i, and it is over in step e + 20 t.
ghost use Rattle.std.specs.Prelude.{IfOk};
ghost use Rattle.mpm_machine_file.specs.MachineFiles.{IsMachine};

use crate::disk::{Slots, at_first, bytes_of, entry, gone, has_files, is_restored, made};
use crate::placed::run_placed;
use crate::play::{ROUND, fail_behind};
use mpm_base::Kind;
use mpm_images::{guard, layout_of};
use mpm_machine_file::{MachineFile, read_machine};
use mpm_port::{Drives, MemoryDrives, MemorySink};
use mpm_top::Status;
use std::alloc::Global;
use std::test::Fail;

/// How many steps a run has: more than its program's.
const STEPS: u64 = 600;

/// A call of a program: its function, its parameter, how many turns it takes, which are none where no disk serves it, and its line
/// after the step and the process.
type Call = (u8, u16, u64, &'static str);

/// Sixteen records at once (44); SECRET and 80h (26) for A.TXT, which is made (22); sixteen records (26) are written to it (21); G.TXT is
/// deleted (19); O.TXT becomes N.TXT (23).
const CHANGES: [Call; 7] = [
    (44, 0x0010, 0, "44 00 002C 0010 0000"),
    (26, 0x42C0, 0, "26 00 001A 42C0 0000"),
    (22, 0x4200, 2, "22 00 0016 4200 0000"),
    (26, 0x4400, 0, "26 00 001A 4400 0000"),
    (21, 0x4200, 16, "21 00 0015 4200 0000"),
    (19, 0x4240, 3, "19 00 0013 4240 0000"),
    (23, 0x4280, 3, "23 00 0017 4280 0000"),
];

/// B.TXT is opened (15), and its record 0 is read twice (33).
const READS: [Call; 3] = [
    (15, 0x4300, 1, "15 00 000F 4300 0000"),
    (33, 0x4300, 1, "33 00 0021 4300 0000"),
    (33, 0x4300, 1, "33 00 0021 4300 0000"),
];

/// The blocks of the files, after the program's first byte, and the password.
const DATA: [(usize, &[u8]); 5] = [
    (0x100, b"\0A    \xA0  TXT"),
    (0x200, b"\0B       TXT"),
    (0x140, b"\0G       TXT"),
    (0x180, b"\0O       TXT\0\0\0\0\0N       TXT"),
    (0x1C0, b"SECRET  \x80"),
];

/// A program's bytes, which stand from 4100h on.
type Program = [u8; 3072];

/// Puts bytes into a program.
fn put(program: &mut Program, at: usize, bytes: &[u8]) {
    for (k, byte) in bytes.iter().enumerate() {
        if let Some(old) = program.get_mut(at.saturating_add(k)) {
            *old = *byte;
        }
    }
}

/// The program that makes those calls and halts. The records at 4400h have the letters a to p.
fn program(calls: &[Call]) -> Program {
    let mut program = [0; 3072];
    let mut at = 0_usize;
    for (function, parameter, _, _) in calls {
        let [low, high] = parameter.to_le_bytes();
        put(
            &mut program,
            at,
            &[0x11, low, high, 0x0E, *function, 0xCD, 0x05, 0x40],
        );
        at = at.saturating_add(8);
    }
    put(&mut program, at, b"\x76");
    for (at, bytes) in DATA {
        put(&mut program, at, bytes);
    }
    for byte in 0..2048_usize {
        put(
            &mut program,
            0x300 + byte,
            &[b'a' + (byte / 128 % 16) as u8],
        );
    }
    program
}

/// What a program does on which disk, whose turns take so many steps: none where each call is done at once.
#[derive(Clone, Copy)]
struct Scene<'a> {
    calls: &'a [Call],
    kind: Kind,
    turn: u64,
}

impl Scene<'_> {
    /// How many turns a call takes: one more on `hd8` where a fresh block is cleared.
    fn turns_of(&self, call: Call) -> u64 {
        match (call.0, self.kind) {
            (21, Kind::Hd8) => call.2.saturating_add(1),
            _ => call.2,
        }
    }

    /// The step of a turn of a call by its number from 0, counted from 1, or of its gate.
    fn step(&self, number: usize, turn: u64) -> u64 {
        let mut step: u64 = 5;
        for call in self.calls.iter().take(number) {
            let lasts = self.turn.saturating_mul(self.turns_of(*call));
            step = step.saturating_add(lasts).saturating_add(5);
        }
        step.saturating_add(self.turn.saturating_mul(turn))
    }

    /// The lines of the calls that are over before a step.
    fn text_before(&self, alloc: Global, step: u64) -> Result<String, Fail> {
        let mut text = String::new(alloc);
        for (number, call) in self.calls.iter().enumerate() {
            let over = self.step(number, self.turns_of(*call));
            if over < step {
                let line = format!(in alloc; "t {over} 0 {}\n", call.3)?;
                text.push_str(line.as_str())?;
            }
        }
        Ok(text)
    }
}

/// What comes of a run whose drive fails after so many calls: the step in which it ends, and the directory.
#[derive(Clone, Copy)]
struct Course {
    left: u64,
    ended: Option<u64>,
    slots: Slots,
}

impl Course {
    /// Calls of the drive in a step.
    fn calls(&mut self, step: u64, count: u64) {
        if self.ended.is_some() {
            return;
        }
        if self.left < count {
            self.ended = Some(step);
        }
        self.left = self.left.saturating_sub(count);
    }

    /// One that puts an entry into a slot.
    fn puts(&mut self, step: u64, slot: usize, entry: &[u8; 32]) {
        self.calls(step, 1);
        if self.ended.is_none() {
            self.slots[slot % 12] = *entry;
        }
    }
}

/// How many calls mount a drive: it is attached, its size is asked, and each sector of its directory is read.
fn mounting(kind: Kind) -> u64 {
    let layout = layout_of(kind);
    let sectors = u64::from(layout.first).saturating_mul(u64::from(layout.block));
    sectors.saturating_add(2)
}

/// A run that begins.
fn begun(kind: Kind, left: u64) -> Course {
    let mut course = Course {
        left,
        ended: None,
        slots: at_first(kind),
    };
    course.calls(0, mounting(kind));
    course
}

/// The reads: the second finds the record in memory. In the end the drive is synced.
fn read_twice(scene: &Scene<'_>, left: u64) -> Course {
    let mut course = begun(scene.kind, left);
    course.calls(scene.step(1, 1), 1);
    course.calls(STEPS, 1);
    course
}

/// The changes: a sector of the directory is read once, before it is written.
fn changed(scene: &Scene<'_>, left: u64) -> Course {
    let kind = scene.kind;
    let mut course = begun(kind, left);
    course.calls(scene.step(2, 1), 1);
    course.puts(scene.step(2, 1), 2, &made(kind, 0));
    course.puts(scene.step(2, 2), 3, &guard(16, b'A', 0x80));
    write(scene, &mut course);
    course.calls(scene.step(5, 1), 1);
    course.puts(scene.step(5, 1), 6, &gone(entry(kind, b'G', 0, 1)));
    course.calls(scene.step(5, 2), 1);
    course.puts(scene.step(5, 2), 8, &gone(entry(kind, b'G', 1, 2)));
    course.puts(scene.step(5, 3), 4, &gone(entry(kind, b'G', 2, 3)));
    course.puts(scene.step(6, 1), 5, &entry(kind, b'N', 0, 4));
    course.puts(scene.step(6, 2), 7, &entry(kind, b'N', 1, 5));
    course.puts(scene.step(6, 3), 10, &entry(kind, b'N', 2, 6));
    course.calls(STEPS, 1);
    course
}

/// The records: each sector of a block that was free, or one; and then the entry that counts the record. On `hd8` the first eighteen
/// sectors of the block come in a turn before, and that of the record comes once more.
fn write(scene: &Scene<'_>, course: &mut Course) {
    let first = scene.turns_of(CHANGES[4]).saturating_sub(15);
    for record in 0..16_u8 {
        let step = scene.step(4, first.saturating_add(u64::from(record)));
        match (scene.kind, record) {
            (Kind::Ibm3740, 0 | 8) => course.calls(step, 8),
            (Kind::Hd4, 0) => course.calls(step, 16),
            (Kind::Hd8, 0) => {
                course.calls(scene.step(4, 1), 18);
                course.calls(step, 15);
            }
            _ => course.calls(step, 1),
        }
        course.puts(step, 2, &made(scene.kind, record.saturating_add(1)));
    }
}

/// Whether a sink has the text of the steps before one.
fn has_text(alloc: Global, scene: &Scene<'_>, step: u64, sink: &MemorySink) -> Result<bool, Fail> {
    let text = scene.text_before(alloc, step)?;
    Ok(sink.written() == text.as_bytes())
}

/// Whether a run ends so, has the text of the steps before, and leaves those files on a disk that mounts. Where no call of it failed,
/// the next one does.
fn shows(
    alloc: Global,
    scene: &Scene<'_>,
    file: &MachineFile,
    drives: &mut MemoryDrives,
    sink: &mut MemorySink,
    course: &Course,
) -> Result<bool, Fail>
    requires { IsMachine file.now }
{
    let (ending, step) = match course.ended {
        Some(step) => (Status::DiskFault { step }, step),
        None => (Status::Ran, STEPS + 1),
    };
    let program = program(scene.calls);
    if run_placed(alloc, file, drives, sink, &program, STEPS)? != ending {
        return Ok(false);
    }
    let has_failed = drives.attach(0, "a.img") == Ok(());
    let is_left = has_files(drives, scene.kind, &course.slots);
    if !has_text(alloc, scene, step, sink)? || has_failed != course.ended.is_some() || !is_left {
        return Ok(false);
    }
    Ok(run_placed(alloc, file, drives, sink, b"", 0)? == Status::Ran)
}

/// The machine file of a kind of disk, by its name, whose turns take so many steps.
fn machine_on(alloc: Global, name: &str, turn: u64) -> Result<MachineFile, Fail>
    ensures { IfOk result (λ file. IsMachine file) }
{
    let text = format!(in alloc;
        "version = 1\nconsoles = 1\ndisk_turn = {turn}\n[[segment]]\nbase = 64\npages = 16\n[[drive]]\nletter = 'A'\nkind = '{name}'\nimage = 'a.img'\n"
    )?;
    let file = read_machine(alloc, text.as_bytes())?;
    Ok(file)
}

/// The call that fails in a round, counted from 1: those that mount the drive up to the first sector of its directory, that of the
/// last sector, and each after that.
fn failing_call(kind: Kind, round: u64) -> u64 {
    if round < 4 {
        round
    } else {
        mounting(kind).saturating_add(round).saturating_sub(4)
    }
}

/// What comes of a run of which a call fails, by the calls before it.
fn course_of(scene: &Scene<'_>, behind: u64) -> Course {
    if scene.calls.len() == READS.len() {
        read_twice(scene, behind)
    } else {
        changed(scene, behind)
    }
}

/// The first call whose failing ends otherwise, if any, up to that which isn't made. So many rounds of calls were on the drives before.
fn first_on(
    alloc: Global,
    scene: &Scene<'_>,
    file: &MachineFile,
    drives: &mut MemoryDrives,
    rounds: &mut u64,
) -> Result<Option<u64>, Fail>
    requires { IsMachine file.now }
{
    for round in 1..1000_u64 {
        let call = failing_call(scene.kind, round);
        let course = course_of(scene, call.saturating_sub(1));
        let mut sink = MemorySink::new(alloc, 1024)?;
        if !is_restored(drives, scene.kind) {
            return Err(Fail::from("the disk isn't restored"));
        }
        *rounds = rounds.saturating_add(1);
        fail_behind(drives, ROUND.saturating_mul(*rounds), call)?;
        if !shows(alloc, scene, file, drives, &mut sink, &course)? {
            return Ok(Some(call));
        }
        if course.ended.is_none() {
            return Ok(None);
        }
    }
    Err(Fail::from("a run without an end"))
}

/// The first call whose failing ends otherwise, if any, on a machine with a kind of disk by its name.
fn first_other(
    alloc: Global,
    scene: &Scene<'_>,
    name: &str,
    drives: &mut MemoryDrives,
    rounds: &mut u64,
) -> Result<Option<u64>, Fail> {
    let file = machine_on(alloc, name, scene.turn)?;
    first_on(alloc, scene, &file, drives, rounds)
}

/// Drives with the disk of a kind.
fn drives_with(alloc: Global, kind: Kind) -> Result<MemoryDrives, Fail> {
    let image = bytes_of(alloc, kind, &at_first(kind))?;
    let mut drives = MemoryDrives::new(alloc);
    drives.add("a.img", image.as_slice())?;
    Ok(drives)
}

/// Each call that fails, on a kind of disk by its name, whose turns take so many steps, one after the other.
fn each_call(
    alloc: Global,
    calls: &[Call],
    kind: Kind,
    name: &str,
    turns: &[u64],
) -> Result<(), Fail> {
    let mut drives = drives_with(alloc, kind)?;
    let mut rounds = 0;
    for turn in turns {
        let turn = *turn;
        let scene = Scene { calls, kind, turn };
        if let Some(call) = first_other(alloc, &scene, name, &mut drives, &mut rounds)? {
            return Err(Fail::new(format_args!("call {call} on {name}, turns of {turn}")));
        }
    }
    Ok(())
}

#[test]
fn files_are_changed_on_ibm3740_up_to_a_failed_call(rt: HostRuntime) -> Result<(), Fail> {
    each_call(rt.alloc(), &CHANGES, Kind::Ibm3740, "ibm3740", &[0, 20])
}

#[test]
fn files_are_changed_on_hd4_at_once_up_to_a_failed_call(rt: HostRuntime) -> Result<(), Fail> {
    each_call(rt.alloc(), &CHANGES, Kind::Hd4, "hd4", &[0])
}

#[test]
fn files_are_changed_on_hd4_in_turns_up_to_a_failed_call(rt: HostRuntime) -> Result<(), Fail> {
    each_call(rt.alloc(), &CHANGES, Kind::Hd4, "hd4", &[20])
}

#[test]
fn files_are_changed_on_hd8_at_once_up_to_a_failed_call(rt: HostRuntime) -> Result<(), Fail> {
    each_call(rt.alloc(), &CHANGES, Kind::Hd8, "hd8", &[0])
}

#[test]
fn files_are_changed_on_hd8_in_turns_up_to_a_failed_call(rt: HostRuntime) -> Result<(), Fail> {
    each_call(rt.alloc(), &CHANGES, Kind::Hd8, "hd8", &[20])
}

#[test]
fn a_record_that_was_read_is_in_memory_on_ibm3740(rt: HostRuntime) -> Result<(), Fail> {
    each_call(rt.alloc(), &READS, Kind::Ibm3740, "ibm3740", &[0, 20])
}

#[test]
fn a_record_that_was_read_is_in_memory_on_hd4(rt: HostRuntime) -> Result<(), Fail> {
    each_call(rt.alloc(), &READS, Kind::Hd4, "hd4", &[0, 20])
}

#[test]
fn a_record_that_was_read_is_in_memory_on_hd8(rt: HostRuntime) -> Result<(), Fail> {
    each_call(rt.alloc(), &READS, Kind::Hd8, "hd8", &[0, 20])
}
