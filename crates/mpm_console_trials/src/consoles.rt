//! Consoles and printers, line by line: what is done with them, and what is seen of them.
use crate::consoles::Comes::{Aborts, Dropped, Nothing, Passes, Stored, Wakes};
use crate::consoles::Line::{
    Assign, Attach, Awaits, Column, Detach, Key, KeyOfResident, Leave, Lost, MakeRaw, Owner, Raw,
    Stopped, StoreMany, Take, TakeMany, TryAttach, Wait, Waits, Write, WriteLines,
};
use mpm_base::Pid;
use mpm_consoles::{Consoles, KeyDone, Unit};
use std::alloc::Global;
use std::test::Fail;

const FIRST: Unit = Unit::Console { n: 0 };

const SECOND: Unit = Unit::Console { n: 1 };

const LIST: Unit = Unit::Printer { n: 1 };

/// What a key comes to. A process is named by its slot.
#[derive(Clone, Copy)]
enum Comes {
    Stored,
    Dropped,
    Wakes(u8),
    Aborts(u8),
    Passes(u8, Option<u8>),
    Nothing,
}

/// A line: a call with its answer, or what is seen. A process is named by its slot, a console by its number.
#[derive(Clone, Copy)]
enum Line<'a> {
    /// A process of that priority attaches a unit, or waits for it.
    Attach(u8, u8, Unit, bool),
    /// A process attaches a unit, or learns that it can't.
    TryAttach(u8, Unit, bool),
    /// A process detaches a unit, which passes to another.
    Detach(u8, Unit, Option<u8>),
    /// A console is assigned to a process, which waited for it or not.
    Assign(u8, u8, bool),
    /// A process waits for no unit any more.
    Leave(u8),
    /// A key comes to a console whose owner is no resident.
    Key(u8, u8, Comes),
    /// A key comes to a console whose owner is a resident.
    KeyOfResident(u8, u8, Comes),
    /// The keys from one byte up to another come to a console, and are stored.
    StoreMany(u8, u8, u8),
    /// The oldest key of a console is taken.
    Take(u8, Option<u8>),
    /// The keys from one byte up to another are taken from a console.
    TakeMany(u8, u8, u8),
    /// A console is made raw.
    MakeRaw(u8),
    /// The owner of a console waits at its gate, for a key or for output to go on.
    Wait(u8, u8, bool),
    /// A text is written to a unit, with tabs expanded or not: so many spaces stand for its last byte.
    Write(Unit, &'a [u8], bool, u8),
    /// A text is written to a unit so many times, in which no tab is.
    WriteLines(Unit, &'a [u8], u8),
    /// Who owns a unit.
    Owner(Unit, Option<u8>),
    /// Whether a process waits for a unit.
    Waits(u8, bool),
    /// How many keys of a console were lost.
    Lost(u8, u64),
    /// Whether the output of a console is stopped.
    Stopped(u8, bool),
    /// Whether a console is raw.
    Raw(u8, bool),
    /// Whether the owner of a console waits at its gate.
    Awaits(u8, bool),
    /// The column of a console.
    Column(u8, u16),
}

/// The process of a slot, if there is one.
fn process(slot: Option<u8>) -> Option<Pid> {
    match slot {
        Some(slot) => Some(Pid(slot % 32)),
        None => None,
    }
}

/// A process attaches a unit and waits for it, where it may.
fn attach(units: &mut Consoles, p: Pid, priority: u8, unit: Unit, answer: bool) -> bool {
    units.has(unit) && !units.waits(p) && units.attach(p, priority, unit, true) == answer
}

/// The answer of a key.
fn key_done(comes: Comes) -> KeyDone {
    match comes {
        Comes::Stored => KeyDone::Stored,
        Comes::Dropped => KeyDone::Dropped,
        Comes::Wakes(p) => KeyDone::Wakes { p: Pid(p % 32) },
        Comes::Aborts(p) => KeyDone::Aborts { p: Pid(p % 32) },
        Comes::Passes(from, to) => KeyDone::Passes {
            from: Pid(from % 32),
            to: process(to),
        },
        Comes::Nothing => KeyDone::Nothing,
    }
}

/// A key comes to a console, if it is there.
fn key(units: &mut Consoles, console: u8, byte: u8, resident: bool, comes: Comes) -> bool {
    console < units.consoles() && units.key(console, byte, resident) == key_done(comes)
}

/// The oldest key of a console, if it is there, is taken.
fn take(units: &mut Consoles, console: u8, answer: Option<u8>) -> bool {
    console < units.consoles() && units.take(console) == answer
}

/// The owner of a console waits at its gate, where it may.
fn wait(units: &mut Consoles, p: Pid, console: u8, for_key: bool) -> bool {
    if console >= units.consoles() || !units.is_owner(p, Unit::Console { n: console }) {
        return false;
    }
    units.wait(p, console, for_key);
    true
}

/// A console, if it is there, is made raw.
fn make_raw(units: &mut Consoles, console: u8) -> bool {
    if console >= units.consoles() {
        return false;
    }
    units.set_raw(console, true);
    true
}

/// A text is written to a unit, if it is there: answers how many spaces stood for its last byte.
fn write(units: &mut Consoles, unit: Unit, text: &[u8], tabs: bool) -> Option<u8> {
    let mut spaces = 0;
    for byte in text {
        if !units.has(unit) {
            return None;
        }
        spaces = units.output(unit, *byte, tabs);
    }
    Some(spaces)
}

/// Keys from one byte up to another are stored.
fn store_many(units: &mut Consoles, console: u8, from: u8, to: u8) -> bool {
    for byte in from..to {
        if !key(units, console, byte, false, Comes::Stored) {
            return false;
        }
    }
    true
}

/// Keys from one byte up to another are taken.
fn take_many(units: &mut Consoles, console: u8, from: u8, to: u8) -> bool {
    for byte in from..to {
        if !take(units, console, Some(byte)) {
            return false;
        }
    }
    true
}

/// A text without tabs is written so many times.
fn write_lines(units: &mut Consoles, unit: Unit, text: &[u8], count: u8) -> bool {
    for _line in 0..count {
        if write(units, unit, text, true) != Some(0) {
            return false;
        }
    }
    true
}

/// A line on who has a unit comes to pass, and all is so that it says.
fn passes(units: &mut Consoles, line: Line) -> bool {
    match line {
        Line::Attach(p, priority, unit, answer) => attach(
            units,
            Pid(p % 32),
            priority,
            unit,
            answer,
        ),
        Line::TryAttach(p, unit, answer) => units.has(unit)
            && units.attach(Pid(p % 32), 100, unit, false) == answer,
        Line::Detach(p, unit, heir) => units.has(unit)
            && units.detach(Pid(p % 32), unit) == process(heir),
        Line::Assign(console, to, answer) => console < units.consoles()
            && units.assign(console, Pid(to % 32)) == answer,
        Line::Leave(p) => {
            units.leave(Pid(p % 32));
            true
        }
        Line::Wait(p, console, for_key) => wait(units, Pid(p % 32), console, for_key),
        _ => types(units, line),
    }
}

/// A line on keys and texts comes to pass, and all is so that it says.
fn types(units: &mut Consoles, line: Line) -> bool {
    match line {
        Line::Key(console, byte, answer) => key(units, console, byte, false, answer),
        Line::KeyOfResident(console, byte, answer) => key(units, console, byte, true, answer),
        Line::StoreMany(console, from, to) => store_many(units, console, from, to),
        Line::Take(console, answer) => take(units, console, answer),
        Line::TakeMany(console, from, to) => take_many(units, console, from, to),
        Line::MakeRaw(console) => make_raw(units, console),
        Line::Write(unit, text, tabs, spaces) => write(units, unit, text, tabs) == Some(spaces),
        Line::WriteLines(unit, text, count) => write_lines(units, unit, text, count),
        _ => shows(units, line),
    }
}

/// What a line says of the units as they are is so.
fn shows(units: &Consoles, line: Line) -> bool {
    match line {
        Line::Owner(unit, p) => units.has(unit) && units.owner(unit) == process(p),
        Line::Waits(p, waits) => units.waits(Pid(p % 32)) == waits,
        Line::Lost(console, count) => console < units.consoles() && units.lost(console) == count,
        Line::Stopped(console, is) => console < units.consoles() && units.stopped(console) == is,
        Line::Raw(console, is) => console < units.consoles() && units.raw(console) == is,
        Line::Awaits(console, is) => console < units.consoles() && units.awaits(console) == is,
        Line::Column(console, column) => console < units.consoles()
            && units.column(console) == column,
        _ => false,
    }
}

/// A scene of two consoles and two printers that nobody owns.
fn play(alloc: Global, lines: &[Line]) -> Result<(), Fail> {
    let mut units = Consoles::new(alloc, 2, 2)?;
    play_on(&mut units, lines)
}

/// The lines of a scene, in order.
fn play_on(units: &mut Consoles, lines: &[Line]) -> Result<(), Fail> {
    for (number, line) in lines.iter().enumerate() {
        if !passes(units, *line) {
            return Err(Fail::new(format_args!("line {number} of the scene, from 0")));
        }
    }
    Ok(())
}

#[test]
fn the_65th_key_is_lost_and_the_first_stays(rt: HostRuntime) -> Result<(), Fail> {
    play(
        rt.alloc(),
        &[
            Take(0, None),
            StoreMany(0, 128, 192),
            Lost(0, 0),
            Key(0, b'x', Dropped),
            Lost(0, 1),
            TakeMany(0, 128, 192),
            Take(0, None),
        ],
    )
}

#[test]
fn stopped_output_goes_on_and_wakes_the_owner_that_waits_for_it(
    rt: HostRuntime,
) -> Result<(), Fail> {
    play(
        rt.alloc(),
        &[
            Attach(3, 100, FIRST, true),
            Key(0, 0x13, Nothing),
            Stopped(0, true),
            Stopped(1, false),
            Wait(3, 0, false),
            Key(0, b'a', Stored),
            Key(0, 0x11, Wakes(3)),
            Stopped(0, false),
            Key(0, 0x11, Nothing),
            Wait(3, 0, true),
            Key(0, 0x11, Nothing),
            Key(1, b'b', Stored),
            Key(0, b'b', Wakes(3)),
            Key(0, b'c', Stored),
            Take(0, Some(b'a')),
            Take(0, Some(b'b')),
        ],
    )
}

#[test]
fn a_unit_passes_to_its_first_waiter_by_priority(rt: HostRuntime) -> Result<(), Fail> {
    play(
        rt.alloc(),
        &[
            Attach(1, 200, LIST, true),
            Attach(1, 200, LIST, true),
            Attach(2, 200, LIST, false),
            Attach(3, 199, LIST, false),
            Attach(4, 199, LIST, false),
            TryAttach(5, LIST, false),
            Waits(5, false),
            Detach(2, LIST, None),
            Detach(1, LIST, Some(3)),
            Waits(3, false),
            Leave(4),
            Detach(3, LIST, Some(2)),
            Owner(LIST, Some(2)),
            Owner(FIRST, None),
            Detach(2, LIST, None),
            Owner(LIST, None),
        ],
    )
}

#[test]
fn control_c_and_d_spare_residents(rt: HostRuntime) -> Result<(), Fail> {
    play(
        rt.alloc(),
        &[
            Key(0, 0x03, Nothing),
            Key(0, 0x04, Nothing),
            Attach(7, 198, FIRST, true),
            Attach(8, 200, FIRST, false),
            KeyOfResident(0, 0x03, Nothing),
            KeyOfResident(0, 0x04, Nothing),
            Owner(FIRST, Some(7)),
            Key(0, 0x03, Aborts(7)),
            Wait(7, 0, true),
            Awaits(0, true),
            Key(0, 0x04, Passes(7, Some(8))),
            Awaits(0, false),
            Key(0, 0x04, Passes(8, None)),
            Take(0, None),
        ],
    )
}

#[test]
fn a_raw_console_stores_control_characters_and_a_new_owner_ends_it(
    rt: HostRuntime,
) -> Result<(), Fail> {
    play(
        rt.alloc(),
        &[
            Attach(7, 198, FIRST, true),
            Key(0, 0x13, Nothing),
            Raw(0, false),
            MakeRaw(0),
            Raw(0, true),
            Stopped(0, false),
            Key(0, 0x13, Stored),
            Key(0, 0x03, Stored),
            Stopped(0, false),
            Assign(0, 9, false),
            Key(0, 0x13, Nothing),
            Stopped(0, true),
            Detach(9, FIRST, None),
            Stopped(0, false),
            Take(0, Some(0x13)),
            Take(0, Some(0x03)),
            Take(0, None),
        ],
    )
}

#[test]
fn an_assignment_ends_the_wait_for_that_console_alone(rt: HostRuntime) -> Result<(), Fail> {
    play(
        rt.alloc(),
        &[
            Attach(0, 100, FIRST, true),
            Attach(1, 100, SECOND, true),
            Attach(2, 100, FIRST, false),
            Assign(1, 2, false),
            Waits(2, true),
            Owner(SECOND, Some(2)),
            Assign(0, 2, true),
            Waits(2, false),
            Owner(FIRST, Some(2)),
        ],
    )
}

#[test]
fn tabs_go_to_the_next_column_divisible_by_eight(rt: HostRuntime) -> Result<(), Fail> {
    play(
        rt.alloc(),
        &[
            Write(FIRST, b"\t", true, 8),
            Write(FIRST, b"abc\t", true, 5),
            Write(FIRST, b"\rab\x08\x07\t", true, 7),
            Write(FIRST, b"\r\x08\t", true, 8),
            Column(0, 8),
            Write(FIRST, b"a\t", false, 0),
            Write(FIRST, b"\t", true, 7),
            Write(LIST, b"a\t", true, 0),
        ],
    )
}

#[test]
fn the_last_column_is_65535(rt: HostRuntime) -> Result<(), Fail> {
    play(
        rt.alloc(),
        &[
            WriteLines(FIRST, &[b'x'; 300], 220),
            Write(FIRST, b"\t", true, 1),
            Write(FIRST, b"\t", true, 1),
            Write(FIRST, b"\x08\x08\t", true, 3),
        ],
    )
}
