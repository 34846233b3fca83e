//! What is typed at consoles: what programs and the terminal message processors make of it.
use mpm_machine_scenes::Sight::{Byte, Lives, Lost};
use mpm_machine_scenes::{Behind, Scene};
use std::test::Fail;

/// A machine file of one console and one segment, in which a program stands at 0100h.
const ONE_SEGMENT: &[u8] = b"version = 1\nconsoles = 1\n[[segment]]\nbase = 0\npages = 192\n";

/// JR to itself.
const WAITING: &[u8] = b"\x18\xFE";

/// Writes `first` and `second` by function 9, each by a call of its own; HALT.
const TWO_STRINGS: &[u8] = b"\x0E\x09\x11\x11\x01\xCD\x05\0\
\x0E\x09\x11\x17\x01\xCD\x05\0\x76first$second$";

/// Reads a line by function 10 into a buffer of 20 bytes at 0109h; HALT at 0108h.
const READING: &[u8] =
    b"\x0E\x0A\x11\x09\x01\xCD\x05\0\x76\x14\0\0\0\0\0\0\0\0\0\0\0\0\0\0\0\0\0\0\0\0\0";

/// A program in one segment, with a script.
fn typed<'a>(script: &'a [u8], program: &'a [u8]) -> Scene<'a> {
    Scene {
        machine: ONE_SEGMENT,
        script,
        first: program,
        second: b"",
        trace: false,
        disk: None,
    }
}

#[test]
fn the_sixty_fifth_key_is_lost(rt: HostRuntime) -> Result<(), Fail> {
    let script = b"1 key 0 aaaaaaaaaaaaaaaaaaaaaaaaaaaaaaaaaaaaaaaaaaaaaaaaaaaaaaaaaaaaaaaaa\n";
    typed(script, WAITING).shows(
        rt.alloc(),
        &[Behind(64, b"", &[Lost(0)]), Behind(65, b"", &[Lost(1)])],
    )
}

#[test]
fn output_that_is_stopped_waits_and_is_written_whole(rt: HostRuntime) -> Result<(), Fail> {
    typed(b"6 key 0 \\x13\n20 key 0 \\x11\n", TWO_STRINGS).shows(
        rt.alloc(),
        &[
            Behind(20, b"c0 first\\\n", &[]),
            Behind(21, b"c0 firstsecond\\\n", &[]),
        ],
    )
}

#[test]
fn a_line_is_edited_as_it_is_typed(rt: HostRuntime) -> Result<(), Fail> {
    typed(b"1 key 0 ab\\x08c\\r\n", READING).shows(
        rt.alloc(),
        &[Behind(
            20,
            b"c0 ab\\x08 \\x08c\\r\\\n",
            &[
                Byte(0, 0x010A, 2),
                Byte(0, 0x010B, b'a'),
                Byte(0, 0x010C, b'c'),
            ],
        )],
    )
}

#[test]
fn a_key_aborts_the_owner_of_its_console(rt: HostRuntime) -> Result<(), Fail> {
    typed(b"5 key 0 \\x03\n", WAITING).shows(
        rt.alloc(),
        &[
            Behind(4, b"", &[Lives(0, true)]),
            Behind(5, b"c0 ^C\\r\n", &[Lives(0, false)]),
        ],
    )
}

/// A machine file of two consoles, a printer and two segments of 16 pages, in banks of their own.
const TWO_CONSOLES: &[u8] = b"version = 1
consoles = 2
printers = 1
[[segment]]
base = 64
pages = 16
[[segment]]
base = 64
pages = 16
";

/// Two programs at console 0, with a script, whose calls are traced.
fn shared<'a>(script: &'a [u8], first: &'a [u8], second: &'a [u8]) -> Scene<'a> {
    Scene {
        machine: TWO_CONSOLES,
        script,
        first,
        second,
        trace: true,
        disk: None,
    }
}

#[test]
fn a_console_passes_by_control_d_and_by_an_end(rt: HostRuntime) -> Result<(), Fail> {
    // Each reads a key (function 1), and then writes its number (function 2); JR to itself.
    let first = b"\x0E\x01\xCD\x05\x40\x0E\x02\x1E\x30\xCD\x05\x40\x18\xFE";
    let second = b"\x0E\x01\xCD\x05\x40\x0E\x02\x1E\x31\xCD\x05\x40\x18\xFE";
    let script = b"10 key 0 \\x04\n20 key 0 a\n30 key 0 \\x03\n40 key 0 \\t\n";
    let text = b"t 21 1 1 61 0001 0000 0061
t 26 1 2 00 0002 0031 0000
c0 a1^C\\r
t 41 0 1 09 0001 0000 0009
t 46 0 2 00 0002 0030 0000
c0         0\\
";
    shared(script, first, second).shows(rt.alloc(), &[Behind(60, text, &[])])
}

#[test]
fn control_s_is_a_key_of_a_raw_console_alone(rt: HostRuntime) -> Result<(), Fail> {
    // Waits for a key by function 6, writes a tab and a point by function 9 and a tab by function 4; JR to itself.
    let program = b"\x0E\x06\x1E\xFD\xCD\x05\x40\x0E\x09\x11\x20\x41\xCD\x05\x40\
\x0E\x04\x1E\x09\xCD\x05\x40\x18\xFE\0\0\0\0\0\0\0\0\t.$";
    let script = b"1 key 0 \\x13\n10 key 0 \\x13\n17 key 0 \\x13\n25 key 0 \\x03\n";
    let text = b"t 11 0 6 13 0006 00FD 0013
t 16 0 9 00 0009 4120 0000
c0         .^C\\r
";
    shared(script, program, b"").shows(rt.alloc(), &[Behind(60, text, &[])])
}

#[test]
fn a_console_is_assigned_and_left_for_another(rt: HostRuntime) -> Result<(), Fail> {
    // Gives console 1 to SECOND (149), and takes a worse priority (145); JR to itself.
    let first =
        b"\x0E\x95\x11\x20\x41\xCD\x05\x40\x0E\x91\x1E\xC9\xCD\x05\x40\x18\xFE\0\0\0\0\0\0\0\0\0\0\0\0\0\0\0\
\x01SECOND  \0";
    // Asks for its console (153), writes X there (2), waits for console 0 (148), writes a tab as it is (4); JR to itself.
    let second = b"\x0E\x99\xCD\x05\x40\x0E\x02\x1E\x58\xCD\x05\x40\x0E\x94\x1E\0\xCD\x05\x40\
\x0E\x04\x1E\x09\xCD\x05\x40\x18\xFE";
    let text = b"t 5 0 149 00 0095 4120 0000
t 10 0 145 00 0091 41C9 0000
t 14 1 153 01 0099 0000 0001
t 19 1 2 00 0002 0058 0000
t 31 1 148 00 0094 0000 0000
t 36 1 4 00 0004 0009 0000
c0 \\t\\
c1 X\\
";
    shared(b"30 key 0 \\x04\n", first, second).shows(rt.alloc(), &[Behind(60, text, &[])])
}

#[test]
fn a_printer_is_left_for_who_asks_next(rt: HostRuntime) -> Result<(), Fail> {
    // Prints P (5), takes a worse priority (145), leaves the printer (159); JR to itself.
    let first =
        b"\x0E\x05\x1E\x50\xCD\x05\x40\x0E\x91\x1E\xC9\xCD\x05\x40\x0E\x9F\xCD\x05\x40\x18\xFE";
    // Asks for the printer without waiting (161), prints LF (5), asks for printers 1 and 0 (160); JR to itself.
    let second =
        b"\x0E\xA1\xCD\x05\x40\x0E\x05\x1E\x0A\xCD\x05\x40\x0E\xA0\x1E\x01\xCD\x05\x40\x0E\xA0\x1E\0\xCD\x05\x40\x18\xFE";
    let text = b"t 5 0 5 00 0005 0050 0000
t 10 0 145 00 0091 00C9 0000
t 14 1 161 FF 00A1 0000 00FF
t 23 0 159 00 009F 00C9 0000
l0 P
t 24 1 5 00 0005 000A 0000
t 29 1 160 FF 00A0 0001 00FF
t 34 1 160 00 00A0 0000 0000
";
    shared(b"", first, second).shows(rt.alloc(), &[Behind(40, text, &[])])
}
