//! Events between instructions: what the processes of a whole machine see of them.
use mpm_machine_scenes::Register::{A, B, Halted, Hl, Pc};
use mpm_machine_scenes::Sight::Has;
use mpm_machine_scenes::{Behind, Scene, TWO_SEGMENTS};
use std::test::Fail;

/// JR to itself.
const WAITING: &[u8] = b"\x18\xFE";

/// JP to the base page, where the process ends.
const ENDING: &[u8] = b"\xC3\x00\x40";

/// The machine file with a tick every 100 steps.
const TICKING: &[u8] = b"version = 1
consoles = 1
tick_every = 100
[[segment]]
base = 64
pages = 16
[[segment]]
base = 64
pages = 16
";

#[test]
fn a_tick_comes_between_two_transfers_of_an_ldir(rt: HostRuntime) -> Result<(), Fail> {
    let scene = Scene {
        machine: TWO_SEGMENTS,
        script: b"6 tick\n",
        // LD HL,410Bh; LD DE,C100h; LD BC,3; LDIR; three bytes.
        first: b"\x21\x0B\x41\x11\x00\xC1\x01\x03\x00\xED\xB0\x11\x22\x33",
        // LD A,(C101h); LD B,A; LD A,(C102h).
        second: b"\x3A\x01\xC1\x47\x3A\x02\xC1",
        trace: true,
        disk: None,
    };
    scene.shows(
        rt.alloc(),
        &[Behind(9, b"", &[Has(1, B, 0x22), Has(1, A, 0x00)])],
    )
}

#[test]
fn an_event_comes_after_the_instruction_that_follows_ei(rt: HostRuntime) -> Result<(), Fail> {
    let scene = Scene {
        machine: TWO_SEGMENTS,
        script: b"2 int 5\n",
        // DI; EI; HALT.
        first: b"\xF3\xFB\x76",
        second: WAITING,
        trace: true,
        disk: None,
    };
    scene.shows(
        rt.alloc(),
        &[
            Behind(3, b"", &[Has(0, Halted, 1)]),
            Behind(4, b"", &[Has(0, Halted, 0), Has(0, Pc, 0x4103)]),
        ],
    )
}

#[test]
fn a_poll_is_held_until_its_device_is_ready(rt: HostRuntime) -> Result<(), Fail> {
    let scene = Scene {
        machine: TWO_SEGMENTS,
        script: b"50 ready 3 5A\n",
        // Function 131 of device 3, IN A,(83h), and function 131 again; then HALT.
        first: b"\x0E\x83\x1E\x03\xCD\x05\x40\xDB\x83\x0E\x83\x1E\x03\xCD\x05\x40\x76",
        second: ENDING,
        trace: true,
        disk: None,
    };
    scene.shows(
        rt.alloc(),
        &[Behind(
            100,
            b"t 50 0 131 00 0083 0003 0000\n",
            &[Has(0, A, 0x5A), Has(0, Pc, 0x4110)],
        )],
    )
}

#[test]
fn a_clock_of_sixty_ticks_a_second_is_told(rt: HostRuntime) -> Result<(), Fail> {
    let scene = Scene {
        machine: TICKING,
        script: b"5994 int 4\n",
        // LD C,132; LD E,4; CALL 4005h, which waits for the flag; LD C,105; LD DE,4200h; CALL 4005h; HALT.
        first: b"\x0E\x84\x1E\x04\xCD\x05\x40\x0E\x69\x11\x00\x42\xCD\x05\x40\x76",
        second: ENDING,
        trace: true,
        disk: None,
    };
    scene.shows(
        rt.alloc(),
        &[Behind(
            6010,
            b"t 5994 0 132 00 0084 0004 0000\nt 5999 0 105 00 0069 4200 0000\n",
            &[Has(0, Hl, 0)],
        )],
    )?;
    let later = Scene {
        script: b"5996 int 4\n",
        ..scene
    };
    later.shows(
        rt.alloc(),
        &[Behind(
            6010,
            b"t 5996 0 132 00 0084 0004 0000\nt 6002 0 105 01 0069 4200 0001\n",
            &[Has(0, Hl, 1)],
        )],
    )
}

#[test]
fn a_message_comes_into_the_memory_of_who_waits_for_it(rt: HostRuntime) -> Result<(), Fail> {
    let scene = Scene {
        machine: TWO_SEGMENTS,
        script: b"",
        // Function 134 with the block at 4115h, for one message of two bytes; function 137 with that at 4123h, which names
        // 412Fh; LD A,(4130h); JR to itself; the blocks.
        first: b"\x0E\x86\x11\x15\x41\xCD\x05\x40\x0E\x89\x11\x23\x41\xCD\x05\x40\x3A\x30\x41\x18\xFE\0\0QUEUE   \x02\0\x01\0\x01\0\x2F\x41QUEUE   ",
        // Function 139 with the block at 410Fh, which names 411Bh; function 142; JR to itself; the block; the message.
        second: b"\x0E\x8B\x11\x0F\x41\xCD\x05\x40\x0E\x8E\xCD\x05\x40\x18\xFE\x01\0\x1B\x41QUEUE   \x55\x66",
        trace: true,
        disk: None,
    };
    let text =
        b"t 5 0 134 00 0086 4115 0000\nt 15 1 139 00 008B 410F 0000\nt 15 0 137 00 0089 4123 0000\nt 19 1 142 00 008E 410F 0000\n";
    scene.shows(
        rt.alloc(),
        &[Behind(20, text, &[Has(0, A, 0x66), Has(0, Pc, 0x4113)])],
    )
}
