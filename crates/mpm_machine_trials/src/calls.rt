//! What no whole run shows: the registers after a call, who lives, and the bytes that addresses name.
use mpm_machine_scenes::Register::{A, B, C, De, Halted, Hl, Pc, Sp};
use mpm_machine_scenes::Sight::{Byte, Has, Lives};
use mpm_machine_scenes::{Behind, Scene, alone, traced};
use std::test::Fail;

/// The machine of a program: LD C,F0h; CALL 0005h; RST 00h.
const UNKNOWN_FUNCTION: Scene = Scene {
    machine: b"",
    script: b"",
    first: b"\x0E\xF0\xCD\x05\x00\xC7",
    second: b"",
    trace: false,
    disk: None,
};

/// The machine of a program that sets each byte from F800h on to FFh, and then makes the calls 156 and 154: LD HL,F800h;
/// LD (HL),FFh; LD DE,F801h; LD BC,07FFh; LDIR; LD C,9Ch; CALL 0005h; LD C,9Ah; CALL 0005h.
const COPIES: Scene = Scene {
    machine: b"",
    script: b"",
    first: b"\x21\x00\xF8\x36\xFF\x11\x01\xF8\x01\xFF\x07\xED\xB0\x0E\x9C\xCD\x05\x00\x0E\x9A\xCD\x05\x00",
    second: b"",
    trace: false,
    disk: None,
};

/// A program in pages 40h to 4Fh that waits for a tick: LD C,8Dh; LD DE,0001h; CALL 4005h.
const WAITING: &[u8] = b"\x0E\x8D\x11\x01\x00\xCD\x05\x40";

/// A program there that makes the calls 156 and 154: LD C,9Ch; CALL 4005h; LD C,9Ah; CALL 4005h.
const ASKING: &[u8] = b"\x0E\x9C\xCD\x05\x40\x0E\x9A\xCD\x05\x40";

/// A machine with one segment, of the pages 10h to 17h, and no program.
const ONE_SEGMENT: Scene = Scene {
    machine: b"version = 1\nconsoles = 1\n[[segment]]\nbase = 16\npages = 8\n",
    script: b"",
    first: b"",
    second: b"",
    trace: false,
    disk: None,
};

#[test]
fn an_unknown_function_answers_ffff(rt: HostRuntime) -> Result<(), Fail> {
    UNKNOWN_FUNCTION.shows(
        rt.alloc(),
        &[Behind(
            4,
            b"",
            &[
                Has(0, A, 0xFF),
                Has(0, B, 0xFF),
                Has(0, Hl, 0xFFFF),
                Has(0, Pc, 0x0105),
                Has(0, Sp, 0xBEFE),
            ],
        )],
    )
}

/// A program that makes each call that concerns its caller alone: LD C,0Ch; CALL 0005h; LD C,A3h; CALL 0005h; LD DE,00FFh; LD C,20h;
/// CALL 0005h; LD E,15h; CALL 0005h; LD E,FFh; CALL 0005h; LD C,19h; CALL 0005h; LD DE,3410h; LD C,2Ch; CALL 0005h; LD E,11h;
/// CALL 0005h; LD C,2Dh; CALL 0005h; LD C,1Ah; CALL 0005h; HALT.
const OWN_CALLS: &[u8] = b"\x0E\x0C\xCD\x05\x00\x0E\xA3\xCD\x05\x00\
\x11\xFF\x00\x0E\x20\xCD\x05\x00\x1E\x15\xCD\x05\x00\x1E\xFF\xCD\x05\x00\
\x0E\x19\xCD\x05\x00\x11\x10\x34\x0E\x2C\xCD\x05\x00\x1E\x11\xCD\x05\x00\
\x0E\x2D\xCD\x05\x00\x0E\x1A\xCD\x05\x00\x76";

/// The version is 0130h. The user is 0 at first, and becomes 15h modulo 16. The drive is A. 16 is a multi-sector count, 17 is none.
/// What answers no value answers 0.
#[test]
fn calls_that_concern_their_caller_alone_answer_at_once(rt: HostRuntime) -> Result<(), Fail> {
    alone(OWN_CALLS, false).shows(
        rt.alloc(),
        &[
            Behind(
                4,
                b"",
                &[
                    Has(0, A, 0x30),
                    Has(0, B, 0x01),
                    Has(0, C, 0x0C),
                    Has(0, Hl, 0x0130),
                    Has(0, Pc, 0x0105),
                    Has(0, Sp, 0xBEFE),
                ],
            ),
            Behind(8, b"", &[Has(0, Hl, 0x0130), Has(0, Pc, 0x010A)]),
            Behind(13, b"", &[Has(0, Hl, 0), Has(0, De, 0x00FF)]),
            Behind(17, b"", &[Has(0, Hl, 0), Has(0, De, 0x0015)]),
            Behind(21, b"", &[Has(0, Hl, 5), Has(0, A, 5), Has(0, B, 0)]),
            Behind(25, b"", &[Has(0, Hl, 0), Has(0, A, 0)]),
            Behind(30, b"", &[Has(0, Hl, 0), Has(0, De, 0x3410)]),
            Behind(34, b"", &[Has(0, Hl, 0x00FF), Has(0, A, 0xFF)]),
            Behind(38, b"", &[Has(0, Hl, 0), Has(0, De, 0x3411)]),
            Behind(42, b"", &[Has(0, Hl, 0), Has(0, Sp, 0xBEFE)]),
            Behind(43, b"", &[Has(0, Halted, 1), Has(0, Sp, 0xBEFE)]),
        ],
    )
}

#[test]
fn each_of_them_has_its_record(rt: HostRuntime) -> Result<(), Fail> {
    alone(OWN_CALLS, true).shows(
        rt.alloc(),
        &[
            Behind(4, b"t 4 0 12 30 010C 0000 0130\n", &[Has(0, Hl, 0x0130)]),
            Behind(
                43,
                b"t 4 0 12 30 010C 0000 0130\nt 8 0 163 30 01A3 0000 0130\n\
t 13 0 32 00 0020 00FF 0000\nt 17 0 32 00 0020 0015 0000\nt 21 0 32 05 0020 00FF 0005\n\
t 25 0 25 00 0019 00FF 0000\nt 30 0 44 00 002C 3410 0000\nt 34 0 44 FF 002C 3411 00FF\n\
t 38 0 45 00 002D 3411 0000\nt 42 0 26 00 001A 3411 0000\n",
                &[Has(0, Halted, 1)],
            ),
        ],
    )
}

/// The machine of a program, in which no command line interpreter acts: LD C,96h; LD DE,0110h; CALL 0005h; LD C,2Fh;
/// CALL 0005h; HALT. The command at 0110h has user 0, drive A, console 0 and the text `x`.
const COMMANDS: Scene = Scene {
    machine: b"",
    script: b"",
    first: b"\x0E\x96\x11\x10\x01\xCD\x05\x00\x0E\x2F\xCD\x05\x00\x76\0\0\0\0x\0",
    second: b"",
    trace: true,
    disk: None,
};

#[test]
fn without_an_interpreter_a_command_is_refused_and_a_chain_only_ends_its_process(
    rt: HostRuntime,
) -> Result<(), Fail> {
    COMMANDS.shows(
        rt.alloc(),
        &[
            Behind(
                5,
                b"t 5 0 150 FF 0096 0110 00FF\n",
                &[Has(0, A, 0xFF), Has(0, B, 0), Has(0, Hl, 0x00FF)],
            ),
            Behind(8, b"t 5 0 150 FF 0096 0110 00FF\n", &[Lives(0, true)]),
            Behind(9, b"t 5 0 150 FF 0096 0110 00FF\n", &[Lives(0, false)]),
        ],
    )
}

/// Its program is LD DE,0110h; LD C,98h; CALL 0005h; HALT, as is that of the next two. At 0110h stand the addresses of a text and of a
/// file control block, and at 0120h the text.
#[test]
fn a_name_is_parsed_into_a_file_control_block(rt: HostRuntime) -> Result<(), Fail> {
    let program = b"\x11\x10\x01\x0E\x98\xCD\x05\x00\x76\0\0\0\0\0\0\0\
\x20\x01\x00\x02\0\0\0\0\0\0\0\0\0\0\0\0b:letter.txt now\0";
    alone(program, false).shows(
        rt.alloc(),
        &[Behind(
            5,
            b"",
            &[
                Has(0, Hl, 0x012C),
                Byte(0, 0x0200, 2),
                Byte(0, 0x0201, b'L'),
                Byte(0, 0x0206, b'R'),
                Byte(0, 0x0207, b' '),
                Byte(0, 0x0208, b' '),
                Byte(0, 0x0209, b'T'),
                Byte(0, 0x020B, b'T'),
                Byte(0, 0x020C, 0),
                Byte(0, 0x0210, 0),
                Byte(0, 0x021A, 0),
            ],
        )],
    )
}

#[test]
fn a_password_is_parsed_behind_the_name(rt: HostRuntime) -> Result<(), Fail> {
    let program = b"\x11\x10\x01\x0E\x98\xCD\x05\x00\x76\0\0\0\0\0\0\0\
\x20\x01\x00\x02\0\0\0\0\0\0\0\0\0\0\0\0x;secret\0";
    alone(program, false).shows(
        rt.alloc(),
        &[Behind(
            5,
            b"",
            &[
                Has(0, Hl, 0),
                Byte(0, 0x0200, 0),
                Byte(0, 0x0201, b'X'),
                Byte(0, 0x0202, b' '),
                Byte(0, 0x0210, b'S'),
                Byte(0, 0x0215, b'T'),
                Byte(0, 0x0216, b' '),
                Byte(0, 0x0217, b' '),
                Byte(0, 0x0218, 0),
                Byte(0, 0x021A, 6),
                Byte(0, 0x021B, 0),
            ],
        )],
    )
}

#[test]
fn what_is_no_name_leaves_the_block(rt: HostRuntime) -> Result<(), Fail> {
    let program = b"\x11\x10\x01\x0E\x98\xCD\x05\x00\x76\0\0\0\0\0\0\0\
\x20\x01\x20\x01\0\0\0\0\0\0\0\0\0\0\0\0a..b\0";
    alone(program, false).shows(
        rt.alloc(),
        &[Behind(
            5,
            b"",
            &[
                Has(0, Hl, 0xFFFF),
                Byte(0, 0x0120, b'a'),
                Byte(0, 0x0123, b'b'),
            ],
        )],
    )
}

#[test]
fn who_does_not_live_has_no_registers(rt: HostRuntime) -> Result<(), Fail> {
    UNKNOWN_FUNCTION.shows(
        rt.alloc(),
        &[
            Behind(6, b"", &[Lives(0, true), Lives(1, false)]),
            Behind(7, b"", &[Lives(0, false)]),
        ],
    )
}

#[test]
fn addresses_name_bytes_of_a_segment_or_of_common_memory(rt: HostRuntime) -> Result<(), Fail> {
    UNKNOWN_FUNCTION.shows(
        rt.alloc(),
        &[Behind(
            0,
            b"",
            &[
                Byte(0, 0x0000, 0xC3),
                Byte(0, 0x0101, 0xF0),
                Byte(0, 0xBFFF, 0),
                Byte(0, 0xC000, 0),
            ],
        )],
    )?;
    ONE_SEGMENT.shows(
        rt.alloc(),
        &[Behind(
            0,
            b"",
            &[
                Byte(0, 0x0FFF, 0xFF),
                Byte(0, 0x1000, 0),
                Byte(0, 0x17FF, 0),
                Byte(0, 0x1800, 0xFF),
                Byte(0, 0xFFFF, 0),
            ],
        )],
    )
}

#[test]
fn a_descriptor_and_the_system_data_page_are_copied_and_nothing_else(
    rt: HostRuntime,
) -> Result<(), Fail> {
    COPIES.shows(
        rt.alloc(),
        &[
            Behind(
                2054,
                b"",
                &[
                    Byte(0, 0xF800, 0xFF),
                    Byte(0, 0xF833, 0xFF),
                    Byte(0, 0xFFFF, 0xFF),
                ],
            ),
            Behind(
                2055,
                b"",
                &[
                    Has(0, Hl, 0xF800),
                    Byte(0, 0xF7FF, 0x00),
                    Byte(0, 0xF800, 0x00),
                    Byte(0, 0xF801, 0x00),
                    Byte(0, 0xF802, 0x00),
                    Byte(0, 0xF803, 200),
                    Byte(0, 0xF804, 0xFC),
                    Byte(0, 0xF805, 0xBE),
                    Byte(0, 0xF806, b'P'),
                    Byte(0, 0xF807, b'R'),
                    Byte(0, 0xF80C, b'M'),
                    Byte(0, 0xF80D, b' '),
                    Byte(0, 0xF80E, 0x00),
                    Byte(0, 0xF80F, 0x00),
                    Byte(0, 0xF810, 0x00),
                    Byte(0, 0xF833, 0x00),
                    Byte(0, 0xF834, 0xFF),
                    Byte(0, 0xFEFF, 0xFF),
                    Byte(0, 0xFF00, 0xFF),
                    Byte(0, 0xFF01, 0xFF),
                    Byte(0, 0xFFFF, 0xFF),
                ],
            ),
            Behind(
                2059,
                b"",
                &[
                    Has(0, Hl, 0xFF00),
                    Byte(0, 0xF833, 0x00),
                    Byte(0, 0xF834, 0xFF),
                    Byte(0, 0xFEFF, 0xFF),
                    Byte(0, 0xFF00, 0xFF),
                    Byte(0, 0xFF01, 1),
                    Byte(0, 0xFF02, 0x00),
                    Byte(0, 0xFF0E, 0x00),
                    Byte(0, 0xFF0F, 1),
                    Byte(0, 0xFF10, 0x00),
                    Byte(0, 0xFF11, 192),
                    Byte(0, 0xFF12, 0x80),
                    Byte(0, 0xFF13, 0x00),
                    Byte(0, 0xFF14, 0x00),
                    Byte(0, 0xFFFF, 0x00),
                ],
            ),
        ],
    )
}

#[test]
fn copies_tell_the_slot_of_who_asks_and_each_segment(rt: HostRuntime) -> Result<(), Fail> {
    traced(WAITING, ASKING).shows(
        rt.alloc(),
        &[
            Behind(
                9,
                b"t 9 1 156 34 F89C 0000 F834\n",
                &[
                    Byte(1, 0xF803, 0x00),
                    Byte(1, 0xF837, 200),
                    Byte(1, 0xF838, 0xFC),
                    Byte(1, 0xF839, 0x4E),
                    Byte(1, 0xF83A, b'S'),
                    Byte(1, 0xF83F, b'D'),
                    Byte(1, 0xF842, 0x00),
                    Byte(1, 0xF843, 1),
                ],
            ),
            Behind(
                13,
                b"t 9 1 156 34 F89C 0000 F834\nt 13 1 154 00 FF9A 0000 FF00\n",
                &[
                    Byte(0, 0xFF0F, 2),
                    Byte(0, 0xFF10, 0x40),
                    Byte(0, 0xFF11, 0x10),
                    Byte(0, 0xFF12, 0x80),
                    Byte(0, 0xFF13, 0x00),
                    Byte(0, 0xFF14, 0x40),
                    Byte(0, 0xFF15, 0x10),
                    Byte(0, 0xFF16, 0x80),
                    Byte(0, 0xFF17, 0x01),
                    Byte(0, 0xFF18, 0x00),
                ],
            ),
        ],
    )
}
