//! File calls that the disk serves in turns of twenty steps, while another program runs.
//!
//! A call of the form of `Act::Calls` comes to its gate in its fifth step. Where it enters service in step e and takes t turns, it is
//! over in step e + 20 t, and what it answered is kept in the step after that, as its program has the better priority.
use crate::file_calls::Act::Calls;
use crate::file_calls::{Act, Data, Program, in_turns, one_record, program};
use mpm_machine_scenes::Register::Hl;
use mpm_machine_scenes::Sight::{Byte, Entry, Has, Lives, Record, Word};
use mpm_machine_scenes::{Behind, Scene, Sight};
use std::test::Fail;

/// Writes `.` in its own steps 5, 11, 17 and so on: LD C,2; LD E,'.'; CALL 4005h; JR 4100h.
const DOTS: &[u8] = b"\x0E\x02\x1E.\xCD\x05\x40\x18\xF7";

/// Sixteen records, of the letters A to P.
fn letters() -> [u8; 2048] {
    let mut bytes = [0; 2048];
    for (place, byte) in bytes.iter_mut().enumerate() {
        *byte = b'A' + (place / 128 % 16) as u8;
    }
    bytes
}

/// The calls of a program that detaches its console, makes OUT.TXT and writes sixteen records to it. It comes to the gates of the first
/// four in steps 5, 11, 17 and 23. In step 29 it comes to that of the making, which takes a turn; and in step 55 to that of the writing,
/// which takes sixteen turns, up to step 375.
const WRITES: [Act; 6] = [
    Calls(145, 100, 0),
    Calls(147, 0, 0),
    Calls(44, 16, 0),
    Calls(26, 0x4400, 0),
    Calls(22, 0x4300, 0),
    Calls(21, 0x4300, 0),
];

/// The calls of a program that writes as that one does, but attaches its console in place of detaching it.
const ATTACHES_AND_WRITES: [Act; 6] = [
    Calls(145, 100, 0),
    Calls(146, 0, 0),
    Calls(44, 16, 0),
    Calls(26, 0x4400, 0),
    Calls(22, 0x4300, 0),
    Calls(21, 0x4300, 0),
];

/// A program of those calls, with the file's name and its records.
fn writer(acts: &[Act]) -> Program {
    program(
        0x40,
        acts,
        &[
            Data(0x0180, &[0xFF; 16]),
            Data(0x0200, b"\0OUT     TXT"),
            Data(0x0300, &letters()),
        ],
    )
}

/// Two programs on a disk without files, with a script.
fn beside<'a>(script: &'a [u8], first: &'a [u8], second: &'a [u8], trace: bool) -> Scene<'a> {
    Scene {
        script,
        trace,
        ..in_turns(first, second, &[])
    }
}

/// The file OUT.TXT has all its records.
const ALL: [Sight; 3] = [
    Record(0, 0, Some(b'A')),
    Record(0, 7, Some(b'H')),
    Record(0, 15, Some(b'P')),
];

/// It has none.
const NONE: [Sight; 1] = [Record(0, 0, None)];

#[test]
fn records_are_written_while_another_program_writes(rt: HostRuntime) -> Result<(), Fail> {
    // DOTS runs in steps 30 to 49 and 56 to 375: its own steps 5, 11 and 17 are 34, 40 and 46, its step 23 is 58.
    let first = writer(&WRITES);
    let done = [
        ALL[0],
        ALL[1],
        ALL[2],
        Word(0, 0x4288, 0),
        Word(0, 0x428A, 0),
    ];
    beside(b"", &first, DOTS, false).shows(
        rt.alloc(),
        &[
            Behind(28, b"", &NONE),
            Behind(33, b"", &NONE),
            Behind(34, b"c0 .\\\n", &NONE),
            Behind(54, b"c0 ...\\\n", &NONE),
            Behind(55, b"c0 ...\\\n", &ALL),
            Behind(57, b"c0 ...\\\n", &ALL),
            Behind(58, b"c0 ....\\\n", &ALL),
            Behind(206, b"c0 ............................\\\n", &ALL),
            Behind(
                374,
                b"c0 ........................................................\\\n",
                &ALL,
            ),
            Behind(
                375,
                b"c0 ........................................................\\\n",
                &ALL,
            ),
            Behind(
                376,
                b"c0 ........................................................\\\n",
                &done,
            ),
            Behind(
                1006,
                b"c0 ........................................................\\\n",
                &done,
            ),
        ],
    )
}

/// Does nothing up to its own step 15; asks for the version (12), whose gate it comes to in its step 20.
const ASKING: &[u8] = b"\0\0\0\0\0\0\0\0\0\0\0\0\0\0\0\x11\0\0\x0E\x0C\xCD\x05\x40\x76";

#[test]
fn a_text_of_an_error_comes_before_all_records_of_its_step(rt: HostRuntime) -> Result<(), Fail> {
    // FIRST opens a name with a question mark: gates in steps 5 and 11, over in 31. SECOND runs in steps 12 to 31, and is answered
    // in that step before FIRST is.
    let acts = [Calls(45, 0x00FE, 0), Calls(15, 0x4300, 0x09FF)];
    let first = program(0x40, &acts, &[Data(0x0200, b"\0A       T?T")]);
    let told: &[u8] = b"t 5 0 45 00 002D 00FE 0000
c0 Bdos error 9 on A:\\r
t 31 1 12 30 010C 0000 0130
t 31 0 15 FF 090F 4300 09FF
";
    beside(b"", &first, ASKING, true).shows(rt.alloc(), &[Behind(31, told, &[Lives(0, true)])])
}

/// Lets the next one run (142), creates GRAND (144, its descriptor at 4480h), and ends (0).
const CHILD: &[u8] = b"\x0E\x8E\xCD\x05\x40\x11\x80\x44\x0E\x90\xCD\x05\x40\x0E\x00\xCD\x05\x40";

/// Reads a record (20) by the block at 4380h.
const GRAND: &[u8] = b"\x11\x80\x43\x0E\x14\xCD\x05\x40\x76";

#[test]
fn who_ends_while_another_is_served_gives_back_behind_that(rt: HostRuntime) -> Result<(), Fail> {
    // FIRST opens A.TXT in locked mode, in steps 5 to 25. SECOND comes to its gates in steps 10; 16, in which it creates CHILD; 22;
    // 28; and 34, from which on the making of OUT.TXT is served up to 54. CHILD runs in steps 35 to 38, FIRST up to 44, in which it
    // ends, and CHILD up to 53, in which it ends too: in 49 it created GRAND, which so has FIRST's place. SECOND writes in steps 60
    // to 380, GRAND is served up to 400, and SECOND opens A.TXT up to 420.
    let opens = [Calls(15, 0x4300, 0), Calls(0, 0, 0)];
    let first = program(0x40, &opens, &[Data(0x0200, b"\0A       TXT")]);
    let acts = [
        Calls(145, 100, 0),
        Calls(144, 0x4400, 0),
        Calls(44, 16, 0),
        Calls(26, 0x4500, 0),
        Calls(22, 0x4300, 0),
        Calls(21, 0x4300, 0),
        Calls(15, 0x4340, 0),
    ];
    let data = [
        Data(0x0200, b"\0OUT     TXT"),
        Data(0x0240, b"\0A       TXT"),
        // The block of FIRST, as its opening left it: one record, and the first open file.
        Data(0x0280, b"\0A       TXT\0\0\0\x01\x01"),
        Data(0x0060, CHILD),
        Data(0x0080, GRAND),
        Data(0x0300, b"\0\0\0\xC8\x40\x44CHILD   \0"),
        Data(0x0340, b"\x60\x41"),
        Data(0x0380, b"\0\0\0\xC8\xC0\x44GRAND   \0"),
        Data(0x03C0, b"\x80\x41"),
        Data(0x0400, &letters()),
    ];
    let second = program(0x40, &acts, &data);
    let disk = [one_record(b'A')];
    let scene = Scene {
        disk: Some(&disk),
        ..beside(b"", &first, &second, false)
    };
    let all = [
        Lives(0, true),
        Has(0, Hl, 0x000A),
        Lives(2, false),
        Word(1, 0x428A, 0),
        Word(1, 0x428C, 0),
        Record(1, 15, Some(b'P')),
    ];
    scene.shows(
        rt.alloc(),
        &[
            Behind(43, b"", &[Lives(0, true), Lives(2, true), Entry(1, 0)]),
            Behind(44, b"", &[Lives(0, false), Lives(2, true), Entry(1, 0)]),
            Behind(49, b"", &[Lives(0, true), Lives(2, true)]),
            Behind(53, b"", &[Lives(0, true), Lives(2, false)]),
            Behind(421, b"", &all),
        ],
    )
}

/// Does nothing in its own steps 2 to 15, and writes `Z` over 4400h in its step 16.
const OVERWRITING: &[u8] = b"\x3EZ\0\0\0\0\0\0\0\0\0\0\0\0\0\0\x32\x00\x44\x76";

#[test]
fn what_is_written_is_as_it_was_in_the_gate_step(rt: HostRuntime) -> Result<(), Fail> {
    // FIRST creates OTHER, and comes to its gates in steps 23, from which on the making of OUT.TXT is served up to 43, and 49. SECOND
    // comes to its gate in step 28, and its making is served from 43 to 63. So FIRST's writing waits from 49 to 63, and is served up
    // to 83. OTHER runs in steps 29 to 43, and from 50 on.
    let acts = [
        Calls(145, 100, 0),
        Calls(144, 0x4480, 0),
        Calls(26, 0x4400, 0),
        Calls(22, 0x4300, 0),
        Calls(21, 0x4300, 0),
    ];
    let data = [
        Data(0x0060, OVERWRITING),
        Data(0x0180, &[0xFF; 16]),
        Data(0x0200, b"\0OUT     TXT"),
        Data(0x0300, b"A"),
        Data(0x0380, b"\0\0\0\xC8\xC0\x44OTHER   \0"),
        Data(0x03C0, b"\x60\x41"),
    ];
    let first = program(0x40, &acts, &data);
    let makes = [Calls(22, 0x4300, 0)];
    let second = program(0x40, &makes, &[Data(0x0200, b"\0NEW     TXT")]);
    let written = [Byte(0, 0x4400, b'Z'), Record(0, 0, Some(b'A'))];
    let answered = [Word(0, 0x4288, 0), written[0], written[1]];
    beside(b"", &first, &second, false).shows(
        rt.alloc(),
        &[
            Behind(49, b"", &[Byte(0, 0x4400, b'A'), NONE[0], Entry(1, 0)]),
            Behind(50, b"", &[Byte(0, 0x4400, b'Z'), NONE[0]]),
            Behind(62, b"", &[Byte(0, 0x4400, b'Z'), NONE[0]]),
            Behind(63, b"", &written),
            Behind(83, b"", &written),
            Behind(84, b"", &answered),
        ],
    )
}

/// Does nothing for twenty steps; aborts FIRST (157, its block at 4130h), whose gate it comes to in its step 25; keeps the answer at
/// 4300h, and writes `x`.
const ABORTING: &[u8] = b"\0\0\0\0\0\0\0\0\0\0\0\0\0\0\0\0\0\0\0\0\
\x11\x30\x41\x0E\x9D\xCD\x05\x40\x22\x00\x43\x1Ex\x0E\x02\xCD\x05\x40\x76\
\0\0\0\0\0\0\0\0\0\
\0\0\0\0FIRST   \0";

/// What both write up to the abort, which is in step 60.
const UP_TO_THE_ABORT: &[u8] = b"t 5 0 145 00 0091 0064 0000
t 11 0 146 00 0092 0000 0000
t 17 0 44 00 002C 0010 0000
t 23 0 26 00 001A 4400 0000
t 49 0 22 00 0016 4300 0000
t 60 1 157 00 009D 4130 0000
t 60 0 21 00 0015 4300 0000
";

/// And up to the step in which the writing is over.
const UP_TO_THE_END: &[u8] = b"t 5 0 145 00 0091 0064 0000
t 11 0 146 00 0092 0000 0000
t 17 0 44 00 002C 0010 0000
t 23 0 26 00 001A 4400 0000
t 49 0 22 00 0016 4300 0000
t 60 1 157 00 009D 4130 0000
t 375 0 21 00 0015 4300 0000
";

/// And up to the letter that the other writes once it has the console.
const UP_TO_THE_LETTER: &[u8] = b"t 5 0 145 00 0091 0064 0000
t 11 0 146 00 0092 0000 0000
t 17 0 44 00 002C 0010 0000
t 23 0 26 00 001A 4400 0000
t 49 0 22 00 0016 4300 0000
t 60 1 157 00 009D 4130 0000
t 375 0 21 00 0015 4300 0000
t 376 1 2 00 0002 4178 0000
c0 x\\
";

#[test]
fn who_is_served_ends_with_its_call(rt: HostRuntime) -> Result<(), Fail> {
    // A run that ends in step 60 carries the call to its end, and FIRST ends then too.
    let first = writer(&ATTACHES_AND_WRITES);
    let ended = [ALL[0], ALL[1], ALL[2], Lives(0, false), Lives(1, true)];
    let answered = [ALL[0], ALL[2], Lives(0, false), Lives(1, true)];
    beside(b"", &first, ABORTING, true).shows(
        rt.alloc(),
        &[
            Behind(60, UP_TO_THE_ABORT, &ended),
            Behind(375, UP_TO_THE_END, &ended),
            Behind(376, UP_TO_THE_LETTER, &answered),
        ],
    )
}

/// Attaches the console (146); does nothing up to its own step 20; and makes NEW.TXT (22, its block at 4130h), whose gate it comes to
/// in its step 25.
const MAKING: &[u8] = b"\x11\x00\x00\x0E\x92\xCD\x05\x40\0\0\0\0\0\0\0\0\0\0\0\0\0\0\0\
\x11\x30\x41\x0E\x16\xCD\x05\x40\x76\
\0\0\0\0\0\0\0\0\0\0\0\0\0\0\0\0\
\0NEW     TXT";

/// FIRST writes up to step 375, SECOND waits for the disk from step 60 on; ^C comes in a step.
fn interrupted(rt: &HostRuntime, script: &[u8], trace: bool, looks: &[Behind]) -> Result<(), Fail> {
    let first = writer(&WRITES);
    beside(script, &first, MAKING, trace).shows(rt.alloc(), looks)
}

#[test]
fn who_waits_for_the_disk_ends_at_once(rt: HostRuntime) -> Result<(), Fail> {
    let ended = [
        ALL[0],
        ALL[2],
        Entry(1, 0xE5),
        Lives(0, true),
        Lives(1, false),
    ];
    let waits = [ALL[0], ALL[2], Lives(1, true)];
    interrupted(
        &rt,
        b"66 key 0 \\x03\n",
        false,
        &[
            Behind(65, b"", &waits),
            Behind(66, b"c0 ^C\\r\n", &ended),
            Behind(400, b"c0 ^C\\r\n", &ended),
        ],
    )?;
    // In the step in which the other's call is over it waits still.
    interrupted(
        &rt,
        b"375 key 0 \\x03\n",
        false,
        &[
            Behind(375, b"c0 ^C\\r\n", &ended),
            Behind(400, b"c0 ^C\\r\n", &ended),
        ],
    )
}

#[test]
fn who_has_entered_service_ends_with_its_call(rt: HostRuntime) -> Result<(), Fail> {
    // SECOND entered service in step 375, for one turn.
    interrupted(
        &rt,
        b"376 key 0 \\x03\n",
        true,
        &[Behind(
            400,
            b"t 5 0 145 00 0091 0064 0000
t 11 0 147 00 0093 0000 0000
t 17 0 44 00 002C 0010 0000
t 23 0 26 00 001A 4400 0000
t 34 1 146 00 0092 0000 0000
t 49 0 22 00 0016 4300 0000
t 375 0 21 00 0015 4300 0000
c0 ^C\\r
t 395 1 22 00 0016 4130 0000
",
            &[ALL[0], ALL[2], Entry(1, 0), Lives(0, true), Lives(1, false)],
        )],
    )
}

/// Reads record 0 of A.TXT twice (33): gates in steps 5; 11, over in 31; 37, over in 57; 63, over in 83.
#[test]
fn a_record_is_read_twice(rt: HostRuntime) -> Result<(), Fail> {
    let acts = [
        Calls(145, 100, 0),
        Calls(15, 0x4300, 0),
        Calls(33, 0x4300, 0),
        Calls(33, 0x4300, 0),
    ];
    let first = program(0x40, &acts, &[Data(0x0200, b"\0A       TXT")]);
    let disk = [one_record(b'A')];
    let scene = Scene {
        trace: true,
        ..in_turns(&first, b"", &disk)
    };
    scene.shows(
        rt.alloc(),
        &[Behind(
            84,
            b"t 5 0 145 00 0091 0064 0000
t 31 0 15 00 000F 4300 0000
t 57 0 33 00 0021 4300 0000
t 83 0 33 00 0021 4300 0000
",
            &[Byte(0, 0x4080, 0xE5)],
        )],
    )
}
