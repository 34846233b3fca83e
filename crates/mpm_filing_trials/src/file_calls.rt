//! File calls of programs: what they answer, what comes to the console, and what they leave. Where nobody else has the disk, a
//! program is answered alike and leaves the same whether each of its calls is done at once or in turns.
use mpm_base::Kind;
use mpm_images::{EntryBytes, file, guard, held, named, with};
use mpm_machine_scenes::Sight::{Byte, Lives, Word};
use mpm_machine_scenes::{Behind, Scene, Sight};
use std::test::Fail;

/// A machine file of two segments of the pages 40h to 4Fh, in banks of their own, and drive A, a floppy disk.
const ON_A_DISK: &[u8] = b"version = 1
consoles = 1
[[segment]]
base = 64
pages = 16
[[segment]]
base = 64
pages = 16
[[drive]]
letter = \"A\"
kind = \"ibm3740\"
image = \"a.img\"
";

/// The machine of `ON_A_DISK`, but with a disk that serves file calls in turns.
const IN_TURNS: &[u8] = b"version = 1
consoles = 1
disk_turn = 20
[[segment]]
base = 64
pages = 16
[[segment]]
base = 64
pages = 16
[[drive]]
letter = \"A\"
kind = \"ibm3740\"
image = \"a.img\"
";

/// With one segment, of all pages below common memory.
const WHOLE_MEMORY: &[u8] = b"version = 1
consoles = 1
[[segment]]
base = 0
pages = 192
[[drive]]
letter = \"A\"
kind = \"ibm3740\"
image = \"a.img\"
";

/// What a program does.
#[derive(Clone, Copy)]
pub(crate) enum Act {
    /// Calls a function with a parameter, and keeps the word that it answers after those of its calls before, which must be
    /// that one: six instructions, of which the fifth is the call.
    Calls(u8, u16, u16),
    /// Puts a byte at an address: two instructions.
    Puts(u16, u8),
}

use Act::{Calls, Puts};

/// A part of a program's data: it stands so many bytes after the program's first.
#[derive(Clone, Copy)]
pub(crate) struct Data<'a>(pub usize, pub &'a [u8]);

/// A program of that length, which follows its base page.
pub(crate) type Program = [u8; 3072];

/// Where the words stand that a program's calls answered, after the program's first byte.
const ANSWERS: u16 = 0x0180;

/// Puts bytes into a program at a place.
fn put(program: &mut Program, place: usize, bytes: &[u8]) {
    for (k, byte) in bytes.iter().enumerate() {
        if let Some(old) = program.get_mut(place.saturating_add(k)) {
            *old = *byte;
        }
    }
}

/// Where the word of a program's first answer stands, by its base page.
fn first_answer(base: u8) -> u16 {
    u16::from_be_bytes([base, 0])
        .wrapping_add(0x0100)
        .wrapping_add(ANSWERS)
}

/// The program that does that, one after another, with its data; it stands in a segment with that base page. After all it does
/// there is a HALT.
pub(crate) fn program(base: u8, acts: &[Act], data: &[Data]) -> Program {
    let mut program = [0; 3072];
    let mut place = 0_usize;
    let mut answer = first_answer(base);
    for act in acts {
        match *act {
            Calls(function, parameter, _) => {
                let [e, d] = parameter.to_le_bytes();
                let [low, high] = answer.to_le_bytes();
                let code = [
                    0x11, e, d, 0x0E, function, 0xCD, 0x05, base, 0x22, low, high,
                ];
                put(&mut program, place, &code);
                place = place.saturating_add(11);
                answer = answer.wrapping_add(2);
            }
            Puts(address, byte) => {
                let [low, high] = address.to_le_bytes();
                put(&mut program, place, &[0x3E, byte, 0x32, low, high]);
                place = place.saturating_add(5);
            }
        }
    }
    put(&mut program, place, &[0x76]);
    for Data(place, bytes) in data {
        put(&mut program, *place, bytes);
    }
    program
}

/// How many steps that takes.
fn steps_of(acts: &[Act]) -> u64 {
    let mut steps = 0_u64;
    for act in acts {
        steps = steps.saturating_add(match act {
            Calls(_, _, _) => 6,
            Puts(_, _) => 2,
        });
    }
    steps
}

/// What is seen after all that in a segment with that base page: what each call answered, and these.
fn seen(base: u8, acts: &[Act], sights: &[Sight]) -> [Sight; 64] {
    let mut all = [Lives(0, true); 64];
    let mut answer = first_answer(base);
    let mut rest = all.iter_mut();
    for act in acts {
        if let Calls(_, _, value) = *act {
            if let Some(place) = rest.next() {
                *place = Word(0, answer, value);
            }
            answer = answer.wrapping_add(2);
        }
    }
    for sight in sights {
        if let Some(place) = rest.next() {
            *place = *sight;
        }
    }
    all
}

/// The scene of one or two programs on a drive with these entries.
fn on_a_disk<'a>(first: &'a [u8], second: &'a [u8], disk: &'a [EntryBytes]) -> Scene<'a> {
    Scene {
        machine: ON_A_DISK,
        script: b"",
        first,
        second,
        trace: false,
        disk: Some(disk),
    }
}

/// The scene of one or two programs on a drive with these entries, whose disk serves calls in turns.
pub(crate) fn in_turns<'a>(first: &'a [u8], second: &'a [u8], disk: &'a [EntryBytes]) -> Scene<'a> {
    Scene {
        machine: IN_TURNS,
        ..on_a_disk(first, second, disk)
    }
}

/// In how many steps more the disk has served all calls of a program here, of which each turn takes twenty.
const TURNS: u64 = 2000;

/// A program that does that on a drive with these entries is answered as it says, writes nothing, and that is seen after it; so it
/// is where the disk serves its calls in turns.
fn plays(
    rt: &HostRuntime,
    disk: &[EntryBytes],
    acts: &[Act],
    data: &[Data],
    sights: &[Sight],
) -> Result<(), Fail> {
    let first = program(0x40, acts, data);
    let all = seen(0x40, acts, sights);
    let steps = steps_of(acts);
    plays_at_once(rt, &first, disk, steps, &all)?;
    plays_in_turns(rt, &first, disk, steps.saturating_add(TURNS), &all)
}

/// That is seen of a program so many steps on, where each call is done at once.
fn plays_at_once(
    rt: &HostRuntime,
    first: &[u8],
    disk: &[EntryBytes],
    steps: u64,
    sights: &[Sight],
) -> Result<(), Fail> {
    on_a_disk(first, b"", disk).shows(rt.alloc(), &[Behind(steps, b"", sights)])
}

/// That is seen of a program so many steps on, where the disk serves calls in turns.
fn plays_in_turns(
    rt: &HostRuntime,
    first: &[u8],
    disk: &[EntryBytes],
    steps: u64,
    sights: &[Sight],
) -> Result<(), Fail> {
    in_turns(first, b"", disk).shows(rt.alloc(), &[Behind(steps, b"", sights)])
}

/// That text is written and that is seen, of a program in a segment of all pages below common memory, on a drive without files.
fn plays_below(
    rt: &HostRuntime,
    acts: &[Act],
    data: &[Data],
    text: &[u8],
    sights: &[Sight],
) -> Result<(), Fail> {
    let first = program(0, acts, data);
    let all = seen(0, acts, sights);
    let scene = Scene {
        machine: WHOLE_MEMORY,
        script: b"",
        first: &first,
        second: b"",
        trace: false,
        disk: Some(&[]),
    };
    scene.shows(rt.alloc(), &[Behind(steps_of(acts), text, &all)])
}

/// The entry of a file of one record.
pub(crate) fn one_record(letter: u8) -> EntryBytes {
    held(Kind::Ibm3740, file(letter, 0, 1), 0, 2)
}

#[test]
fn what_is_written_is_read_back(rt: HostRuntime) -> Result<(), Fail> {
    // Makes LETTER.TXT (22), writes a record (21) and closes it (16); opens it (15), reads the record (20) and one that isn't
    // there. 26 is where records stand.
    let acts = [
        Calls(22, 0x4300, 0),
        Calls(26, 0x4400, 0),
        Calls(21, 0x4300, 0),
        Calls(16, 0x4300, 0),
        Calls(15, 0x4340, 0),
        Calls(26, 0x4480, 0),
        Calls(20, 0x4340, 0),
        Calls(20, 0x4340, 1),
    ];
    let data = [
        Data(0x0200, b"\0LETTER  TXT"),
        Data(0x0240, b"\0LETTER  TXT"),
        Data(0x0300, b"Dear reader"),
        Data(0x037F, b"!"),
    ];
    let sights = [
        // The position of the first block is record 1, its extent has one record, and it names the first open file.
        Byte(0, 0x4320, 1),
        Byte(0, 0x430F, 1),
        Byte(0, 0x4310, 1),
        Byte(0, 0x4480, b'D'),
        Byte(0, 0x448A, b'r'),
        Byte(0, 0x448B, 0),
        Byte(0, 0x44FF, b'!'),
    ];
    plays(&rt, &[], &acts, &data, &sights)
}

#[test]
fn a_record_is_written_anywhere(rt: HostRuntime) -> Result<(), Fail> {
    // Writes record 130 (34), the third of the second extent; the size is 131 (35), and record 131 isn't there (33).
    let acts = [
        Calls(22, 0x4300, 0),
        Calls(34, 0x4300, 0),
        Calls(35, 0x4300, 0),
        Calls(33, 0x4300, 1),
    ];
    let data = [Data(0x0200, b"\0LETTER  TXT"), Data(0x0221, b"\x82\0\0")];
    let sights = [
        Byte(0, 0x430C, 1),
        Byte(0, 0x4320, 2),
        Word(0, 0x4321, 131),
        Byte(0, 0x4323, 0),
    ];
    plays(&rt, &[], &acts, &data, &sights)
}

#[test]
fn files_are_found_one_after_another(rt: HostRuntime) -> Result<(), Fail> {
    let acts = [
        Calls(26, 0x4400, 0),
        Calls(17, 0x4300, 0),
        Calls(26, 0x4480, 0),
        Calls(18, 0x0000, 0),
        Calls(18, 0x0000, 0x00FF),
    ];
    let data = [Data(0x0200, b"\0????????TXT")];
    let sights = [
        Byte(0, 0x4400, 0),
        Byte(0, 0x4401, b'A'),
        Byte(0, 0x4409, b'T'),
        Byte(0, 0x4420, 0xE5),
        Byte(0, 0x4481, b'B'),
    ];
    plays(
        &rt,
        &[file(b'B', 0, 0), file(b'A', 0, 0)],
        &acts,
        &data,
        &sights,
    )
}

#[test]
fn a_file_is_renamed_and_deleted(rt: HostRuntime) -> Result<(), Fail> {
    let acts = [
        Calls(23, 0x4300, 0),
        Calls(15, 0x4340, 0x00FF),
        Calls(15, 0x4380, 0),
        Calls(19, 0x4380, 0),
        Calls(15, 0x43C0, 0x00FF),
    ];
    let data = [
        Data(0x0200, b"\0A       TXT\0\0\0\0\0C       TXT"),
        Data(0x0240, b"\0A       TXT"),
        Data(0x0280, b"\0C       TXT"),
        Data(0x02C0, b"\0C       TXT"),
    ];
    plays(&rt, &[file(b'A', 0, 0)], &acts, &data, &[])
}

#[test]
fn several_records_are_moved_at_once(rt: HostRuntime) -> Result<(), Fail> {
    // Writes 16 records at once (44), asks for the size (35), and reads five at a time, of which the fourth time has one.
    let acts = [
        Calls(22, 0x4300, 0),
        Calls(44, 16, 0),
        Calls(26, 0x4400, 0),
        Calls(21, 0x4300, 0),
        Calls(35, 0x4300, 0),
        Calls(15, 0x4340, 0),
        Calls(44, 5, 0),
        Calls(20, 0x4340, 0),
        Calls(20, 0x4340, 0),
        Calls(20, 0x4340, 0),
        Calls(20, 0x4340, 0x1001),
    ];
    let data = [
        Data(0x0200, b"\0LETTER  TXT"),
        Data(0x0240, b"\0LETTER  TXT"),
        Data(0x0300, b"first"),
        Data(0x0A80, b"last"),
    ];
    let sights = [
        Byte(0, 0x4320, 16),
        Word(0, 0x4321, 16),
        Byte(0, 0x4323, 0),
        Byte(0, 0x4400, b'l'),
        Byte(0, 0x4360, 16),
    ];
    plays(&rt, &[], &acts, &data, &sights)
}

#[test]
fn what_is_protected_stays(rt: HostRuntime) -> Result<(), Fail> {
    // B.TXT is read-only, so that it is opened, and not written or deleted. No file is made of a name that is there (22), or
    // renamed to it (23). While the drive is protected (28, 29) nothing is made or deleted; the reset (13) ends that.
    let acts = [
        Calls(45, 0x00FF, 0),
        Calls(15, 0x4300, 0),
        Calls(21, 0x4300, 0x03FF),
        Calls(16, 0x4300, 0),
        Calls(19, 0x4340, 0x03FF),
        Calls(22, 0x4380, 0x08FF),
        Calls(23, 0x4380, 0x08FF),
        Calls(28, 0x0000, 0),
        Calls(29, 0x0000, 1),
        Calls(22, 0x43C0, 0x02FF),
        Calls(19, 0x4380, 0x02FF),
        Calls(13, 0x0000, 0),
        Calls(29, 0x0000, 0),
        Calls(22, 0x43C0, 0),
    ];
    let data = [
        Data(0x0200, b"\0B       TXT"),
        Data(0x0240, b"\0B       TXT"),
        Data(0x0280, b"\0A       TXT\0\0\0\0\0B       TXT"),
        Data(0x02C0, b"\0C       TXT"),
    ];
    let read_only = with(file(b'B', 0, 0), 9, b'T' + 0x80);
    plays(&rt, &[one_record(b'A'), read_only], &acts, &data, &[])
}

#[test]
fn drives_are_told_of_and_reset(rt: HostRuntime) -> Result<(), Fail> {
    // Selects a drive (14, 25); the login vector (24), the free records of drive A (46), which has 240 free blocks of eight, its
    // parameters (31), and record 133 of a block (36). The reset (13) sets the DMA address, to which a record of E5h comes.
    let acts = [
        Calls(45, 0x00FF, 0),
        Calls(14, 0x0001, 0x04FF),
        Calls(14, 0x0000, 0),
        Calls(25, 0x0000, 0),
        Calls(24, 0x0000, 1),
        Calls(26, 0x4480, 0),
        Calls(46, 0x0000, 0),
        Calls(46, 0x0001, 0x04FF),
        Calls(31, 0x0000, 0xFE80),
        Calls(36, 0x4300, 0),
        Calls(13, 0x0000, 0),
        Calls(15, 0x4340, 0),
        Calls(20, 0x4340, 0),
    ];
    let data = [
        Data(0x020C, b"\x01"),
        Data(0x0220, b"\x05"),
        Data(0x0240, b"\0A       TXT"),
    ];
    let sights = [
        Word(0, 0x4480, 0x0780),
        Word(0, 0x4482, 0),
        Word(0, 0xFE80, 26),
        Word(0, 0xFE82, 0x0703),
        Word(0, 0xFE84, 0xF200),
        Word(0, 0xFE86, 0x3F00),
        Word(0, 0xFE88, 0xC000),
        Word(0, 0xFE8A, 0x1000),
        Word(0, 0xFE8C, 0x0200),
        Word(0, 0x4321, 133),
        Byte(0, 0x4080, 0xE5),
        Byte(0, 0x40FF, 0xE5),
    ];
    plays(&rt, &[one_record(b'A')], &acts, &data, &sights)
}

#[test]
fn a_password_opens_a_file(rt: HostRuntime) -> Result<(), Fail> {
    // The label asks for passwords, and A.TXT has SECRET for reading: its bytes' sum is 06h modulo 256, and it is kept reversed
    // and crossed with that. It stands at the DMA address, or is the default (106).
    let acts = [
        Calls(45, 0x00FF, 0),
        Calls(15, 0x4300, 0x07FF),
        Calls(26, 0x4400, 0),
        Calls(15, 0x4300, 0),
        Calls(26, 0x4480, 0),
        Calls(19, 0x4340, 0x07FF),
        Calls(106, 0x4400, 0),
        Calls(19, 0x4340, 0),
    ];
    let data = [
        Data(0x0200, b"\0A       TXT"),
        Data(0x0240, b"\0A       TXT"),
        Data(0x0300, b"SECRET  "),
    ];
    let label = with(named(32, b'L'), 12, 0x81);
    let disk = [file(b'A', 0, 0), label, guard(16, b'A', 0x80)];
    plays(&rt, &disk, &acts, &data, &[])
}

/// A refused opening (15) is met by the error mode of its process (45) so, with that answer where it lives on.
fn is_met(
    rt: &HostRuntime,
    mode: u16,
    name: &[u8],
    text: &[u8],
    answer: Option<u16>,
) -> Result<(), Fail> {
    let value = answer.unwrap_or(0);
    let acts = [Calls(45, mode, 0), Calls(15, 0x4300, value)];
    let first = program(0x40, &acts, &[Data(0x0200, name)]);
    let disk = [file(b'A', 0, 0)];
    let scene = on_a_disk(&first, b"", &disk);
    if answer.is_some() {
        let all = seen(0x40, &acts, &[]);
        return scene.shows(rt.alloc(), &[Behind(12, text, &all)]);
    }
    scene.shows(rt.alloc(), &[Behind(11, text, &[Lives(0, false)])])
}

#[test]
fn an_extended_error_is_met_by_the_mode_of_its_process(rt: HostRuntime) -> Result<(), Fail> {
    is_met(
        &rt,
        0,
        b"\x05A       TXT",
        b"c0 Bdos error 4 on E:\\r\n",
        None,
    )?;
    is_met(
        &rt,
        0xFD,
        b"\0A       T?T",
        b"c0 Bdos error 9 on A:\\r\n",
        None,
    )?;
    is_met(
        &rt,
        0xFE,
        b"\x05A       TXT",
        b"c0 Bdos error 4 on E:\\r\n",
        Some(0x04FF),
    )?;
    is_met(
        &rt,
        0xFE,
        b"\x14A       TXT",
        b"c0 Bdos error 4 on ?:\\r\n",
        Some(0x04FF),
    )?;
    is_met(&rt, 0xFF, b"\x05A       TXT", b"", Some(0x04FF))?;
    is_met(&rt, 0, b"\0B       TXT", b"", Some(0x00FF))
}

#[test]
fn a_text_of_an_error_comes_before_the_record_of_its_call(rt: HostRuntime) -> Result<(), Fail> {
    let acts = [Calls(45, 0x00FE, 0), Calls(15, 0x4300, 0x04FF)];
    let first = program(0x40, &acts, &[Data(0x0200, b"\x05A       TXT")]);
    let scene = Scene {
        trace: true,
        ..on_a_disk(&first, b"", &[])
    };
    let told: &[u8] = b"t 5 0 45 00 002D 00FE 0000
c0 Bdos error 4 on E:\\r
t 11 0 15 FF 040F 4300 04FF
";
    scene.shows(rt.alloc(), &[Behind(12, told, &[Lives(0, true)])])
}

#[test]
fn a_locked_file_is_one_process_s_until_it_ends(rt: HostRuntime) -> Result<(), Fail> {
    // The first opens A.TXT, lets the other run (142), and ends (0). That one takes errors as answers (45), can't open it,
    // lets the first run, and can then.
    let opens = program(
        0x40,
        &[Calls(15, 0x4300, 0), Calls(142, 0, 0), Calls(0, 0, 0)],
        &[Data(0x0200, b"\0A       TXT")],
    );
    let asks = program(
        0x40,
        &[
            Calls(45, 0x00FF, 0),
            Calls(15, 0x4300, 0x05FF),
            Calls(142, 0, 0),
            Calls(15, 0x4300, 0),
        ],
        &[Data(0x0200, b"\0A       TXT")],
    );
    on_a_disk(&opens, &asks, &[file(b'A', 0, 0)]).shows(
        rt.alloc(),
        &[
            // 6 + 5 steps of the first, 12 of the other.
            Behind(23, b"", &[Word(0, 0x4280, 0), Word(1, 0x4282, 0x05FF)]),
            // 5 more of the other; 1 + 5 of the first, which ends; 1 + 6 of the other.
            Behind(
                41,
                b"",
                &[Lives(0, false), Lives(1, true), Word(1, 0x4286, 0)],
            ),
        ],
    )
}

#[test]
fn a_record_is_locked_by_one_process(rt: HostRuntime) -> Result<(), Fail> {
    // Both open A.TXT in unlocked mode, where their open files are numbers 1 and 2, and lock its record 0 (42); the first lets
    // the other run (142) before that one asks. The other can't write the record either (34).
    let opens = program(
        0x40,
        &[
            Calls(15, 0x4300, 0),
            Puts(0x4321, 0),
            Calls(26, 0x4340, 0),
            Calls(42, 0x4300, 0),
            Calls(142, 0, 0),
        ],
        &[Data(0x0200, b"\0A   \xA0   TXT"), Data(0x0240, b"\x01\0")],
    );
    let asks = program(
        0x40,
        &[
            Calls(15, 0x4300, 0),
            Puts(0x4321, 0),
            Calls(26, 0x4340, 0),
            Calls(42, 0x4300, 8),
            Calls(34, 0x4300, 8),
        ],
        &[Data(0x0200, b"\0A   \xA0   TXT"), Data(0x0240, b"\x02\0")],
    );
    let disk = [one_record(b'A')];
    on_a_disk(&opens, &asks, &disk).shows(
        rt.alloc(),
        &[
            Behind(6, b"", &[Word(0, 0x4280, 0), Word(0, 0x4321, 1)]),
            // 20 + 5 steps of the first, 26 of the other.
            Behind(
                51,
                b"",
                &[
                    Word(0, 0x4284, 0),
                    Word(1, 0x4280, 0),
                    Word(1, 0x4284, 8),
                    Word(1, 0x4286, 8),
                ],
            ),
        ],
    )
}

#[test]
fn a_block_at_the_end_of_a_segment_harms_nobody(rt: HostRuntime) -> Result<(), Fail> {
    // The block's first byte is the segment's last, 00h, and all others are read as FFh: a name of eleven 7Fh. With sixteen
    // records at once (44), at the segment's last 16 bytes.
    let acts = [
        Calls(45, 0x00FF, 0),
        Calls(44, 16, 0),
        Calls(26, 0x4FF0, 0),
        Calls(15, 0x4FFF, 0x00FF),
        Calls(16, 0x4FFF, 0x00FF),
        Calls(17, 0x4FFF, 0x00FF),
        Calls(18, 0x4FFF, 0x00FF),
        Calls(19, 0x4FFF, 0x00FF),
        Calls(20, 0x4FFF, 0x000A),
        Calls(21, 0x4FFF, 0x000A),
        Calls(23, 0x4FFF, 0x00FF),
        Calls(30, 0x4FFF, 0x00FF),
        Calls(33, 0x4FFF, 0x000A),
        Calls(34, 0x4FFF, 0x000A),
        Calls(35, 0x4FFF, 0x00FF),
        Calls(36, 0x4FFF, 0),
        Calls(40, 0x4FFF, 0x000A),
        Calls(41, 0x4FFF, 0x000A),
        Calls(42, 0x4FFF, 0x000D),
        Calls(43, 0x4FFF, 0x000D),
        Calls(46, 0x4FFF, 0x04FF),
        Calls(48, 0x4FFF, 0),
        Calls(101, 0x4FFF, 0x04FF),
        Calls(102, 0x4FFF, 0x00FF),
        Calls(103, 0x4FFF, 0x00FF),
        Calls(22, 0x4FFF, 0),
        Calls(22, 0x4FFF, 0x08FF),
        Calls(100, 0x4FFF, 0),
        Calls(38, 0x4FFF, 0),
        Calls(37, 0x4FFF, 0),
        Calls(39, 0x4FFF, 0),
    ];
    let sights = [
        Byte(0, 0x4FFF, 0),
        Byte(0, 0x4FF0, 0),
        Byte(0, 0x5000, 0xFF),
        Byte(1, 0x4000, 0),
        Byte(1, 0x4FFF, 0),
    ];
    plays(&rt, &[one_record(b'A')], &acts, &[], &sights)
}

#[test]
fn records_cross_into_common_memory_and_past_the_last_address(rt: HostRuntime) -> Result<(), Fail> {
    // A record comes to BFC0h to C03Fh, and to FFC0h to 003Fh, which is the base page.
    let acts = [
        Calls(22, 0x0300, 0),
        Calls(26, 0x0400, 0),
        Calls(21, 0x0300, 0),
        Calls(15, 0x0340, 0),
        Calls(26, 0xBFC0, 0),
        Calls(20, 0x0340, 0),
        Puts(0x0360, 0),
        Calls(26, 0xFFC0, 0),
        Calls(20, 0x0340, 0),
    ];
    let data = [
        Data(0x0200, b"\0LETTER  TXT"),
        Data(0x0240, b"\0LETTER  TXT"),
        Data(0x0300, b"Dear"),
        Data(0x033F, b"my"),
        Data(0x037F, b"!"),
    ];
    let sights = [
        Byte(0, 0xBFC0, b'D'),
        Byte(0, 0xBFFF, b'm'),
        Byte(0, 0xC000, b'y'),
        Byte(0, 0xC03F, b'!'),
        Byte(0, 0xC040, 0),
        Byte(0, 0xFFC0, b'D'),
        Byte(0, 0xFFFF, b'm'),
        Byte(0, 0x0000, b'y'),
        Byte(0, 0x0005, 0),
        Byte(0, 0x003F, b'!'),
    ];
    plays_below(&rt, &acts, &data, b"", &sights)
}

/// A call of a program in the mode in which errors are displayed and answered (45), with 16 records at once (44) at the last address
/// (26), answers that, with that text, and that is seen after it.
fn is_answered(
    rt: &HostRuntime,
    function: u8,
    block: u16,
    value: u16,
    text: &[u8],
    sights: &[Sight],
) -> Result<(), Fail> {
    let acts = [
        Calls(45, 0x00FE, 0),
        Calls(44, 16, 0),
        Calls(26, 0xFFFF, 0),
        Calls(function, block, value),
    ];
    plays_below(rt, &acts, &[], text, sights)
}

#[test]
fn a_block_may_stand_anywhere(rt: HostRuntime) -> Result<(), Fail> {
    // The base page begins with C3h, which is no drive.
    let nowhere: &[u8] = b"c0 Bdos error 4 on ?:\\r\n";
    is_answered(&rt, 22, 0x0000, 0x04FF, nowhere, &[Byte(0, 0, 0xC3)])?;
    // From the segment's last byte into common memory all bytes are 00h: a file is made of that name, and its number comes to
    // C00Fh.
    is_answered(&rt, 15, 0xBFFF, 0x00FF, b"", &[Byte(0, 0xC00F, 0)])?;
    is_answered(&rt, 22, 0xBFFF, 0, b"", &[Byte(0, 0xC00F, 1)])?;
    // From the last address to the first ones: the name is the base page's, whose third byte is its last page, BFh: a question
    // mark with bit 7.
    let wild: &[u8] = b"c0 Bdos error 9 on A:\\r\n";
    is_answered(
        &rt,
        22,
        0xFFFF,
        0x09FF,
        wild,
        &[Byte(0, 5, 0xC3), Byte(0, 15, 0)],
    )?;
    is_answered(&rt, 17, 0xFFFF, 0x00FF, b"", &[Byte(0, 0, 0xC3)])
}
