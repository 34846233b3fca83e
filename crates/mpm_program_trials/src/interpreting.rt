//! The command line interpreter, call by call, as it is driven by answers.
use mpm_base::{Call, Name8, Reply, Seg, functions};
use mpm_command::base_page;
use mpm_procs::NewProcess;
use mpm_residents::{Act, Cli};

/// An interpreter of two consoles, and the call and the reply with which it is driven.
#[derive(Drop)]
struct Driven {
    cli: Cli,
    call: Call,
    reply: Reply,
}

/// The interpreter as it begins.
fn begin() -> Driven {
    Driven {
        cli: Cli::new(2),
        call: Call::new(),
        reply: Reply::new(),
    }
}

/// It takes an answer, of at most 2,048 bytes.
fn answer(driven: &mut Driven, value: u16, bytes: &[u8]) -> bool {
    if 2048 < bytes.len() {
        return false;
    }
    driven.cli.next(&mut driven.call);
    driven.reply.answer_with(value, 0, bytes);
    driven.cli.took(&driven.reply);
    true
}

/// It takes an answer with a file control block.
fn answer_file(driven: &mut Driven, value: u16, fcb: &[u8; 36], bytes: &[u8]) -> bool {
    if 2048 < bytes.len() {
        return false;
    }
    driven.cli.next(&mut driven.call);
    driven.reply.answer_with(value, 0, bytes);
    driven.reply.has_fcb = true;
    driven.reply.fcb = *fcb;
    driven.cli.took(&driven.reply);
    true
}

/// Whether its next call is this one, which reads no file control block, and is then answered.
fn asks(
    driven: &mut Driven,
    function: u8,
    word: u16,
    bytes: &[u8],
    value: u16,
    answered: &[u8],
) -> bool {
    let act = driven.cli.next(&mut driven.call);
    let expected = driven.call.function == function
        && driven.call.word == word
        && driven.call.fcb == [0; 36]
        && driven.call.taken() == bytes;
    is_ask(&act) && expected && answer(driven, value, answered)
}

/// Whether its next call is one on a file with this file control block, and these bytes, and is then answered.
fn asks_file(
    driven: &mut Driven,
    function: u8,
    fcb: &[u8; 36],
    bytes: &[u8],
    value: u16,
    after: &[u8; 36],
    answered: &[u8],
) -> bool {
    let act = driven.cli.next(&mut driven.call);
    let expected = driven.call.function == function
        && driven.call.fcb == *fcb
        && driven.call.taken() == bytes;
    is_ask(&act) && expected && answer_file(driven, value, after, answered)
}

/// The bytes from one place to another.
fn range(bytes: &[u8], from: usize, to: usize) -> &[u8] {
    if from <= to && to <= bytes.len() {
        &bytes[from..to]
    } else {
        &[]
    }
}

/// Whether it makes a call.
fn is_ask(act: &Act) -> bool {
    match act {
        Act::Ask => true,
        _ => false,
    }
}

/// Whether it places these bytes at an address of segment 2.
fn places(driven: &mut Driven, at: u16, bytes: &[u8]) -> bool {
    let act = driven.cli.next(&mut driven.call);
    let expected = match act {
        Act::PlaceBytes {
            seg,
            address,
            length,
        } => { seg == Seg(2) && address == at && usize::from(length) == bytes.len() }
        _ => false,
    };
    let handed = driven.call.taken() == bytes;
    expected && handed && answer(driven, 0, b"")
}

/// Whether it moves so many bytes of code at an address of segment 2 to page 40h, by these marks.
fn moves(driven: &mut Driven, at: u16, count: u16, marks: &[u8]) -> bool {
    let act = driven.cli.next(&mut driven.call);
    let expected = match act {
        Act::MoveCode {
            seg,
            address,
            length,
            page,
        } => { seg == Seg(2) && address == at && length == count && page == 0x40 }
        _ => false,
    };
    let handed = driven.call.taken() == marks;
    expected && handed && answer(driven, 0, b"")
}

/// Whether it gives a console back.
fn gives(driven: &mut Driven, given: u8) -> bool {
    let act = driven.cli.next(&mut driven.call);
    let expected = match act {
        Act::GiveConsole { console } => console == given,
        _ => false,
    };
    expected && answer(driven, 0, b"")
}

/// Whether it begins PROG of user 1 on a drive in segment 2, which lies there, at console 0, where it is answered whether a slot is free.
fn begins(driven: &mut Driven, base: u8, last_page: u8, drive: u8, value: u16) -> bool {
    let act = driven.cli.next(&mut driven.call);
    let expected = match act {
        Act::BeginProcess { seg, new } => seg == Seg(2) && is_program(&new, base, last_page, drive),
        _ => false,
    };
    expected && answer(driven, value, b"")
}

/// Whether a process is that of PROG.
fn is_program(new: &NewProcess, base: u8, last_page: u8, drive: u8) -> bool {
    let lies = u16::from_le_bytes([0, base]);
    new.name == Name8(*b"PROG    ")
        && new.priority == 200
        && new.console == 0
        && new.seg == Some(Seg(2))
        && new.pc == lies.wrapping_add(0x0100)
        && new.sp == u16::from_le_bytes([0xFE, last_page.wrapping_sub(1)])
        && new.dma == lies.wrapping_add(0x0080)
        && new.user == 1
        && new.drive == drive
}

/// Whether it reads its next command, which user 1 on drive C sends from a console, a text of at most 128 bytes.
fn reads(driven: &mut Driven, console: u8, text: &[u8]) -> bool {
    let mut message = [0; 130];
    message[0] = 0x12;
    message[1] = console;
    let size = text.len().min(128);
    message[2..2 + size].copy_from_slice(&text[..size]);
    asks(
        driven,
        functions::READ_QUEUE,
        0,
        b"\x01\x00\x00\x00CliQ    ",
        0,
        &message,
    )
}

/// Whether it tells a text at a console, and gives that console back.
fn tells(driven: &mut Driven, console: u8, text: &[u8]) -> bool {
    asks(
        driven,
        functions::PRINT_STRING,
        u16::from(console),
        text,
        0,
        b"",
    ) && gives(driven, console)
}

/// Whether it reads a command for PROG at console 0, finds no queue of that name, and becomes user 1.
fn seeks(driven: &mut Driven, tail: &[u8]) -> bool {
    let mut text = [b' '; 64];
    text[..4].copy_from_slice(b"prog");
    let size = tail.len().min(60);
    text[4..4 + size].copy_from_slice(&tail[..size]);
    reads(driven, 0, &text[..4 + size])
        && asks(
            driven,
            functions::OPEN_QUEUE,
            0,
            b"\x00\x00\x00\x00PROG    ",
            0x00FF,
            b"",
        )
        && asks(driven, functions::SET_GET_USER_CODE, 1, b"", 0, b"")
}

/// The file control block with which PROG of a type is opened on a drive, 1 for A, read-only.
fn to_open(drive: u8, kind: &[u8; 3]) -> [u8; 36] {
    let mut fcb = [0; 36];
    fcb[..9].copy_from_slice(b"\x01PROG \xa0  ");
    fcb[0] = drive;
    fcb[9..12].copy_from_slice(kind);
    fcb
}

/// A file control block of an open file, in which a number tells which one it is.
fn block(number: u8) -> [u8; 36] {
    let mut fcb = [0; 36];
    fcb[16] = number;
    fcb
}

/// A file control block with so many records of its file.
fn sized(records: u8) -> [u8; 36] {
    let mut fcb = [0; 36];
    fcb[33] = records;
    fcb
}

/// Whether it opens PROG.PRL on drive C, which answers a value.
fn opens_relocatable(driven: &mut Driven, value: u16) -> bool {
    asks_file(
        driven,
        functions::OPEN_FILE,
        &to_open(3, b"PRL"),
        &[0; 8],
        value,
        &block(1),
        b"",
    )
}

/// Whether it opens PROG.COM on drive C, which answers a value.
fn opens_absolute(driven: &mut Driven, value: u16) -> bool {
    asks_file(
        driven,
        functions::OPEN_FILE,
        &to_open(3, b"COM"),
        &[0; 8],
        value,
        &block(1),
        b"",
    )
}

/// Whether it closes the file of a control block.
fn closes(driven: &mut Driven, fcb: &[u8; 36]) -> bool {
    asks_file(driven, functions::CLOSE_FILE, fcb, b"", 0, fcb, b"")
}

/// Whether it frees segment 2, which lies there.
fn frees(driven: &mut Driven, base: u8, pages: u8) -> bool {
    asks(
        driven,
        functions::MEMORY_FREE,
        0,
        &[base, pages, 0x80, 2],
        0,
        b"",
    )
}

#[test]
fn a_program_for_page_0_is_loaded_and_begins(rt: HostRuntime) {
    let mut driven = begin();
    let records = [0x76; 128];
    assert!(rt; seeks(&mut driven, b" a.txt"));
    assert!(rt; opens_relocatable(&mut driven, 0x00FF));
    assert!(rt; opens_absolute(&mut driven, 0));
    assert!(rt;
        asks_file(
            &mut driven,
            functions::COMPUTE_FILE_SIZE,
            &block(1),
            b"",
            0,
            &sized(1),
            b""
        )
    );
    assert!(rt;
        asks(
            &mut driven,
            functions::ABSOLUTE_MEMORY_REQUEST,
            0,
            &[0, 3, 0, 0],
            0,
            &[0, 16, 0x80, 2]
        )
    );
    assert!(rt;
        asks_file(
            &mut driven,
            functions::READ_SEQUENTIAL,
            &sized(1),
            b"",
            0x1001,
            &block(2),
            &records
        )
    );
    assert!(rt; places(&mut driven, 0x0100, &records));
    assert!(rt; closes(&mut driven, &block(2)));
    assert!(rt; places(&mut driven, 0x0000, &base_page(0x0F, b" a.txt")));
    assert!(rt; begins(&mut driven, 0, 0x0F, 2, 0));
    assert!(rt; reads(&mut driven, 2, b"prog"));
    assert!(rt; reads(&mut driven, 1, b""));
}

#[test]
fn a_relocatable_program_is_loaded_in_pieces_and_moved(rt: HostRuntime) {
    let mut driven = begin();
    let mut first = [0xC3; 2048];
    first[1..6].copy_from_slice(&[0xA4, 0x06, 0, 0, 0]);
    let second = [0x55; 128];
    assert!(rt; seeks(&mut driven, b""));
    assert!(rt; opens_relocatable(&mut driven, 0));
    assert!(rt;
        asks_file(
            &mut driven,
            functions::READ_SEQUENTIAL,
            &block(1),
            b"",
            0,
            &block(2),
            &first
        )
    );
    assert!(rt;
        asks(
            &mut driven,
            functions::RELOCATABLE_MEMORY_REQUEST,
            0,
            &[0, 10, 0, 0],
            0,
            &[0x40, 10, 0x80, 2]
        )
    );
    assert!(rt; places(&mut driven, 0x4100, range(&first, 256, 1956)));
    assert!(rt; moves(&mut driven, 0x4100, 736, range(&first, 1956, 2048)));
    assert!(rt;
        asks_file(
            &mut driven,
            functions::READ_SEQUENTIAL,
            &block(2),
            b"",
            0x1001,
            &block(3),
            &second
        )
    );
    assert!(rt; moves(&mut driven, 0x43E0, 964, range(&second, 0, 121)));
    assert!(rt; closes(&mut driven, &block(3)));
    assert!(rt; places(&mut driven, 0x4000, &base_page(0x49, b"")));
    assert!(rt; begins(&mut driven, 0x40, 0x49, 2, 0));
    assert!(rt; reads(&mut driven, 0, b"x"));
}

#[test]
fn a_program_is_sought_on_the_drive_that_is_named(rt: HostRuntime) {
    let mut driven = begin();
    assert!(rt; reads(&mut driven, 0, b"b:prog;abc x"));
    assert!(rt; asks(&mut driven, functions::SET_GET_USER_CODE, 1, b"", 0, b""));
    assert!(rt;
        asks_file(
            &mut driven,
            functions::OPEN_FILE,
            &to_open(2, b"PRL"),
            b"ABC     ",
            0x00FF,
            &block(1),
            b""
        )
    );
    assert!(rt;
        asks_file(
            &mut driven,
            functions::OPEN_FILE,
            &to_open(2, b"COM"),
            b"ABC     ",
            0,
            &block(1),
            b""
        )
    );
    assert!(rt;
        asks_file(
            &mut driven,
            functions::COMPUTE_FILE_SIZE,
            &block(1),
            b"",
            0x00FF,
            &block(1),
            b""
        )
    );
    assert!(rt; asks(&mut driven, functions::SET_GET_USER_CODE, 0, b"", 0, b""));
    assert!(rt;
        asks_file(
            &mut driven,
            functions::COMPUTE_FILE_SIZE,
            &block(1),
            b"",
            0,
            &sized(0),
            b""
        )
    );
    assert!(rt;
        asks(
            &mut driven,
            functions::ABSOLUTE_MEMORY_REQUEST,
            0,
            &[0, 3, 0, 0],
            0,
            &[0, 16, 0x80, 2]
        )
    );
    assert!(rt; closes(&mut driven, &sized(0)));
    assert!(rt; places(&mut driven, 0x0000, &base_page(0x0F, b" x")));
    assert!(rt; begins(&mut driven, 0, 0x0F, 1, 0));
}

#[test]
fn a_command_that_names_a_queue_is_written_to_it(rt: HostRuntime) {
    let mut driven = begin();
    assert!(rt; reads(&mut driven, 1, b"spool a.txt,b.txt"));
    assert!(rt;
        asks(
            &mut driven,
            functions::OPEN_QUEUE,
            0,
            b"\x00\x00\x00\x00SPOOL   ",
            0,
            b"\x05\x00"
        )
    );
    assert!(rt;
        asks(
            &mut driven,
            functions::CONDITIONAL_WRITE_QUEUE,
            0,
            b"\x05\x00\x00\x00SPOOL    a.txt,b.txt",
            0,
            b""
        )
    );
    assert!(rt; gives(&mut driven, 1));
    assert!(rt; reads(&mut driven, 0, b"mutex"));
    assert!(rt;
        asks(
            &mut driven,
            functions::OPEN_QUEUE,
            0,
            b"\x00\x00\x00\x00MUTEX   ",
            0,
            b"\x06\x00"
        )
    );
    assert!(rt;
        asks(
            &mut driven,
            functions::CONDITIONAL_WRITE_QUEUE,
            0,
            b"\x06\x00\x00\x00MUTEX   ",
            0x00FF,
            b""
        )
    );
    assert!(rt; tells(&mut driven, 0, b"Queue full\r\n"));
    assert!(rt; reads(&mut driven, 0, b"x"));
}

#[test]
fn what_is_no_command_or_no_program_is_told(rt: HostRuntime) {
    let mut driven = begin();
    assert!(rt; reads(&mut driven, 2, b"dropped"));
    assert!(rt; reads(&mut driven, 1, b" x"));
    assert!(rt; tells(&mut driven, 1, b"Bad load\r\n"));
    assert!(rt; seeks(&mut driven, b""));
    assert!(rt; opens_relocatable(&mut driven, 0x00FF));
    assert!(rt; opens_absolute(&mut driven, 0x00FF));
    assert!(rt; tells(&mut driven, 0, b"Command not found\r\n"));
    assert!(rt; seeks(&mut driven, b""));
    assert!(rt; opens_relocatable(&mut driven, 0x07FF));
    assert!(rt; tells(&mut driven, 0, b"Bad load\r\n"));
    assert!(rt; seeks(&mut driven, b""));
    assert!(rt; opens_relocatable(&mut driven, 0x00FF));
    assert!(rt; opens_absolute(&mut driven, 0x09FF));
    assert!(rt; tells(&mut driven, 0, b"Bad load\r\n"));
    assert!(rt; reads(&mut driven, 0, b"x"));
}

#[test]
fn a_bad_header_closes_the_file_without_a_segment(rt: HostRuntime) {
    let mut driven = begin();
    assert!(rt; seeks(&mut driven, b""));
    assert!(rt; opens_relocatable(&mut driven, 0));
    assert!(rt;
        asks_file(
            &mut driven,
            functions::READ_SEQUENTIAL,
            &block(1),
            b"",
            0x1001,
            &block(2),
            &[1; 128]
        )
    );
    assert!(rt; closes(&mut driven, &block(2)));
    assert!(rt; tells(&mut driven, 0, b"Bad load\r\n"));
    assert!(rt; reads(&mut driven, 0, b"x"));
}

#[test]
fn a_program_without_memory_is_told(rt: HostRuntime) {
    let mut driven = begin();
    let mut large = [0; 256];
    large[1..6].copy_from_slice(&[0x80, 0xFC, 0, 1, 0]);
    assert!(rt; seeks(&mut driven, b""));
    assert!(rt; opens_relocatable(&mut driven, 0));
    assert!(rt;
        asks_file(
            &mut driven,
            functions::READ_SEQUENTIAL,
            &block(1),
            b"",
            0,
            &block(2),
            &large
        )
    );
    assert!(rt; closes(&mut driven, &block(2)));
    assert!(rt; tells(&mut driven, 0, b"No memory\r\n"));
    assert!(rt; seeks(&mut driven, b""));
    assert!(rt; opens_relocatable(&mut driven, 0x00FF));
    assert!(rt; opens_absolute(&mut driven, 0));
    assert!(rt;
        asks_file(
            &mut driven,
            functions::COMPUTE_FILE_SIZE,
            &block(1),
            b"",
            0,
            &sized(8),
            b""
        )
    );
    assert!(rt;
        asks(
            &mut driven,
            functions::ABSOLUTE_MEMORY_REQUEST,
            0,
            &[0, 7, 0, 0],
            0x00FF,
            &[0, 7, 0, 0]
        )
    );
    assert!(rt; closes(&mut driven, &sized(8)));
    assert!(rt; tells(&mut driven, 0, b"No memory\r\n"));
}

/// Whether a program of seven pages gets no memory where this descriptor is answered.
fn gets_none(driven: &mut Driven, descriptor: &[u8]) -> bool {
    seeks(driven, b"")
        && opens_relocatable(driven, 0x00FF)
        && opens_absolute(driven, 0)
        && asks_file(
            driven,
            functions::COMPUTE_FILE_SIZE,
            &block(1),
            b"",
            0,
            &sized(8),
            b"",
        )
        && asks(
            driven,
            functions::ABSOLUTE_MEMORY_REQUEST,
            0,
            &[0, 7, 0, 0],
            0,
            descriptor,
        )
        && closes(driven, &sized(8))
        && tells(driven, 0, b"No memory\r\n")
}

#[test]
fn a_descriptor_that_is_no_segment_for_the_program_counts_as_refused(rt: HostRuntime) {
    let mut driven = begin();
    assert!(rt; gets_none(&mut driven, &[0, 6, 0x80, 2]));
    assert!(rt; gets_none(&mut driven, &[0x40, 0x81, 0x80, 2]));
    assert!(rt; gets_none(&mut driven, &[0, 7, 0x80, 16]));
    assert!(rt; gets_none(&mut driven, b""));
}

#[test]
fn a_segment_is_freed_where_the_file_is_short_or_no_process_begins(rt: HostRuntime) {
    let mut driven = begin();
    let records = [0; 256];
    assert!(rt; seeks(&mut driven, b""));
    assert!(rt; opens_relocatable(&mut driven, 0x00FF));
    assert!(rt; opens_absolute(&mut driven, 0));
    assert!(rt;
        asks_file(
            &mut driven,
            functions::COMPUTE_FILE_SIZE,
            &block(1),
            b"",
            0,
            &sized(3),
            b""
        )
    );
    assert!(rt;
        asks(
            &mut driven,
            functions::ABSOLUTE_MEMORY_REQUEST,
            0,
            &[0, 4, 0, 0],
            0,
            &[0, 16, 0x80, 2]
        )
    );
    assert!(rt;
        asks_file(
            &mut driven,
            functions::READ_SEQUENTIAL,
            &sized(3),
            b"",
            0x2001,
            &block(2),
            &records
        )
    );
    assert!(rt; places(&mut driven, 0x0100, &records));
    assert!(rt;
        asks_file(
            &mut driven,
            functions::READ_SEQUENTIAL,
            &block(2),
            b"",
            0x0001,
            &block(2),
            b""
        )
    );
    assert!(rt; frees(&mut driven, 0, 16));
    assert!(rt; closes(&mut driven, &block(2)));
    assert!(rt; tells(&mut driven, 0, b"Bad load\r\n"));
    assert!(rt; seeks(&mut driven, b""));
    assert!(rt; opens_relocatable(&mut driven, 0x00FF));
    assert!(rt; opens_absolute(&mut driven, 0));
    assert!(rt;
        asks_file(
            &mut driven,
            functions::COMPUTE_FILE_SIZE,
            &block(1),
            b"",
            0,
            &sized(0),
            b""
        )
    );
    assert!(rt;
        asks(
            &mut driven,
            functions::ABSOLUTE_MEMORY_REQUEST,
            0,
            &[0, 3, 0, 0],
            0,
            &[0, 16, 0x80, 2]
        )
    );
    assert!(rt; closes(&mut driven, &sized(0)));
    assert!(rt; places(&mut driven, 0x0000, &base_page(0x0F, b"")));
    assert!(rt; begins(&mut driven, 0, 0x0F, 2, 0x00FF));
    assert!(rt; frees(&mut driven, 0, 16));
    assert!(rt; closes(&mut driven, &sized(0)));
    assert!(rt; tells(&mut driven, 0, b"No process\r\n"));
    assert!(rt; reads(&mut driven, 0, b"x"));
}
