//! What commands mean, and the base pages of their programs.
use mpm_base::Name8;
use mpm_command::{BadName, Command, base_page, command_of, console_of, tail_of};
use std::test::Fail;

/// A message of the command queue: user 2 on drive C at console 1 sends a text of at most 128 bytes, zeros after it.
fn message(text: &[u8]) -> [u8; 130] {
    let mut bytes = [0; 130];
    bytes[0] = 0x22;
    bytes[1] = 1;
    let size = text.len().min(128);
    bytes[2..2 + size].copy_from_slice(&text[..size]);
    bytes
}

/// The command of that sender that names a program on a drive, or none (its own).
fn command(name: [u8; 8], drive: Option<u8>, password: [u8; 8]) -> Result<Command, BadName> {
    Ok(Command {
        user: 2,
        drive: drive.unwrap_or(2),
        names_drive: drive.is_some(),
        name: Name8(name),
        password,
    })
}

/// A row: a text, its command, and its tail.
type Row<'a> = (&'a [u8], Result<Command, BadName>, &'a [u8]);

/// The first row, if any, whose text means something else.
fn first_wrong(rows: &[Row]) -> Option<usize> {
    for (place, (text, expected, tail)) in rows.iter().enumerate() {
        let bytes = message(text);
        if command_of(&bytes) != *expected || tail_of(&bytes) != *tail || console_of(&bytes) != 1 {
            return Some(place);
        }
    }
    None
}

/// A command is the text up to its first space, in which its type and what follows its form don't count; a drive and a
/// password may stand at it.
#[test]
fn commands_are_file_names(rt: HostRuntime) -> Result<(), Fail> {
    let none = [0; 8];
    let dir = command(*b"DIR     ", None, none);
    let rows: [Row; 13] = [
        (b"dir", dir, b""),
        (b"dir ", dir, b" "),
        (b"Dir *.com b:", dir, b" *.com b:"),
        (b"\tdir x", dir, b" x"),
        (b"dir x\ry", dir, b" x"),
        (b"dir x\x00y", dir, b" x"),
        (b"d* x", command(*b"D???????", None, none), b" x"),
        (b"a:dir", command(*b"DIR     ", Some(0), none), b""),
        (b"p:dir  x", command(*b"DIR     ", Some(15), none), b"  x"),
        (
            b"dir;abc x",
            command(*b"DIR     ", None, *b"ABC     "),
            b" x",
        ),
        (b"a.com", command(*b"A       ", None, none), b""),
        (b"a=b", command(*b"A       ", None, none), b""),
        (b"a\tb c", command(*b"A       ", None, none), b" c"),
    ];
    assert_eq!(rt; first_wrong(&rows), None);
    Ok(())
}

#[test]
fn what_begins_with_no_file_name_is_no_command(rt: HostRuntime) -> Result<(), Fail> {
    let rows: [Row; 6] = [
        (b"", Err(BadName), b""),
        (b" dir", Err(BadName), b" dir"),
        (b"a.b.c", Err(BadName), b""),
        (b";x y", Err(BadName), b" y"),
        (b"ninechars x", Err(BadName), b" x"),
        (b"q:dir", Err(BadName), b""),
    ];
    assert_eq!(rt; first_wrong(&rows), None);
    Ok(())
}

/// Whether a text of 128 bytes is taken whole.
fn is_taken_whole() -> bool {
    let mut text = [b'x'; 128];
    text[1] = b' ';
    let bytes = message(&text);
    tail_of(&bytes).len() == 127 && command_of(&bytes).is_ok()
}

#[test]
fn a_text_of_128_bytes_is_taken_whole(rt: HostRuntime) -> Result<(), Fail> {
    assert!(rt; is_taken_whole());
    Ok(())
}

/// The 128 bytes of a base page after the file control blocks: the tail after its length.
fn tail_bytes(tail: &[u8]) -> [u8; 128] {
    let mut bytes = [0; 128];
    let size = tail.len().min(127);
    bytes[0] = size as u8;
    bytes[1..1 + size].copy_from_slice(&tail[..size]);
    bytes
}

/// The bytes from one place to another.
fn range(bytes: &[u8], from: usize, to: usize) -> &[u8] {
    if from <= to && to <= bytes.len() {
        &bytes[from..to]
    } else {
        &[]
    }
}

/// Whether the base page of a last page C0h and a tail has these file control blocks and this tail, and else the jumps and zeros.
fn begins_with(tail: &[u8], first: &[u8; 16], second: &[u8; 16], upper: &[u8]) -> bool {
    if 127 < tail.len() {
        return false;
    }
    let page = base_page(0xC0, tail);
    let jumps = [0xC3, 0x03, 0xC0, 0, 0, 0xC3, 0x06, 0xC0];
    range(&page, 0, 8) == jumps.as_slice()
        && range(&page, 8, 0x5C) == [0; 84].as_slice()
        && range(&page, 0x5C, 0x6C) == first.as_slice()
        && range(&page, 0x6C, 0x7C) == second.as_slice()
        && range(&page, 0x7C, 0x80) == [0; 4].as_slice()
        && range(&page, 0x80, 0x100) == tail_bytes(upper).as_slice()
}

/// No word of a tail, as a file control block.
const NONE: &[u8; 16] = b"\x00           \x00\x00\x00\x00";

/// A row: a tail, its two file control blocks, and the tail in the page.
type Page<'a> = (&'a [u8], &'a [u8; 16], &'a [u8; 16], &'a [u8]);

/// The first row, if any, whose base page is another one.
fn first_other(rows: &[Page]) -> Option<usize> {
    for (place, (tail, first, second, upper)) in rows.iter().enumerate() {
        if !begins_with(tail, first, second, upper) {
            return Some(place);
        }
    }
    None
}

#[test]
fn a_base_page_has_the_first_two_words_of_the_tail(rt: HostRuntime) -> Result<(), Fail> {
    let rows: [Page; 7] = [
        (b"", NONE, NONE, b""),
        (b" ", NONE, NONE, b" "),
        (
            b" b:from.txt  to;key third",
            b"\x02FROM    TXT\x00\x00\x00\x00",
            b"\x00TO         \x00\x00\x00\x00",
            b" B:FROM.TXT  TO;KEY THIRD",
        ),
        (
            b" *.c a=b",
            b"\x00????????C  \x00\x00\x00\x00",
            b"\x00A          \x00\x00\x00\x00",
            b" *.C A=B",
        ),
        (
            b" [x] y",
            NONE,
            b"\x00Y          \x00\x00\x00\x00",
            b" [X] Y",
        ),
        (
            b" x a.b.c",
            b"\x00X          \x00\x00\x00\x00",
            NONE,
            b" X A.B.C",
        ),
        (
            b" {|} ~",
            b"\x00{          \x00\x00\x00\x00",
            b"\x00~          \x00\x00\x00\x00",
            b" {|} ~",
        ),
    ];
    assert_eq!(rt; first_other(&rows), None);
    Ok(())
}

/// Whether a base page has room for 127 bytes of tail.
fn has_room_for_127() -> bool {
    let mut tail = [b' '; 127];
    tail[126] = b'z';
    let page = base_page(1, &tail);
    page[0x80] == 127 && page[0xFF] == b'Z' && page[0x5D] == b'Z' && page[2] == 1 && page[7] == 1
}

#[test]
fn a_base_page_has_room_for_127_bytes_of_tail(rt: HostRuntime) -> Result<(), Fail> {
    assert!(rt; has_room_for_127());
    Ok(())
}
