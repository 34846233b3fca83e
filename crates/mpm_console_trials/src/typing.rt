//! Lines as they are typed, what is written for each key, and how a line is answered.
use mpm_base::Reply;
use mpm_line_input::{LineKey, answer_line, edited, full_line, is_full, key_echo, key_of};
use std::alloc::{AllocError, Global};
use std::test::Fail;

/// A line as it was typed: what is kept, what was written, and how many keys were taken.
#[derive(Drop)]
struct Typed {
    line: [u8; 255],
    count: u8,
    written: Vec<u8>,
    taken: usize,
    ended: bool,
}

/// Types keys into an empty line of a greatest length, one a step, until it ends.
fn type_keys(alloc: Global, greatest: u8, keys: &[u8]) -> Result<Typed, AllocError> {
    let mut typed = Typed {
        line: [0; 255],
        count: 0,
        written: Vec::new(alloc),
        taken: 0,
        ended: false,
    };
    for key in keys.iter() {
        if !typed.ended {
            take(&mut typed, greatest, *key)?;
        }
    }
    Ok(typed)
}

/// One step of it.
fn take(typed: &mut Typed, greatest: u8, key: u8) -> Result<(), AllocError> {
    let edit = if is_full(typed.count, greatest) {
        full_line()
    } else {
        typed.taken = typed.taken.saturating_add(1);
        edited(&mut typed.line, &mut typed.count, greatest, key)
    };
    typed.written.extend_from_slice(edit.written.written())?;
    typed.ended = edit.ends;
    Ok(())
}

/// Whether keys that are typed give a line, write a text, and are taken up to so many.
fn gives(typed: &Typed, taken: usize, line: &[u8], written: &[u8]) -> bool {
    typed.ended
        && typed.taken == taken
        && &typed.line[..usize::from(typed.count)] == line
        && typed.written.as_slice() == written
}

/// A row: the greatest length, the keys, how many are taken, the line, and what is written.
type Row<'a> = (u8, &'a [u8], usize, &'a [u8], &'a [u8]);

/// The first row, if any, that comes to something else.
fn first_wrong(alloc: Global, rows: &[Row]) -> Result<Option<usize>, AllocError> {
    for (place, (greatest, keys, taken, line, written)) in rows.iter().enumerate() {
        let typed = type_keys(alloc, *greatest, keys)?;
        if !gives(&typed, *taken, line, written) {
            return Ok(Some(place));
        }
    }
    Ok(None)
}

#[test]
fn a_line_is_what_its_keys_leave(rt: HostRuntime) -> Result<(), Fail> {
    let rows: [Row; 11] = [
        (127, b"ab\x08c\r", 5, b"ac", b"ab\x08 \x08c\r"),
        (127, b"dir\n", 4, b"dir", b"dir\r"),
        (127, b"\r", 1, b"", b"\r"),
        (127, b"\x7f\x08x\x7f\x7fy\r", 7, b"y", b"x\x08 \x08y\r"),
        (127, b"dir\x15ls\r", 7, b"ls", b"dir#\r\nls\r"),
        (127, b"\x18a\r", 3, b"a", b"#\r\na\r"),
        (127, b"\t\x1b\r", 3, b"\t\x1b", b"^I^[\r"),
        (127, b"\x80\xff\r", 3, b"\x80\xff", b"\x80\xff\r"),
        (3, b"abcd", 3, b"abc", b"abc\r"),
        (1, b"\x01\x02", 1, b"\x01", b"^A\r"),
        (0, b"a", 0, b"", b"\r"),
    ];
    assert_eq!(rt; first_wrong(rt.alloc(), &rows)?, None);
    Ok(())
}

/// Whether a line that isn't full goes on, and one that became too long ends.
fn ends_where_full(typed: &Typed) -> bool {
    let full = full_line();
    !typed.ended
        && is_full(4, 3)
        && is_full(3, 3)
        && !is_full(2, 3)
        && full.ends
        && full.written.written() == b"\r".as_slice()
}

#[test]
fn a_line_ends_where_it_is_full(rt: HostRuntime) -> Result<(), Fail> {
    let typed = type_keys(rt.alloc(), 3, b"ab")?;
    let ended = ends_where_full(&typed);
    assert!(rt; ended);
    Ok(())
}

/// Whether a line is answered after its greatest length.
fn is_answered(reply: &mut Reply) -> bool {
    let mut line = [0; 255];
    line[..3].copy_from_slice(b"acx");
    answer_line(&line, 2, 0x0200, reply);
    let two = reply.hl == 0 && reply.at == 0x0201 && reply.placed() == b"\x02ac".as_slice();
    answer_line(&line, 0, 0xFFFF, reply);
    two && reply.at == 0 && reply.placed() == b"\x00".as_slice()
}

#[test]
fn a_line_is_answered_behind_its_greatest_length(rt: HostRuntime) -> Result<(), Fail> {
    let mut reply = Reply::new();
    let answered = is_answered(&mut reply);
    assert!(rt; answered);
    Ok(())
}

/// The first row, if any, of a key in a column whose echo is another one.
fn first_other(rows: &[(u8, u16, &[u8])]) -> Option<usize> {
    for (place, (key, column, echo)) in rows.iter().enumerate() {
        if key_echo(*key, *column).written() != *echo {
            return Some(place);
        }
    }
    None
}

/// Whether keys mean what they do to a line.
fn mean_what_they_do() -> bool {
    key_of(0x0D) == LineKey::End
        && key_of(0x7F) == LineKey::Rubout
        && key_of(0x18) == LineKey::Cancel
        && key_of(0x00) == LineKey::Join
}

#[test]
fn a_key_by_itself_is_echoed_where_it_can_be_shown(rt: HostRuntime) -> Result<(), Fail> {
    let rows: [(u8, u16, &[u8]); 8] = [
        (b'~', 0, b"~"),
        (b'\t', 3, b"     "),
        (b'\t', 8, b"        "),
        (0x08, 3, b"\x08"),
        (b'\n', 3, b"\n"),
        (0x1B, 0, b""),
        (0x7F, 0, b""),
        (0xC4, 0, b""),
    ];
    assert_eq!(rt; (first_other(&rows), mean_what_they_do()), (None, true));
    Ok(())
}
