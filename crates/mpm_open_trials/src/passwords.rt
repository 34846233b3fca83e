//! Passwords: how they are kept, and whom they let in.
use mpm_dirent::{LabelEntry, XfcbEntry};
use mpm_guard::{admits, admits_label, decode_password, encode};
use std::test::Fail;

/// The password SECRET and two spaces, as it is kept.
const STORED: [u8; 8] = [0x26, 0x26, 0x52, 0x43, 0x54, 0x45, 0x43, 0x55];

/// An XFCB of a mode, with that password.
fn guarded_by(mode: u8) -> XfcbEntry {
    XfcbEntry {
        user: 0,
        name: *b"DATA    DAT",
        mode,
        decode: 0x06,
        password: STORED,
        first: [0; 4],
        second: [0; 4],
    }
}

/// A label with a password, or with none where its bytes are zero.
fn label_with(decode: u8, password: [u8; 8]) -> LabelEntry {
    LabelEntry {
        name: *b"DISK       ",
        mode: 0x01,
        decode,
        password,
        first: [0; 4],
        second: [0; 4],
    }
}

/// Whether a password is kept in reverse and XORed with its sum.
fn is_kept() -> bool {
    encode(b"SECRET  ") == (0x06, STORED)
        && decode_password(0x06, &STORED) == *b"SECRET  "
        && encode(&[0; 8]) == (0, [0; 8])
        && encode(&[0xFF; 8]) == (0xF8, [0x07; 8])
}

#[test]
fn a_password_is_kept_in_reverse_and_xored_with_its_sum(rt: HostRuntime) -> Result<(), Fail> {
    assert!(rt; is_kept());
    Ok(())
}

/// No password.
const NONE: [u8; 8] = [0; 8];

/// The password as it is given.
const SECRET: [u8; 8] = *b"SECRET  ";

/// A row: the label's mode, the XFCB's, what is needed, the password that is given, the default one, and whether it is admitted.
type Row = (u8, u8, u8, [u8; 8], [u8; 8], bool);

/// The first row, if any, that is decided otherwise.
fn first_wrong(rows: &[Row]) -> Option<usize> {
    for (place, (label, mode, need, given, default, admitted)) in rows.iter().enumerate() {
        if admits(*label, &guarded_by(*mode), *need, given, default) != *admitted {
            return Some(place);
        }
    }
    None
}

#[test]
fn files_are_guarded_where_label_and_mode_say_so(rt: HostRuntime) -> Result<(), Fail> {
    let rows: [Row; 9] = [
        (0x81, 0x80, 0x80, *b"OTHER   ", NONE, false),
        (0x81, 0x80, 0x80, *b"OTHER   ", SECRET, true),
        (0x81, 0x80, 0x80, SECRET, NONE, true),
        (0x71, 0x80, 0x80, NONE, NONE, true),
        (0x81, 0x40, 0x80, NONE, NONE, true),
        (0x81, 0x40, 0x40, NONE, NONE, false),
        (0x81, 0x01, 0xFF, NONE, NONE, false),
        (0x81, 0x00, 0xFF, NONE, NONE, true),
        (0x81, 0x80, 0x80, *b"secret  ", NONE, false),
    ];
    assert_eq!(rt; first_wrong(&rows), None);
    Ok(())
}

/// Whether a label lets in who gives its password, or has it as the default one.
fn lets_in() -> bool {
    let label = label_with(0x06, STORED);
    admits_label(&label_with(0, NONE), &NONE, &NONE)
        && !admits_label(&label, &NONE, &NONE)
        && admits_label(&label, &SECRET, &NONE)
        && admits_label(&label, &NONE, &SECRET)
}

#[test]
fn a_label_is_guarded_where_its_stored_bytes_are_not_all_zero(rt: HostRuntime) -> Result<(), Fail> {
    assert!(rt; lets_in());
    Ok(())
}
