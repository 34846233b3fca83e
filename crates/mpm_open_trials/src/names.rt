//! How file names are spelled, and which names a pattern fits.
use mpm_names::{BadName, Parsed, matches, parse_filename};
use std::test::Fail;

/// The drive, the name and the place of what follows, of a text with no password.
fn plain(drive: u8, name: &[u8; 11], next: Option<u16>) -> Result<Parsed, BadName> {
    locked(drive, name, &[0; 8], 0, next)
}

/// The drive, the name, the password and the place of what follows, of a text with a password.
fn locked(
    drive: u8,
    name: &[u8; 11],
    password: &[u8; 8],
    length: u8,
    next: Option<u16>,
) -> Result<Parsed, BadName> {
    Ok(Parsed {
        drive,
        name: *name,
        password: *password,
        password_length: length,
        next,
    })
}

/// Whether each text is read as it says.
fn all_read(cases: &[(&[u8], Result<Parsed, BadName>)]) -> bool {
    for (text, wanted) in cases {
        if 128 < text.len() || parse_filename(text) != *wanted {
            return false;
        }
    }
    true
}

#[test]
fn names_and_types(rt: HostRuntime) -> Result<(), Fail> {
    let cases = [
        (
            b"b:letter.txt now".as_slice(),
            plain(2, b"LETTER  TXT", Some(12)),
        ),
        (b"a".as_slice(), plain(0, b"A          ", None)),
        (b"12345678".as_slice(), plain(0, b"12345678   ", None)),
        (b"123456789".as_slice(), Err(BadName)),
        (b"a.b12".as_slice(), plain(0, b"A       B12", None)),
        (b"a.b123".as_slice(), Err(BadName)),
        (b"a.".as_slice(), plain(0, b"A          ", None)),
        (b"a..b".as_slice(), Err(BadName)),
        (b"a.b.c".as_slice(), Err(BadName)),
        (b"..".as_slice(), Err(BadName)),
        (b".a".as_slice(), Err(BadName)),
        (b"a-z_$#.{~}".as_slice(), plain(0, b"A-Z_$#  {~}", None)),
    ];
    assert!(rt; all_read(&cases));
    Ok(())
}

#[test]
fn blanks_and_ends(rt: HostRuntime) -> Result<(), Fail> {
    let cases = [
        (b"".as_slice(), Err(BadName)),
        (b" \t ".as_slice(), Err(BadName)),
        (b"\ta b".as_slice(), plain(0, b"A          ", Some(2))),
        (b"  a\tb".as_slice(), plain(0, b"A          ", Some(3))),
        (b"x=y".as_slice(), plain(0, b"X          ", Some(1))),
        (b"x.y,z".as_slice(), plain(0, b"X       Y  ", Some(3))),
        (b"x]".as_slice(), plain(0, b"X          ", Some(1))),
        (b"x[".as_slice(), plain(0, b"X          ", Some(1))),
        (b"x<y".as_slice(), plain(0, b"X          ", Some(1))),
        (b"x>y".as_slice(), plain(0, b"X          ", Some(1))),
        (b"x|y".as_slice(), plain(0, b"X          ", Some(1))),
        (b"x\ry".as_slice(), plain(0, b"X          ", None)),
        (b"x\0y".as_slice(), plain(0, b"X          ", None)),
        (b"\0x".as_slice(), Err(BadName)),
        (b"x\x7F".as_slice(), Err(BadName)),
        (b"x\x01".as_slice(), Err(BadName)),
        (b"x\n".as_slice(), Err(BadName)),
        (b"x\x80".as_slice(), Err(BadName)),
    ];
    let long = are_long_texts_read();
    assert!(rt; long && all_read(&cases));
    Ok(())
}

/// Whether texts of 128 bytes are read: a name that is too long, and one after blanks alone.
fn are_long_texts_read() -> bool {
    let mut blanks = [b' '; 128];
    blanks[127] = b'z';
    parse_filename(&[b'a'; 128]) == Err(BadName)
        && parse_filename(&blanks) == plain(0, b"Z          ", None)
}

#[test]
fn drives(rt: HostRuntime) -> Result<(), Fail> {
    let cases = [
        (b"a:x".as_slice(), plain(1, b"X          ", None)),
        (b"P:x".as_slice(), plain(16, b"X          ", None)),
        (b"p:x".as_slice(), plain(16, b"X          ", None)),
        (b"q:x".as_slice(), Err(BadName)),
        (b"@:x".as_slice(), Err(BadName)),
        (b"a:".as_slice(), Err(BadName)),
        (b":".as_slice(), Err(BadName)),
        (b":a".as_slice(), Err(BadName)),
        (b"a:b:c".as_slice(), Err(BadName)),
        (b"a: b".as_slice(), Err(BadName)),
    ];
    assert!(rt; all_read(&cases));
    Ok(())
}

#[test]
fn stars(rt: HostRuntime) -> Result<(), Fail> {
    let cases = [
        (b"*".as_slice(), plain(0, b"????????   ", None)),
        (b"*.*".as_slice(), plain(0, b"???????????", None)),
        (b"a*b.c*".as_slice(), plain(0, b"A???????C??", None)),
        (b"a?b.?".as_slice(), plain(0, b"A?B     ?  ", None)),
        (b"1234567*".as_slice(), plain(0, b"1234567?   ", None)),
        (b"*abcdefg".as_slice(), plain(0, b"????????   ", None)),
        (b"*abcdefgh".as_slice(), Err(BadName)),
        (b"a.*xyz".as_slice(), Err(BadName)),
    ];
    assert!(rt; all_read(&cases));
    Ok(())
}

#[test]
fn passwords(rt: HostRuntime) -> Result<(), Fail> {
    let cases = [
        (
            b"a;b".as_slice(),
            locked(0, b"A          ", b"B       ", 1, None),
        ),
        (
            b"a.b;sEcret12 x".as_slice(),
            locked(0, b"A       B  ", b"SECRET12", 8, Some(12)),
        ),
        (
            b"a;*".as_slice(),
            locked(0, b"A          ", b"*       ", 1, None),
        ),
        (
            b"a.;b,".as_slice(),
            locked(0, b"A          ", b"B       ", 1, Some(4)),
        ),
        (b"a;".as_slice(), Err(BadName)),
        (b"a; b".as_slice(), Err(BadName)),
        (b"a;123456789".as_slice(), Err(BadName)),
        (b"a;b;c".as_slice(), Err(BadName)),
        (b"a;b.c".as_slice(), Err(BadName)),
        (b";a".as_slice(), Err(BadName)),
    ];
    assert!(rt; all_read(&cases));
    Ok(())
}

/// Whether each pattern fits its name or not, as it says.
fn all_fit(cases: &[(&[u8; 11], &[u8; 11], bool)]) -> bool {
    for (pattern, name, fits) in cases {
        if matches(pattern, name) != *fits {
            return false;
        }
    }
    true
}

#[test]
fn patterns(rt: HostRuntime) -> Result<(), Fail> {
    let cases = [
        (b"???????????", b"LETTER  TXT", true),
        (b"LETTER  TXT", b"LETTER  TXT", true),
        (b"L?TTER  T\xBFT", b"LETTER  TXT", true),
        (b"LETTER  \xD4XT", b"LETTER  T\xD8T", true),
        (b"LETTER  TXS", b"LETTER  TXT", false),
        (b"letter  TXT", b"LETTER  TXT", false),
        (b"LETTER  TXT", b"LETTER  TX?", false),
    ];
    assert!(rt; all_fit(&cases));
    Ok(())
}
