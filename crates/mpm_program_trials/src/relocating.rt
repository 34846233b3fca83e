//! Headers of page relocatable programs, and code that is moved to a page.
use mpm_prl::{BadHeader, PrlHeader, header, patch};
use std::test::Fail;

/// A program that shows two letters and ends: one address in its code, three calls of page 0.
const CODE: [u8; 18] = [
    0x0E, 0x09, 0x11, 0x0D, 0x01, 0xCD, 0x05, 0x00, 0x0E, 0x00, 0xCD, 0x05, 0x00, 0x48, 0x69, 0x0D,
    0x0A, 0x24,
];

/// That program moved to page 40h.
const MOVED: [u8; 18] = [
    0x0E, 0x09, 0x11, 0x0D, 0x41, 0xCD, 0x05, 0x40, 0x0E, 0x00, 0xCD, 0x05, 0x40, 0x48, 0x69, 0x0D,
    0x0A, 0x24,
];

/// Whether a header of these bytes 1, 2, 4 and 5 says this length and what is wanted after it, or is bad.
fn says(bytes: [u8; 4], expected: Result<(u16, u16), BadHeader>) -> bool {
    let mut first = [0; 128];
    first[1] = bytes[0];
    first[2] = bytes[1];
    first[4] = bytes[2];
    first[5] = bytes[3];
    match expected {
        Ok((length, extra)) => header(&first) == Ok(PrlHeader { length, extra }),
        Err(bad) => header(&first) == Err(bad),
    }
}

#[test]
fn a_header_says_its_length_and_what_is_wanted_behind(rt: HostRuntime) -> Result<(), Fail> {
    let both = says([0x12, 0x34, 0x56, 0x78], Ok((0x3412, 0x7856)));
    let length = says([0x12, 0x34, 0, 0], Ok((0x3412, 0)));
    let high = says([0, 0x34, 0, 0], Ok((0x3400, 0)));
    let none = says([0, 0, 0, 0], Err(BadHeader));
    assert!(rt; both && length && high && none);
    Ok(())
}

/// Whether marked bytes are moved to a page.
fn are_moved() -> bool {
    let mut code = CODE;
    patch(&mut code, &[0x09, 0x08, 0x00], 0x40);
    code == MOVED
}

/// Whether the last byte alone is moved.
fn last_is_moved() -> bool {
    let mut code = CODE;
    patch(&mut code, &[0x00, 0x00, 0x40], 0x40);
    let mut moved = CODE;
    moved[17] = 0x64;
    code == moved
}

/// Whether the page is added modulo 256.
fn is_added_modulo_256() -> bool {
    let mut code = [0xFF, 0x80, 0x01];
    patch(&mut code, &[0xE0], 0xC0);
    code == [0xBF, 0x40, 0xC1]
}

#[test]
fn marked_bytes_are_moved_to_a_page(rt: HostRuntime) -> Result<(), Fail> {
    let marked = are_moved();
    let last = last_is_moved();
    let modulo = is_added_modulo_256();
    assert!(rt; marked && last && modulo);
    Ok(())
}
