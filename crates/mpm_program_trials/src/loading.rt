//! How many pages programs want, and which bytes of their files are code and marks.
use mpm_loader::{Load, Plan};
use mpm_prl::PrlHeader;
use std::test::Fail;

/// The pages of a page relocatable program with so many bytes of code, which wants so many after it.
fn relocatable_pages(length: u16, extra: u16) -> Option<u8> {
    Plan::relocatable(PrlHeader { length, extra }).pages()
}

/// Whether page relocatable programs take their bytes, 128 and two pages.
fn relocatable_ones_take() -> bool {
    relocatable_pages(1, 0) == Some(3)
        && relocatable_pages(128, 0) == Some(3)
        && relocatable_pages(129, 0) == Some(4)
        && relocatable_pages(100, 28) == Some(3)
        && relocatable_pages(100, 29) == Some(4)
        && relocatable_pages(64640, 0) == Some(255)
        && relocatable_pages(64640, 1).is_none()
        && relocatable_pages(65535, 65535).is_none()
}

/// Whether programs for page 0 take their records and two pages.
fn absolute_ones_take() -> bool {
    Plan::absolute(0).pages() == Some(3)
        && Plan::absolute(1).pages() == Some(3)
        && Plan::absolute(2).pages() == Some(4)
        && Plan::absolute(505).pages() == Some(255)
        && Plan::absolute(506).pages().is_none()
        && Plan::absolute(16777215).pages().is_none()
}

#[test]
fn a_program_takes_its_bytes_and_128_and_two_pages(rt: HostRuntime) -> Result<(), Fail> {
    let relocatable = relocatable_ones_take();
    let absolute = absolute_ones_take();
    assert!(rt; relocatable && absolute);
    Ok(())
}

/// Bytes that differ from their neighbours.
fn bytes() -> [u8; 2048] {
    let mut bytes = [0; 2048];
    for place in 0..2048 {
        bytes[place] = (place % 251) as u8;
    }
    bytes
}

/// The bytes from one place to another.
fn range(bytes: &[u8], from: usize, to: usize) -> &[u8] {
    if from <= to && to <= bytes.len() {
        &bytes[from..to]
    } else {
        &[]
    }
}

/// The first records of a page relocatable program with so many bytes of code.
fn first_records(length: u16) -> [u8; 2048] {
    let mut records = bytes();
    records[1..3].copy_from_slice(&length.to_le_bytes());
    records[4] = 0;
    records[5] = 0;
    records
}

/// Whether a first piece begins a program.
fn begins(load: &mut Load, piece: &[u8]) -> bool {
    piece.len() <= 2048 && load.begin_relocatable(piece).is_ok()
}

/// Whether bytes are left, of which the next piece then comes.
fn goes_on(load: &mut Load, piece: &[u8]) -> bool {
    if load.has_all() || 2048 < piece.len() {
        return false;
    }
    load.take(piece);
    true
}

/// Whether the piece has this code, from a byte of the code on.
fn has_code(load: &Load, place: u32, code: &[u8]) -> bool {
    load.code() == code && (code.is_empty() || load.code_place() == place)
}

/// Whether the piece has these bytes that mark code, so many bytes of it from one on.
fn has_marks(load: &Load, place: u32, length: u32, marks: &[u8]) -> bool {
    load.marks() == marks
        && (marks.is_empty() || load.marked_place() == place)
        && load.marked_length() == length
}

/// Whether code and its marks are found in each piece.
fn are_found(load: &mut Load) -> bool {
    let bytes = bytes();
    let first = first_records(2000);
    begins(load, &first)
        && has_code(load, 0, range(&first, 256, 2048))
        && has_marks(load, 0, 0, &[])
        && goes_on(load, range(&bytes, 0, 512))
        && has_code(load, 1792, range(&bytes, 0, 208))
        && has_marks(load, 0, 2000, range(&bytes, 208, 458))
        && load.has_all()
}

/// Whether marks go on in the next piece.
fn marks_go_on(load: &mut Load) -> bool {
    let bytes = bytes();
    let first = first_records(1700);
    begins(load, &first)
        && has_code(load, 0, range(&first, 256, 1956))
        && has_marks(load, 0, 736, range(&first, 1956, 2048))
        && goes_on(load, range(&bytes, 0, 120))
        && has_marks(load, 736, 960, range(&bytes, 0, 120))
        && goes_on(load, range(&bytes, 0, 128))
        && has_code(load, 0, &[])
        && has_marks(load, 1696, 4, range(&bytes, 0, 1))
        && !goes_on(load, &bytes)
}

#[test]
fn code_and_its_marks_are_found_in_each_piece(rt: HostRuntime) -> Result<(), Fail> {
    let mut load = Load::nothing();
    let found = are_found(&mut load);
    let on = marks_go_on(&mut load);
    assert!(rt; found && on);
    Ok(())
}

/// Whether a header has two records and code.
fn has_two_records(load: &mut Load) -> bool {
    let first = first_records(1);
    let header = !begins(load, range(&first, 0, 255))
        && begins(load, range(&first, 0, 256))
        && has_code(load, 0, &[])
        && !load.has_all();
    header
        && !begins(load, &first_records(0))
        && begins(load, &first)
        && has_code(load, 0, range(&first, 256, 257))
        && has_marks(load, 0, 1, range(&first, 257, 258))
        && load.has_all()
}

#[test]
fn a_header_has_two_records_and_code(rt: HostRuntime) -> Result<(), Fail> {
    let mut load = Load::nothing();
    let header = has_two_records(&mut load);
    assert!(rt; header);
    Ok(())
}

/// Whether all of a program for page 0 is code.
fn is_code(load: &mut Load) -> bool {
    let bytes = bytes();
    let nothing = load.has_all();
    load.begin_absolute(17);
    let code = has_code(load, 0, &[])
        && goes_on(load, &bytes)
        && has_code(load, 0, &bytes)
        && has_marks(load, 0, 0, &[])
        && goes_on(load, range(&bytes, 0, 256))
        && has_code(load, 2048, range(&bytes, 0, 128))
        && load.has_all();
    load.begin_absolute(0);
    nothing && code && load.has_all()
}

#[test]
fn all_of_a_program_for_page_0_is_code(rt: HostRuntime) -> Result<(), Fail> {
    let mut load = Load::nothing();
    let code = is_code(&mut load);
    assert!(rt; code);
    Ok(())
}
