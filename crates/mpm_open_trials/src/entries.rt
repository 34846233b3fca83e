//! What the bytes of directory entries mean, and the bytes of an entry.
use mpm_dirent::{Entry, FileEntry, LabelEntry, XfcbEntry, read_entry, write_entry};
use std::test::Fail;

/// A file's entry: user 5, extent 1, 80h records, a narrow map of blocks 2 to 17.
const NARROW: [u8; 32] = [
    0x05, 0x4C, 0x45, 0x54, 0x54, 0x45, 0x52, 0x20, 0x20, 0xD4, 0x58, 0x54, 0x01, 0x0A, 0x02, 0x80,
    0x02, 0x03, 0x04, 0x05, 0x06, 0x07, 0x08, 0x09, 0x0A, 0x0B, 0x0C, 0x0D, 0x0E, 0x0F, 0x10, 0x11,
];

/// An XFCB of user 3.
const XFCB: [u8; 32] = [
    0x13, 0x41, 0x20, 0x20, 0x20, 0x20, 0x20, 0x20, 0x20, 0x20, 0x20, 0x20, 0x80, 0x5A, 0x00, 0x00,
    0x31, 0x32, 0x33, 0x34, 0x35, 0x36, 0x37, 0x38, 0x61, 0x62, 0x63, 0x64, 0x65, 0x66, 0x67, 0x68,
];

/// Whether bytes are read as an entry, by a narrow or a wide map, and that entry is written as these bytes.
fn stands_for(bytes: &[u8; 32], wide: bool, entry: &Entry, written: &[u8; 32]) -> bool {
    read_entry(bytes, wide) == *entry && write_entry(entry, wide) == *written
}

/// The entry of a file of user 5 with these blocks.
fn file(blocks: [u16; 16]) -> Entry {
    let file = FileEntry {
        user: 5,
        name: *b"LETTER  \xD4XT",
        ex: 1,
        s1: 10,
        s2: 2,
        rc: 0x80,
        blocks,
    };
    Entry::File { file }
}

/// Whether a file's map is read as bytes or as words.
fn has_its_blocks() -> bool {
    let narrow = file([2, 3, 4, 5, 6, 7, 8, 9, 10, 11, 12, 13, 14, 15, 16, 17]);
    let wide = file([
        0x0302, 0x0504, 0x0706, 0x0908, 0x0B0A, 0x0D0C, 0x0F0E, 0x1110, 0, 0, 0, 0, 0, 0, 0, 0,
    ]);
    stands_for(&NARROW, false, &narrow, &NARROW) && stands_for(&NARROW, true, &wide, &NARROW)
}

/// Whether the least and the greatest words of a map are read and written.
fn has_its_words() -> bool {
    let mut bytes = [0; 32];
    bytes[16] = 0xFF;
    bytes[17] = 0xFF;
    bytes[19] = 0x01;
    bytes[30] = 0xFF;
    bytes[31] = 0x07;
    let mut blocks = [0; 16];
    blocks[0] = 65_535;
    blocks[1] = 256;
    blocks[7] = 2_047;
    let file = FileEntry {
        user: 0,
        name: [0; 11],
        ex: 0,
        s1: 0,
        s2: 0,
        rc: 0,
        blocks,
    };
    stands_for(&bytes, true, &Entry::File { file }, &bytes)
}

#[test]
fn files(rt: HostRuntime) -> Result<(), Fail> {
    let blocks = has_its_blocks();
    let words = has_its_words();
    assert!(rt; blocks && words);
    Ok(())
}

/// Whether an XFCB has its fields.
fn is_an_xfcb() -> bool {
    let xfcb = XfcbEntry {
        user: 3,
        name: *b"A          ",
        mode: 0x80,
        decode: 0x5A,
        password: *b"12345678",
        first: *b"abcd",
        second: *b"efgh",
    };
    stands_for(&XFCB, false, &Entry::Xfcb { xfcb }, &XFCB)
}

/// Whether a label has its fields, and the two bytes of no field aren't kept.
fn is_a_label() -> bool {
    let label = LabelEntry {
        name: *b"A          ",
        mode: 0x80,
        decode: 0x5A,
        password: *b"12345678",
        first: *b"abcd",
        second: *b"efgh",
    };
    let mut written = XFCB;
    written[0] = 0x20;
    let mut bytes = written;
    bytes[14] = 0xFF;
    bytes[15] = 0xFF;
    stands_for(&bytes, false, &Entry::Label { label }, &written)
}

/// Whether a free entry is written as bytes E5h.
fn is_free() -> bool {
    let mut bytes = NARROW;
    bytes[0] = 0xE5;
    stands_for(&bytes, false, &Entry::Free, &[0xE5; 32])
}

/// Whether an entry of another sort is kept.
fn is_kept(sort: u8) -> bool {
    let mut bytes = NARROW;
    bytes[0] = sort;
    stands_for(&bytes, true, &Entry::Kept { bytes }, &bytes)
}

#[test]
fn other_entries(rt: HostRuntime) -> Result<(), Fail> {
    let xfcb = is_an_xfcb();
    let label = is_a_label();
    let free = is_free();
    let kept = is_kept(0x21) && is_kept(0xE4) && is_kept(0xE6) && is_kept(0xFF);
    assert!(rt; xfcb && label && free && kept);
    Ok(())
}

/// The user of a file or of an XFCB; none of another entry.
fn user_of(sort: u8) -> (Option<u8>, Option<u8>) {
    let mut bytes = NARROW;
    bytes[0] = sort;
    match read_entry(&bytes, false) {
        Entry::File { file } => (Some(file.user), None),
        Entry::Xfcb { xfcb } => (None, Some(xfcb.user)),
        _ => (None, None),
    }
}

/// Whether the least and the greatest users of files and of XFCBs are read.
fn have_their_users() -> bool {
    user_of(0) == (Some(0), None)
        && user_of(15) == (Some(15), None)
        && user_of(16) == (None, Some(0))
        && user_of(31) == (None, Some(15))
        && user_of(32) == (None, None)
}

#[test]
fn users_of_files_and_of_xfcbs(rt: HostRuntime) -> Result<(), Fail> {
    assert!(rt; have_their_users());
    Ok(())
}
