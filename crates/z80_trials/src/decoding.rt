//! Which instruction some bytes begin with, and which begin with none.
use std::test::Fail;
use z80_decode::{Instr, Page, decode, main_form};

/// A row: the bytes, and of the instruction that they begin with its length, page, opcode, displacement and operand.
type Row = ([u8; 4], u8, Page, u8, u8, u16);

/// The first row, if any, whose bytes are decoded otherwise.
fn first_wrong(rows: &[Row]) -> Option<usize> {
    for (place, (bytes, length, page, opcode, displacement, operand)) in rows.iter().enumerate() {
        let wanted = Instr {
            length: *length,
            page: *page,
            opcode: *opcode,
            displacement: *displacement,
            operand: *operand,
        };
        if decode(*bytes) != Some(wanted) {
            return Some(place);
        }
    }
    None
}

#[test]
fn lengths_and_operands(rt: HostRuntime) -> Result<(), Fail> {
    let rows = [
        ([0x00, 0x34, 0x92, 0x56], 1, Page::Main, 0x00, 0, 0),
        ([0x10, 0xfe, 0x92, 0x56], 2, Page::Main, 0x10, 0xfe, 0),
        ([0x38, 0x34, 0x92, 0x56], 2, Page::Main, 0x38, 0x34, 0),
        ([0x36, 0x34, 0x92, 0x56], 2, Page::Main, 0x36, 0, 0x34),
        ([0xdb, 0x34, 0x92, 0x56], 2, Page::Main, 0xdb, 0, 0x34),
        ([0x31, 0x34, 0x92, 0x56], 3, Page::Main, 0x31, 0, 0x9234),
        ([0xfa, 0x34, 0x92, 0x56], 3, Page::Main, 0xfa, 0, 0x9234),
        ([0xff, 0x34, 0x92, 0x56], 1, Page::Main, 0xff, 0, 0),
        ([0xcb, 0x38, 0x92, 0x56], 2, Page::Cb, 0x38, 0, 0),
        ([0xcb, 0x36, 0x92, 0x56], 2, Page::Cb, 0x36, 0, 0),
        ([0xed, 0xb0, 0x92, 0x56], 2, Page::Ed, 0xb0, 0, 0),
        ([0xed, 0x73, 0x92, 0x56], 4, Page::Ed, 0x73, 0, 0x5692),
        ([0xdd, 0xe5, 0x92, 0x56], 2, Page::Ix, 0xe5, 0, 0),
        ([0xdd, 0x7e, 0xfe, 0x56], 3, Page::Ix, 0x7e, 0xfe, 0),
        ([0xdd, 0x2a, 0x92, 0x56], 4, Page::Ix, 0x2a, 0, 0x5692),
        ([0xfd, 0x36, 0x92, 0x56], 4, Page::Iy, 0x36, 0x92, 0x56),
        ([0xdd, 0x24, 0x92, 0x56], 2, Page::Ix, 0x24, 0, 0),
        ([0xfd, 0x2e, 0x92, 0x56], 3, Page::Iy, 0x2e, 0, 0x92),
        ([0xfd, 0x6c, 0x92, 0x56], 2, Page::Iy, 0x6c, 0, 0),
        ([0xdd, 0x66, 0x92, 0x56], 3, Page::Ix, 0x66, 0x92, 0),
        ([0xdd, 0x8d, 0x92, 0x56], 2, Page::Ix, 0x8d, 0, 0),
        ([0xdd, 0xcb, 0x01, 0x3e], 4, Page::IxCb, 0x3e, 0x01, 0),
        ([0xfd, 0xcb, 0x81, 0x46], 4, Page::IyCb, 0x46, 0x81, 0),
    ];
    assert_eq!(rt; first_wrong(&rows), None);
    Ok(())
}

/// The first bytes, if any, that are decoded, or begin with a prefix.
fn first_listed(rows: &[[u8; 4]]) -> Option<usize> {
    for (place, bytes) in rows.iter().enumerate() {
        if decode(*bytes).is_some() || main_form(bytes[0]).is_some() {
            return Some(place);
        }
    }
    None
}

#[test]
fn unlisted(rt: HostRuntime) -> Result<(), Fail> {
    let rows = [
        [0xed, 0x00, 0x00, 0x00],
        [0xed, 0x70, 0x00, 0x00],
        [0xed, 0xa4, 0x00, 0x00],
        [0xdd, 0x04, 0x00, 0x00],
        [0xdd, 0x40, 0x00, 0x00],
        [0xdd, 0x76, 0x00, 0x00],
        [0xfd, 0xeb, 0x00, 0x00],
        [0xdd, 0xcb, 0x01, 0x36],
        [0xfd, 0xcb, 0x01, 0x36],
        [0xfd, 0xcb, 0x01, 0x07],
    ];
    let prefix = main_form(0xcb).is_none();
    assert_eq!(rt; (first_listed(&rows), prefix), (None, true));
    Ok(())
}

/// The opcodes after EDh, from the names of their instructions: a row for each first digit, a bit for each second one.
const BEHIND_ED: [u16; 16] = [
    0b0000_0000_0000_0000,
    0b0000_0000_0000_0000,
    0b0000_0000_0000_0000,
    0b0000_0000_0000_0000,
    0b1111_1111_1111_0101,
    0b1111_0011_1111_0011,
    0b1111_0001_1111_0001,
    0b0011_0000_1111_0000,
    0b0000_0000_0000_0000,
    0b0000_0000_0000_0000,
    0b1111_0000_1111_0000,
    0b1111_0000_1111_0000,
    0b0000_0000_0000_0000,
    0b0000_0000_0000_0000,
    0b0000_0000_0000_0000,
    0b0000_0000_0000_0000,
];

/// The opcodes after DDh and FDh, from the names of their instructions.
const BEHIND_DD: [u16; 16] = [
    0b0000_0000_0100_0000,
    0b0000_0000_0100_0000,
    0b0111_1110_0111_1110,
    0b0000_1110_0100_0000,
    0b0000_1110_0000_1110,
    0b0000_1110_0000_1110,
    0b1111_1111_1111_1111,
    0b1111_1101_0000_1110,
    0b0000_1110_0000_1110,
    0b0000_1110_0000_1110,
    0b0000_1110_0000_1110,
    0b0000_1110_0000_1110,
    0b0000_0000_0000_0000,
    0b0000_0000_0000_0000,
    0b0101_0100_0100_0000,
    0b0000_0000_0100_0000,
];

/// Whether an opcode stands in a table.
fn is_in(table: &[u16; 16], opcode: u8) -> bool {
    let column = opcode % 16;
    table[usize::from(opcode / 16)] >> (15 - column) & 1 == 1
}

/// Whether exactly the bytes with listed opcodes are decoded, of those whose second or fourth byte is this one.
fn are_decoded_as_listed(byte: u8) -> bool {
    let is_bit_of_memory = byte % 8 == 6 && byte != 0x36;
    decode([0xcb, byte, 0x00, 0x00]).is_some()
        && decode([0xed, byte, 0x00, 0x00]).is_some() == is_in(&BEHIND_ED, byte)
        && decode([0xdd, byte, 0x00, 0x00]).is_some() == is_in(&BEHIND_DD, byte)
        && decode([0xfd, byte, 0x00, 0x00]).is_some() == is_in(&BEHIND_DD, byte)
        && decode([0xdd, 0xcb, 0x05, byte]).is_some() == is_bit_of_memory
        && decode([0xfd, 0xcb, 0x05, byte]).is_some() == is_bit_of_memory
}

#[test]
fn listed_by_number(rt: HostRuntime) -> Result<(), Fail> {
    let mut first_wrong = None;
    for byte in 0..=255 {
        if !are_decoded_as_listed(byte) && first_wrong.is_none() {
            first_wrong = Some(byte);
        }
    }
    assert_eq!(rt; first_wrong, None);
    Ok(())
}
