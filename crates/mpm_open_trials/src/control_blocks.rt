//! File control blocks: what their bytes mean, and what calls put into them.
ghost use Rattle.std.specs.Prelude.{◌<◌};

use mpm_dirent::{LAST_POSITION, plain_name};
use mpm_fcb::{ControlBlock, are_beyond, is_ambiguous, item_numbered, three_bytes};
use mpm_opens::Mode;
use std::test::Fail;

/// LETTER.TXT of drive B with the attributes F5' and T1', in extent 33, as a program may have it in memory.
const BYTES: [u8; 36] = [
    0x02, 0x4C, 0x45, 0x54, 0x54, 0xC5, 0x52, 0x20, 0x20, 0xD4, 0x58, 0x54, 0x01, 0x0A, 0x01, 0x80,
    0x05, 0x00, 0x00, 0x00, 0x00, 0x00, 0x00, 0x00, 0x00, 0x00, 0x00, 0x00, 0x00, 0x00, 0x00, 0x00,
    0x7F, 0x34, 0x12, 0x01,
];

/// LETTER.TXT of the process's own drive, at its beginning.
fn letter() -> ControlBlock {
    named(b"LETTER  TXT")
}

/// A file's block at its beginning.
fn named(name: &[u8; 11]) -> ControlBlock {
    ControlBlock {
        drive: 0,
        name: *name,
        ex: 0,
        s1: 0,
        s2: 0,
        rc: 0,
        map: [0; 16],
        cr: 0,
        random: [0; 3],
    }
}

/// Whether a block has the fields of the bytes above.
fn has_its_fields(block: &ControlBlock) -> bool {
    block.drive == 2
        && block.name == *b"LETT\xC5R  \xD4XT"
        && [block.ex, block.s1, block.s2, block.rc] == [1, 10, 1, 128]
        && block.map[0] == 5
        && block.cr == 127
        && block.random == [0x34, 0x12, 0x01]
}

/// Whether a block names its drive, its file and its open file.
fn names_its_file(block: &ControlBlock) -> bool {
    block.drive_number(7) == 1
        && plain_name(&block.name) == *b"LETTER  TXT"
        && block.item() == Some(4)
        && !is_ambiguous(&block.name)
}

/// Whether a block of the process's own drive names it, and no open file.
fn names_no_open_file(block: &ControlBlock) -> bool {
    block.drive_number(7) == 7 && block.item().is_none()
}

#[test]
fn thirty_six_bytes_are_a_block_and_come_back(rt: HostRuntime) -> Result<(), Fail> {
    let block = ControlBlock::read(&BYTES);
    let fields = has_its_fields(&block) && block.write() == BYTES;
    let names = names_its_file(&block) && names_no_open_file(&letter());
    let ambiguous = is_ambiguous(b"LETTER  T?T") && is_ambiguous(b"LETT\xBFR  TXT");
    assert!(rt; fields && names && ambiguous);
    Ok(())
}

/// Whether numbers from 1 to 64 name open files, and other bytes after one name none.
fn are_numbered() -> bool {
    let mut block = ControlBlock::read(&BYTES);
    block.map[15] = 1;
    block.item().is_none()
        && item_numbered(0).is_none()
        && item_numbered(1) == Some(0)
        && item_numbered(64) == Some(63)
        && item_numbered(65).is_none()
        && item_numbered(257).is_none()
}

#[test]
fn other_bytes_behind_a_number_name_no_open_file(rt: HostRuntime) -> Result<(), Fail> {
    assert!(rt; are_numbered());
    Ok(())
}

/// What a position makes of EX, S2, RC and CR.
fn stands(position: u32, count: u8) -> [u8; 4] {
    let mut block = letter();
    if position <= LAST_POSITION {
        block.set_position(position, count);
    }
    [block.ex, block.s2, block.rc, block.cr]
}

/// Whether positions are an extent and a record of it. Position 129 comes after 129 records, the last of which is the first of
/// extent 1.
fn are_positions() -> bool {
    stands(129, 1) == [1, 0, 1, 1]
        && stands(4096, 0) == [0, 1, 0, 0]
        && stands(262_143, 128) == [31, 63, 128, 127]
        && stands(262_144, 128) == [31, 63, 128, 128]
        && stands(262_271, 128) == [31, 63, 128, 255]
}

/// Whether three bits of EX and two of S2 don't count.
fn count_not() -> bool {
    let block = ControlBlock {
        ex: 0xE1,
        s2: 0xC1,
        cr: 5,
        ..letter()
    };
    block.sequential_record() == 4229
}

/// Whether a file ends at record 262,143.
fn end_there() -> bool {
    !are_beyond(262_143, 1)
        && are_beyond(262_143, 2)
        && !are_beyond(262_128, 16)
        && are_beyond(262_144, 1)
        && are_beyond(0x00FF_FFFF, 16)
}

#[test]
fn positions_are_an_extent_and_a_record_of_it(rt: HostRuntime) -> Result<(), Fail> {
    let positions = are_positions();
    let bits = count_not();
    let end = end_there();
    assert!(rt; positions && bits && end);
    Ok(())
}

/// Whether the random record is read, and set to record 127 of extent 33.
fn is_set() -> bool {
    let mut block = ControlBlock::read(&BYTES);
    let read = block.random_record() == 0x0001_1234;
    block.set_random_record();
    read && block.random == [0xFF, 0x10, 0x00]
}

/// Whether the random record is set to a size.
fn is_size(size: u32, random: [u8; 3]) -> bool
    requires { size < 16777216 }
{
    let mut block = letter();
    block.set_random(size);
    block.random == random
}

/// The size of a file of 129 records, and of one that has all that it can; the free records of an empty disk, and of one with a
/// file of one block.
#[test]
fn the_random_record_is_three_bytes(rt: HostRuntime) -> Result<(), Fail> {
    let set = is_set();
    let sizes = is_size(129, [0x81, 0x00, 0x00]) && is_size(262_144, [0x00, 0x00, 0x04]);
    let free = three_bytes(1928) == [0x88, 0x07, 0x00] && three_bytes(1920) == [0x80, 0x07, 0x00];
    assert!(rt; set && sizes && free);
    Ok(())
}

/// Whether F6' asks for read-only mode before F5' for unlocked mode.
fn are_modes() -> bool {
    let both = named(b"LETT\xC5\xD2  TXT");
    let opened = letter().open_mode() == Mode::Locked
        && named(b"LETT\xC5R  TXT").open_mode() == Mode::Unlocked
        && named(b"LETTE\xD2  TXT").open_mode() == Mode::ReadOnly
        && both.open_mode() == Mode::ReadOnly;
    opened
        && both.made_mode() == Mode::Unlocked
        && named(b"LETTE\xD2  TXT").made_mode() == Mode::Locked
}

#[test]
fn f6_asks_for_read_only_mode_before_f5_for_unlocked_mode(rt: HostRuntime) -> Result<(), Fail> {
    assert!(rt; are_modes());
    Ok(())
}

/// Opened as file 4, with 10 records in its extent.
fn opened(mode: Mode) -> ControlBlock {
    let mut block = named(b"LETT\xC5R  TXT");
    block.ex = 1;
    block.s1 = 9;
    block.s2 = 9;
    block.cr = 3;
    block.random = [7, 8, 9];
    let mut attributes = [false; 11];
    attributes[0] = true;
    attributes[4] = true;
    attributes[5] = true;
    attributes[9] = true;
    block.open(&attributes, 10, mode, 4);
    block
}

/// Whether an opening puts attributes and the count, and in unlocked mode the number of the open file.
fn are_put() -> bool {
    let mut bytes = [0; 36];
    bytes[1..12].copy_from_slice(b"\xCCETTER  T\xD8T");
    bytes[12] = 1;
    bytes[15] = 10;
    bytes[16] = 5;
    bytes[32] = 3;
    bytes[33..].copy_from_slice(&[7, 8, 9]);
    let locked = opened(Mode::Locked).write() == bytes && opened(Mode::ReadOnly).write() == bytes;
    bytes[33..].copy_from_slice(&[5, 0, 9]);
    locked && opened(Mode::Unlocked).write() == bytes
}

#[test]
fn an_opening_puts_attributes_count_and_handle(rt: HostRuntime) -> Result<(), Fail> {
    assert!(rt; are_put());
    Ok(())
}

/// Whether what is answered of an XFCB stands in byte 12 and bytes 24 to 31.
fn is_told() -> bool {
    let mut block = ControlBlock::read(&[0xAA; 36]);
    block.tell_xfcb(0xC0, &[1, 2, 3, 4], &[5, 6, 7, 8]);
    let mut bytes = [0xAA; 36];
    bytes[12] = 0xC0;
    bytes[24..32].copy_from_slice(&[1, 2, 3, 4, 5, 6, 7, 8]);
    block.write() == bytes
}

/// Whether a renaming has its new name after a second drive.
fn has_a_new_name() -> bool {
    let mut block = letter();
    block.map[0] = 9;
    block.map[1..12].copy_from_slice(b"REPORT  TXT");
    block.new_name() == *b"REPORT  TXT"
}

#[test]
fn xfcbs_and_new_names_have_their_bytes(rt: HostRuntime) -> Result<(), Fail> {
    let told = is_told();
    let renamed = has_a_new_name();
    assert!(rt; told && renamed);
    Ok(())
}
