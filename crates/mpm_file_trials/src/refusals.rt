//! What each function refuses, in which order where several refusals apply at once: a call for which one cause is there and the next
//! one too answers by the first. (MP/M II Programmer's Guide, "BDOS Error Handling", and the functions.)
use mpm_base::functions::*;
use mpm_file_scenes::Line::*;
use mpm_file_scenes::{Line, first_wrong_line, full_disk, small_disk};
use std::alloc::Global;
use std::test::Fail;

/// The first line that isn't so where the small disk is drive A and the full one drive B.
fn wrong_of(alloc: Global, lines: &[Line<'_>]) -> Result<Option<usize>, Fail> {
    first_wrong_line(alloc, &small_disk(), &full_disk(), lines)
}

#[test]
fn an_opening_is_refused_in_order(rt: HostRuntime) -> Result<(), Fail> {
    let lines = [
        File(3, b'?'),
        Refused(OPEN_FILE, 4, 2),
        File(17, b'?'),
        Refused(OPEN_FILE, 4, 16),
        File(0, b'?'),
        Refused(OPEN_FILE, 9, 0),
        File(0, b'G'),
        Byte(12, 1),
        Asks(OPEN_FILE, 0xFF),
        By(2),
        File(0, b'G'),
        Sends(b"SECRET  "),
        Asks(OPEN_FILE, 0),
        By(1),
        File(0, b'G'),
        Sends(b""),
        Refused(OPEN_FILE, 7, 0),
        Sends(b"SECRET  "),
        Opens(0, 16),
        File(0, b'G'),
        Refused(OPEN_FILE, 5, 0),
        By(3),
        Opens(16, 32),
        By(4),
        Opens(32, 48),
        By(5),
        Opens(48, 63),
        By(1),
        File(0, b'A'),
        Refused(OPEN_FILE, 10, 0),
        By(6),
        File(0, b'A'),
        Refused(OPEN_FILE, 11, 0),
        By(5),
        Word(2),
        Asks(FREE_DRIVE, 0),
        By(6),
        File(0, b'A'),
        Asks(OPEN_FILE, 0),
    ];
    let wrong = wrong_of(rt.alloc(), &lines)?;
    assert_eq!(rt; wrong, None);
    Ok(())
}

#[test]
fn a_making_is_refused_in_order(rt: HostRuntime) -> Result<(), Fail> {
    let lines = [
        By(8),
        Drive(0),
        Asks(WRITE_PROTECT_DISK, 0),
        By(1),
        File(3, b'?'),
        Refused(MAKE_FILE, 4, 2),
        File(0, b'?'),
        Refused(MAKE_FILE, 9, 0),
        File(0, b'A'),
        Refused(MAKE_FILE, 2, 0),
        By(8),
        Word(1),
        Asks(RESET_DRIVE, 0),
        By(1),
        Opens(0, 16),
        File(0, b'A'),
        Refused(MAKE_FILE, 8, 0),
        By(3),
        Opens(16, 32),
        By(4),
        Opens(32, 48),
        By(5),
        Opens(48, 64),
        By(1),
        File(0, b'N'),
        Refused(MAKE_FILE, 10, 0),
        By(6),
        File(2, b'N'),
        Refused(MAKE_FILE, 11, 1),
        By(5),
        Word(2),
        Asks(FREE_DRIVE, 0),
        By(6),
        File(2, b'N'),
        Asks(MAKE_FILE, 0xFF),
        File(0, b'N'),
        Asks(MAKE_FILE, 0),
    ];
    let wrong = wrong_of(rt.alloc(), &lines)?;
    assert_eq!(rt; wrong, None);
    Ok(())
}

#[test]
fn a_renaming_is_refused_in_order(rt: HostRuntime) -> Result<(), Fail> {
    let lines = [
        File(3, b'?'),
        To(b'M'),
        Refused(RENAME_FILE, 4, 2),
        File(0, b'N'),
        To(b'?'),
        Refused(RENAME_FILE, 9, 0),
        By(8),
        Drive(0),
        Asks(WRITE_PROTECT_DISK, 0),
        By(1),
        File(0, b'N'),
        To(b'M'),
        Asks(RENAME_FILE, 0xFF),
        File(0, b'R'),
        To(b'M'),
        Refused(RENAME_FILE, 2, 0),
        By(8),
        Word(1),
        Asks(RESET_DRIVE, 0),
        By(1),
        File(0, b'R'),
        To(b'A'),
        Refused(RENAME_FILE, 3, 0),
        File(0, b'G'),
        To(b'A'),
        Refused(RENAME_FILE, 8, 0),
        By(2),
        Block(1),
        File(0, b'G'),
        Sends(b"SECRET  "),
        Asks(OPEN_FILE, 0),
        By(1),
        Block(0),
        File(0, b'G'),
        To(b'M'),
        Sends(b""),
        Refused(RENAME_FILE, 7, 0),
        Sends(b"SECRET  "),
        Refused(RENAME_FILE, 5, 0),
        By(2),
        Block(1),
        Asks(CLOSE_FILE, 0),
        By(1),
        Block(0),
        Asks(RENAME_FILE, 0),
        File(0, b'G'),
        Asks(OPEN_FILE, 0xFF),
        File(0, b'M'),
        Asks(OPEN_FILE, 0),
    ];
    let wrong = wrong_of(rt.alloc(), &lines)?;
    assert_eq!(rt; wrong, None);
    Ok(())
}

/// A pattern's files are asked by their names: A is free of causes, G comes before P.
#[test]
fn a_deletion_is_refused_in_order_and_then_file_by_file(rt: HostRuntime) -> Result<(), Fail> {
    let lines = [
        File(3, b'N'),
        Refused(DELETE_FILE, 4, 2),
        By(8),
        Drive(0),
        Asks(WRITE_PROTECT_DISK, 0),
        By(1),
        File(0, b'N'),
        Asks(DELETE_FILE, 0xFF),
        File(0, b'R'),
        Refused(DELETE_FILE, 2, 0),
        By(8),
        Word(1),
        Asks(RESET_DRIVE, 0),
        By(1),
        File(0, b'P'),
        Refused(DELETE_FILE, 3, 0),
        By(2),
        Block(1),
        File(0, b'G'),
        Sends(b"SECRET  "),
        Asks(OPEN_FILE, 0),
        By(1),
        Block(0),
        File(0, b'G'),
        Sends(b""),
        Refused(DELETE_FILE, 7, 0),
        Sends(b"SECRET  "),
        Refused(DELETE_FILE, 5, 0),
        File(0, b'?'),
        Sends(b""),
        Refused(DELETE_FILE, 7, 0),
        Sends(b"SECRET  "),
        Refused(DELETE_FILE, 5, 0),
        By(2),
        Block(1),
        Asks(CLOSE_FILE, 0),
        By(1),
        Block(0),
        Refused(DELETE_FILE, 3, 0),
        File(0, b'G'),
        Asks(DELETE_FILE, 0),
        Asks(DELETE_FILE, 0xFF),
        File(0, b'A'),
        Sends(b""),
        Asks(DELETE_FILE, 0),
    ];
    let wrong = wrong_of(rt.alloc(), &lines)?;
    assert_eq!(rt; wrong, None);
    Ok(())
}

#[test]
fn attributes_are_refused_in_order(rt: HostRuntime) -> Result<(), Fail> {
    let lines = [
        File(3, b'?'),
        Refused(SET_FILE_ATTRIBUTES, 4, 2),
        File(0, b'?'),
        Refused(SET_FILE_ATTRIBUTES, 9, 0),
        By(8),
        Drive(0),
        Asks(WRITE_PROTECT_DISK, 0),
        By(1),
        File(0, b'N'),
        Asks(SET_FILE_ATTRIBUTES, 0xFF),
        File(0, b'G'),
        Refused(SET_FILE_ATTRIBUTES, 2, 0),
        By(8),
        Word(1),
        Asks(RESET_DRIVE, 0),
        By(1),
        By(2),
        Block(1),
        File(0, b'G'),
        Sends(b"SECRET  "),
        Asks(OPEN_FILE, 0),
        By(1),
        Block(0),
        Sends(b""),
        Refused(SET_FILE_ATTRIBUTES, 7, 0),
        Sends(b"SECRET  "),
        Refused(SET_FILE_ATTRIBUTES, 5, 0),
        By(2),
        Block(1),
        Asks(CLOSE_FILE, 0),
        By(1),
        Block(0),
        Asks(SET_FILE_ATTRIBUTES, 0),
        File(0, b'R'),
        Asks(SET_FILE_ATTRIBUTES, 0),
    ];
    let wrong = wrong_of(rt.alloc(), &lines)?;
    assert_eq!(rt; wrong, None);
    Ok(())
}

#[test]
fn an_xfcb_is_refused_in_order(rt: HostRuntime) -> Result<(), Fail> {
    let lines = [
        File(3, b'?'),
        Refused(WRITE_FILE_XFCB, 4, 2),
        File(0, b'?'),
        Refused(WRITE_FILE_XFCB, 9, 0),
        By(8),
        Drive(0),
        Asks(WRITE_PROTECT_DISK, 0),
        By(1),
        File(0, b'N'),
        Asks(WRITE_FILE_XFCB, 0xFF),
        File(0, b'G'),
        Refused(WRITE_FILE_XFCB, 2, 0),
        By(8),
        Word(1),
        Asks(RESET_DRIVE, 0),
        By(1),
        By(2),
        Block(1),
        File(0, b'G'),
        Sends(b"SECRET  "),
        Asks(OPEN_FILE, 0),
        By(1),
        Block(0),
        Sends(b""),
        Refused(WRITE_FILE_XFCB, 7, 0),
        Sends(b"SECRET  "),
        Refused(WRITE_FILE_XFCB, 5, 0),
        By(2),
        Block(1),
        File(2, b'A'),
        Asks(OPEN_FILE, 0),
        By(1),
        Block(0),
        File(2, b'A'),
        Refused(WRITE_FILE_XFCB, 5, 1),
        By(2),
        Block(1),
        Asks(CLOSE_FILE, 0),
        By(1),
        Block(0),
        Asks(WRITE_FILE_XFCB, 0xFF),
        File(0, b'A'),
        Asks(WRITE_FILE_XFCB, 0),
    ];
    let wrong = wrong_of(rt.alloc(), &lines)?;
    assert_eq!(rt; wrong, None);
    Ok(())
}

#[test]
fn a_label_is_refused_in_order(rt: HostRuntime) -> Result<(), Fail> {
    let lines = [
        File(3, b'L'),
        Refused(SET_DIRECTORY_LABEL, 4, 2),
        By(8),
        Drive(0),
        Asks(WRITE_PROTECT_DISK, 0),
        By(1),
        File(0, b'L'),
        Sends(b""),
        Refused(SET_DIRECTORY_LABEL, 2, 0),
        By(8),
        Word(1),
        Asks(RESET_DRIVE, 0),
        By(1),
        Refused(SET_DIRECTORY_LABEL, 7, 0),
        By(8),
        Drive(1),
        Asks(WRITE_PROTECT_DISK, 0),
        By(1),
        File(2, b'L'),
        Refused(SET_DIRECTORY_LABEL, 2, 1),
        By(8),
        Word(2),
        Asks(RESET_DRIVE, 0),
        By(1),
        Asks(SET_DIRECTORY_LABEL, 0xFF),
        File(0, b'L'),
        Sends(b"SECRET  "),
        Asks(SET_DIRECTORY_LABEL, 0),
    ];
    let wrong = wrong_of(rt.alloc(), &lines)?;
    assert_eq!(rt; wrong, None);
    Ok(())
}

#[test]
fn what_tells_of_a_file_is_refused_in_order(rt: HostRuntime) -> Result<(), Fail> {
    let lines = [
        File(3, b'?'),
        Refused(COMPUTE_FILE_SIZE, 4, 2),
        File(0, b'?'),
        Refused(COMPUTE_FILE_SIZE, 9, 0),
        File(0, b'N'),
        Asks(COMPUTE_FILE_SIZE, 0xFF),
        File(0, b'A'),
        Asks(COMPUTE_FILE_SIZE, 0),
        File(3, b'?'),
        Refused(READ_FILE_XFCB, 4, 2),
        File(0, b'?'),
        Refused(READ_FILE_XFCB, 9, 0),
        File(0, b'N'),
        Asks(READ_FILE_XFCB, 0xFF),
        File(0, b'A'),
        Asks(READ_FILE_XFCB, 0),
    ];
    let wrong = wrong_of(rt.alloc(), &lines)?;
    assert_eq!(rt; wrong, None);
    Ok(())
}

#[test]
fn what_tells_of_a_drive_needs_the_drive(rt: HostRuntime) -> Result<(), Fail> {
    let lines = [
        Word(2),
        Refused(GET_DISK_FREE_SPACE, 4, 2),
        Refused(RETURN_DIRECTORY_LABEL_DATA, 4, 2),
        Word(0),
        Asks(GET_DISK_FREE_SPACE, 0),
        Asks(RETURN_DIRECTORY_LABEL_DATA, 0x81),
        Word(1),
        Asks(RETURN_DIRECTORY_LABEL_DATA, 0),
    ];
    let wrong = wrong_of(rt.alloc(), &lines)?;
    assert_eq!(rt; wrong, None);
    Ok(())
}

/// The first line that isn't so of a function that writes two records, where the last call answers this. R is read-only by T1', and G
/// is opened in read-only mode, by F6'.
fn wrong_of_writing(alloc: Global, function: u8, last: u16) -> Result<Option<usize>, Fail> {
    let lines = [
        By(8),
        Drive(0),
        Asks(WRITE_PROTECT_DISK, 0),
        By(1),
        Records(2),
        File(3, b'A'),
        Byte(12, 31),
        Byte(14, 63),
        Byte(32, 127),
        Random(0x3FFFF),
        Refused(function, 4, 2),
        File(0, b'A'),
        Byte(12, 31),
        Byte(14, 63),
        Byte(32, 127),
        Random(0x3FFFF),
        Asks(function, 10),
        Asks(OPEN_FILE, 0xFF),
        Byte(12, 0),
        Asks(OPEN_FILE, 0),
        Byte(12, 31),
        Byte(14, 63),
        Byte(32, 127),
        Random(0x3FFFF),
        Asks(function, 6),
        Byte(12, 0),
        Byte(14, 0),
        Byte(32, 0),
        Random(0),
        Refused(function, 2, 0),
        Block(1),
        File(0, b'R'),
        Asks(OPEN_FILE, 0),
        Refused(function, 2, 0),
        Word(1),
        By(8),
        Asks(RESET_DRIVE, 0xFF),
        By(1),
        Asks(RESET_DRIVE, 0),
        Records(2),
        Refused(function, 3, 0),
        Block(2),
        File(0, b'G'),
        Attribute(6),
        Sends(b"SECRET  "),
        Asks(OPEN_FILE, 0),
        Refused(function, 3, 0),
        Block(0),
        Asks(function, last),
    ];
    wrong_of(alloc, &lines)
}

/// Function 41 finds no record of A that it could replace.
#[test]
fn records_are_written_or_refused_in_order(rt: HostRuntime) -> Result<(), Fail> {
    let rows = [
        (WRITE_SEQUENTIAL, 0),
        (WRITE_RANDOM, 0),
        (WRITE_RANDOM_WITH_ZERO_FILL, 0),
        (TEST_AND_WRITE_RECORD, 1),
    ];
    for (function, last) in rows {
        let wrong = wrong_of_writing(rt.alloc(), function, last)?;
        assert_eq!(rt; wrong, None, "function {function}");
    }
    Ok(())
}

/// Where no record is, function 20 answers 1, also where the records go beyond the last that a file can have.
#[test]
fn records_are_read_in_order(rt: HostRuntime) -> Result<(), Fail> {
    let lines = [
        File(3, b'A'),
        Refused(READ_SEQUENTIAL, 4, 2),
        File(0, b'A'),
        Byte(12, 31),
        Byte(14, 63),
        Byte(32, 127),
        Random(0x3FFFF),
        Asks(READ_SEQUENTIAL, 10),
        By(2),
        Block(1),
        File(0, b'A'),
        Asks(OPEN_FILE, 0),
        By(1),
        Block(0),
        File(0, b'A'),
        Byte(16, 1),
        Asks(READ_SEQUENTIAL, 10),
        By(2),
        Block(1),
        Asks(CLOSE_FILE, 0),
        By(1),
        Block(0),
        File(0, b'A'),
        Asks(OPEN_FILE, 0),
        Byte(16, 2),
        Asks(READ_SEQUENTIAL, 10),
        Byte(16, 1),
        Records(2),
        Byte(12, 31),
        Byte(14, 63),
        Byte(32, 127),
        Random(0x3FFFF),
        Asks(READ_SEQUENTIAL, 1),
    ];
    let wrong = wrong_of(rt.alloc(), &lines)?;
    assert_eq!(rt; wrong, None);
    Ok(())
}

/// Extent 0 of A is there, and has no record; extent 1 isn't there.
#[test]
fn records_are_read_at_random_or_refused_in_order(rt: HostRuntime) -> Result<(), Fail> {
    let lines = [
        Records(2),
        File(3, b'A'),
        Byte(12, 31),
        Byte(14, 63),
        Byte(32, 127),
        Random(0x3FFFF),
        Refused(READ_RANDOM, 4, 2),
        File(0, b'A'),
        Byte(12, 31),
        Byte(14, 63),
        Byte(32, 127),
        Random(0x3FFFF),
        Asks(READ_RANDOM, 10),
        Byte(12, 0),
        Asks(OPEN_FILE, 0),
        Random(0x3FFFF),
        Asks(READ_RANDOM, 6),
        Random(0x40000),
        Records(1),
        Asks(READ_RANDOM, 6),
        Random(128),
        Asks(READ_RANDOM, 4),
        Random(127),
        Asks(READ_RANDOM, 1),
    ];
    let wrong = wrong_of(rt.alloc(), &lines)?;
    assert_eq!(rt; wrong, None);
    Ok(())
}

/// The word at the DMA address names the open file.
#[test]
fn records_are_locked_or_refused_in_order(rt: HostRuntime) -> Result<(), Fail> {
    let lines = [
        Records(2),
        File(3, b'A'),
        Random(0x3FFFF),
        Sends(b""),
        Refused(LOCK_RECORD, 4, 2),
        File(0, b'A'),
        Random(0x3FFFF),
        Asks(LOCK_RECORD, 13),
        Attribute(5),
        Asks(OPEN_FILE, 0),
        Random(0x3FFFF),
        Sends(&[2, 0]),
        Asks(LOCK_RECORD, 13),
        Sends(&[1, 0]),
        Asks(LOCK_RECORD, 6),
        Random(128),
        Asks(LOCK_RECORD, 4),
        Random(0),
        Asks(LOCK_RECORD, 1),
    ];
    let wrong = wrong_of(rt.alloc(), &lines)?;
    assert_eq!(rt; wrong, None);
    Ok(())
}

#[test]
fn records_are_unlocked_or_refused_in_order(rt: HostRuntime) -> Result<(), Fail> {
    let lines = [
        Records(2),
        File(3, b'A'),
        Random(0x3FFFF),
        Sends(b""),
        Refused(UNLOCK_RECORD, 4, 2),
        File(0, b'A'),
        Random(0x3FFFF),
        Asks(UNLOCK_RECORD, 13),
        Attribute(5),
        Asks(OPEN_FILE, 0),
        Random(0x3FFFF),
        Sends(&[2, 0]),
        Asks(UNLOCK_RECORD, 13),
        Sends(&[1, 0]),
        Asks(UNLOCK_RECORD, 6),
        Random(128),
        Asks(UNLOCK_RECORD, 0),
        Random(0),
        Asks(UNLOCK_RECORD, 0),
    ];
    let wrong = wrong_of(rt.alloc(), &lines)?;
    assert_eq!(rt; wrong, None);
    Ok(())
}

#[test]
fn a_closing_needs_the_callers_open_file(rt: HostRuntime) -> Result<(), Fail> {
    let lines = [
        File(3, b'A'),
        Refused(CLOSE_FILE, 4, 2),
        By(2),
        Block(1),
        File(0, b'A'),
        Asks(OPEN_FILE, 0),
        By(1),
        Block(0),
        File(0, b'A'),
        Byte(16, 1),
        Asks(CLOSE_FILE, 0xFF),
        By(2),
        Block(1),
        Asks(CLOSE_FILE, 0),
        Asks(CLOSE_FILE, 0xFF),
    ];
    let wrong = wrong_of(rt.alloc(), &lines)?;
    assert_eq!(rt; wrong, None);
    Ok(())
}

#[test]
fn a_search_finds_an_entry_or_none(rt: HostRuntime) -> Result<(), Fail> {
    let lines = [
        File(3, b'N'),
        Refused(SEARCH_FOR_FIRST, 4, 2),
        File(0, b'N'),
        Asks(SEARCH_FOR_FIRST, 0xFF),
        File(0, b'A'),
        Byte(12, 1),
        Asks(SEARCH_FOR_FIRST, 0xFF),
        File(0, b'?'),
        Asks(SEARCH_FOR_FIRST, 0),
        Places(b"\0A       TXT\0\0\0\0"),
    ];
    let wrong = wrong_of(rt.alloc(), &lines)?;
    assert_eq!(rt; wrong, None);
    Ok(())
}

/// The drive and the pattern are those of the first search, whatever the block then has.
#[test]
fn a_search_goes_on_behind_what_it_found_and_only_there(rt: HostRuntime) -> Result<(), Fail> {
    let lines = [
        File(3, b'A'),
        Asks(SEARCH_FOR_NEXT, 0xFF),
        File(0, b'?'),
        Asks(SEARCH_FOR_FIRST, 0),
        File(3, b'N'),
        Asks(SEARCH_FOR_NEXT, 0),
        Places(b"\0G       TXT"),
        Asks(SEARCH_FOR_NEXT, 0),
        Asks(SEARCH_FOR_NEXT, 0),
        Places(b"\0R       \xD4XT"),
        Asks(SEARCH_FOR_NEXT, 0xFF),
        By(2),
        Asks(SEARCH_FOR_NEXT, 0xFF),
    ];
    let wrong = wrong_of(rt.alloc(), &lines)?;
    assert_eq!(rt; wrong, None);
    Ok(())
}

/// A mark keeps no drive from being protected.
#[test]
fn drives_are_busy_by_open_files_and_marks_of_others(rt: HostRuntime) -> Result<(), Fail> {
    let lines = [
        Opens(0, 1),
        By(2),
        Asks(RESET_DISK_SYSTEM, 0xFF),
        Asks(WRITE_PROTECT_DISK, 0),
        Drive(1),
        Asks(WRITE_PROTECT_DISK, 0xFF),
        Word(1),
        Asks(RESET_DRIVE, 0),
        Word(2),
        Asks(RESET_DRIVE, 0xFF),
        Word(0xFFFF),
        Asks(RESET_DRIVE, 0xFF),
        By(1),
        Asks(RESET_DISK_SYSTEM, 0),
        By(3),
        Word(1),
        Asks(ACCESS_DRIVE, 0),
        By(1),
        Asks(RESET_DISK_SYSTEM, 0xFF),
        Asks(RESET_DRIVE, 0xFF),
        Asks(WRITE_PROTECT_DISK, 0),
        By(3),
        Asks(FREE_DRIVE, 0),
        By(1),
        Asks(RESET_DRIVE, 0),
        Asks(RESET_DISK_SYSTEM, 0),
    ];
    let wrong = wrong_of(rt.alloc(), &lines)?;
    assert_eq!(rt; wrong, None);
    Ok(())
}

#[test]
fn some_calls_are_never_refused(rt: HostRuntime) -> Result<(), Fail> {
    let lines = [
        Opens(0, 1),
        By(2),
        Drive(2),
        Word(0xFFFF),
        Asks(ACCESS_DRIVE, 0),
        Asks(FREE_DRIVE, 0),
        Asks(FLUSH_BUFFERS, 0),
    ];
    let wrong = wrong_of(rt.alloc(), &lines)?;
    assert_eq!(rt; wrong, None);
    Ok(())
}
