//! What file calls answer and leave: records, positions, space, locks, passwords, and the calls that no disk serves.
use mpm_base::functions::*;
use mpm_file_scenes::Line::*;
use mpm_file_scenes::{Line, first_wrong_line, small_disk};
use std::alloc::Global;
use std::test::Fail;

/// The first line that isn't so on two empty disks.
fn wrong_on_empty(alloc: Global, lines: &[Line<'_>]) -> Result<Option<usize>, Fail> {
    first_wrong_line(alloc, &[], &[], lines)
}

/// The first line that isn't so where the small disk is drive A and drive B is empty.
fn wrong_on_small(alloc: Global, lines: &[Line<'_>]) -> Result<Option<usize>, Fail> {
    first_wrong_line(alloc, &small_disk(), &[], lines)
}

/// 129 records are eight times sixteen and one: record 128 is the first of extent 1, and its top is 1.
#[test]
fn a_file_of_two_extents_is_read_to_its_end(rt: HostRuntime) -> Result<(), Fail> {
    let lines = [
        File(0, b'N'),
        Asks(MAKE_FILE, 0),
        Fills(7),
        Records(16),
        Repeats(8, WRITE_SEQUENTIAL),
        Has(12, 1),
        Has(32, 0),
        Records(1),
        Asks(WRITE_SEQUENTIAL, 0),
        Asks(CLOSE_FILE, 0),
        File(0, b'N'),
        Asks(OPEN_FILE, 0),
        Has(15, 128),
        Repeats(128, READ_SEQUENTIAL),
        Has(12, 1),
        Has(15, 1),
        Has(32, 0),
        Asks(READ_SEQUENTIAL, 0),
        PlacesAll(1, 7),
        Has(12, 1),
        Has(15, 1),
        Has(32, 1),
        Asks(READ_SEQUENTIAL, 1),
        Has(32, 1),
        Asks(COMPUTE_FILE_SIZE, 0),
        Has(33, 129),
        Has(34, 0),
        Has(35, 0),
    ];
    let wrong = wrong_on_empty(rt.alloc(), &lines)?;
    assert_eq!(rt; wrong, None);
    Ok(())
}

/// 243 blocks of 8 records, of which 2 are the directory's, are 1,928 records. A block that is taken begins as zeros.
#[test]
fn a_record_at_random_takes_a_block(rt: HostRuntime) -> Result<(), Fail> {
    let lines = [
        Word(0),
        Asks(GET_DISK_FREE_SPACE, 0),
        Places(&[0x88, 0x07, 0]),
        File(0, b'N'),
        Asks(MAKE_FILE, 0),
        Fills(0x5A),
        Random(20),
        Asks(WRITE_RANDOM, 0),
        Has(32, 20),
        Random(16),
        Records(4),
        Asks(READ_RANDOM, 0),
        PlacesAll(4, 0),
        Has(32, 16),
        Records(1),
        Random(20),
        Asks(READ_RANDOM, 0),
        PlacesAll(1, 0x5A),
        Random(0),
        Asks(READ_RANDOM, 1),
        Word(0),
        Asks(GET_DISK_FREE_SPACE, 0),
        Places(&[0x80, 0x07, 0]),
    ];
    let wrong = wrong_on_empty(rt.alloc(), &lines)?;
    assert_eq!(rt; wrong, None);
    Ok(())
}

/// A random position stands still, a sequential one goes on after the records, also from where a call at random left it.
#[test]
fn positions_stand_still_or_go_on(rt: HostRuntime) -> Result<(), Fail> {
    let lines = [
        File(0, b'N'),
        Asks(MAKE_FILE, 0),
        Fills(1),
        Records(8),
        Asks(WRITE_SEQUENTIAL, 0),
        Has(32, 8),
        Records(1),
        Fills(2),
        Random(3),
        Asks(WRITE_RANDOM, 0),
        Has(32, 3),
        Has(33, 3),
        Asks(READ_SEQUENTIAL, 0),
        PlacesAll(1, 2),
        Has(32, 4),
        Asks(READ_SEQUENTIAL, 0),
        PlacesAll(1, 1),
        Has(32, 5),
        Asks(SET_RANDOM_RECORD, 0),
        Has(33, 5),
        Records(4),
        Asks(READ_SEQUENTIAL, 0x3001),
        PlacesAll(3, 1),
        Has(32, 8),
    ];
    let wrong = wrong_on_empty(rt.alloc(), &lines)?;
    assert_eq!(rt; wrong, None);
    Ok(())
}

/// 1,926 of 1,928 records are written, so that two of three find a place.
#[test]
fn a_full_disk_ends_a_call_that_writes(rt: HostRuntime) -> Result<(), Fail> {
    let lines = [
        File(0, b'N'),
        Asks(MAKE_FILE, 0),
        Fills(3),
        Records(16),
        Repeats(120, WRITE_SEQUENTIAL),
        Records(6),
        Asks(WRITE_SEQUENTIAL, 0),
        Records(3),
        Fills(4),
        Asks(WRITE_SEQUENTIAL, 0x2002),
        Records(1),
        Random(1925),
        Asks(READ_RANDOM, 0),
        PlacesAll(1, 3),
        Records(2),
        Random(1926),
        Asks(READ_RANDOM, 0),
        PlacesAll(2, 4),
        Records(1),
        Random(1928),
        Asks(READ_RANDOM, 1),
        Asks(GET_DISK_FREE_SPACE, 0),
        Places(&[0, 0, 0]),
    ];
    let wrong = wrong_on_empty(rt.alloc(), &lines)?;
    assert_eq!(rt; wrong, None);
    Ok(())
}

/// Records that are what is expected are replaced, up to the first that isn't.
#[test]
fn records_are_replaced_where_they_are_as_expected(rt: HostRuntime) -> Result<(), Fail> {
    let lines = [
        File(0, b'N'),
        Asks(MAKE_FILE, 0),
        Records(2),
        Sends(&[1; 256]),
        Asks(WRITE_SEQUENTIAL, 0),
        Random(0),
        Sends(&[1; 256]),
        After(2, 9),
        Asks(TEST_AND_WRITE_RECORD, 0),
        Sends(&[9; 256]),
        After(1, 5),
        Asks(TEST_AND_WRITE_RECORD, 0x1007),
        Asks(READ_RANDOM, 0),
        Places(&[5; 128]),
        Records(1),
        Random(1),
        Asks(READ_RANDOM, 0),
        PlacesAll(1, 9),
        Fills(8),
        Asks(TEST_AND_WRITE_RECORD, 7),
    ];
    let wrong = wrong_on_empty(rt.alloc(), &lines)?;
    assert_eq!(rt; wrong, None);
    Ok(())
}

/// Bytes 16 to 31 name the open file, together with its drive and its name.
#[test]
fn a_block_that_was_changed_names_no_open_file(rt: HostRuntime) -> Result<(), Fail> {
    let lines = [
        File(0, b'N'),
        Asks(MAKE_FILE, 0),
        Fills(6),
        Records(2),
        Asks(WRITE_SEQUENTIAL, 0),
        Records(1),
        Has(16, 1),
        Byte(32, 0),
        Byte(16, 2),
        Asks(READ_SEQUENTIAL, 10),
        Byte(16, 0),
        Asks(READ_SEQUENTIAL, 10),
        Byte(16, 1),
        Byte(31, 1),
        Asks(READ_SEQUENTIAL, 10),
        Byte(31, 0),
        Byte(1, b'M'),
        Asks(READ_SEQUENTIAL, 10),
        Byte(1, b'N'),
        Byte(0, 2),
        Asks(READ_SEQUENTIAL, 10),
        Byte(0, 1),
        Asks(READ_SEQUENTIAL, 0),
        Byte(13, 0xFF),
        Byte(15, 0),
        Asks(READ_SEQUENTIAL, 0),
        Has(32, 2),
        Byte(32, 1),
        Asks(READ_SEQUENTIAL, 0),
        PlacesAll(1, 6),
        User(5),
        Byte(32, 0),
        Asks(READ_SEQUENTIAL, 0),
        By(2),
        Byte(32, 0),
        Asks(READ_SEQUENTIAL, 10),
    ];
    let wrong = wrong_on_empty(rt.alloc(), &lines)?;
    assert_eq!(rt; wrong, None);
    Ok(())
}

/// A renaming gives the caller's open file back, so that its block names none.
#[test]
fn a_file_that_is_renamed_or_deleted_is_open_no_more(rt: HostRuntime) -> Result<(), Fail> {
    let lines = [
        File(0, b'N'),
        Asks(MAKE_FILE, 0),
        Fills(1),
        Asks(WRITE_SEQUENTIAL, 0),
        Block(1),
        File(0, b'N'),
        To(b'M'),
        Asks(RENAME_FILE, 0),
        Block(0),
        Asks(WRITE_SEQUENTIAL, 10),
        Byte(1, b'M'),
        Asks(WRITE_SEQUENTIAL, 10),
        By(2),
        Block(2),
        File(0, b'M'),
        Asks(OPEN_FILE, 0),
        Has(16, 1),
        Asks(READ_SEQUENTIAL, 0),
        PlacesAll(1, 1),
        Block(1),
        File(0, b'M'),
        Asks(DELETE_FILE, 0),
        Block(2),
        Asks(READ_SEQUENTIAL, 10),
    ];
    let wrong = wrong_on_empty(rt.alloc(), &lines)?;
    assert_eq!(rt; wrong, None);
    Ok(())
}

/// A search that finds nothing leaves the one before it.
#[test]
fn a_search_in_vain_ends_no_search(rt: HostRuntime) -> Result<(), Fail> {
    let lines = [
        File(0, b'?'),
        Asks(SEARCH_FOR_FIRST, 0),
        File(0, b'N'),
        Asks(SEARCH_FOR_FIRST, 0xFF),
        Asks(SEARCH_FOR_NEXT, 0),
        Places(b"\0G       TXT"),
        Ends(1),
        Asks(SEARCH_FOR_NEXT, 0xFF),
    ];
    let wrong = wrong_on_small(rt.alloc(), &lines)?;
    assert_eq!(rt; wrong, None);
    Ok(())
}

#[test]
fn a_password_or_the_default_one_opens_a_file(rt: HostRuntime) -> Result<(), Fail> {
    let lines = [
        File(0, b'G'),
        Sends(b"PUBLIC  "),
        Refused(OPEN_FILE, 7, 0),
        Password(b"SECRET  "),
        Asks(OPEN_FILE, 0),
        Asks(CLOSE_FILE, 0),
        Password(b"PUBLIC  "),
        Refused(OPEN_FILE, 7, 0),
        Sends(b"SECRET  "),
        Asks(OPEN_FILE, 0),
    ];
    let wrong = wrong_on_small(rt.alloc(), &lines)?;
    assert_eq!(rt; wrong, None);
    Ok(())
}

/// Of mode 0, and without a password, as byte 12 lacks its bit 0.
#[test]
fn an_xfcb_of_no_mode_guards_nothing(rt: HostRuntime) -> Result<(), Fail> {
    let lines = [
        File(0, b'A'),
        Byte(12, 0x80),
        Asks(READ_FILE_XFCB, 0),
        Has(12, 0),
        Sends(b"PUBLIC  SECRET  "),
        Byte(12, 0),
        Asks(WRITE_FILE_XFCB, 0),
        Asks(READ_FILE_XFCB, 0),
        Has(12, 0),
        Byte(12, 0),
        Asks(OPEN_FILE, 0),
        Asks(CLOSE_FILE, 0),
        File(0, b'A'),
        Byte(12, 0x81),
        Asks(WRITE_FILE_XFCB, 0),
        File(0, b'A'),
        Refused(OPEN_FILE, 7, 0),
        Sends(b"SECRET  "),
        Asks(OPEN_FILE, 0),
    ];
    let wrong = wrong_on_small(rt.alloc(), &lines)?;
    assert_eq!(rt; wrong, None);
    Ok(())
}

/// Fifteen bytes of the parameters of a floppy disk go to FE80h, and bits of mounted and of protected drives into HL.
#[test]
fn drives_are_selected_and_told(rt: HostRuntime) -> Result<(), Fail> {
    let lines = [
        Word(0x0101),
        Asks(SELECT_DISK, 0),
        Word(2),
        Refused(SELECT_DISK, 4, 2),
        Word(16),
        Refused(SELECT_DISK, 4, 16),
        Asks(RETURN_LOGIN_VECTOR, 0b11),
        Asks(GET_READ_ONLY_VECTOR, 0),
        Drive(1),
        Asks(WRITE_PROTECT_DISK, 0),
        Asks(GET_READ_ONLY_VECTOR, 0b10),
        Asks(GET_DISK_PARAMETERS, 0xFE80),
        Places(&[26, 0, 3, 7, 0, 242, 0, 63, 0, 0xC0, 0, 16, 0, 2, 0]),
        Drive(2),
        Refused(GET_DISK_PARAMETERS, 4, 2),
    ];
    let wrong = wrong_on_empty(rt.alloc(), &lines)?;
    assert_eq!(rt; wrong, None);
    Ok(())
}

/// Extent 1 and CR 1 are record 129.
#[test]
fn the_position_becomes_the_random_record(rt: HostRuntime) -> Result<(), Fail> {
    let lines = [
        File(0, b'N'),
        Byte(12, 1),
        Byte(32, 1),
        Random(0x20304),
        Asks(SET_RANDOM_RECORD, 0),
        Has(33, 0x81),
        Has(34, 0),
        Has(35, 0),
    ];
    let wrong = wrong_on_empty(rt.alloc(), &lines)?;
    assert_eq!(rt; wrong, None);
    Ok(())
}
