//! Processes that share a file: the modes in which it is open, its locks, and what becomes of them where one ends.
use mpm_base::functions::*;
use mpm_file_scenes::Line::*;
use mpm_file_scenes::{Line, first_wrong_line, small_disk};
use std::alloc::Global;
use std::test::Fail;

/// The first line that isn't so where the small disk is drive A and drive B is empty.
fn wrong_of(alloc: Global, lines: &[Line<'_>]) -> Result<Option<usize>, Fail> {
    first_wrong_line(alloc, &small_disk(), &[], lines)
}

/// Byte 5 or byte 6 of a block has bit 7 where unlocked or read-only mode is asked for; byte 2, where locked mode is.
const LOCKED: Line<'static> = Attribute(2);

const UNLOCKED: Line<'static> = Attribute(5);

const READ_ONLY: Line<'static> = Attribute(6);

/// What process 2 is answered where process 1 has A open in one mode and it opens A in another, and what process 1 is answered itself.
const SHARED: Line<'static> = Asks(OPEN_FILE, 0);

const REFUSED: Line<'static> = Refused(OPEN_FILE, 5, 0);

/// Process 1 opens A in a mode, then process 2 in another, then process 1 in that one too. When the first has ended, process 3 opens
/// it in the other mode.
fn wrong_of_modes(
    alloc: Global,
    one: Line<'static>,
    other: Line<'static>,
    second: Line<'static>,
    again: Line<'static>,
) -> Result<Option<usize>, Fail> {
    let lines = [
        File(0, b'A'),
        one,
        Asks(OPEN_FILE, 0),
        By(2),
        Block(1),
        File(0, b'A'),
        other,
        second,
        By(1),
        Block(2),
        File(0, b'A'),
        other,
        again,
        Ends(2),
        Ends(1),
        By(3),
        Block(3),
        File(0, b'A'),
        other,
        Asks(OPEN_FILE, 0),
    ];
    wrong_of(alloc, &lines)
}

/// The modes of two openings, what the second process is answered, and what the first is that opens the file once more.
const MODES: [(Line<'static>, Line<'static>, Line<'static>, Line<'static>); 9] = [
    (LOCKED, LOCKED, REFUSED, SHARED),
    (LOCKED, UNLOCKED, REFUSED, REFUSED),
    (LOCKED, READ_ONLY, REFUSED, REFUSED),
    (UNLOCKED, LOCKED, REFUSED, REFUSED),
    (UNLOCKED, UNLOCKED, SHARED, SHARED),
    (UNLOCKED, READ_ONLY, REFUSED, REFUSED),
    (READ_ONLY, LOCKED, REFUSED, REFUSED),
    (READ_ONLY, UNLOCKED, REFUSED, REFUSED),
    (READ_ONLY, READ_ONLY, SHARED, SHARED),
];

#[test]
fn a_file_is_shared_in_unlocked_and_in_read_only_mode_alone(rt: HostRuntime) -> Result<(), Fail> {
    for (one, other, second, again) in MODES {
        let wrong = wrong_of_modes(rt.alloc(), one, other, second, again)?;
        assert_eq!(rt; wrong, None);
    }
    Ok(())
}

/// A file of ten records: the lock of a record keeps others from locking and from writing it, until its owner ends.
#[test]
fn a_lock_is_its_owners_until_that_ends(rt: HostRuntime) -> Result<(), Fail> {
    let lines = [
        File(0, b'N'),
        Attribute(5),
        Asks(MAKE_FILE, 0),
        Has(33, 1),
        Records(10),
        Fills(7),
        Asks(WRITE_SEQUENTIAL, 0),
        By(2),
        Block(1),
        File(0, b'N'),
        Attribute(5),
        Asks(OPEN_FILE, 0),
        Has(33, 2),
        By(1),
        Block(0),
        Random(5),
        Sends(&[1, 0]),
        Asks(LOCK_RECORD, 0),
        By(2),
        Block(1),
        Random(5),
        Sends(&[2, 0]),
        Asks(LOCK_RECORD, 8),
        Asks(READ_RANDOM, 0),
        Asks(WRITE_RANDOM, 8),
        Random(3),
        Records(4),
        Fills(9),
        Asks(WRITE_RANDOM, 0x2008),
        Asks(READ_RANDOM, 0),
        Places(&[9; 256]),
        Random(5),
        Records(1),
        Asks(READ_RANDOM, 0),
        PlacesAll(1, 7),
        Ends(1),
        Sends(&[2, 0]),
        Asks(LOCK_RECORD, 0),
        Fills(4),
        Asks(TEST_AND_WRITE_RECORD, 7),
        Asks(WRITE_RANDOM, 0),
        PlacesAll(0, 0),
        Asks(READ_RANDOM, 0),
        PlacesAll(1, 4),
    ];
    let wrong = wrong_of(rt.alloc(), &lines)?;
    assert_eq!(rt; wrong, None);
    Ok(())
}

/// A process has at most 32 locks. Another's lock is reported before that, and its own record needs none more.
#[test]
fn a_process_has_thirty_two_locks(rt: HostRuntime) -> Result<(), Fail> {
    let lines = [
        File(0, b'N'),
        Attribute(5),
        Asks(MAKE_FILE, 0),
        Fills(1),
        Records(16),
        Repeats(2, WRITE_SEQUENTIAL),
        Records(8),
        Asks(WRITE_SEQUENTIAL, 0),
        Sends(&[1, 0]),
        Records(16),
        Random(0),
        Asks(LOCK_RECORD, 0),
        Random(16),
        Asks(LOCK_RECORD, 0),
        Records(1),
        Random(32),
        Asks(LOCK_RECORD, 12),
        By(2),
        Block(1),
        File(0, b'N'),
        Attribute(5),
        Asks(OPEN_FILE, 0),
        Random(32),
        Sends(&[2, 0]),
        Asks(LOCK_RECORD, 0),
        By(1),
        Block(0),
        Sends(&[1, 0]),
        Asks(LOCK_RECORD, 8),
        Random(0),
        Asks(LOCK_RECORD, 0),
        Asks(UNLOCK_RECORD, 0),
        Random(33),
        Asks(LOCK_RECORD, 0),
        Random(34),
        Asks(LOCK_RECORD, 12),
        Records(2),
        Random(33),
        Asks(LOCK_RECORD, 0x100C),
        Random(31),
        Asks(LOCK_RECORD, 0x1008),
    ];
    let wrong = wrong_of(rt.alloc(), &lines)?;
    assert_eq!(rt; wrong, None);
    Ok(())
}

/// In locked mode no lock is made; a record that is written is nobody's.
#[test]
fn locks_are_made_in_unlocked_mode_alone(rt: HostRuntime) -> Result<(), Fail> {
    let lines = [
        File(0, b'N'),
        Asks(MAKE_FILE, 0),
        Fills(1),
        Asks(WRITE_SEQUENTIAL, 0),
        Sends(&[1, 0]),
        Random(0),
        Asks(LOCK_RECORD, 0),
        Asks(CLOSE_FILE, 0),
        By(2),
        Block(1),
        File(0, b'N'),
        Attribute(5),
        Asks(OPEN_FILE, 0),
        Random(0),
        Sends(&[1, 0]),
        Asks(LOCK_RECORD, 0),
        Asks(CLOSE_FILE, 0),
        By(1),
        Block(0),
        File(0, b'N'),
        Attribute(5),
        Asks(OPEN_FILE, 0),
        Random(0),
        Asks(LOCK_RECORD, 0),
    ];
    let wrong = wrong_of(rt.alloc(), &lines)?;
    assert_eq!(rt; wrong, None);
    Ok(())
}

/// A file of user 0 is opened read-only by others where it has T2'.
#[test]
fn a_system_file_of_user_0_is_read_by_others(rt: HostRuntime) -> Result<(), Fail> {
    let lines = [
        File(0, b'A'),
        User(3),
        Asks(OPEN_FILE, 0xFF),
        User(0),
        Attribute(10),
        Asks(SET_FILE_ATTRIBUTES, 0),
        User(3),
        Block(1),
        File(0, b'A'),
        Asks(OPEN_FILE, 0),
        Has(10, b'X' + 128),
        Fills(1),
        Refused(WRITE_SEQUENTIAL, 3, 0),
        Asks(READ_SEQUENTIAL, 1),
        By(2),
        Block(2),
        File(0, b'A'),
        Refused(OPEN_FILE, 5, 0),
        Attribute(6),
        Asks(OPEN_FILE, 0),
    ];
    let wrong = wrong_of(rt.alloc(), &lines)?;
    assert_eq!(rt; wrong, None);
    Ok(())
}
