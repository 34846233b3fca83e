//! How many turns a call takes: one for each record that it moves, and for each directory entry that it adds, changes or frees; one
//! where there is none. And calls in one of whose turns their drive fails.
use mpm_base::functions::*;
use mpm_file_scenes::Line::*;
use mpm_file_scenes::{Line, first_wrong_failing, first_wrong_line, small_disk};
use mpm_images::{file, xfcb};
use std::alloc::Global;
use std::test::Fail;

/// Drive A has three entries of a file A, one of B, an XFCB of A, and one of N, which isn't there.
fn wrong_of(alloc: Global, lines: &[Line<'_>]) -> Result<Option<usize>, Fail> {
    let entries = [
        file(b'A', 2, 0),
        file(b'B', 0, 0),
        file(b'A', 0, 0),
        xfcb(b'A'),
        file(b'A', 1, 0),
        xfcb(b'N'),
    ];
    first_wrong_line(alloc, &entries, &[], lines)
}

/// A file of three entries goes with its XFCB, and one of one entry with none.
#[test]
fn a_deletion_takes_a_turn_for_each_entry(rt: HostRuntime) -> Result<(), Fail> {
    let lines = [
        File(0, b'A'),
        Turns(DELETE_FILE, 4, 0),
        File(0, b'B'),
        Turns(DELETE_FILE, 1, 0),
        Turns(DELETE_FILE, 1, 0xFF),
        Asks(SEARCH_FOR_FIRST, 0xFF),
    ];
    let wrong = wrong_of(rt.alloc(), &lines)?;
    assert_eq!(rt; wrong, None);
    Ok(())
}

#[test]
fn a_deletion_by_a_pattern_takes_the_turns_of_its_files(rt: HostRuntime) -> Result<(), Fail> {
    let lines = [File(0, b'?'), Turns(DELETE_FILE, 5, 0)];
    let wrong = wrong_of(rt.alloc(), &lines)?;
    assert_eq!(rt; wrong, None);
    Ok(())
}

/// The XFCB that has the new name goes first; then each entry and the XFCB get it. After that N has an XFCB and three entries.
#[test]
fn a_renaming_takes_a_turn_for_each_entry(rt: HostRuntime) -> Result<(), Fail> {
    let lines = [
        File(0, b'A'),
        To(b'N'),
        Turns(RENAME_FILE, 5, 0),
        File(0, b'B'),
        To(b'M'),
        Turns(RENAME_FILE, 1, 0),
        File(0, b'N'),
        Turns(SET_FILE_ATTRIBUTES, 3, 0),
        Turns(DELETE_FILE, 4, 0),
    ];
    let wrong = wrong_of(rt.alloc(), &lines)?;
    assert_eq!(rt; wrong, None);
    Ok(())
}

/// Sixteen records of an extent that is there, and sixteen of which the first is extent 1's: there an entry is added.
#[test]
fn records_take_a_turn_each_and_their_entries_too(rt: HostRuntime) -> Result<(), Fail> {
    let lines = [
        File(0, b'C'),
        Turns(MAKE_FILE, 1, 0),
        Fills(1),
        Records(16),
        Turns(WRITE_SEQUENTIAL, 16, 0),
        Random(0),
        Turns(READ_RANDOM, 16, 0),
        PlacesAll(16, 1),
        Records(4),
        Random(126),
        Turns(WRITE_RANDOM, 5, 0),
        Random(126),
        Turns(READ_RANDOM, 4, 0),
        PlacesAll(4, 1),
        Random(1000),
        Turns(READ_RANDOM, 1, 4),
        Records(1),
        Turns(WRITE_RANDOM, 2, 0),
    ];
    let wrong = wrong_of(rt.alloc(), &lines)?;
    assert_eq!(rt; wrong, None);
    Ok(())
}

#[test]
fn a_call_without_a_change_of_its_drive_takes_one_turn(rt: HostRuntime) -> Result<(), Fail> {
    let lines = [
        File(0, b'B'),
        Turns(COMPUTE_FILE_SIZE, 1, 0),
        Turns(SEARCH_FOR_FIRST, 1, 0),
        Turns(READ_SEQUENTIAL, 1, 10),
        Turns(OPEN_FILE, 1, 0),
        Turns(READ_SEQUENTIAL, 1, 1),
        Turns(CLOSE_FILE, 1, 0),
        Turns(RESET_DISK_SYSTEM, 1, 0),
        Turns(FLUSH_BUFFERS, 1, 0),
    ];
    let wrong = wrong_of(rt.alloc(), &lines)?;
    assert_eq!(rt; wrong, None);
    Ok(())
}

/// Drive A fails where it is written: mounted again, it is read as before, and drive B goes on.
#[test]
fn a_call_whose_drive_fails_is_not_answered(rt: HostRuntime) -> Result<(), Fail> {
    let lines = [
        File(0, b'A'),
        Asks(OPEN_FILE, 0),
        Fills(1),
        Fails(WRITE_SEQUENTIAL),
        Has(32, 0),
        File(0, b'N'),
        Fails(MAKE_FILE),
        File(0, b'R'),
        Refused(DELETE_FILE, 3, 0),
        File(2, b'N'),
        Asks(MAKE_FILE, 0),
        Asks(WRITE_SEQUENTIAL, 0),
        Byte(32, 0),
        Asks(READ_SEQUENTIAL, 0),
        PlacesAll(1, 1),
    ];
    let wrong = first_wrong_failing(rt.alloc(), &small_disk(), &[], Some(0), &lines)?;
    assert_eq!(rt; wrong, None);
    Ok(())
}
