//! Open files and locked records, line by line: what is done with them, and what it answers.
use mpm_base::Pid;
use mpm_opens::{FileKey, LockDone, Mode, OpenRefused, Opens};
use std::test::Fail;

/// A file of drive A, by its last character.
fn file(last: u8) -> FileKey {
    FileKey {
        drive: 0,
        user: 0,
        name: [
            b'F', b'I', b'L', b'E', b' ', b' ', b' ', last, b'D', b'A', b'T',
        ],
    }
}

/// What is done with files and locks, by process and file, and what it answers.
#[derive(Drop)]
enum Line {
    Opens(u8, u8, Mode, Result<u8, OpenRefused>),
    Has(u8, u8, Option<u8>),
    Closes(u8, u8),
    Locks(u8, u8, u32, LockDone),
    Unlocks(u8, u8, u32),
    Owns(u8, u32, Option<u8>),
    Ends(u8),
    /// So many files, from character 0 on, are opened.
    OpensFiles(u8, u8),
    /// A file is opened so many times.
    OpensAgain(u8, u8, u32),
    /// So many records of a file, from the first on, are locked.
    LocksFirst(u8, u8, u32),
}

/// Does a line, and answers whether it came to what the line says.
fn plays(opens: &mut Opens, line: &Line) -> bool {
    match line {
        Line::Opens(p, last, mode, answer) => opens.add(pid(*p), file(*last), *mode) == *answer,
        Line::Has(p, last, number) => opens.item(pid(*p), file(*last)) == *number,
        Line::Closes(p, last) => closes(opens, pid(*p), file(*last)),
        Line::Locks(p, last, number, done) => locks(opens, pid(*p), file(*last), *number)
            == Some(*done),
        Line::Unlocks(p, last, number) => unlocks(opens, pid(*p), file(*last), *number),
        Line::Owns(last, number, owner) => owner_is(opens, file(*last), *number, *owner),
        Line::Ends(p) => {
            opens.give_back(pid(*p));
            true
        }
        Line::OpensFiles(p, count) => opens_files(opens, pid(*p), *count),
        Line::OpensAgain(p, last, times) => opens_again(opens, pid(*p), file(*last), *times),
        Line::LocksFirst(p, last, count) => locks_first(opens, pid(*p), file(*last), *count),
    }
}

/// A process by its number, modulo 32.
fn pid(p: u8) -> Pid {
    Pid(p % 32)
}

fn closes(opens: &mut Opens, p: Pid, file: FileKey) -> bool {
    match opens.item(p, file) {
        Some(item) => {
            opens.close(item);
            true
        }
        None => false,
    }
}

fn locks(opens: &mut Opens, p: Pid, file: FileKey, number: u32) -> Option<LockDone> {
    match opens.item(p, file) {
        Some(item) => Some(opens.lock(item, number)),
        None => None,
    }
}

fn unlocks(opens: &mut Opens, p: Pid, file: FileKey, number: u32) -> bool {
    match opens.item(p, file) {
        Some(item) => {
            opens.unlock(item, number);
            true
        }
        None => false,
    }
}

fn owner_is(opens: &Opens, file: FileKey, number: u32, wanted: Option<u8>) -> bool {
    match opens.owner(file, number) {
        Some(owner) => wanted == Some(owner.0),
        None => wanted.is_none(),
    }
}

/// Locks the first records of a process's file, and answers whether all are its.
fn locks_first(opens: &mut Opens, p: Pid, file: FileKey, count: u32) -> bool {
    for number in 0..count {
        if locks(opens, p, file, number) != Some(LockDone::Locked) {
            return false;
        }
    }
    true
}

/// Opens so many files for a process, and answers whether all could be.
fn opens_files(opens: &mut Opens, p: Pid, count: u8) -> bool {
    for last in 0..count {
        if opens.add(p, file(last), Mode::Unlocked).is_err() {
            return false;
        }
    }
    true
}

/// Opens a file so many times for a process, and answers whether it could be each time.
fn opens_again(opens: &mut Opens, p: Pid, file: FileKey, times: u32) -> bool {
    for _ in 0..times {
        if opens.add(p, file, Mode::Locked).is_err() {
            return false;
        }
    }
    true
}

/// The number of the first line, if any, that doesn't come to what it says, from no open files on.
fn first_wrong(lines: &[Line]) -> Option<usize> {
    let mut opens = Opens::new();
    for (place, line) in lines.iter().enumerate() {
        if !plays(&mut opens, line) {
            return Some(place);
        }
    }
    None
}

#[test]
fn a_locked_record_is_free_again_as_its_process_ends(rt: HostRuntime) -> Result<(), Fail> {
    let lines = [
        Line::Opens(1, b'A', Mode::Unlocked, Ok(0)),
        Line::Opens(2, b'A', Mode::Unlocked, Ok(1)),
        Line::Locks(1, b'A', 5, LockDone::Locked),
        Line::Locks(2, b'A', 5, LockDone::Other { owner: Pid(1) }),
        Line::Unlocks(2, b'A', 5),
        Line::Owns(b'A', 5, Some(1)),
        Line::Ends(1),
        Line::Has(1, b'A', None),
        Line::Owns(b'A', 5, None),
        Line::Locks(2, b'A', 5, LockDone::Locked),
        Line::Owns(b'A', 5, Some(2)),
        Line::Unlocks(2, b'A', 5),
        Line::Owns(b'A', 5, None),
    ];
    assert_eq!(rt; first_wrong(&lines), None);
    Ok(())
}

#[test]
fn a_process_has_32_locks_and_another_lock_is_refused(rt: HostRuntime) -> Result<(), Fail> {
    let lines = [
        Line::Opens(1, b'A', Mode::Unlocked, Ok(0)),
        Line::Opens(2, b'A', Mode::Unlocked, Ok(1)),
        Line::LocksFirst(1, b'A', 32),
        Line::Locks(1, b'A', 32, LockDone::ProcessLimit),
        Line::Owns(b'A', 32, None),
        Line::Locks(1, b'A', 0, LockDone::Locked),
        Line::Locks(2, b'A', 32, LockDone::Locked),
        Line::Locks(1, b'A', 32, LockDone::Other { owner: Pid(2) }),
        Line::Unlocks(1, b'A', 0),
        Line::Locks(1, b'A', 33, LockDone::Locked),
    ];
    assert_eq!(rt; first_wrong(&lines), None);
    Ok(())
}

#[test]
fn records_are_locked_128_times_in_all(rt: HostRuntime) -> Result<(), Fail> {
    let lines = [
        Line::Opens(1, b'A', Mode::Locked, Ok(0)),
        Line::Opens(2, b'B', Mode::Locked, Ok(1)),
        Line::Opens(3, b'C', Mode::Locked, Ok(2)),
        Line::Opens(4, b'D', Mode::Locked, Ok(3)),
        Line::Opens(5, b'E', Mode::Locked, Ok(4)),
        Line::LocksFirst(1, b'A', 32),
        Line::LocksFirst(2, b'B', 32),
        Line::LocksFirst(3, b'C', 32),
        Line::LocksFirst(4, b'D', 32),
        Line::Locks(5, b'E', 0, LockDone::NoRoom),
        Line::Locks(4, b'D', 31, LockDone::Locked),
        Line::Locks(4, b'D', 40, LockDone::ProcessLimit),
        Line::Closes(4, b'D'),
        Line::Owns(b'D', 31, None),
        Line::Locks(5, b'E', 0, LockDone::Locked),
    ];
    assert_eq!(rt; first_wrong(&lines), None);
    Ok(())
}

#[test]
fn modes_go_together_or_a_file_is_not_opened(rt: HostRuntime) -> Result<(), Fail> {
    let lines = [
        Line::Opens(1, b'A', Mode::Locked, Ok(0)),
        Line::Opens(2, b'A', Mode::Locked, Err(OpenRefused::Incompatible)),
        Line::Opens(2, b'A', Mode::Unlocked, Err(OpenRefused::Incompatible)),
        Line::Opens(2, b'A', Mode::ReadOnly, Err(OpenRefused::Incompatible)),
        Line::Opens(1, b'A', Mode::Unlocked, Err(OpenRefused::Incompatible)),
        Line::Opens(1, b'A', Mode::Locked, Ok(0)),
        Line::Opens(1, b'B', Mode::Unlocked, Ok(1)),
        Line::Opens(2, b'B', Mode::Unlocked, Ok(2)),
        Line::Opens(3, b'B', Mode::ReadOnly, Err(OpenRefused::Incompatible)),
        Line::Opens(3, b'B', Mode::Locked, Err(OpenRefused::Incompatible)),
        Line::Opens(3, b'C', Mode::ReadOnly, Ok(3)),
        Line::Opens(2, b'C', Mode::ReadOnly, Ok(4)),
        Line::Opens(1, b'C', Mode::Unlocked, Err(OpenRefused::Incompatible)),
    ];
    assert_eq!(rt; first_wrong(&lines), None);
    Ok(())
}

#[test]
fn a_file_is_closed_as_often_as_it_was_opened(rt: HostRuntime) -> Result<(), Fail> {
    let lines = [
        Line::Opens(1, b'A', Mode::Unlocked, Ok(0)),
        Line::Opens(1, b'A', Mode::Unlocked, Ok(0)),
        Line::Opens(1, b'B', Mode::Unlocked, Ok(1)),
        Line::Locks(1, b'A', 7, LockDone::Locked),
        Line::Locks(1, b'B', 7, LockDone::Locked),
        Line::Closes(1, b'A'),
        Line::Owns(b'A', 7, Some(1)),
        Line::Closes(1, b'A'),
        Line::Owns(b'A', 7, None),
        Line::Owns(b'B', 7, Some(1)),
        Line::Has(1, b'A', None),
        Line::Opens(2, b'C', Mode::Unlocked, Ok(0)),
        Line::Opens(2, b'D', Mode::Unlocked, Ok(2)),
    ];
    assert_eq!(rt; first_wrong(&lines), None);
    Ok(())
}

#[test]
fn a_process_has_16_files_and_there_are_64(rt: HostRuntime) -> Result<(), Fail> {
    let lines = [
        Line::OpensFiles(1, 16),
        Line::Opens(1, b'X', Mode::Unlocked, Err(OpenRefused::ProcessLimit)),
        Line::Opens(1, 0, Mode::Unlocked, Err(OpenRefused::ProcessLimit)),
        Line::Opens(1, 0, Mode::Locked, Err(OpenRefused::Incompatible)),
        Line::OpensFiles(2, 16),
        Line::OpensFiles(3, 16),
        Line::OpensFiles(4, 15),
        Line::Opens(5, b'X', Mode::Unlocked, Ok(63)),
        Line::Opens(5, b'Y', Mode::Unlocked, Err(OpenRefused::NoRoom)),
        Line::Opens(5, b'X', Mode::Unlocked, Err(OpenRefused::NoRoom)),
        Line::Ends(2),
        Line::Opens(5, b'Y', Mode::Unlocked, Ok(16)),
    ];
    assert_eq!(rt; first_wrong(&lines), None);
    Ok(())
}

#[test]
fn a_file_is_opened_255_times(rt: HostRuntime) -> Result<(), Fail> {
    let lines = [
        Line::OpensAgain(1, b'A', 255),
        Line::Opens(1, b'A', Mode::Locked, Err(OpenRefused::ProcessLimit)),
        Line::Opens(1, b'B', Mode::Locked, Ok(1)),
        Line::Closes(1, b'A'),
        Line::Opens(1, b'A', Mode::Locked, Ok(0)),
    ];
    assert_eq!(rt; first_wrong(&lines), None);
    Ok(())
}

/// Whether process 1 leaves drive B, and process 2 a file of it, each alone.
fn leave_alone(opens: &mut Opens) -> bool {
    let on_a = file(b'A');
    let on_b = FileKey { drive: 1, ..on_a };
    let opened = opens.add(Pid(1), on_a, Mode::Unlocked) == Ok(0)
        && opens.add(Pid(1), on_b, Mode::Unlocked) == Ok(1)
        && opens.add(Pid(2), on_b, Mode::Unlocked) == Ok(2)
        && locks(opens, Pid(1), on_b, 3) == Some(LockDone::Locked);
    let others = opens.others(Pid(1), on_b)
        && !opens.others(Pid(1), on_a)
        && opens.on_drive(Pid(2), 1);
    opens.leave_drive(Pid(1), 1);
    let left = !opens.on_drive(Pid(2), 1)
        && opens.item(Pid(1), on_b).is_none()
        && opens.item(Pid(1), on_a) == Some(0)
        && owner_is(opens, on_b, 3, None);
    opens.leave_file(Pid(2), on_b);
    opened && others && left && opens.item(Pid(2), on_b).is_none()
}

#[test]
fn files_and_drives_are_left_by_one_process_alone(rt: HostRuntime) -> Result<(), Fail> {
    let mut opens = Opens::new();
    let left = leave_alone(&mut opens);
    assert!(rt; left);
    Ok(())
}

/// Whether an item is named by its process, with its number, its drive and its name, and by nothing else.
fn is_named(opens: &mut Opens) -> bool {
    let of_user_3 = FileKey {
        user: 3,
        ..file(b'A')
    };
    let name = of_user_3.name;
    let named = opens.add(Pid(1), of_user_3, Mode::Unlocked) == Ok(0)
        && opens.named(Pid(1), 0, 0, &name) == Some(of_user_3);
    let otherwise = opens.named(Pid(2), 0, 0, &name).is_some()
        || opens.named(Pid(1), 1, 0, &name).is_some()
        || opens.named(Pid(1), 64, 0, &name).is_some()
        || opens.named(Pid(1), 0, 1, &name).is_some()
        || opens.named(Pid(1), 0, 0, &file(b'B').name).is_some();
    named
        && !otherwise
        && opens.refusal(Pid(2), of_user_3, Mode::Locked) == Some(OpenRefused::Incompatible)
        && opens.refusal(Pid(2), of_user_3, Mode::Unlocked).is_none()
}

#[test]
fn an_item_is_named_by_its_process_with_number_drive_and_name(rt: HostRuntime) -> Result<(), Fail> {
    let mut opens = Opens::new();
    let named = is_named(&mut opens);
    assert!(rt; named);
    Ok(())
}

/// The mode of a process's item of a file, and whether a record that is noted is the first.
fn notes(opens: &mut Opens, p: Pid, file: FileKey) -> Option<(Mode, bool)> {
    match opens.item(p, file) {
        Some(item) => {
            let mode = opens.mode(item);
            Some((mode, opens.wrote(item)))
        }
        None => None,
    }
}

/// Whether a record was written by way of a process's item of a file.
fn has_written(opens: &Opens, p: Pid, file: FileKey) -> Option<bool> {
    match opens.item(p, file) {
        Some(item) => Some(opens.has_written(item)),
        None => None,
    }
}

/// Whether an item of process 1 notes its first record, and that it has written.
fn is_noted(opens: &mut Opens) -> bool {
    let its = file(b'A');
    opens.add(Pid(1), its, Mode::ReadOnly) == Ok(0)
        && has_written(opens, Pid(1), its) == Some(false)
        && notes(opens, Pid(1), its) == Some((Mode::ReadOnly, true))
        && has_written(opens, Pid(1), its) == Some(true)
        && notes(opens, Pid(1), its) == Some((Mode::ReadOnly, false))
        && notes(opens, Pid(2), its).is_none()
}

#[test]
fn an_item_notes_that_it_has_written(rt: HostRuntime) -> Result<(), Fail> {
    let mut opens = Opens::new();
    let noted = is_noted(&mut opens);
    assert!(rt; noted);
    Ok(())
}
