//! Calls that change directory entries, XFCBs and the label, on each kind of disk: each call of the drive fails once, and then none.
use mpm_base::Kind;
use mpm_files::{Job, JobKind};
use mpm_images::{EntryBytes, UNUSED, file, layout_of, other, xfcb};
use mpm_turn_scenes::{Came, Does, FREE, KINDS, Left, Scene, Slot, first_other, job};
use std::alloc::Global;
use std::test::Fail;

/// What a job of so many turns comes to that moves no record.
fn ended(turns: u32) -> Came {
    Came {
        turns,
        moved: 0,
        error: None,
        bytes: [1, 2, 3, 4],
    }
}

/// EX of an entry by its number.
fn ex(kind: Kind, number: u8) -> u8 {
    number.saturating_mul((layout_of(kind).entry / 128 % 4) as u8)
}

/// What is seen of an entry of a file by its letter and its number, and of an XFCB without a password.
fn a_file(kind: Kind, letter: u8, number: u8) -> Slot {
    [0, letter, ex(kind, number), 0, 0, 0]
}

fn an_xfcb(letter: u8) -> Slot {
    [16, letter, 0, 0, 0, 0]
}

/// Three entries of a file and its XFCB, in two sectors, and another file.
fn three(kind: Kind) -> [EntryBytes; 5] {
    [
        file(b'A', ex(kind, 2), 0),
        other(kind),
        file(b'A', 0, 0),
        xfcb(b'A'),
        file(b'A', ex(kind, 1), 0),
    ]
}

/// The first that is left otherwise by a job on these entries.
fn played(
    alloc: Global,
    kind: Kind,
    entries: &[EntryBytes],
    job: Job,
    calls: &[Does],
    turns: u32,
) -> Result<Option<(u64, Left)>, Fail> {
    let scene = Scene {
        kind,
        entries,
        jobs: &[job],
        first: 0,
        held: 0,
        calls,
    };
    first_other(alloc, &scene, ended(turns))
}

fn deleted(alloc: Global, kind: Kind) -> Result<Option<(u64, Left)>, Fail> {
    let calls = [
        Does::Unseen(1),
        Does::Put(2, FREE),
        Does::Unseen(1),
        Does::Put(4, FREE),
        Does::Put(0, FREE),
        Does::Put(3, FREE),
    ];
    played(
        alloc,
        kind,
        &three(kind),
        job(JobKind::Delete, 0, 0),
        &calls,
        4,
    )
}

#[test]
fn entries_are_deleted_from_the_lowest_on_and_the_xfcb_last(rt: HostRuntime) -> Result<(), Fail> {
    for kind in KINDS {
        assert_eq!(rt; deleted(rt.alloc(), kind)?, None);
    }
    Ok(())
}

#[test]
fn an_xfcb_without_a_file_stays(rt: HostRuntime) -> Result<(), Fail> {
    let kind = Kind::Ibm3740;
    let mut deleting = job(JobKind::Delete, 0, 0);
    deleting.name[1] = b'?';
    let mut stray = xfcb(b'A');
    stray[2] = b'B';
    let entries = [file(b'A', 0, 0), other(kind), xfcb(b'A'), stray];
    let calls = [Does::Unseen(1), Does::Put(0, FREE), Does::Put(2, FREE)];
    assert_eq!(rt;
        played(rt.alloc(), kind, &entries, deleting, &calls, 2)?,
        None
    );
    Ok(())
}

fn renamed(alloc: Global, kind: Kind) -> Result<Option<(u64, Left)>, Fail> {
    let [a, b, c, d, e] = three(kind);
    let calls = [
        Does::Unseen(1),
        Does::Put(5, FREE),
        Does::Unseen(1),
        Does::Put(2, a_file(kind, b'N', 0)),
        Does::Put(4, a_file(kind, b'N', 1)),
        Does::Put(0, a_file(kind, b'N', 2)),
        Does::Put(3, an_xfcb(b'N')),
    ];
    let entries = [a, b, c, d, e, xfcb(b'N')];
    played(alloc, kind, &entries, job(JobKind::Rename, 0, 0), &calls, 5)
}

#[test]
fn entries_are_renamed_behind_an_xfcb_of_the_new_name(rt: HostRuntime) -> Result<(), Fail> {
    for kind in KINDS {
        assert_eq!(rt; renamed(rt.alloc(), kind)?, None);
    }
    Ok(())
}

/// A job with the bytes of an XFCB: mode E0h, a password of sevens, stamps of 11 and of 22.
fn protecting(kind: JobKind, count: u8) -> Job {
    let mut job = job(kind, 0, count);
    job.bytes[0] = 0xE0;
    for byte in job.bytes.iter_mut().skip(2).take(8) {
        *byte = b'7';
    }
    for byte in job.bytes.iter_mut().skip(10).take(4) {
        *byte = 11;
    }
    for byte in job.bytes.iter_mut().skip(14).take(4) {
        *byte = 22;
    }
    job
}

/// What is seen of it as an entry that begins with a byte and a letter's name.
fn protection(first: u8, letter: u8) -> Slot {
    [first, letter, 0xE0, b'7', 11, 22]
}

/// A job that protects a file, on these entries. Its bytes aren't those of records, so that no record is looked at.
fn protected(
    alloc: Global,
    kind: Kind,
    entries: &[EntryBytes],
    job: Job,
    calls: &[Does],
    turns: u32,
) -> Result<Option<(u64, Left)>, Fail> {
    let scene = Scene {
        kind,
        entries,
        jobs: &[job],
        first: 0,
        held: 0,
        calls,
    };
    let came = Came {
        bytes: [255, 2, 3, 4],
        ..ended(turns)
    };
    first_other(alloc, &scene, came)
}

fn made(alloc: Global, kind: Kind) -> Result<Option<(u64, Left)>, Fail> {
    let calls = [
        Does::Unseen(1),
        Does::Put(1, a_file(kind, b'A', 0)),
        Does::Put(2, protection(16, b'A')),
    ];
    protected(
        alloc,
        kind,
        &[other(kind)],
        protecting(JobKind::Make, 1),
        &calls,
        2,
    )
}

#[test]
fn a_file_is_made_before_its_xfcb(rt: HostRuntime) -> Result<(), Fail> {
    for kind in KINDS {
        assert_eq!(rt; made(rt.alloc(), kind)?, None);
    }
    Ok(())
}

#[test]
fn an_xfcb_that_is_there_is_written_over(rt: HostRuntime) -> Result<(), Fail> {
    let kind = Kind::Ibm3740;
    let calls = [
        Does::Unseen(1),
        Does::Put(2, a_file(kind, b'A', 0)),
        Does::Put(1, protection(16, b'A')),
    ];
    let entries = [other(kind), xfcb(b'A')];
    assert_eq!(rt;
        protected(
            rt.alloc(),
            kind,
            &entries,
            protecting(JobKind::Make, 1),
            &calls,
            2
        )?,
        None
    );
    Ok(())
}

#[test]
fn attributes_are_set_entry_by_entry(rt: HostRuntime) -> Result<(), Fail> {
    let kind = Kind::Ibm3740;
    let mut setting = job(JobKind::Attributes, 0, 0);
    setting.name[0] = b'A' + 128;
    let calls = [
        Does::Unseen(1),
        Does::Put(2, a_file(kind, b'A' + 128, 0)),
        Does::Unseen(1),
        Does::Put(4, a_file(kind, b'A' + 128, 1)),
        Does::Put(0, a_file(kind, b'A' + 128, 2)),
    ];
    assert_eq!(rt;
        played(rt.alloc(), kind, &three(kind), setting, &calls, 3)?,
        None
    );
    Ok(())
}

#[test]
fn a_label_is_put_into_a_free_slot_or_over_the_one_that_is_there(
    rt: HostRuntime,
) -> Result<(), Fail> {
    let kind = Kind::Hd4;
    let labelling = Job {
        new_name: *b"LABEL      ",
        ..protecting(JobKind::Label, 0)
    };
    let calls = [Does::Unseen(1), Does::Put(1, protection(32, b'L'))];
    assert_eq!(rt;
        protected(rt.alloc(), kind, &[other(kind)], labelling, &calls, 1)?,
        None
    );
    let calls = [Does::Unseen(1), Does::Put(4, protection(32, b'L'))];
    let mut label = xfcb(b'M');
    label[0] = 32;
    let entries = [other(kind), UNUSED, UNUSED, UNUSED, label];
    assert_eq!(rt;
        protected(rt.alloc(), kind, &entries, labelling, &calls, 1)?,
        None
    );
    Ok(())
}

#[test]
fn an_xfcb_is_put(rt: HostRuntime) -> Result<(), Fail> {
    let kind = Kind::Hd8;
    let calls = [Does::Unseen(1), Does::Put(2, protection(16, b'A'))];
    let entries = [file(b'A', 0, 0), other(kind)];
    assert_eq!(rt;
        protected(
            rt.alloc(),
            kind,
            &entries,
            protecting(JobKind::Xfcb, 0),
            &calls,
            1
        )?,
        None
    );
    Ok(())
}

#[test]
fn a_call_that_does_nothing_takes_a_turn_perhaps_for_a_stamp(rt: HostRuntime) -> Result<(), Fail> {
    let kind = Kind::Ibm3740;
    let entries = [file(b'A', 0, 0), other(kind), xfcb(b'A')];
    let idle = job(JobKind::Nothing, 0, 0);
    assert_eq!(rt; played(rt.alloc(), kind, &entries, idle, &[], 1)?, None);
    let mut opening = job(JobKind::Nothing, 0, 0);
    opening.stamp = Some([9; 4]);
    let calls = [Does::Unseen(1), Does::Put(2, [16, b'A', 0, 0, 9, 0])];
    assert_eq!(rt;
        played(rt.alloc(), kind, &entries, opening, &calls, 1)?,
        None
    );
    Ok(())
}
