//! Calls one after the other on a disk that was empty.
use mpm_base::Kind;
use mpm_files::{Job, JobKind, RecordError};
use mpm_turn_scenes::{Came, FREE, Left, NO_RECORD, Scene, Seen, Slot, job, left_of};
use std::alloc::Global;
use std::test::Fail;

/// What jobs leave of an empty disk, of which sixteen records are looked at.
fn from_empty(alloc: Global, kind: Kind, first: u32, jobs: &[Job]) -> Result<Left, Fail> {
    let scene = Scene {
        kind,
        entries: &[],
        jobs,
        first,
        held: 0,
        calls: &[],
    };
    left_of(alloc, &scene)
}

/// How many records are free on an empty disk.
fn free_at_first(alloc: Global, kind: Kind) -> Result<u32, Fail> {
    let left = from_empty(alloc, kind, 0, &[job(JobKind::Nothing, 0, 0)])?;
    Ok(left.free)
}

/// A job that reads records, whose bytes are ones before.
fn reading(first: u32, count: u8) -> Job {
    let mut job = job(JobKind::Read, first, count);
    job.bytes = [1; 4096];
    job
}

/// What is left where so many records are free, the file has this entry, and of the sixteen records that are looked at as many as are
/// named are zeros and the next one is of ones.
fn made(came: Came, free: u32, entry: Slot, zeros: usize) -> Left {
    let mut slots = [FREE; 8];
    slots[0] = entry;
    let mut records = [NO_RECORD; 16];
    for (place, record) in records.iter_mut().enumerate() {
        if place < zeros {
            *record = 0;
        } else if place == zeros {
            *record = 1;
        }
    }
    Left {
        came: Some(came),
        is_next: false,
        free,
        seen: Seen {
            slots,
            records,
            other: NO_RECORD,
        },
    }
}

/// What a job comes to.
fn come_to(turns: u32, moved: u8, error: Option<RecordError>, bytes: [u8; 4]) -> Came {
    Came {
        turns,
        moved,
        error,
        bytes,
    }
}

/// What is left of an empty disk by a file that is made, a record that is written, and a last job; the record is among the sixteen that
/// are looked at.
fn after_record(alloc: Global, kind: Kind, record: u32, last: Job) -> Result<Left, Fail> {
    let jobs = [
        job(JobKind::Make, 0, 0),
        job(JobKind::Write, record, 1),
        last,
    ];
    from_empty(alloc, kind, record / 16 * 16, &jobs)
}

/// How many turns the record takes.
fn turns_of(alloc: Global, kind: Kind, record: u32) -> Result<u32, Fail> {
    let jobs = [job(JobKind::Make, 0, 0), job(JobKind::Write, record, 1)];
    match from_empty(alloc, kind, record, &jobs)?.came {
        Some(came) => Ok(came.turns),
        None => Err(Fail::from("a call of the drive failed")),
    }
}

#[test]
fn a_record_takes_its_block_with_zeros_before_it(rt: HostRuntime) -> Result<(), Fail> {
    let kind = Kind::Ibm3740;
    let entry = [0, b'A', 0, 21, 0, 0];
    assert_eq!(rt; free_at_first(rt.alloc(), kind)?, 0x788);
    assert_eq!(rt;
        after_record(rt.alloc(), kind, 20, reading(16, 4))?,
        made(come_to(4, 4, None, [0; 4]), 0x780, entry, 4)
    );
    assert_eq!(rt;
        after_record(rt.alloc(), kind, 20, reading(0, 1))?,
        made(
            come_to(1, 0, Some(RecordError::UnwrittenData), [1; 4]),
            0x780,
            entry,
            4
        )
    );
    Ok(())
}

#[test]
fn a_record_of_the_second_extent_takes_two_turns(rt: HostRuntime) -> Result<(), Fail> {
    let kind = Kind::Hd8;
    assert_eq!(rt; free_at_first(rt.alloc(), kind)?, 0xFF80);
    assert_eq!(rt; turns_of(rt.alloc(), kind, 130)?, 2);
    Ok(())
}

#[test]
fn a_record_of_the_second_extent_is_in_the_first_entry(rt: HostRuntime) -> Result<(), Fail> {
    let kind = Kind::Hd8;
    let entry = [0, b'A', 1, 3, 0, 0];
    assert_eq!(rt;
        after_record(rt.alloc(), kind, 130, reading(128, 2))?,
        made(come_to(2, 2, None, [0, 0, 1, 1]), 0xFF60, entry, 2)
    );
    assert_eq!(rt;
        after_record(rt.alloc(), kind, 130, reading(0, 1))?,
        made(
            come_to(1, 0, Some(RecordError::UnwrittenData), [1; 4]),
            0xFF60,
            entry,
            2
        )
    );
    Ok(())
}
