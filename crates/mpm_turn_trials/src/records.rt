//! Calls that read, write, or test and write records, on each kind of disk: each call of the drive fails once, and then none.
use mpm_base::Kind;
use mpm_files::{Job, JobKind, RecordError};
use mpm_images::{EntryBytes, UNUSED, file, held, layout_of, other, xfcb};
use mpm_turn_scenes::{Came, Does, KINDS, Left, Scene, first_other, job};
use std::alloc::Global;
use std::test::Fail;

/// What a job comes to that moves the records that it says, of bytes 1, 2 and so on.
fn moved(turns: u32, moved: u8, error: Option<RecordError>) -> Came {
    Came {
        turns,
        moved,
        error,
        bytes: [1, 2, 3, 4],
    }
}

/// So many turns, and one more for a fresh block where an entry covers more than one extent.
fn turns_on(kind: Kind, turns: u32) -> u32 {
    match kind {
        Kind::Ibm3740 | Kind::Hd4 => turns,
        Kind::Hd8 => turns.saturating_add(1),
    }
}

/// How many sectors are written for a record into a fresh block: each sector of the block once; on `hd8`, where its first eighteen are
/// cleared before the record comes, that of a record among these twice.
fn fresh(kind: Kind, first: u32) -> u8 {
    match kind {
        Kind::Ibm3740 => 8,
        Kind::Hd4 => 16,
        Kind::Hd8 => { if first % 32 < 18 { 33 } else { 32 } }
    }
}

fn sixteen(alloc: Global, kind: Kind) -> Result<Option<(u64, Left)>, Fail> {
    let two_blocks = [
        Does::Unseen(9),
        Does::Shown(0, 0, 1),
        Does::Records(0, 1, 8),
        Does::Unseen(8),
        Does::Shown(0, 8, 9),
        Does::Records(0, 9, 16),
    ];
    let one_block = [
        Does::Unseen(fresh(kind, 0).saturating_add(1)),
        Does::Shown(0, 0, 1),
        Does::Records(0, 1, 16),
    ];
    let scene = Scene {
        kind,
        entries: &[file(b'A', 0, 0), other(kind)],
        jobs: &[job(JobKind::Write, 0, 16)],
        first: 0,
        held: 0,
        calls: if kind == Kind::Ibm3740 {
            &two_blocks
        } else {
            &one_block
        },
    };
    first_other(alloc, &scene, moved(turns_on(kind, 16), 16, None))
}

#[test]
fn records_are_written_one_after_the_other_on_ibm3740(rt: HostRuntime) -> Result<(), Fail> {
    assert_eq!(rt; sixteen(rt.alloc(), Kind::Ibm3740)?, None);
    Ok(())
}

#[test]
fn records_are_written_one_after_the_other_on_hd4(rt: HostRuntime) -> Result<(), Fail> {
    assert_eq!(rt; sixteen(rt.alloc(), Kind::Hd4)?, None);
    Ok(())
}

#[test]
fn records_are_written_one_after_the_other_on_hd8(rt: HostRuntime) -> Result<(), Fail> {
    assert_eq!(rt; sixteen(rt.alloc(), Kind::Hd8)?, None);
    Ok(())
}

/// A file whose first entry lacks eight records, of which the last block is held.
fn lacking(kind: Kind) -> EntryBytes {
    let layout = layout_of(kind);
    let index = (layout.entry / layout.block).saturating_sub(1);
    let ex = (layout.entry / 128).saturating_sub(1) % 32;
    held(
        kind,
        file(b'A', ex as u8, 120),
        index as usize,
        layout.first.saturating_add(1),
    )
}

fn across(alloc: Global, kind: Kind) -> Result<Option<(u64, Left)>, Fail> {
    let entry = layout_of(kind).entry;
    let first = entry.saturating_sub(8);
    let calls = [
        Does::Unseen(2),
        Does::Shown(0, 0, 1),
        Does::Records(0, 1, 8),
        Does::Put(2, [0, b'A', (entry / 128 % 32) as u8, 0, 0, 0]),
        Does::Unseen(fresh(kind, entry)),
        Does::Shown(2, 8, 9),
        Does::Records(2, 9, 16),
    ];
    let scene = Scene {
        kind,
        entries: &[lacking(kind), other(kind)],
        jobs: &[job(JobKind::Write, first, 16)],
        first,
        held: 0,
        calls: &calls,
    };
    first_other(alloc, &scene, moved(turns_on(kind, 17), 16, None))
}

#[test]
fn records_are_written_into_a_further_entry_on_ibm3740(rt: HostRuntime) -> Result<(), Fail> {
    assert_eq!(rt; across(rt.alloc(), Kind::Ibm3740)?, None);
    Ok(())
}

#[test]
fn records_are_written_into_a_further_entry_on_hd4(rt: HostRuntime) -> Result<(), Fail> {
    assert_eq!(rt; across(rt.alloc(), Kind::Hd4)?, None);
    Ok(())
}

#[test]
fn records_are_written_into_a_further_entry_on_hd8(rt: HostRuntime) -> Result<(), Fail> {
    assert_eq!(rt; across(rt.alloc(), Kind::Hd8)?, None);
    Ok(())
}

/// An entry of `B.TXT` by its number, of the blocks from one to before another.
fn filled(kind: Kind, number: u32, from: u16, to: u16) -> EntryBytes {
    let layout = layout_of(kind);
    let records = u32::from(to.saturating_sub(from)).saturating_mul(layout.block);
    let last = number
        .saturating_mul(layout.entry)
        .saturating_add(records)
        .saturating_sub(1);
    let extent = last / 128;
    let mut entry = file(b'B', (extent % 32) as u8, (last % 128 + 1) as u8);
    entry[14] = (extent / 32 % 64) as u8;
    for block in from..to {
        entry = held(kind, entry, usize::from(block.saturating_sub(from)), block);
    }
    entry
}

/// A disk of which the last block alone is free, with a file that has no record.
fn nearly_full(alloc: Global, kind: Kind) -> Result<Vec<EntryBytes>, Fail> {
    let layout = layout_of(kind);
    let blocks: u16 = if layout.is_wide { 8 } else { 16 };
    let mut entries = Vec::new(alloc);
    entries.push(file(b'A', 0, 0))?;
    for number in 0..256u16 {
        let from = layout.first.saturating_add(blocks.saturating_mul(number));
        if from < layout.last {
            let to = from.saturating_add(blocks).min(layout.last);
            entries.push(filled(kind, u32::from(number), from, to))?;
        }
    }
    Ok(entries)
}

fn ended_early(alloc: Global, kind: Kind) -> Result<Option<(u64, Left)>, Fail> {
    let first = layout_of(kind).block.saturating_sub(2);
    let calls = [
        Does::Unseen(fresh(kind, first).saturating_add(1)),
        Does::Shown(0, 0, 1),
        Does::Records(0, 1, 2),
    ];
    let entries = nearly_full(alloc, kind)?;
    let scene = Scene {
        kind,
        entries: entries.as_slice(),
        jobs: &[job(JobKind::Write, first, 3)],
        first,
        held: 0,
        calls: &calls,
    };
    first_other(
        alloc,
        &scene,
        moved(turns_on(kind, 2), 2, Some(RecordError::NoDataBlock)),
    )
}

#[test]
fn what_is_written_ends_where_no_block_is_free(rt: HostRuntime) -> Result<(), Fail> {
    assert_eq!(rt; ended_early(rt.alloc(), Kind::Ibm3740)?, None);
    Ok(())
}

/// A job that writes two records, the first with a stamp.
fn stamping() -> Job {
    let mut job = job(JobKind::Write, 0, 2);
    job.stamp = Some([9; 4]);
    job
}

/// The first that is left otherwise by a job of two turns on a file, and one more for a block.
fn two_written(
    alloc: Global,
    kind: Kind,
    entries: &[EntryBytes],
    calls: &[Does],
) -> Result<Option<(u64, Left)>, Fail> {
    let scene = Scene {
        kind,
        entries,
        jobs: &[stamping()],
        first: 0,
        held: 0,
        calls,
    };
    first_other(alloc, &scene, moved(turns_on(kind, 2), 2, None))
}

fn stamped_beside(alloc: Global, kind: Kind) -> Result<Option<(u64, Left)>, Fail> {
    let calls = [
        Does::Unseen(fresh(kind, 0).saturating_add(1)),
        Does::Shown(0, 0, 1),
        Does::WithSlot(2, [16, b'A', 0, 0, 0, 9]),
        Does::Records(0, 1, 2),
    ];
    let entries = [file(b'A', 0, 0), other(kind), xfcb(b'A')];
    two_written(alloc, kind, &entries, &calls)
}

#[test]
fn an_entry_is_written_behind_its_block_and_with_its_stamp_on_ibm3740(
    rt: HostRuntime,
) -> Result<(), Fail> {
    assert_eq!(rt; stamped_beside(rt.alloc(), Kind::Ibm3740)?, None);
    Ok(())
}

#[test]
fn an_entry_is_written_behind_its_block_and_with_its_stamp_on_hd4(
    rt: HostRuntime,
) -> Result<(), Fail> {
    assert_eq!(rt; stamped_beside(rt.alloc(), Kind::Hd4)?, None);
    Ok(())
}

#[test]
fn an_entry_is_written_behind_its_block_and_with_its_stamp_on_hd8(
    rt: HostRuntime,
) -> Result<(), Fail> {
    assert_eq!(rt; stamped_beside(rt.alloc(), Kind::Hd8)?, None);
    Ok(())
}

#[test]
fn a_stamp_in_another_sector_is_written_last(rt: HostRuntime) -> Result<(), Fail> {
    let kind = Kind::Ibm3740;
    let calls = [
        Does::Unseen(fresh(kind, 0).saturating_add(1)),
        Does::Shown(0, 0, 1),
        Does::Unseen(1),
        Does::Put(4, [16, b'A', 0, 0, 0, 9]),
        Does::Records(0, 1, 2),
    ];
    let entries = [file(b'A', 0, 0), other(kind), UNUSED, UNUSED, xfcb(b'A')];
    assert_eq!(rt; two_written(rt.alloc(), kind, &entries, &calls)?, None);
    Ok(())
}

/// A file with its first sixteen records.
fn with_sixteen(kind: Kind) -> EntryBytes {
    let first = layout_of(kind).first.saturating_add(1);
    let entry = held(kind, file(b'A', 0, 16), 0, first);
    if kind == Kind::Ibm3740 {
        held(kind, entry, 1, first.saturating_add(1))
    } else {
        entry
    }
}

/// A job that tests records and writes sevens, of which the first so many have the bytes that are named.
fn testing(count: u8, same: usize) -> Job {
    let mut job = job(JobKind::TestWrite, 0, count);
    job.bytes = [7; 4096];
    for byte in job.bytes.iter_mut().take(128 * (same % 16)) {
        *byte = 0xE5;
    }
    job
}

/// The first that is left otherwise by a job on the file of sixteen records.
fn tested(
    alloc: Global,
    kind: Kind,
    job: Job,
    calls: &[Does],
    came: Came,
) -> Result<Option<(u64, Left)>, Fail> {
    let scene = Scene {
        kind,
        entries: &[with_sixteen(kind), other(kind)],
        jobs: &[job],
        first: 0,
        held: 16,
        calls,
    };
    first_other(alloc, &scene, came)
}

#[test]
fn a_record_is_read_and_then_written_where_it_is_the_same(rt: HostRuntime) -> Result<(), Fail> {
    let calls = [
        Does::Unseen(1),
        Does::Byte(0, 7),
        Does::Unseen(1),
        Does::Byte(1, 7),
    ];
    let came = Came {
        bytes: [0xE5, 0xE5, 7, 7],
        ..moved(2, 2, None)
    };
    for kind in KINDS {
        assert_eq!(rt;
            tested(rt.alloc(), kind, testing(2, 2), &calls, came)?,
            None
        );
    }
    Ok(())
}

#[test]
fn nothing_is_written_from_a_mismatch_on(rt: HostRuntime) -> Result<(), Fail> {
    let calls = [Does::Unseen(1), Does::Byte(0, 7), Does::Unseen(1)];
    let came = Came {
        bytes: [0xE5, 7, 7, 7],
        ..moved(3, 1, Some(RecordError::Mismatch))
    };
    for kind in KINDS {
        assert_eq!(rt;
            tested(rt.alloc(), kind, testing(3, 1), &calls, came)?,
            None
        );
    }
    Ok(())
}

/// A job that reads, whose bytes are zeros before.
fn reading(first: u32, count: u8) -> Job {
    let mut job = job(JobKind::Read, first, count);
    job.bytes = [0; 4096];
    job
}

#[test]
fn each_record_is_read_by_one_call(rt: HostRuntime) -> Result<(), Fail> {
    let kind = Kind::Ibm3740;
    let came = Came {
        bytes: [0xE5, 0xE5, 0, 0],
        ..moved(2, 2, Some(RecordError::UnwrittenData))
    };
    assert_eq!(rt;
        tested(rt.alloc(), kind, reading(14, 3), &[Does::Unseen(2)], came)?,
        None
    );
    let came = Came {
        bytes: [0; 4],
        ..moved(1, 0, Some(RecordError::UnwrittenExtent))
    };
    assert_eq!(rt; tested(rt.alloc(), kind, reading(128, 1), &[], came)?, None);
    Ok(())
}

#[test]
fn a_record_that_was_written_is_read_without_a_call(rt: HostRuntime) -> Result<(), Fail> {
    let kind = Kind::Ibm3740;
    let calls = [
        Does::Unseen(9),
        Does::Shown(0, 0, 1),
        Does::Records(0, 1, 2),
    ];
    let scene = Scene {
        kind,
        entries: &[file(b'A', 0, 0), other(kind)],
        jobs: &[job(JobKind::Write, 0, 2), reading(0, 2)],
        first: 0,
        held: 0,
        calls: &calls,
    };
    let came = Came {
        bytes: [1, 2, 0, 0],
        ..moved(2, 2, None)
    };
    assert_eq!(rt; first_other(rt.alloc(), &scene, came)?, None);
    Ok(())
}
