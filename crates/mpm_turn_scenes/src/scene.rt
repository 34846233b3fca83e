//! A scene: a disk, jobs that are done on it, and what each call of its drive makes of what is seen. Whichever call fails, there is
//! left what those before it have made.
use crate::disks::NO_RECORD;
use mpm_base::Kind;
use mpm_files::Job;
use mpm_images::{EntryBytes, UNUSED};

/// What is looked at of a slot: the first byte, which is the user or the sort, and that of the name. Of a file its EX and RC are looked at,
/// of an XFCB or a label its mode and the first bytes of its password and its two stamps.
pub type Slot = [u8; 6];

/// A free slot.
pub const FREE: Slot = [0xE5, 0, 0, 0, 0, 0];

/// What is looked at of an entry.
pub(crate) fn slot_of(entry: &EntryBytes) -> Slot {
    if entry[0] == 0xE5 {
        FREE
    } else if entry[0] < 16 {
        [entry[0], entry[1], entry[12], entry[15], 0, 0]
    } else {
        [
            entry[0], entry[1], entry[12], entry[16], entry[24], entry[28],
        ]
    }
}

/// What is seen of a disk.
#[derive(Clone, Copy, Debug, PartialEq, Eq)]
pub struct Seen {
    /// The first eight slots.
    pub slots: [Slot; 8],
    /// Sixteen records of `A.TXT`: the byte that all bytes of each have.
    pub records: [u8; 16],
    /// The first record of `B.TXT`.
    pub other: u8,
}

/// What calls of a drive make of it.
#[derive(Clone, Copy)]
pub enum Does {
    /// So many calls of which nothing is seen: a sector is read, or one is written that no file has yet.
    Unseen(u8),
    /// A call that puts this into a slot.
    Put(usize, Slot),
    /// This comes into a slot by the call before.
    WithSlot(usize, Slot),
    /// A call that writes a record, by its place among the sixteen, with a byte.
    Byte(usize, u8),
    /// A record has a byte by the call before.
    WithByte(usize, u8),
    /// A call that puts EX and RC of a record into the entry of a slot, so that it is there, with a byte.
    Shown(usize, usize, u8),
    /// Each record from one to before another is written by one call, and shown by the next in a slot: the first with byte 1.
    Records(usize, usize, usize),
}

/// A disk, and what is done there.
#[derive(Drop)]
pub struct Scene<'a> {
    /// The kind of the disk.
    pub kind: Kind,
    /// The entries from slot 0 on.
    pub entries: &'a [EntryBytes],
    /// The jobs, one after the other.
    pub jobs: &'a [Job],
    /// The first of the sixteen records.
    pub first: u32,
    /// How many of them are there before the jobs, of bytes E5h.
    pub held: usize,
    /// The calls of the drive, in order: there are no others.
    pub calls: &'a [Does],
}

/// What is seen before the jobs: the second file's record is there where its entry is.
fn at_first(scene: &Scene<'_>) -> Seen {
    let mut slots = [FREE; 8];
    for (slot, seen) in slots.iter_mut().enumerate() {
        *seen = match scene.entries.get(slot) {
            Some(entry) => slot_of(entry),
            None => slot_of(&UNUSED),
        };
    }
    let mut records = [NO_RECORD; 16];
    for record in records.iter_mut().take(scene.held) {
        *record = 0xE5;
    }
    Seen {
        slots,
        records,
        other: 0xE5,
    }
}

/// Puts a value into a slot.
fn put(seen: &mut Seen, slot: usize, value: Slot) {
    if let Some(old) = seen.slots.get_mut(slot) {
        *old = value;
    }
}

/// Gives a record a byte.
fn write(seen: &mut Seen, record: usize, byte: u8) {
    if let Some(old) = seen.records.get_mut(record) {
        *old = byte;
    }
}

/// Shows a record by EX and RC of a slot.
fn show(seen: &mut Seen, first: u32, slot: usize, record: usize, byte: u8) {
    let number = first.saturating_add((record % 16) as u32);
    if let Some(entry) = seen.slots.get_mut(slot) {
        entry[2] = (number / 128 % 32) as u8;
        entry[3] = (number % 128 + 1) as u8;
    }
    write(seen, record, byte);
}

/// Shows records as far as so many calls go. Says how many calls are left, if they go so far.
fn show_all(
    seen: &mut Seen,
    first: u32,
    slot: usize,
    from: usize,
    to: usize,
    calls: u64,
) -> Option<u64> {
    let mut left = calls;
    for record in from..to {
        if left < 2 {
            return None;
        }
        left -= 2;
        show(seen, first, slot, record, (record % 16 + 1) as u8);
    }
    Some(left)
}

/// What calls make of it, as far as so many go. Says how many are left, if they go so far.
fn make(seen: &mut Seen, first: u32, does: Does, calls: u64) -> Option<u64> {
    match does {
        Does::Unseen(count) => calls.checked_sub(u64::from(count)),
        Does::WithSlot(slot, value) => {
            put(seen, slot, value);
            Some(calls)
        }
        Does::WithByte(record, byte) => {
            write(seen, record, byte);
            Some(calls)
        }
        Does::Records(slot, from, to) => show_all(seen, first, slot, from, to, calls),
        Does::Put(..) | Does::Byte(..) | Does::Shown(..) => make_one(seen, first, does, calls),
    }
}

/// What one call makes of it, if so many go that far. Says how many are left then.
fn make_one(seen: &mut Seen, first: u32, does: Does, calls: u64) -> Option<u64> {
    let left = calls.checked_sub(1)?;
    match does {
        Does::Put(slot, value) => put(seen, slot, value),
        Does::Byte(record, byte) => write(seen, record, byte),
        Does::Shown(slot, record, byte) => show(seen, first, slot, record, byte),
        _ => {}
    }
    Some(left)
}

/// What is to be seen after the first calls.
pub(crate) fn seen_after(scene: &Scene<'_>, calls: u64) -> Seen {
    let mut seen = at_first(scene);
    let mut left = calls;
    for does in scene.calls {
        match make(&mut seen, scene.first, *does, left) {
            Some(more) => left = more,
            None => return seen,
        }
    }
    seen
}

/// How many calls some of them are.
fn calls_of(does: Does) -> u64 {
    match does {
        Does::Unseen(count) => u64::from(count),
        Does::Put(..) | Does::Byte(..) | Does::Shown(..) => 1,
        Does::WithSlot(..) | Does::WithByte(..) => 0,
        Does::Records(_, from, to) => (to.saturating_sub(from) as u64).saturating_mul(2),
    }
}

/// How many calls all are.
pub(crate) fn call_count(scene: &Scene<'_>) -> u64 {
    let mut count: u64 = 0;
    for does in scene.calls {
        count = count.saturating_add(calls_of(*does));
    }
    count
}
