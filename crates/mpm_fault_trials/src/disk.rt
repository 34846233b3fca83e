//! A disk of each kind with a file of three entries that a program deletes, another that it renames, and one that nobody names; and
//! what is there of it. Each file's records have its letter throughout, but those that the program writes.
use mpm_base::Kind;
use mpm_images::{
    EntryBytes, UNUSED, directory_sector, file, held, image, is_written, layout_of, named, place,
    put_sector, read_record, record_at, with,
};
use mpm_port::MemoryDrives;
use std::alloc::{AllocError, Global};

/// The first twelve slots of a directory, in three sectors.
pub(crate) type Slots = [EntryBytes; 12];

/// The entry of a file by its letter and its number, with one record in a block, counted from the first one of files.
pub(crate) fn entry(kind: Kind, letter: u8, number: u8, block: u16) -> EntryBytes {
    let layout = layout_of(kind);
    let extent = u32::from(number).saturating_mul(layout.entry / 128);
    held(
        kind,
        file(letter, (extent % 32) as u8, 1),
        0,
        layout.first.saturating_add(block),
    )
}

/// The entry of the file that is made, with so many records, at most 16.
pub(crate) fn made(kind: Kind, records: u8) -> EntryBytes {
    let layout = layout_of(kind);
    let first = if 0 < records {
        layout.first.saturating_add(7)
    } else {
        0
    };
    let is_second = layout.block < u32::from(records);
    let second = if is_second {
        layout.first.saturating_add(8)
    } else {
        0
    };
    held(
        kind,
        held(kind, file(b'A', 0, records), 0, first),
        1,
        second,
    )
}

/// An entry that was deleted.
pub(crate) fn gone(entry: EntryBytes) -> EntryBytes {
    with(entry, 0, 0xE5)
}

/// A label that asks for passwords; a file that nobody names; and three entries of G.TXT and of O.TXT, in two sectors.
pub(crate) fn at_first(kind: Kind) -> Slots {
    [
        with(named(32, b'L'), 12, 0x81),
        entry(kind, b'B', 0, 0),
        UNUSED,
        UNUSED,
        entry(kind, b'G', 2, 3),
        entry(kind, b'O', 0, 4),
        entry(kind, b'G', 0, 1),
        entry(kind, b'O', 1, 5),
        entry(kind, b'G', 1, 2),
        UNUSED,
        entry(kind, b'O', 2, 6),
        UNUSED,
    ]
}

/// The bytes of that image: each file's one record has its letter.
pub(crate) fn bytes_of(alloc: Global, kind: Kind, slots: &Slots) -> Result<Vec<u8>, AllocError> {
    let mut bytes = image(alloc, kind, slots)?;
    for entry in slots {
        if entry[0] == 0 {
            if let Some(at) = record_at(kind, entry, 0) {
                put_sector(bytes.as_mut_slice(), place(kind, at), &[entry[1]; 128]);
            }
        }
    }
    Ok(bytes)
}

/// Puts the directory's first sectors, and the records that are written, as they were.
pub(crate) fn is_restored(drives: &mut MemoryDrives, kind: Kind) -> bool {
    let slots = at_first(kind);
    for sector in 0..3 {
        let bytes = directory_sector(&slots, sector as usize * 4);
        if !is_written(drives, kind, sector, &bytes) {
            return false;
        }
    }
    let entry = made(kind, 16);
    for record in 0..16 {
        let Some(at) = record_at(kind, &entry, record) else {
            return false;
        };
        if !is_written(drives, kind, at, &[0xE5; 128]) {
            return false;
        }
    }
    true
}

/// Whether a disk has those entries, and each file in them its records.
pub(crate) fn has_files(drives: &mut MemoryDrives, kind: Kind, slots: &Slots) -> bool {
    for sector in 0..3 {
        if !has_entries(drives, kind, slots, sector) {
            return false;
        }
    }
    for entry in slots {
        if !has_records(drives, kind, entry) {
            return false;
        }
    }
    true
}

/// Whether a sector of the directory has its four entries.
fn has_entries(drives: &mut MemoryDrives, kind: Kind, slots: &Slots, sector: u32) -> bool {
    match read_record(drives, kind, sector) {
        Some(bytes) => bytes == directory_sector(slots, sector as usize % 3 * 4),
        None => false,
    }
}

/// Whether a file's records are there that its entry counts.
fn has_records(drives: &mut MemoryDrives, kind: Kind, entry: &EntryBytes) -> bool {
    if entry[0] != 0 {
        return true;
    }
    for record in 0..entry[15] {
        if !has_record(drives, kind, entry, record) {
            return false;
        }
    }
    true
}

/// Whether a record of a file is there.
fn has_record(drives: &mut MemoryDrives, kind: Kind, entry: &EntryBytes, number: u8) -> bool {
    let Some(at) = record_at(kind, entry, u32::from(number)) else {
        return false;
    };
    match read_record(drives, kind, at) {
        Some(bytes) => bytes == [byte_of(entry[1], number); 128],
        None => false,
    }
}

/// The byte of a record by its number and by its file's letter; the renamed file has the old one's.
fn byte_of(letter: u8, record: u8) -> u8 {
    match letter {
        b'A' => b'a'.saturating_add(record),
        b'N' => b'O',
        _ => letter,
    }
}
