//! Images of disks as tests make and read them: entries from slot 0 on, and all other bytes E5h. Where entries and records are stands
//! here once more, by the guides alone, so that what is tried and what it is tried with have no code in common.
//! (CP/M Alteration Guide, "Disk Parameter Tables"; MP/M II System Guide, "Disk Definition Tables".)
#![tactic(auto)]

ghost use Rattle.std.specs.Prelude.{◌<◌};

mod drives;

pub use crate::drives::{is_written, read_record};
use mpm_base::Kind;
use std::alloc::{AllocError, Global};

/// The 32 bytes of a directory entry.
pub type EntryBytes = [u8; 32];

/// A slot that was never used.
pub const UNUSED: EntryBytes = [0xE5; 32];

/// How a kind of disk is laid out.
#[derive(Clone, Copy)]
pub struct Layout {
    /// How many bytes an image has.
    pub bytes: usize,
    /// How many records a block has.
    pub block: u32,
    /// The first block of files, and the last.
    pub first: u16,
    pub last: u16,
    /// How many records a directory entry covers.
    pub entry: u32,
    /// Whether an entry has eight blocks by two bytes each, in place of sixteen by one.
    pub is_wide: bool,
}

/// The layout of a kind.
pub fn layout_of(kind: Kind) -> Layout
    ensures block { 0 < result.block }
    ensures entry { 0 < result.entry }
{
    match kind {
        Kind::Ibm3740 => Layout {
            bytes: 256_256,
            block: 8,
            first: 2,
            last: 242,
            entry: 128,
            is_wide: false,
        },
        Kind::Hd4 => Layout {
            bytes: 4_194_304,
            block: 16,
            first: 8,
            last: 2047,
            entry: 128,
            is_wide: true,
        },
        Kind::Hd8 => Layout {
            bytes: 8_388_608,
            block: 32,
            first: 4,
            last: 2047,
            entry: 256,
            is_wide: true,
        },
    }
}

/// The sectors of a track of a floppy disk, counted from 0, in the order in which they are used.
const SKEW: [u32; 26] = [
    0, 6, 12, 18, 24, 4, 10, 16, 22, 2, 8, 14, 20, 1, 7, 13, 19, 25, 5, 11, 17, 23, 3, 9, 15, 21,
];

/// Where in an image the sector of a record is that is counted after the system's tracks, which are two on a floppy disk. A number of the
/// table is taken modulo 26, which changes none: so the sum is known to stay in range.
pub fn place(kind: Kind, number: u32) -> u32 {
    match kind {
        Kind::Ibm3740 => {
            (number / 26 * 26).saturating_add(52 + SKEW[(number % 26) as usize] % 26)
        }
        Kind::Hd4 | Kind::Hd8 => number,
    }
}

/// An entry that begins with a byte and a letter's name, `A.TXT`.
pub fn named(first: u8, letter: u8) -> EntryBytes {
    let mut entry = [0; 32];
    entry[0] = first;
    entry[1..12].copy_from_slice(b"        TXT");
    entry[1] = letter;
    entry
}

/// A directory entry of a file of user 0, with its last extent and record count, and no block.
pub fn file(letter: u8, ex: u8, rc: u8) -> EntryBytes {
    let mut entry = named(0, letter);
    entry[12] = ex;
    entry[15] = rc;
    entry
}

/// An entry with a byte changed.
pub fn with(entry: EntryBytes, place: usize, byte: u8) -> EntryBytes {
    let mut entry = entry;
    entry[place % 32] = byte;
    entry
}

/// An entry with a block at a place.
pub fn held(kind: Kind, entry: EntryBytes, index: usize, block: u16) -> EntryBytes {
    let mut entry = entry;
    let [low, high] = block.to_le_bytes();
    if layout_of(kind).is_wide {
        let at = index % 8 * 2;
        entry[16 + at] = low;
        entry[17 + at] = high;
    } else {
        entry[16 + index % 16] = low;
    }
    entry
}

/// Another file of one record, which no job names: it has the first block.
pub fn other(kind: Kind) -> EntryBytes {
    held(kind, file(b'B', 0, 1), 0, layout_of(kind).first)
}

/// An XFCB of a file of user 0.
pub fn xfcb(letter: u8) -> EntryBytes {
    named(16, letter)
}

/// An entry of a first byte and a letter's name that guards by the password SECRET: the XFCB of a file, or the label. Its mode is byte
/// 12. The password's bytes are kept from the last to the first, each XORed with their sum, which is 06h modulo 256.
pub fn guard(first: u8, letter: u8, mode: u8) -> EntryBytes {
    let mut entry = with(with(named(first, letter), 12, mode), 13, 6);
    entry[16..24].copy_from_slice(b"&&RCTECU");
    entry
}

/// The number of the block at a place of an entry; 0 where there is none.
fn block_at(kind: Kind, entry: &EntryBytes, index: u32) -> u32 {
    if layout_of(kind).is_wide {
        let at = (index % 8 * 2) as usize;
        u32::from(u16::from_le_bytes([entry[16 + at], entry[17 + at]]))
    } else {
        u32::from(entry[16 + (index % 16) as usize])
    }
}

/// Where after the system's tracks the record of a number is in a file, by the entry that covers it, if that has its block.
pub fn record_at(kind: Kind, entry: &EntryBytes, number: u32) -> Option<u32> {
    let layout = layout_of(kind);
    let block = block_at(kind, entry, number % layout.entry / layout.block);
    if block == 0 {
        return None;
    }
    Some(
        block
            .saturating_mul(layout.block)
            .saturating_add(number % layout.block),
    )
}

/// The bytes of the directory's sector with the entries from a slot on; where none of them is left, E5h.
pub fn directory_sector(entries: &[EntryBytes], slot: usize) -> [u8; 128] {
    let mut sector = [0xE5; 128];
    for (byte, value) in sector.iter_mut().enumerate() {
        if let Some(entry) = entries.get(slot.saturating_add(byte / 32)) {
            *value = entry[byte % 32];
        }
    }
    sector
}

/// One of the four entries of a sector of the directory.
pub fn entry_in(sector: &[u8; 128], index: usize) -> EntryBytes {
    let mut entry = [0; 32];
    for (byte, value) in entry.iter_mut().enumerate() {
        if let Some(found) = sector.get((index % 4 * 32).saturating_add(byte)) {
            *value = *found;
        }
    }
    entry
}

/// Puts a sector into an image.
pub fn put_sector(image: &mut [u8], sector: u32, bytes: &[u8; 128]) {
    let first = (sector as usize).saturating_mul(128);
    for (byte, value) in bytes.iter().enumerate() {
        if let Some(old) = image.get_mut(first.saturating_add(byte)) {
            *old = *value;
        }
    }
}

/// Puts a text into an image as a record that is counted after the system's tracks, with zeros after the text.
pub fn put_text(image: &mut [u8], kind: Kind, number: u32, text: &[u8]) {
    let mut bytes = [0; 128];
    for (byte, value) in bytes.iter_mut().enumerate() {
        if let Some(letter) = text.get(byte) {
            *value = *letter;
        }
    }
    put_sector(image, place(kind, number), &bytes);
}

/// Puts the entry of a slot into an image.
fn put_entry(image: &mut [u8], kind: Kind, slot: usize, entry: &EntryBytes) {
    let sector = place(kind, (slot / 4 % 128) as u32) as usize;
    let first = sector.saturating_mul(128).saturating_add(slot % 4 * 32);
    for (byte, value) in entry.iter().enumerate() {
        if let Some(old) = image.get_mut(first.saturating_add(byte)) {
            *old = *value;
        }
    }
}

/// The image of a disk with these entries from slot 0 on, all of whose other bytes are E5h. It is made sector by sector: in a test that is
/// compiled with checks, a `vec!` of its bytes takes a second for each five MiB.
pub fn image(alloc: Global, kind: Kind, entries: &[EntryBytes]) -> Result<Vec<u8>, AllocError> {
    let bytes = layout_of(kind).bytes;
    let mut image = Vec::with_capacity(alloc, bytes)?;
    for _sector in 0..bytes / 128 {
        image.extend_from_slice(&[0xE5; 128])?;
    }
    for (slot, entry) in entries.iter().enumerate() {
        put_entry(image.as_mut_slice(), kind, slot, entry);
    }
    Ok(image)
}
