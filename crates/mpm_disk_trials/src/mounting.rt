//! Which images are mounted, with what is free then, and what is reported of the others.
ghost use Rattle.std.specs.Prelude.{ℕ, List};
ghost use Rattle.mpm_port.specs.MemoryDisks.{IsFree};

use mpm_base::Kind;
use mpm_dirent::Entry;
use mpm_mount::{MountError, Mounted, mount};
use mpm_port::{Drives, MemoryDrives};
use std::alloc::Global;
use std::test::Fail;

/// The bytes of a file's entry of a one-letter name, of user 0.
fn file(letter: u8, ex: u8, rc: u8, block: u8) -> [u8; 32] {
    let mut entry = [0; 32];
    entry[1..12].copy_from_slice(b"        TXT");
    entry[1] = letter;
    entry[12] = ex;
    entry[15] = rc;
    entry[16] = block;
    entry
}

/// An entry of no known sort, which is kept unread.
const KEPT: [u8; 32] = [0xFF; 32];

/// Puts an entry at its place in an image.
fn put(image: &mut [u8], from: usize, entry: &[u8; 32]) {
    for (place, byte) in entry.iter().enumerate() {
        if let Some(old) = image.get_mut(from.saturating_add(place)) {
            *old = *byte;
        }
    }
}

/// Mounts an image as drive A.
fn mounts_image(
    alloc: Global,
    kind: Kind,
    image: &[u8],
) -> Result<Result<Mounted, MountError>, Fail> {
    let mut drives = MemoryDrives::new(alloc);
    mounts_on(alloc, &mut drives, kind, image)
}

/// Attaches drive A to an image, and mounts it.
fn mounts_on(
    alloc: Global,
    drives: &mut MemoryDrives,
    kind: Kind,
    image: &[u8],
) -> Result<Result<Mounted, MountError>, Fail>
    requires { (name : List ℕ) → IsFree drives.old name }
{
    drives.add("disk", image)?;
    drives.attach(0, "disk")?;
    Ok(mount(alloc, drives, 0, kind))
}

/// How many bytes the image of a kind has.
fn size(kind: Kind) -> usize {
    match kind {
        Kind::Ibm3740 => 256_256,
        Kind::Hd4 => 4_194_304,
        Kind::Hd8 => 8_388_608,
    }
}

/// Mounts the image of a kind whose bytes are E5h, but for these entries at their places.
fn mounts(
    alloc: Global,
    kind: Kind,
    entries: &[(usize, [u8; 32])],
) -> Result<Result<Mounted, MountError>, Fail> {
    let mut image = vec![in alloc; 0xE5; size(kind)]?;
    for (from, entry) in entries {
        put(image.as_mut_slice(), *from, entry);
    }
    mounts_image(alloc, kind, image.as_slice())
}

/// What is looked at of a mounted drive: the free records and the lowest free slot, or the error.
type Seen = Result<(u32, Option<u16>), MountError>;

fn seen(mounted: Result<Mounted, MountError>) -> Seen {
    match mounted {
        Ok(mounted) => Ok((mounted.free_records(), mounted.free_slot())),
        Err(error) => Err(error),
    }
}

/// The fault of an image.
fn fault(cause: u8, place: u32) -> Seen {
    Err(MountError::Image { cause, place })
}

/// A row: the entries of an image at their places, and what is seen of it.
type Row<'a> = (&'a [(usize, [u8; 32])], Seen);

/// Whether an image whose entries are free, with the row's entries put there, comes to what the row says.
fn is_so(alloc: Global, kind: Kind, image: &mut [u8], row: &Row) -> Result<bool, Fail> {
    let (entries, wanted) = row;
    for (from, entry) in *entries {
        put(image, *from, entry);
    }
    let so = seen(mounts_image(alloc, kind, image)?) == *wanted;
    for (from, _) in *entries {
        put(image, *from, &[0xE5; 32]);
    }
    Ok(so)
}

/// The first row, if any, whose image of a kind comes to something else.
fn first_wrong(alloc: Global, kind: Kind, rows: &[Row]) -> Result<Option<usize>, Fail> {
    let mut image = vec![in alloc; 0xE5; size(kind)]?;
    for (number, row) in rows.iter().enumerate() {
        if !is_so(alloc, kind, image.as_mut_slice(), row)? {
            return Ok(Some(number));
        }
    }
    Ok(None)
}

/// Whether the first bytes of an image are reported as of another size.
fn is_another_size(alloc: Global, kind: Kind, image: &[u8]) -> Result<bool, Fail> {
    Ok(seen(mounts_image(alloc, kind, image)?) == fault(1, 0))
}

/// Whether images of no byte, of one byte less and of one more than a kind has are of another size.
fn is_exact(alloc: Global, kind: Kind) -> Result<bool, Fail> {
    let mut image = vec![in alloc; 0xE5; size(kind).saturating_add(1)]?;
    let more = is_another_size(alloc, kind, image.as_slice())?;
    image.truncate(size(kind).saturating_sub(1));
    let less = is_another_size(alloc, kind, image.as_slice())?;
    Ok(more && less && is_another_size(alloc, kind, &[])?)
}

#[test]
fn a_floppy_has_its_size(rt: HostRuntime) -> Result<(), Fail> {
    assert!(rt; is_exact(rt.alloc(), Kind::Ibm3740)?);
    Ok(())
}

#[test]
fn a_disk_of_four_megabytes_has_its_size(rt: HostRuntime) -> Result<(), Fail> {
    assert!(rt; is_exact(rt.alloc(), Kind::Hd4)?);
    Ok(())
}

#[test]
fn a_disk_of_eight_megabytes_has_its_size(rt: HostRuntime) -> Result<(), Fail> {
    assert!(rt; is_exact(rt.alloc(), Kind::Hd8)?);
    Ok(())
}

/// What is seen of an image of bytes FFh, of which each entry is kept unread.
fn full(alloc: Global, kind: Kind) -> Result<Seen, Fail> {
    let image = vec![in alloc; 0xFF; size(kind)]?;
    Ok(seen(mounts_image(alloc, kind, image.as_slice())?))
}

/// Whether disks of kept entries have all their records free, and no slot.
fn have_no_slot(alloc: Global) -> Result<bool, Fail> {
    Ok(
        full(alloc, Kind::Ibm3740)? == Ok((1_928, None))
            && full(alloc, Kind::Hd4)? == Ok((32_640, None))
            && full(alloc, Kind::Hd8)? == Ok((65_408, None)),
    )
}

#[test]
fn a_disk_of_kept_entries_has_no_free_slot(rt: HostRuntime) -> Result<(), Fail> {
    assert!(rt; have_no_slot(rt.alloc())?);
    Ok(())
}

/// The bytes of a file's entry of user 0 with two blocks.
fn file_of_two(letter: u8, first: u8, second: u8) -> [u8; 32] {
    let mut entry = file(letter, 0, 1, first);
    entry[17] = second;
    entry
}

/// The first fault is reported, and a block of no file before a used one.
#[test]
fn floppies(rt: HostRuntime) -> Result<(), Fail> {
    let rows: [Row; 9] = [
        (&[], Ok((1_928, Some(0)))),
        (&[(6_720, file(b'A', 0, 0x81, 243))], fault(2, 2)),
        (&[(6_720, file(b'A', 0, 0x80, 243))], fault(3, 2)),
        (&[(7_424, file(b'A', 0, 0x81, 2))], fault(2, 4)),
        (
            &[(6_752, file(b'A', 0, 1, 7)), (8_224, file(b'B', 0, 1, 7))],
            fault(4, 9),
        ),
        (
            &[(6_752, file(b'A', 0, 1, 7)), (8_224, file(b'A', 0, 1, 7))],
            fault(4, 9),
        ),
        (
            &[
                (6_656, file(b'A', 0, 1, 7)),
                (6_688, file_of_two(b'B', 7, 243)),
            ],
            fault(3, 1),
        ),
        (&[(6_656, file_of_two(b'A', 7, 7))], fault(4, 0)),
        (&[(6_656, file_of_two(b'A', 2, 1))], fault(3, 0)),
    ];
    assert_eq!(rt; first_wrong(rt.alloc(), Kind::Ibm3740, &rows)?, None);
    Ok(())
}

/// The bytes of an XFCB of user 0, or where the sort is 20h of a label.
fn protection(sort: u8, letter: u8) -> [u8; 32] {
    let mut entry = file(letter, 0, 0, 0);
    entry[0] = sort;
    entry
}

/// The bytes of a file's entry of user 0, of an extent above 31.
fn file_at(s2: u8, ex: u8) -> [u8; 32] {
    let mut entry = file(b'A', ex, 0, 0);
    entry[14] = s2;
    entry
}

/// A label and the XFCB of a name stand once, as the extents of a file, which are below 2048.
#[test]
fn names_and_extents_stand_once(rt: HostRuntime) -> Result<(), Fail> {
    let rows: [Row; 6] = [
        (
            &[
                (6_688, protection(0x20, b'A')),
                (6_752, protection(0x20, b'B')),
            ],
            fault(7, 3),
        ),
        (
            &[
                (6_688, protection(0x10, b'A')),
                (6_752, protection(0x10, 0xC1)),
            ],
            fault(8, 3),
        ),
        (
            &[
                (6_656, protection(0x10, b'A')),
                (6_688, protection(0x11, b'A')),
            ],
            Ok((1_928, Some(2))),
        ),
        (&[(6_656, file_at(63, 31))], Ok((1_928, Some(1)))),
        (&[(6_656, file_at(64, 0))], fault(6, 0)),
        (
            &[(6_656, file_at(1, 0)), (6_688, file_at(0, 32))],
            fault(5, 1),
        ),
    ];
    assert_eq!(rt; first_wrong(rt.alloc(), Kind::Ibm3740, &rows)?, None);
    Ok(())
}

/// On a disk of 4 MiB an entry covers one extent; a block is free that no file has, with a slot that no entry has.
#[test]
fn disks_of_four_megabytes(rt: HostRuntime) -> Result<(), Fail> {
    let rows: [Row; 3] = [
        (&[], Ok((32_640, Some(0)))),
        (
            &[(128, file(b'A', 2, 1, 0)), (192, file(b'A', 3, 1, 0))],
            Ok((32_640, Some(0))),
        ),
        (
            &[(0, KEPT), (32, file(b'A', 0, 1, 8))],
            Ok((32_624, Some(2))),
        ),
    ];
    assert_eq!(rt; first_wrong(rt.alloc(), Kind::Hd4, &rows)?, None);
    Ok(())
}

/// On a disk of 8 MiB an entry covers two extents by its last.
#[test]
fn disks_of_eight_megabytes(rt: HostRuntime) -> Result<(), Fail> {
    let rows: [Row; 3] = [
        (&[], Ok((65_408, Some(0)))),
        (
            &[(128, file(b'A', 2, 1, 0)), (192, file(b'A', 3, 1, 0))],
            fault(5, 6),
        ),
        (
            &[(128, file(b'A', 1, 1, 0)), (192, file(b'A', 2, 1, 0))],
            Ok((65_408, Some(0))),
        ),
    ];
    assert_eq!(rt; first_wrong(rt.alloc(), Kind::Hd8, &rows)?, None);
    Ok(())
}

/// Whether look-ups find the slots of the entries of `looks_up`.
fn are_found(mounted: &Mounted) -> bool {
    mounted.extent(0, b"A       TXT", 2) == Some(1)
        && mounted.extent(0, b"A       TXT", 3) == Some(1)
        && mounted.extent(0, b"A       TXT", 1).is_none()
        && mounted.extent(1, b"A       TXT", 2).is_none()
        && mounted.xfcb(0, b"A       TXT") == Some(2)
        && mounted.xfcb(0, b"B       TXT").is_none()
        && mounted.label() == Some(3)
        && mounted.free_slot() == Some(0)
        && mounted.free_block() == Some(4)
}

#[test]
fn looks_up(rt: HostRuntime) -> Result<(), Fail> {
    let entries = [
        (32, file(b'A' + 0x80, 2, 1, 5)),
        (64, protection(0x10, b'A')),
        (96, protection(0x20, b'A')),
    ];
    let are = match mounts(rt.alloc(), Kind::Hd8, &entries)? {
        Ok(mounted) => are_found(&mounted),
        Err(_) => false,
    };
    assert!(rt; are);
    Ok(())
}

/// What is free after the entry in slot 1 goes: records, slots and the lowest slot.
fn free_without(mounted: &mut Mounted) -> (u32, u16, Option<u16>) {
    mounted.put(1, Entry::Free);
    (
        mounted.free_records(),
        mounted.free_entries(),
        mounted.free_slot(),
    )
}

#[test]
fn the_blocks_of_an_entry_that_goes_are_free(rt: HostRuntime) -> Result<(), Fail> {
    let entries = [(0, KEPT), (32, file(b'A', 0, 1, 8))];
    let free = match mounts(rt.alloc(), Kind::Hd4, &entries)? {
        Ok(mut mounted) => {
            let before = (
                mounted.free_records(),
                mounted.free_entries(),
                mounted.free_slot(),
            );
            (before, free_without(&mut mounted))
        }
        Err(_) => ((0, 0, None), (0, 0, None)),
    };
    assert_eq!(rt; free, ((32_624, 510, Some(2)), (32_640, 511, Some(1))));
    Ok(())
}

/// Whether searches for user 0 find these first letters, extents and slots, one after the other, and no more.
fn finds(mounted: &Mounted, pattern: &[u8; 11], wanted: &[(u8, u16, u16)]) -> bool {
    let mut last = None;
    for (letter, extent, slot) in wanted {
        match mounted.next(0, pattern, last) {
            Some(found)
                if found.name[0] == *letter && found.extent == *extent && found.slot == *slot => {
                last = Some(found);
            }
            _ => return false,
        }
    }
    mounted.next(0, pattern, last).is_none()
}

/// Whether both patterns find what they should of a directory.
fn both_find(mounted: &Mounted) -> bool {
    let all = [(b'A', 1, 2), (b'A', 2, 1), (b'B', 0, 0)];
    finds(mounted, b"???????????", all.as_slice())
        && finds(mounted, b"B       T?T", &all[2..])
        && finds(mounted, b"C       TXT", &all[3..])
}

#[test]
fn a_search_goes_by_name_and_entry_number(rt: HostRuntime) -> Result<(), Fail> {
    let mut others = file(b'A', 0, 1, 0);
    others[0] = 3;
    let entries = [
        (0, file(b'B', 0, 1, 0)),
        (32, file(b'A', 2, 1, 0)),
        (64, file(b'A', 1, 1, 0)),
        (96, others),
    ];
    let found = match mounts(rt.alloc(), Kind::Hd8, &entries)? {
        Ok(mounted) => both_find(&mounted),
        Err(_) => false,
    };
    assert!(rt; found);
    Ok(())
}
