ghost use Rattle.std.specs.Prelude.{◌≡◌, ◌+◌, ◌≤◌, slice_index};
ghost use Rattle.mpm_dirent.specs.Entries.{part, file_of, xfcb_of, label_of, entry_of};
ghost use Rattle.mpm_dirent.specs.Proper.{IsProper, MapFits, HasSizes};

use crate::kinds::{Entry, FileEntry, LabelEntry, XfcbEntry};
use crate::maps::read_map;

/// Reads an entry of 32 bytes, whose map is wide, of words, or narrow, of bytes.
#[tactic(auto, unfolding(crate::specs::Entries::entry_of))]
pub fn read_entry(bytes: &[u8; 32], wide: bool) -> Entry
    ensures entry { result ≡ entry_of bytes.now wide }
    ensures proper { IsProper wide result }
    ensures sizes { HasSizes result }
{
    match bytes[0] {
        0..=15 => Entry::File {
            file: read_file(bytes, wide),
        },
        16..=31 => Entry::Xfcb {
            xfcb: read_xfcb(bytes),
        },
        0x20 => Entry::Label {
            label: read_label(bytes),
        },
        0xE5 => Entry::Free,
        _ => Entry::Kept { bytes: *bytes },
    }
}

/// Reads a file's entry.
#[tactic(auto, unfolding(crate::specs::Entries::file_of))]
fn read_file(bytes: &[u8; 32], wide: bool) -> FileEntry
    ensures file { result ≡ file_of bytes.now wide }
    ensures user { result.user ≡ slice_index bytes.now 0 }
    ensures fits { MapFits wide result.blocks }
{
    FileEntry {
        user: bytes[0],
        name: copied(bytes, 1),
        ex: bytes[12],
        s1: bytes[13],
        s2: bytes[14],
        rc: bytes[15],
        blocks: read_map(&copied(bytes, 16), wide),
    }
}

/// Reads an XFCB.
#[tactic(auto, unfolding(crate::specs::Entries::xfcb_of))]
fn read_xfcb(bytes: &[u8; 32]) -> XfcbEntry
    requires { 16 ≤ slice_index bytes.now 0 }
    ensures xfcb { result ≡ xfcb_of bytes.now }
    ensures user { result.user + 16 ≡ slice_index bytes.now 0 }
{
    XfcbEntry {
        user: bytes[0] - 16,
        name: copied(bytes, 1),
        mode: bytes[12],
        decode: bytes[13],
        password: copied(bytes, 16),
        first: copied(bytes, 24),
        second: copied(bytes, 28),
    }
}

/// Reads a directory label.
#[tactic(auto, unfolding(crate::specs::Entries::label_of))]
fn read_label(bytes: &[u8; 32]) -> LabelEntry
    ensures { result ≡ label_of bytes.now }
{
    LabelEntry {
        name: copied(bytes, 1),
        mode: bytes[12],
        decode: bytes[13],
        password: copied(bytes, 16),
        first: copied(bytes, 24),
        second: copied(bytes, 28),
    }
}

/// Some bytes from a place on.
fn copied<const N: usize>(bytes: &[u8; 32], from: usize) -> [u8; N]
    requires { from + N ≤ 32 }
    ensures { result ≡ part from N bytes.now }
{
    let mut part = [0; N];
    part.copy_from_slice(&bytes[from..from + N]);
    part
}
