ghost use Rattle.std.specs.Prelude.{◌≡◌, ◌<◌, ◌≤◌, ◌∷◌, drop};
ghost use Rattle.mpm_dirent.specs.Entries.{part, bytes_of};
ghost use Rattle.mpm_dirent.specs.Proper.{IsProper};
ghost use Rattle.mpm_blocks.specs.Sectors.{with_slot};
ghost use Rattle.mpm_sectors.specs.Slots.{IsReadBack, with_reserved, laid_over, slot_bytes};

use mpm_dirent::{Entry, write_entry};

/// The bytes of an entry. Whatever bytes it is put over, it is read back, and they stay as many.
pub(crate) fn entry_bytes(entry: &Entry, wide: bool) -> [u8; 32]
    requires { IsProper wide entry.now }
    ensures bytes { result ≡ bytes_of entry.now wide }
    ensures read { IsReadBack wide entry.now }
{
    let mut bytes = [0; 32];
    bytes.copy_from_slice(&write_entry(entry, wide));
    bytes
}

/// Puts an entry of these bytes in the place of another, one of the four of a sector.
pub(crate) fn put_entry(sector: &mut [u8; 128], place: u16, entry: &Entry, bytes: &[u8; 32])
    requires { place < 4 }
    ensures { sector.new ≡ with_slot sector.old place (laid_over (slot_bytes sector.old place) entry.now bytes.now) }
{
    let from = 32 * usize::from(place);
    let over = entry_over(&slot_bytes(sector, from), entry, bytes);
    sector[from..from + 32].copy_from_slice(&over);
}

/// The 32 bytes of a sector from a place on.
fn slot_bytes(sector: &[u8; 128], from: usize) -> [u8; 32]
    requires { from ≤ 96 }
    ensures { result ≡ part from 32 sector.now }
{
    let mut bytes = [0; 32];
    bytes.copy_from_slice(&sector[from..from + 32]);
    bytes
}

/// An entry of these bytes in the place of others.
fn entry_over(old: &[u8; 32], entry: &Entry, bytes: &[u8; 32]) -> [u8; 32]
    ensures { result ≡ laid_over old.now entry.now bytes.now }
{
    match entry {
        Entry::Free => freed(old),
        Entry::Xfcb { .. } | Entry::Label { .. } => reserving(old, bytes),
        Entry::File { .. } | Entry::Kept { .. } => *bytes,
    }
}

/// A free entry in the place of others: the first byte alone is changed.
fn freed(old: &[u8; 32]) -> [u8; 32]
    ensures { result ≡ 229 ∷ drop 1 old.now }
{
    let mut bytes = *old;
    bytes[0] = 0xE5;
    bytes
}

/// An XFCB or a label in the place of others: the bytes that no field says stay where they were those of one.
fn reserving(old: &[u8; 32], new: &[u8; 32]) -> [u8; 32]
    ensures { result ≡ with_reserved old.now new.now }
{
    let mut bytes = *new;
    if old[0] >= 16 && old[0] <= 32 {
        bytes[14..16].copy_from_slice(&old[14..16]);
    }
    bytes
}
