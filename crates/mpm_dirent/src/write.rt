ghost use Rattle.std.specs.Prelude.{◌≡◌, ◌∷◌, ◌++◌, length};
ghost use Rattle.mpm_dirent.specs.Entries.{bytes_of, entry_of};
ghost use Rattle.mpm_dirent.specs.Proper.{IsProper};

use crate::kinds::Entry;
use crate::maps::write_map;

/// The 32 bytes of a proper entry, with a wide map, of words, or a narrow one, of bytes.
#[tactic(auto, unfolding(crate::specs::Entries::bytes_of))]
pub fn write_entry(entry: &Entry, wide: bool) -> [u8; 32]
    requires { IsProper wide entry.now }
    ensures bytes { result ≡ bytes_of entry.now wide }
    ensures back { entry_of result wide ≡ entry.now }
{
    match entry {
        Entry::Free => [0xE5; 32],
        Entry::File { file } => joined(
            file.user,
            &file.name,
            [file.ex, file.s1, file.s2, file.rc],
            &write_map(&file.blocks, wide),
        ),
        Entry::Xfcb { xfcb } => joined(
            16 + xfcb.user,
            &xfcb.name,
            [xfcb.mode, xfcb.decode, 0, 0],
            &stamped(&xfcb.password, &xfcb.first, &xfcb.second),
        ),
        Entry::Label { label } => joined(
            0x20,
            &label.name,
            [label.mode, label.decode, 0, 0],
            &stamped(&label.password, &label.first, &label.second),
        ),
        Entry::Kept { bytes } => *bytes,
    }
}

/// The bytes of an entry, of its four parts, written from the last on.
fn joined(sort: u8, name: &[u8; 11], middle: [u8; 4], rest: &[u8; 16]) -> [u8; 32]
    ensures bytes { result ≡ sort ∷ (name.now ++ (middle ++ rest.now)) }
    ensures name { length name.now ≡ 11 }
{
    let mut bytes = [0; 32];
    bytes[16..].copy_from_slice(rest);
    bytes[12..16].copy_from_slice(&middle);
    bytes[1..12].copy_from_slice(name);
    bytes[0] = sort;
    bytes
}

/// A password and two stamps, written from the last on.
fn stamped(password: &[u8; 8], first: &[u8; 4], second: &[u8; 4]) -> [u8; 16]
    ensures bytes { result ≡ password.now ++ (first.now ++ second.now) }
    ensures password { length password.now ≡ 8 }
    ensures first { length first.now ≡ 4 }
    ensures second { length second.now ≡ 4 }
{
    let mut bytes = [0; 16];
    bytes[12..].copy_from_slice(second);
    bytes[8..12].copy_from_slice(first);
    bytes[..8].copy_from_slice(password);
    bytes
}
