ghost use Rattle.std.specs.Prelude.{◌≡◌, ◌≤◌, [], ◌∷◌, ◌++◌, Some, None, length, if◌then◌else◌};
ghost use Rattle.std.specs.List.{list_any};
ghost use Rattle.mpm_dirent.specs.declared.kinds.Entry.TheVariants.{File};
ghost use Rattle.mpm_dirent.specs.Names as names;
ghost use Rattle.mpm_mount.specs.Faults as spec;
ghost use Rattle.mpm_mount.specs.Using.{IsUsedBy};

use crate::blocks::{claim_all, has_outside};
use crate::errors::ImageFault;
use crate::slots::{has_label, has_named, has_xfcb, name_of};
use mpm_base::Kind;
use mpm_blocks::BlockMap;
use mpm_dirent::{Entry, FileEntry, XfcbEntry, plain_name};

/// The first fault of a directory, whose entries' blocks become used in the map.
#[tactic(auto, using(crate::proofs::FirstFault::fault_found, crate::proofs::FirstFault::faultless_if))]
pub(crate) fn first_fault(
    kind: Kind,
    entries: &[Entry],
    blocks: &mut BlockMap,
) -> Option<ImageFault>
    requires few { length entries.now ≤ 65535 }
    requires new { IsUsedBy kind [] blocks.old }
    ensures fault { result ≡ spec.first_fault kind entries.now }
    ensures used { result ≡ None → IsUsedBy kind entries.now blocks.new }
{
    for slot in 0..entries.len() {
        if let Some(cause) = cause(kind, &entries[..slot], &entries[slot], blocks) {
            return Some(ImageFault {
                cause,
                place: slot as u32,
            });
        }
    }
    None
}

/// The least cause by which an entry is at fault after others; else its blocks become used too.
fn cause(kind: Kind, earlier: &[Entry], entry: &Entry, blocks: &mut BlockMap) -> Option<u8>
    requires { IsUsedBy kind earlier.now blocks.old }
    ensures cause { result ≡ spec.cause_of kind earlier.now entry.now }
    ensures used { result ≡ None → IsUsedBy kind (earlier.now ++ (entry.now ∷ [])) blocks.new }
{
    match entry {
        Entry::File { file } => file_cause(kind, earlier, file, blocks),
        Entry::Label { .. } => label_cause(earlier),
        Entry::Xfcb { xfcb } => xfcb_cause(earlier, xfcb),
        Entry::Free => None,
        Entry::Kept { .. } => None,
    }
}

/// The cause by which a label is at fault after others.
fn label_cause(earlier: &[Entry]) -> Option<u8>
    ensures { result ≡ (if list_any spec.is_label earlier.now then Some 7 else None) }
{
    if has_label(earlier) { Some(7) } else { None }
}

/// The cause by which an XFCB is at fault after others.
fn xfcb_cause(earlier: &[Entry], xfcb: &XfcbEntry) -> Option<u8>
    ensures { result ≡ (if list_any (spec.is_xfcb xfcb.now.user (names.plain xfcb.now.name)) earlier.now then Some 8 else None) }
{
    if has_xfcb(xfcb.user, &plain_name(&xfcb.name), earlier) {
        Some(8)
    } else {
        None
    }
}

/// The least cause by which a file's entry is at fault after others; else its blocks become used too.
#[tactic(auto, unfolding(crate::specs::Faults::file_cause))]
fn file_cause(kind: Kind, earlier: &[Entry], file: &FileEntry, blocks: &mut BlockMap) -> Option<u8>
    requires { IsUsedBy kind earlier.now blocks.old }
    ensures cause { result ≡ spec.file_cause kind earlier.now file.now }
    ensures used { result ≡ None → IsUsedBy kind (earlier.now ++ (File file.now ∷ [])) blocks.new }
{
    if file.rc > 128 {
        return Some(2);
    }
    if has_outside(kind, file) {
        return Some(3);
    }
    if !claim_all(kind, file, blocks) {
        return Some(4);
    }
    name_cause(kind, earlier, file)
}

/// The cause by which a file's entry is at fault for its number or its extent, after others.
fn name_cause(kind: Kind, earlier: &[Entry], file: &FileEntry) -> Option<u8>
    ensures { result ≡ spec.name_cause kind earlier.now file.now }
{
    if has_named(kind, &name_of(kind, file), earlier) {
        Some(5)
    } else if file.s2 > 63 || file.ex > 31 {
        Some(6)
    } else {
        None
    }
}
