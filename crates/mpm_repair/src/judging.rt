ghost use Rattle.std.specs.Prelude.{◌≡◌, ◌≤◌, ◌||◌, nat_lt, Some, None, option_map, length};
ghost use Rattle.mpm_dirent.specs.declared.kinds.Entry.TheVariants.{File};
ghost use Rattle.mpm_mount.specs.Faults.{cause_of};
ghost use Rattle.mpm_repair.specs.FaultLists.{told_of};

use crate::sharing::shared_slot;
use mpm_base::Kind;
use mpm_dirent::{Entry, FileEntry, plain_name};
use mpm_fault_lines::SlotFault;
use mpm_mount::{has_outside, label_slot, name_of, named_slot, xfcb_slot};

/// What is wrong with the entry in a slot, after earlier ones that stay.
pub(crate) fn judge(kind: Kind, earlier: &[Entry], slot: u16, entry: &Entry) -> Option<SlotFault>
    requires { length earlier.now ≤ 65535 }
    ensures { result ≡ option_map (told_of kind earlier.now slot entry.now) (cause_of kind earlier.now entry.now) }
{
    match entry {
        Entry::File { file } => judge_file(kind, earlier, slot, file),
        Entry::Label { .. } => clash(slot, 7, label_slot(earlier)),
        Entry::Xfcb { xfcb } => clash(
            slot,
            8,
            xfcb_slot(xfcb.user, &plain_name(&xfcb.name), earlier),
        ),
        Entry::Free | Entry::Kept { .. } => None,
    }
}

/// What is wrong with a file's entry in a slot.
fn judge_file(kind: Kind, earlier: &[Entry], slot: u16, file: &FileEntry) -> Option<SlotFault>
    requires { length earlier.now ≤ 65535 }
    ensures { result ≡ option_map (told_of kind earlier.now slot (File file.now)) (cause_of kind earlier.now (File file.now)) }
{
    if file.rc > 128 {
        return fault(slot, 2);
    }
    if has_outside(kind, file) {
        return fault(slot, 3);
    }
    if let Some(other) = shared_slot(kind, earlier, slot, file) {
        return clash(slot, 4, Some(other));
    }
    if let Some(other) = named_slot(kind, &name_of(kind, file), earlier) {
        return clash(slot, 5, Some(other));
    }
    if is_far(file) { fault(slot, 6) } else { None }
}

/// Whether an entry's S2 or EX is one that no file has. (MP/M II Programmer's Guide, "File Control Block Definition": EX, S2.)
fn is_far(file: &FileEntry) -> bool
    ensures { result ≡ (nat_lt 63 file.now.s2 || nat_lt 31 file.now.ex) }
{
    file.s2 > 63 || file.ex > 31
}

/// A fault of an entry by itself.
fn fault(slot: u16, cause: u8) -> Option<SlotFault>
    ensures { result ≡ Some (record { slot = slot; cause = cause; other = None }) }
{
    Some(SlotFault {
        slot,
        cause,
        other: None,
    })
}

/// A clash with the entry in another slot, where there is one.
fn clash(slot: u16, cause: u8, other: Option<u16>) -> Option<SlotFault>
    ensures { result ≡ option_map (λ one. record { slot = slot; cause = cause; other = Some one }) other }
{
    match other {
        Some(_) => Some(SlotFault { slot, cause, other }),
        None => None,
    }
}
