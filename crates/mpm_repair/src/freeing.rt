ghost use Rattle.std.specs.Prelude.{◌≤◌, ◌<◌, length};
ghost use Rattle.mpm_fault_lines.specs.Lists.{listed, listed_at};
ghost use Rattle.mpm_repair.specs.Freeing.{FreesEntries};

use mpm_dirent::Entry;
use mpm_fault_lines::Slots;

/// Frees some slots of a directory's entries; a slot that is free already counts too. The number of these slots.
pub fn free_entries(slots: &Slots, entries: &mut [Entry]) -> u16
    requires { length entries.old ≤ 512 }
    ensures { FreesEntries (listed slots.now (length entries.old)) entries.old entries.new result }
{
    let mut count = 0;
    for slot in 0..entries.len() {
        count += free_at(slots, slot as u16, entries);
    }
    count
}

/// Frees a slot of a directory's entries, where it is one of some, and answers 1; else 0.
#[tactic(auto, unfolding(crate::specs::Freeing::freed))]
fn free_at(slots: &Slots, slot: u16, entries: &mut [Entry]) -> u16
    requires { slot < length entries.old }
    ensures { FreesEntries (listed_at slots.now slot) entries.old entries.new result }
{
    if slots.has(slot) {
        entries[usize::from(slot)] = Entry::Free;
        1
    } else {
        0
    }
}
