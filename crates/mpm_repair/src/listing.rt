ghost use Rattle.std.specs.Prelude.{◌≡◌, ◌≤◌, IfOk, OnOk, length};
ghost use Rattle.mpm_repair.specs.FaultLists.{ListsFaults, IsEntry, JudgesSlot, fault_at};

use crate::OutOfMemory;
use crate::judging::judge;
use mpm_base::Kind;
use mpm_dirent::Entry;
use mpm_fault_lines::SlotFault;
use std::alloc::Global;

/// The entries of a directory that are at fault, in the order of their slots, each judged against the earlier ones that
/// stay. What is listed becomes free in `entries`, so that those that stay are left.
#[tactic(auto, unfolding(crate::specs::FaultLists::fault_list))]
pub fn fault_list(
    alloc: Global,
    kind: Kind,
    entries: &mut [Entry],
) -> Result<Vec<SlotFault>, OutOfMemory>
    requires { length entries.old ≤ 65535 }
    ensures { IfOk result (λ faults. ListsFaults kind entries.old entries.new faults.items) }
{
    let mut faults = Vec::new(alloc);
    for slot in 0..entries.len() {
        judge_slot(kind, slot, entries, &mut faults)?;
    }
    Ok(faults)
}

/// Lists the entry in a slot where it is at fault, and frees it then; all before it stay.
fn judge_slot(
    kind: Kind,
    slot: usize,
    entries: &mut [Entry],
    faults: &mut Vec<SlotFault>,
) -> Result<(), OutOfMemory>
    requires { IsEntry slot entries.old }
    ensures { OnOk result (JudgesSlot kind slot entries.old entries.new faults.old.items faults.new.items) }
{
    match judge_at(kind, entries, slot) {
        Some(fault) => {
            faults.push(fault)?;
            entries[slot] = Entry::Free;
        }
        None => {}
    }
    Ok(())
}

/// What is wrong with the entry in a slot, after all before it.
fn judge_at(kind: Kind, entries: &[Entry], slot: usize) -> Option<SlotFault>
    requires { IsEntry slot entries.now }
    ensures { result ≡ fault_at kind entries.now slot }
{
    judge(kind, &entries[..slot], slot as u16, &entries[slot])
}
