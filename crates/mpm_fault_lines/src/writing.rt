ghost use Rattle.std.specs.Prelude.{◌≡◌, ◌≤◌, ◌+◌, IfOk, length};
ghost use Rattle.mpm_lines.specs.Lines.{Appends, field};
ghost use Rattle.mpm_fault_lines.specs.Lines as spec;

use crate::OutOfMemory;
use crate::fault::SlotFault;
use arrayvec::ArrayVec;
use mpm_lines::{push_line, push_number, push_word};
use std::alloc::Global;

/// A line of at most 72 bytes.
pub type Line = ArrayVec<u8, 72>;

/// The list of some faults: a line `fault SLOT CAUSE OTHER` for each, in order, OTHER `-` where there is none. Numbers
/// are decimal, and LF ends a line.
#[tactic(auto, unfolding(crate::specs::Lines::list_text))]
pub fn list_text(alloc: Global, faults: &[SlotFault]) -> Result<Vec<u8>, OutOfMemory>
    ensures { IfOk result (λ text. text.items ≡ spec.list_text faults.now) }
{
    let mut text = Vec::new(alloc);
    for fault in faults {
        text.extend_from_slice(line(fault).as_slice())?;
    }
    Ok(text)
}

/// `sound N` and LF, N the free records of an image without a fault.
pub fn sound_line(records: u32) -> Line
    ensures { result.items ≡ spec.sound_line records }
{
    let mut line = ArrayVec::new();
    push_line(b"sound", u64::from(records), &mut line);
    line
}

/// `freed N` and LF, N the slots that were freed.
pub fn freed_line(slots: u16) -> Line
    ensures { result.items ≡ spec.freed_line slots }
{
    let mut line = ArrayVec::new();
    push_line(b"freed", u64::from(slots), &mut line);
    line
}

/// The line of a fault.
fn line(fault: &SlotFault) -> Line
    ensures { result.items ≡ spec.line_of fault.now }
{
    let mut line = ArrayVec::new();
    line.try_extend_from_slice(b"fault").unwrap();
    push_number(u64::from(fault.slot), &mut line);
    push_number(u64::from(fault.cause), &mut line);
    push_other(fault.other, &mut line);
    line.push(b'\n');
    line
}

/// Puts a space and a slot after a line, or `-` for none.
fn push_other(other: Option<u16>, line: &mut Line)
    requires { length line.old.items + 21 ≤ 72 }
    ensures { Appends 21 (field (spec.other_text other)) line.old.items line.new.items }
{
    match other {
        Some(slot) => push_number(u64::from(slot), line),
        None => push_word(b"-", line),
    }
}
