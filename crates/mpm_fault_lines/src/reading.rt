ghost use Rattle.std.specs.Prelude.{◌≡◌, ◌≤◌, ℕ, List, Ok, Err, IfSome, MatchResult, length};
ghost use Rattle.mpm_script.specs.Numbers.{number_of};
ghost use Rattle.mpm_fault_lines.specs.Lists as spec;

use crate::slots::Slots;
use mpm_script::{after, before, number, place_of};

/// The slots of a list of faults, a text of at most 65,536 bytes; else the number of its first bad line, counted from 1.
///
/// Each line is `fault`, a slot from 0 to the last one, a cause from 2 to 8, and a slot or `-`, with exactly one space
/// between them, and LF. Numbers are decimal, without sign or needless zero.
pub fn read_slots(text: &[u8], last: u16) -> Result<Slots, u32>
    requires last { last ≤ 511 }
    requires size { length text.now ≤ 65536 }
    ensures { MatchResult result (λ slots. (lines : List ℕ) × (spec.slots_of last text.now ≡ Ok lines) × (slots ≡ spec.marked lines)) (λ line. spec.slots_of last text.now ≡ Err line) }
{
    let mut slots = Slots::new();
    let mut rest = text;
    let mut line = 1;
    while !rest.is_empty() {
        if place_of(rest, b'\n') == rest.len() {
            return Err(line);
        }
        match slot_of_line(before(rest, b'\n'), last) {
            Some(slot) => slots.add(slot),
            None => return Err(line),
        }
        rest = after(rest, b'\n');
        line += 1;
    }
    Ok(slots)
}

/// The slot of a line without its LF.
#[tactic(auto, unfolding(crate::specs::Lists::slot_of_line))]
fn slot_of_line(line: &[u8], last: u16) -> Option<u16>
    ensures slot { result ≡ spec.slot_of_line last line.now }
    ensures limit { IfSome result (λ slot. slot ≤ last) }
{
    let words = after(line, b' ');
    if before(line, b' ') == b"fault".as_slice() && is_reason(after(words, b' '), last) {
        number(before(words, b' '), u32::from(last)).map(|slot| slot as u16)
    } else {
        None
    }
}

/// Whether a text is a cause, one space, and a slot or `-`.
#[tactic(auto, unfolding(crate::specs::Lists::is_reason))]
fn is_reason(text: &[u8], last: u16) -> bool
    ensures { result ≡ spec.is_reason last text.now }
{
    is_cause(before(text, b' ')) && is_other(after(text, b' '), last)
}

/// Whether a text is the cause of an entry's fault.
fn is_cause(text: &[u8]) -> bool
    ensures { result ≡ spec.is_cause (number_of 8 text.now) }
{
    match number(text, 8) {
        Some(cause) => 2 <= cause,
        None => false,
    }
}

/// Whether a text is a slot or `-`.
fn is_other(text: &[u8], last: u16) -> bool
    ensures { result ≡ spec.is_other last text.now }
{
    text == b"-".as_slice() || number(text, u32::from(last)).is_some()
}
