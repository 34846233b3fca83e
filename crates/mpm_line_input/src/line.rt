ghost use Rattle.std.specs.Prelude.{◌≡◌, ◌≤◌, ◌<◌, ◌+◌, ◌++◌, [], length, true, if◌then◌else◌};
ghost use Rattle.mpm_line_input.specs.Keys.{key_of as meaning_of, line_after};
ghost use Rattle.mpm_line_input.specs.declared.line.LineKey.TheVariants.{Join, Cancel};
ghost use Rattle.mpm_line_input.specs.Lines.{so_far, ChangesLine, is_full as is_full_line, ends, ends_at as does_end, echo_of, written_by, line_end, line_answer};

use crate::Echo;
use mpm_base::Reply;

/// What a key means to a line that is read.
#[derive(Clone, Copy, Debug, PartialEq, Eq)]
pub enum LineKey {
    /// CR and LF end the line.
    End,
    /// BS and rubout take the last byte back.
    Rubout,
    /// ^U and ^X empty the line.
    Cancel,
    /// Every other key joins the line.
    Join,
}

/// What a step of a line input did besides what it left of the line.
#[derive(Drop)]
pub struct Edit {
    /// What is written to the console.
    pub written: Echo,
    /// Whether the line ends here.
    pub ends: bool,
}

/// What a key means to a line. (MP/M II Programmer's Guide, "Function 10: Read Console Buffer".)
#[tactic(auto, unfolding(crate::specs::Keys::key_of))]
pub fn key_of(key: u8) -> LineKey
    ensures { result ≡ meaning_of key }
{
    match key {
        b'\r' | b'\n' => LineKey::End,
        0x08 | 0x7F => LineKey::Rubout,
        0x15 | 0x18 => LineKey::Cancel,
        _ => LineKey::Join,
    }
}

/// Whether a line of a length ends since it has the greatest length or more. It is to be asked in each step before a key is
/// taken, as the greatest length may have changed.
pub fn is_full(length: u8, greatest: u8) -> bool
    ensures { result ≡ is_full_line length greatest }
{
    greatest <= length
}

/// The step of a line that is full: it ends, and no key is taken.
pub fn full_line() -> Edit
    ensures written { result.written ≡ line_end }
    ensures ends { result.ends ≡ true }
{
    Edit {
        written: Echo::of(b"\r"),
        ends: true,
    }
}

/// The step of a line that takes a key: what the key makes of the line, which is the first `count` bytes of `line`, what is
/// written for it, and whether the line ends with it. (MP/M II Programmer's Guide, "Function 10: Read Console Buffer".)
#[tactic(auto, using(crate::proofs::Laws::restored, crate::proofs::Laws::emptied))]
pub fn edited(line: &mut [u8; 255], count: &mut u8, greatest: u8, key: u8) -> Edit
    requires { count.old < greatest }
    ensures changes { ChangesLine key line.old count.old line.new count.new }
    ensures written { result.written ≡ written_by (so_far line.old count.old) greatest key }
    ensures ends { result.ends ≡ ends (so_far line.old count.old) greatest key }
    ensures within { count.new ≤ greatest }
    ensures few { length result.written ≤ 3 }
    ensures restored { meaning_of key ≡ Join → line_after (so_far line.new count.new) 8 ≡ so_far line.old count.old }
    ensures emptied { meaning_of key ≡ Cancel → so_far line.new count.new ≡ [] }
{
    let shown = echo(&line[..usize::from(*count)], key);
    change(line, count, key);
    let ends = ends_at(*count, greatest, key);
    Edit {
        written: with_end(shown, ends),
        ends,
    }
}

/// Answers a line that ended to the buffer at an address, whose first byte is the greatest length: the line's length comes
/// after it, and then the line.
#[tactic(auto, unfolding(crate::specs::Lines::line_answer))]
pub fn answer_line(line: &[u8; 255], count: u8, address: u16, reply: &mut Reply)
    ensures { reply.new ≡ line_answer (so_far line.now count) address }
{
    let size = usize::from(count);
    let mut bytes = [0; 256];
    bytes[0] = count;
    bytes[1..1 + size].copy_from_slice(&line[..size]);
    reply.answer_with(0, address.wrapping_add(1), &bytes[..1 + size]);
}

/// What is written with a key: CR after its echo, where the line ends.
fn with_end(shown: Echo, ends: bool) -> Echo
    requires { length shown ≤ 3 }
    ensures { result ≡ shown ++ (if ends then line_end else []) }
{
    let mut written = shown;
    if ends {
        written.push(b'\r');
    }
    written
}

/// Whether a line ends that has so many bytes after a key.
#[tactic(auto, unfolding(crate::specs::Lines::ends_at))]
fn ends_at(count: u8, greatest: u8, key: u8) -> bool
    ensures { result ≡ does_end count greatest key }
{
    match key_of(key) {
        LineKey::End => true,
        _ => is_full(count, greatest),
    }
}

/// What a key makes of a line.
#[tactic(auto, unfolding(crate::specs::Keys::line_after, crate::specs::Lines::stored))]
fn change(line: &mut [u8; 255], count: &mut u8, key: u8)
    requires { count.old < 255 }
    ensures changes { ChangesLine key line.old count.old line.new count.new }
    ensures one { count.new ≤ count.old + 1 }
{
    match key_of(key) {
        LineKey::End => {}
        LineKey::Rubout => *count = count.saturating_sub(1),
        LineKey::Cancel => *count = 0,
        LineKey::Join => {
            line[usize::from(*count)] = key;
            *count += 1;
        }
    }
}

/// What is written for a key, but for the end.
#[tactic(auto, unfolding(crate::specs::Lines::echo_of))]
fn echo(line: &[u8], key: u8) -> Echo
    ensures value { result ≡ echo_of line.now key }
    ensures few { length result ≤ 3 }
{
    match key_of(key) {
        LineKey::End => Echo::new(),
        LineKey::Rubout if line.is_empty() => Echo::new(),
        LineKey::Rubout => Echo::of(b"\x08 \x08"),
        LineKey::Cancel => Echo::of(b"#\r\n"),
        LineKey::Join if key < 0x20 => Echo::of(&[b'^', key + 0x40]),
        LineKey::Join => Echo::of(&[key]),
    }
}
