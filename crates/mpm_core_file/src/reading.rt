ghost use Rattle.std.specs.Prelude.{◌≡◌, ◌<◌, ◌+◌, IfSome, None, length};
ghost use Rattle.mpm_core_file.specs.CoreFiles.{IsHead, HasHead, Judges, head_at, regs_at, step_at, word_at, size_of, stands as stands_there, may_stand as may_stand_there, is_flag as is_flag_there, turned, first_bad, fault_by, fault_of};

use crate::head::{HEAD_SIZE, Head, MAGIC};
use mpm_base::{Pid, SegmentSpec};
use z80_regs::{InterruptMode, Regs};

/// Bytes that are no file of a core.
#[derive(Clone, Copy, Debug, PartialEq, Eq)]
pub struct CoreFault {
    /// Where the first of them stands that can't stand there. Where there are too few it is their number, and where there are too
    /// many the right one.
    pub place: u32,
}

/// Whether a flag stands at a place.
fn is_flag(place: usize) -> bool
    ensures { result ≡ is_flag_there place }
{
    place == 19 || place == 46 || place == 47 || place == 49 || place == 50
}

/// Whether a byte may stand at a place of the head, in the file of a segment of so many pages.
#[tactic(auto, unfolding(crate::specs::CoreFiles::may_stand))]
fn may_stand(pages: u8, place: usize, byte: u8) -> bool
    ensures { result ≡ may_stand_there pages place byte }
{
    if place < 8 {
        return byte == MAGIC[place];
    }
    match place {
        16 => byte < 32,
        17 => u16::from(byte) + u16::from(pages) <= 192,
        18 => 4 <= byte && byte <= 192,
        48 => byte < 3,
        _ => !is_flag(place) || byte < 2,
    }
}

/// The place that is judged in a turn: the pages before the base.
fn turned_place(turn: usize) -> usize
    ensures { result ≡ turned turn }
{
    match turn {
        17 => 18,
        18 => 17,
        _ => turn,
    }
}

/// Whether the byte at a place of the head is there, and may stand there.
#[tactic(auto, unfolding(crate::specs::CoreFiles::stands))]
fn stands(text: &[u8], place: usize) -> bool
    ensures { result ≡ stands_there text.now place }
{
    let pages = match text.get(18) {
        Some(pages) => *pages,
        None => 0,
    };
    match text.get(place) {
        Some(byte) => may_stand(pages, place, *byte),
        None => false,
    }
}

/// The first turn whose place doesn't stand.
#[tactic(auto, unfolding(crate::specs::CoreFiles::first_bad))]
fn first_bad_turn(text: &[u8]) -> Option<usize>
    ensures turn { result ≡ first_bad text.now }
    ensures below { IfSome result (λ turn. turn < 51) }
{
    (0..HEAD_SIZE).position(|turn| !stands(text, turned_place(turn)))
}

/// The word at a place, low byte first.
fn word(text: &[u8], place: usize) -> u16
    requires { place + 1 < length text.now }
    ensures { result ≡ word_at text.now place }
{
    u16::from_le_bytes([text[place], text[place + 1]])
}

/// The registers that a head says.
fn read_regs(text: &[u8]) -> Regs
    requires { HasHead text.now }
    ensures { result ≡ regs_at text.now }
{
    Regs {
        a: text[20],
        f: text[21],
        b: text[22],
        c: text[23],
        d: text[24],
        e: text[25],
        h: text[26],
        l: text[27],
        a2: text[28],
        f2: text[29],
        b2: text[30],
        c2: text[31],
        d2: text[32],
        e2: text[33],
        h2: text[34],
        l2: text[35],
        ix: word(text, 36),
        iy: word(text, 38),
        sp: word(text, 40),
        pc: word(text, 42),
        i: text[44],
        r: text[45],
        iff1: text[46] == 1,
        iff2: text[47] == 1,
        mode: InterruptMode(text[48]),
        halted: text[49] == 1,
        shadow: text[50] == 1,
    }
}

/// The step that a head says.
fn read_step(text: &[u8]) -> u64
    requires { HasHead text.now }
    ensures { result ≡ step_at text.now }
{
    u64::from_le_bytes([
        text[8], text[9], text[10], text[11], text[12], text[13], text[14], text[15],
    ])
}

/// The head of a file whose head stands.
fn head_of(text: &[u8]) -> Head
    requires { HasHead text.now }
    ensures says { result ≡ head_at text.now }
    ensures is_head { IsHead result }
{
    Head {
        step: read_step(text),
        process: Pid(text[16]),
        spec: SegmentSpec {
            base: text[17],
            pages: text[18],
        },
        inside: text[19] == 1,
        regs: read_regs(text),
    }
}

/// How long the file of a segment of so many pages is.
fn size(pages: u8) -> usize
    ensures { result ≡ size_of pages }
{
    HEAD_SIZE + 256 * usize::from(pages) + 16_384
}

/// The head of a file whose head stands, where it has so many bytes as its pages ask for.
fn sized_head(text: &[u8]) -> Result<Head, CoreFault>
    requires { first_bad text.now ≡ None }
    ensures { Judges (fault_by None text.now) text.now result }
{
    let size = size(text[18]);
    if text.len() != size {
        return Err(CoreFault {
            place: text.len().min(size) as u32,
        });
    }
    Ok(head_of(text))
}

/// Reads the head of the file of a core, and judges all of the file.
///
/// # Errors
/// Exactly where the bytes are no file of a core.
#[tactic(auto, unfolding(crate::specs::CoreFiles::fault_of))]
pub fn read_head(text: &[u8]) -> Result<Head, CoreFault>
    ensures { Judges (fault_of text.now) text.now result }
{
    match first_bad_turn(text) {
        Some(turn) => Err(CoreFault {
            place: turned_place(turn).min(text.len()) as u32,
        }),
        None => sized_head(text),
    }
}
