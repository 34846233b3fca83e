ghost use Rattle.std.specs.Prelude.{◌≡◌, ◌≤◌, ◌+◌, length};
ghost use Rattle.mpm_lines.specs.Lines.{Appends, field};
ghost use Rattle.z80_regs.specs.Words.{word_of};
ghost use Rattle.mpm_render.specs.Lines.{hex_word as hex_digits};
ghost use Rattle.mpm_snapshot.specs.Lines.{line as line_said, registers, pairs, word_for};

use arrayvec::ArrayVec;
use mpm_core_file::Head;
use mpm_lines::{push_number, push_word};
use mpm_render::hex_word;
use mpm_replay::{Replayed, Why};
use z80_regs::Regs;

/// Room for the longest line.
pub(crate) type Line = ArrayVec<u8, 128>;

/// What is said of a core that was run on: its step and its process, how many instructions were done, why no more were, and its registers.
#[tactic(auto, unfolding(crate::specs::Lines::line))]
pub(crate) fn line(head: &Head, replayed: Replayed) -> Line
    ensures { result.items ≡ line_said head.now replayed }
{
    let mut line = ArrayVec::new();
    line.try_extend_from_slice(b"core").unwrap();
    push_number(head.step, &mut line);
    push_number(u64::from(head.process.0), &mut line);
    push_number(replayed.done, &mut line);
    push_why(replayed.why, &mut line);
    push_registers(&head.regs, &mut line);
    line.push(b'\n');
    line
}

/// Puts a space and the word for why a replay ended after it.
fn push_why(why: Why, line: &mut Line)
    requires { length line.old.items + 8 ≤ 128 }
    ensures { Appends 8 (field (word_for why)) line.old.items line.new.items }
{
    match why {
        Why::Steps => push_word(b"steps", line),
        Why::Gate => push_word(b"gate", line),
        Why::Illegal => push_word(b"illegal", line),
        Why::Input => push_word(b"input", line),
    }
}

/// Puts a space and a word of 16 bits in hexadecimal digits after it.
fn push_hex(word: u16, line: &mut Line)
    requires { length line.old.items + 5 ≤ 128 }
    ensures { Appends 5 (field (hex_digits word)) line.old.items line.new.items }
{
    push_word(&hex_word(word), line);
}

/// Puts a pair of registers after it.
fn push_pair(high: u8, low: u8, line: &mut Line)
    requires { length line.old.items + 5 ≤ 128 }
    ensures { Appends 5 (field (hex_digits (word_of low high))) line.old.items line.new.items }
{
    push_hex(u16::from_le_bytes([low, high]), line);
}

/// Puts the pairs of registers after it.
#[tactic(auto, unfolding(crate::specs::Lines::pairs))]
fn push_pairs(regs: &Regs, line: &mut Line)
    requires { length line.old.items + 20 ≤ 128 }
    ensures { Appends 20 (pairs regs.now) line.old.items line.new.items }
{
    push_pair(regs.a, regs.f, line);
    push_pair(regs.b, regs.c, line);
    push_pair(regs.d, regs.e, line);
    push_pair(regs.h, regs.l, line);
}

/// Puts the registers after it.
#[tactic(auto, unfolding(crate::specs::Lines::registers))]
fn push_registers(regs: &Regs, line: &mut Line)
    requires { length line.old.items + 40 ≤ 128 }
    ensures { Appends 40 (registers regs.now) line.old.items line.new.items }
{
    push_hex(regs.pc, line);
    push_hex(regs.sp, line);
    push_pairs(regs, line);
    push_hex(regs.ix, line);
    push_hex(regs.iy, line);
}
