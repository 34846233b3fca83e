//! Lines of text: words and decimal numbers, each after a space.
#![tactic(auto)]

ghost use Rattle.std.specs.Prelude.{◌≤◌, ◌+◌, length, decimal};
ghost use Rattle.mpm_lines.specs.Lines.{Appends, field, number_line};

use arrayvec::ArrayVec;
use itoa::Buffer;

/// Puts a space and a word after a text of at most `N` bytes.
pub fn push_word<const N: usize>(word: &[u8], text: &mut ArrayVec<u8, N>)
    requires { length text.old.items + (length word.now + 1) ≤ N }
    ensures { Appends (length word.now + 1) (field word.now) text.old.items text.new.items }
{
    text.push(b' ');
    text.try_extend_from_slice(word).unwrap();
}

/// Puts a space and a number in decimal digits after it, at most 21 bytes.
pub fn push_number<const N: usize>(number: u64, text: &mut ArrayVec<u8, N>)
    requires { length text.old.items + 21 ≤ N }
    ensures { Appends 21 (field (decimal number)) text.old.items text.new.items }
{
    let mut buffer = Buffer::new();
    push_word(buffer.format(number).as_bytes(), text);
}

/// Puts a line of a word and a number after it: the word, a space, the number in decimal digits, and LF.
pub fn push_line<const N: usize>(word: &[u8], number: u64, text: &mut ArrayVec<u8, N>)
    requires { length text.old.items + (length word.now + 22) ≤ N }
    ensures { Appends (length word.now + 22) (number_line word.now number) text.old.items text.new.items }
{
    text.try_extend_from_slice(word).unwrap();
    push_number(number, text);
    text.push(b'\n');
}
