ghost use Rattle.std.specs.Prelude.{◌≡◌, ℕ, ◌+◌, ◌*◌, ◌/◌, ◌%◌, ◌<◌, ◌≤◌, List, [], ◌∷◌, ◌++◌, length, flat_map, decimal};
ghost use Rattle.mpm_render.specs.Lines.{AppendsBytes, escaped, label, hex_digit, hex_byte, hex_word as word_text, cut_line};
ghost use Rattle.mpm_render.specs.Completions.{completion, trace_line};
ghost use Rattle.mpm_render.specs.Calls.{IsSomeText};

use arrayvec::ArrayVec;
use itoa::Buffer;
use std::marker::Model;

/// The text of one line, as it is built: at most its label, 200 bytes of four characters each, a backslash and an LF.
/// The line of a completed call is shorter.
#[derive(Drop)]
pub struct LineText {
    bytes: ArrayVec<u8, 805>,
}

impl Model for LineText {
    ghost Value = { List ℕ };

    ghost view = { λ text. text.bytes.items };
}

impl LineText {
    /// The label and the bytes as they are written: of a line's place, 0 to 11, and its bytes, at most 200.
    pub fn begin(place: u8, bytes: &[u8]) -> LineText
        requires place { place < 12 }
        requires few { length bytes.now ≤ 200 }
        ensures { AppendsBytes (label place ++ flat_map escaped bytes.now) (3 + 4 * length bytes.now) [] result }
    {
        let mut text = LineText::labelled(place);
        for byte in bytes {
            text.push_escaped(*byte);
        }
        text
    }

    /// The text of a full line, cut: of a line's place, 0 to 11, its first 199 bytes and the last one.
    #[tactic(auto, unfolding(crate::specs::Lines::cut_line))]
    pub fn full(place: u8, bytes: &[u8], last: u8) -> LineText
        requires place { place < 12 }
        requires few { length bytes.now ≡ 199 }
        ensures { IsSomeText (cut_line place (bytes.now ++ (last ∷ []))) result }
    {
        let mut text = LineText::begin(place, bytes);
        text.push_escaped(last);
        text.cut();
        text
    }

    /// The line of a completed call, with its LF: a t, the step, the process and the function in decimal, A in two
    /// hexadecimal digits, BC, DE and HL in four.
    #[tactic(auto, using(crate::proofs::Traces::words_joined), unfolding(crate::specs::Completions::trace_line))]
    pub fn traced(
        step: u64,
        process: u8,
        function: u8,
        a: u8,
        bc: u16,
        de: u16,
        hl: u16,
    ) -> LineText
        ensures { IsSomeText (trace_line (completion step process function a bc de hl)) result }
    {
        let mut bytes = ArrayVec::new();
        bytes.push(b't');
        let mut text = LineText { bytes };
        text.push_decimal(step);
        text.push_decimal(u64::from(process));
        text.push_decimal(u64::from(function));
        text.push_byte(a);
        text.push_word(bc);
        text.push_word(de);
        text.push_word(hl);
        text.end();
        text
    }

    /// The text so far.
    pub fn as_slice(&self) -> &[u8]
        ensures { result.now ≡ self.now }
    {
        self.bytes.as_slice()
    }

    /// The text with an LF after it.
    pub fn end(&mut self)
        requires { length self.old < 805 }
        ensures { self.new ≡ self.old ++ (10 ∷ []) }
    {
        self.bytes.push(b'\n');
    }

    /// The text with a backslash and an LF after it.
    pub fn cut(&mut self)
        requires { length self.old < 804 }
        ensures { self.new ≡ self.old ++ (92 ∷ 10 ∷ []) }
    {
        self.push_pair(b'\n');
    }

    /// The text with a byte after it, as it is written in a line.
    #[tactic(auto, unfolding(crate::specs::Lines::escaped))]
    pub fn push_escaped(&mut self, byte: u8)
        requires { length self.old + 4 ≤ 805 }
        ensures { AppendsBytes (escaped byte) 4 self.old self.new }
    {
        match byte {
            b'\\' => self.push_pair(b'\\'),
            b'\r' => self.push_pair(b'r'),
            b'\t' => self.push_pair(b't'),
            b' '..=b'~' => self.bytes.push(byte),
            _ => {
                self.push_pair(b'x');
                self.push_hex(byte);
            }
        }
    }

    /// The text with the words before a line.
    fn labelled(place: u8) -> LineText
        requires { place < 12 }
        ensures { AppendsBytes (label place) 3 [] result }
    {
        let mut bytes = ArrayVec::new();
        if place < 8 {
            bytes.push(b'c');
            bytes.push(b'0' + place);
        } else {
            bytes.push(b'l');
            bytes.push(b'0' + (place - 8));
        }
        bytes.push(b' ');
        LineText { bytes }
    }

    /// The text with a backslash and a letter after it.
    fn push_pair(&mut self, letter: u8)
        requires { length self.old < 804 }
        ensures { self.new ≡ self.old ++ (92 ∷ letter ∷ []) }
    {
        self.bytes.push(b'\\');
        self.bytes.push(letter);
    }

    /// The text with a space and a number after it, in decimal.
    fn push_decimal(&mut self, number: u64)
        requires { length self.old + 21 ≤ 805 }
        ensures { AppendsBytes (32 ∷ decimal number) 21 self.old self.new }
    {
        self.bytes.push(b' ');
        let mut buffer = Buffer::new();
        let digits = buffer.format(number).as_bytes();
        self.bytes.try_extend_from_slice(digits).unwrap();
    }

    /// The text with a space and a byte after it, in two hexadecimal digits.
    fn push_byte(&mut self, byte: u8)
        requires { length self.old + 3 ≤ 805 }
        ensures { AppendsBytes (32 ∷ hex_byte byte) 3 self.old self.new }
    {
        self.bytes.push(b' ');
        self.push_hex(byte);
    }

    /// The text with a space and a word of 16 bits after it, in four hexadecimal digits.
    fn push_word(&mut self, word: u16)
        requires { length self.old + 5 ≤ 805 }
        ensures { AppendsBytes (32 ∷ word_text word) 5 self.old self.new }
    {
        self.bytes.push(b' ');
        self.bytes.try_extend_from_slice(&hex_word(word)).unwrap();
    }

    /// The text with a byte after it, in two upper-case hexadecimal digits.
    #[tactic(auto, unfolding(crate::specs::Lines::hex_byte))]
    fn push_hex(&mut self, byte: u8)
        requires { length self.old + 2 ≤ 805 }
        ensures { AppendsBytes (hex_byte byte) 2 self.old self.new }
    {
        self.bytes.push(digit_of(byte / 16));
        self.bytes.push(digit_of(byte % 16));
    }
}

/// A word of 16 bits in four upper-case hexadecimal digits.
#[tactic(auto, unfolding(crate::specs::Lines::hex_byte, crate::specs::Lines::hex_word))]
pub fn hex_word(word: u16) -> [u8; 4]
    ensures { result ≡ word_text word }
{
    let high = (word / 256) as u8;
    let low = (word % 256) as u8;
    [
        digit_of(high / 16),
        digit_of(high % 16),
        digit_of(low / 16),
        digit_of(low % 16),
    ]
}

/// The upper-case hexadecimal digit of a number below 16.
fn digit_of(nibble: u8) -> u8
    requires { nibble < 16 }
    ensures { result ≡ hex_digit nibble }
{
    if nibble < 10 {
        b'0' + nibble
    } else {
        b'A' + (nibble - 10)
    }
}
