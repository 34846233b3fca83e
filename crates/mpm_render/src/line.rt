ghost use Rattle.std.specs.Prelude.{◌≡◌, ℕ, ◌<◌, List, [], length};
ghost use Rattle.mpm_render.specs.Lines.{text_with, line_with};
ghost use Rattle.mpm_render.specs.Outputs.{closing};
ghost use Rattle.mpm_render.specs.Calls.{WritesLine};

use crate::text::LineText;
use arrayvec::ArrayVec;
use mpm_port::{Failed, Sink};
use std::marker::Model;

/// The unfinished line of a console or a printer: fewer than 200 bytes.
#[derive(Drop)]
pub struct Line {
    bytes: ArrayVec<u8, 200>,
}

impl Model for Line {
    ghost Value = { List ℕ };

    ghost view = { λ line. line.bytes.items };

    ghost invariant = { λ line. length line.bytes.items < 200 };
}

/// The empty line.
impl Default for Line {
    ghost is_default = { λ line. line ≡ [] };

    fn default() -> Line {
        Line {
            bytes: ArrayVec::new(),
        }
    }
}

impl Line {
    /// Gives a byte to the line of a place, 0 to 11. An LF and the 200th byte write the line and empty it.
    #[tactic(auto, unfolding(crate::specs::Lines::ended_line, crate::specs::Lines::cut_line, crate::specs::Lines::text_with, crate::specs::Lines::line_with))]
    pub fn put<S: Sink>(&mut self, place: u8, byte: u8, sink: &mut S) -> Result<(), Failed>
        requires { place < 12 }
        ensures { WritesLine S.Sink (text_with place byte self.old) (line_with byte self.old) self.old self.new sink.old sink.new result }
    {
        if byte == b'\n' {
            let mut text = LineText::begin(place, self.bytes.as_slice());
            text.end();
            self.write(&text, sink)
        } else if self.bytes.len() == 199 {
            let text = LineText::full(place, self.bytes.as_slice(), byte);
            self.write(&text, sink)
        } else {
            self.bytes.push(byte);
            Ok(())
        }
    }

    /// Writes and empties the line of a place, 0 to 11, if it isn't empty.
    #[tactic(auto, unfolding(crate::specs::Lines::cut_line, crate::specs::Outputs::closing))]
    pub fn close<S: Sink>(&mut self, place: u8, sink: &mut S) -> Result<(), Failed>
        requires { place < 12 }
        ensures { WritesLine S.Sink (closing place self.old) [] self.old self.new sink.old sink.new result }
    {
        if self.bytes.is_empty() {
            return Ok(());
        }
        let mut text = LineText::begin(place, self.bytes.as_slice());
        text.cut();
        self.write(&text, sink)
    }

    /// Writes the text of the line, which isn't empty, and empties the line.
    #[tactic(auto, using(crate::proofs::Putting::puts_some))]
    fn write<S: Sink>(&mut self, text: &LineText, sink: &mut S) -> Result<(), Failed>
        requires { 0 < length text.now }
        ensures { WritesLine S.Sink text.now [] self.old self.new sink.old sink.new result }
    {
        sink.put(text.as_slice())?;
        self.bytes.clear();
        Ok(())
    }
}
