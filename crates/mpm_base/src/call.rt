ghost use Rattle.std.specs.Prelude.{◌≡◌, ◌≤◌, ◌<◌, ◌+◌, ◌++◌, ◌∷◌, [], length, drop};

use crate::number::Name8;
use crate::texts::in_width;
use std::marker::Model;

/// A kernel call as it was taken in its gate step.
///
/// `bytes` begins with the bytes that the call reads besides its file control block, `length` of them, one range after
/// the other in the order in which the call names them. Contracts see these alone.
#[derive(Drop)]
pub struct Call {
    /// The function, from register C.
    pub function: u8,
    /// The parameter, from DE.
    pub word: u16,
    /// The caller's DMA address.
    pub dma: u16,
    /// The file control block at DE, of a call that reads one; else zeros.
    pub fcb: [u8; 36],
    /// How many bytes were read, at most 4,096.
    pub length: u16,
    /// Those bytes come first.
    pub bytes: [u8; 4096],
}

impl Model for Call {
    ghost use Rattle.std.specs.Prelude.{◌≤◌, take};
    ghost use Rattle.mpm_base.specs.Calls.{Taken};

    ghost Value = { Taken };

    ghost view = { λ c. record { function = c.function; word = c.word; dma = c.dma; fcb = c.fcb; bytes = take c.length c.bytes } };

    ghost invariant = { λ c. c.length ≤ 4096 };
}

impl Call {
    ghost use Rattle.mpm_base.specs.Lists.{zeros};
    ghost use Rattle.mpm_base.specs.Calls.{Taken, no_call, byte_in, word_at, eight_at, name_at};

    /// A call with all fields 0.
    #[tactic(auto, unfolding(crate::specs::Lists::zeros))]
    pub fn new() -> Call
        ensures { result ≡ no_call }
    {
        Call {
            function: 0,
            word: 0,
            dma: 0,
            fcb: [0; 36],
            length: 0,
            bytes: [0; 4096],
        }
    }

    /// Sets all fields to 0.
    #[tactic(auto, unfolding(crate::specs::Lists::zeros))]
    pub fn clear(&mut self)
        ensures { self.new ≡ no_call }
    {
        self.function = 0;
        self.word = 0;
        self.dma = 0;
        self.fcb = [0; 36];
        self.length = 0;
        self.bytes = [0; 4096];
    }

    /// Begins a call that has read nothing yet.
    #[tactic(auto, unfolding(crate::specs::Lists::zeros))]
    pub fn begin(&mut self, function: u8, word: u16, dma: u16)
        ensures { self.new ≡ record { function = function; word = word; dma = dma; fcb = zeros 36; bytes = [] } }
    {
        self.function = function;
        self.word = word;
        self.dma = dma;
        self.fcb = [0; 36];
        self.length = 0;
    }

    /// One more byte that the call reads. At most 4,096 are taken.
    pub fn push(&mut self, byte: u8)
        requires { length self.old.bytes < 4096 }
        ensures { self.new ≡ record self.old { bytes = self.old.bytes ++ byte ∷ [] } }
    {
        self.bytes[self.length as usize] = byte;
        self.length += 1;
    }

    /// More bytes that the call reads. At most 4,096 are taken in all.
    pub fn append(&mut self, more: &[u8])
        requires { length self.old.bytes + length more.now ≤ 4096 }
        ensures { self.new ≡ record self.old { bytes = self.old.bytes ++ more.now } }
    {
        let from = self.length as usize;
        self.bytes[from..from + more.len()].copy_from_slice(more);
        self.length += more.len() as u16;
    }

    /// The file control block that the call reads.
    pub fn set_control_block(&mut self, block: [u8; 36])
        ensures { self.new ≡ record self.old { fcb = block } }
    {
        self.fcb = block;
    }

    /// One of those bytes, by its place; 0 after the last.
    pub fn byte(&self, place: usize) -> u8
        ensures { result ≡ byte_in self.now place }
    {
        let taken = self.taken();
        if place < taken.len() { taken[place] } else { 0 }
    }

    /// The word at a place of those bytes, its low byte first; bytes after the last are 0. The place is at most 4,096.
    pub fn word(&self, place: usize) -> u16
        requires { place ≤ 4096 }
        ensures { result ≡ word_at self.now place }
    {
        u16::from_le_bytes([self.byte(place), self.byte(place + 1)])
    }

    /// Those bytes from a place on, at most 4,096.
    pub fn from(&self, place: usize) -> &[u8]
        ensures value { result.now ≡ drop place self.now.bytes }
        ensures few { length result.now ≤ 4096 }
    {
        let taken = &self.bytes[..self.length as usize];
        &taken[place.min(taken.len())..]
    }

    /// The eight bytes at a place of those bytes, with zeros for those that are missing.
    pub fn eight(&self, place: usize) -> [u8; 8]
        ensures { result ≡ eight_at self.now place }
    {
        in_width(self.from(place))
    }

    /// The name of eight bytes at a place of those bytes.
    pub fn name(&self, place: usize) -> Name8
        ensures { result ≡ name_at self.now place }
    {
        Name8(self.eight(place))
    }

    /// The bytes that the call read, after its file control block.
    pub fn taken(&self) -> &[u8]
        ensures { result.now ≡ self.now.bytes }
    {
        &self.bytes[..self.length as usize]
    }
}

/// The value of a call that is refused, where its function names no other.
pub const FAILURE_CODE: u16 = 0x00FF;

/// The answer of a kernel call, as it is placed in its caller's registers and memory.
///
/// The file control block goes to DE where `has_fcb` is set; the first `length` of `bytes` go to the address `at`.
/// Contracts see these alone.
#[derive(Drop)]
pub struct Reply {
    /// The value, for HL.
    pub hl: u16,
    /// Whether a file control block is placed.
    pub has_fcb: bool,
    /// The file control block.
    pub fcb: [u8; 36],
    /// The address from which on bytes are placed.
    pub at: u16,
    /// How many bytes are placed, at most 4,096.
    pub length: u16,
    /// Those bytes come first.
    pub bytes: [u8; 4096],
}

impl Model for Reply {
    ghost use Rattle.std.specs.Prelude.{◌≤◌, take, Some, None, if◌then◌else◌};
    ghost use Rattle.mpm_base.specs.Calls.{Answer};

    ghost Value = { Answer };

    ghost view = { λ r. record { hl = r.hl; fcb = if r.has_fcb then Some r.fcb else None; at = r.at; bytes = take r.length r.bytes } };

    ghost invariant = { λ r. r.length ≤ 4096 };
}

impl Reply {
    ghost use Rattle.std.specs.Option.{option_copied};
    ghost use Rattle.mpm_base.specs.Calls.{Answer, no_reply, answering};

    /// A reply with all fields 0 or false.
    pub fn new() -> Reply
        ensures { result ≡ no_reply }
    {
        Reply {
            hl: 0,
            has_fcb: false,
            fcb: [0; 36],
            at: 0,
            length: 0,
            bytes: [0; 4096],
        }
    }

    /// Sets all fields to 0 or false.
    pub fn clear(&mut self)
        ensures { self.new ≡ no_reply }
    {
        self.hl = 0;
        self.has_fcb = false;
        self.fcb = [0; 36];
        self.at = 0;
        self.length = 0;
        self.bytes = [0; 4096];
    }

    /// Answers a value, and places nothing else.
    pub fn answer(&mut self, value: u16)
        ensures { self.new ≡ answering value }
    {
        self.hl = value;
        self.has_fcb = false;
        self.at = 0;
        self.length = 0;
    }

    /// Answers a value, and places bytes from an address on; at most 4,096.
    pub fn answer_with(&mut self, value: u16, at: u16, bytes: &[u8])
        requires { length bytes.now ≤ 4096 }
        ensures { self.new ≡ record (answering value) { at = at; bytes = bytes.now } }
    {
        self.hl = value;
        self.has_fcb = false;
        self.at = at;
        self.length = bytes.len() as u16;
        self.bytes[..bytes.len()].copy_from_slice(bytes);
    }

    /// The file control block to place, if any.
    pub fn control_block(&self) -> Option<&[u8; 36]>
        ensures { option_copied result ≡ self.now.fcb }
    {
        if self.has_fcb { Some(&self.fcb) } else { None }
    }

    /// The bytes to place, at most 4,096.
    pub fn placed(&self) -> &[u8]
        ensures value { result.now ≡ self.now.bytes }
        ensures few { length result.now ≤ 4096 }
    {
        &self.bytes[..self.length as usize]
    }
}

/// What became of a kernel call in its gate step.
#[derive(Clone, Copy, Debug, PartialEq, Eq)]
pub enum Outcome {
    /// It is done, and its reply can be placed.
    Done,
    /// It waits; its reply is placed in the step that completes it.
    Held,
    /// It can't go on: the process takes the gate step again once it runs.
    Retry,
    /// It ended its caller.
    Ended,
}
