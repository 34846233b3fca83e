ghost use Rattle.std.specs.Prelude.{◌≡◌};
ghost use Rattle.mpm_core_file.specs.CoreFiles.{fields_of, bytes_of, words_of, states_of, head_bytes, flag_byte};
ghost use Rattle.z80_regs.specs.Words.{low as low_byte, high as high_byte};

use mpm_base::{Pid, SegmentSpec};
use z80_regs::Regs;

/// With what the file of a core begins.
pub(crate) const MAGIC: [u8; 8] = *b"MPMCORE1";

/// How many bytes stand before those of the segment.
pub const HEAD_SIZE: usize = 51;

/// How many bytes the file of a core has at most: that of a segment of 192 pages.
pub const LARGEST_SIZE: usize = 65_587;

/// What the file of a core says before the bytes of memory.
#[derive(Clone, Copy, Debug, PartialEq, Eq)]
pub struct Head {
    /// How many steps were done when the core was taken.
    pub step: u64,
    /// The process, 0 to 31.
    pub process: Pid,
    /// Where its segment lies: 4 to 192 pages, below page C0h.
    pub spec: SegmentSpec,
    /// Whether it is in a resident procedure.
    pub inside: bool,
    /// Its registers.
    pub regs: Regs,
}

/// A flag as a byte.
fn flag(set: bool) -> u8
    ensures { result ≡ flag_byte set }
{
    if set { 1 } else { 0 }
}

/// The registers of one byte, each set in the order A F B C D E H L.
fn bytes(regs: &Regs) -> [u8; 16]
    ensures { result ≡ bytes_of regs.now }
{
    [
        regs.a, regs.f, regs.b, regs.c, regs.d, regs.e, regs.h, regs.l, regs.a2, regs.f2, regs.b2,
        regs.c2, regs.d2, regs.e2, regs.h2, regs.l2,
    ]
}

/// The low byte of a word.
fn low(word: u16) -> u8
    ensures { result ≡ low_byte word }
{
    (word % 256) as u8
}

/// The high byte of a word.
fn high(word: u16) -> u8
    ensures { result ≡ high_byte word }
{
    (word / 256) as u8
}

/// The registers of one word, each with its low byte first.
fn words(regs: &Regs) -> [u8; 8]
    ensures { result ≡ words_of regs.now }
{
    [
        low(regs.ix),
        high(regs.ix),
        low(regs.iy),
        high(regs.iy),
        low(regs.sp),
        high(regs.sp),
        low(regs.pc),
        high(regs.pc),
    ]
}

/// I and R, and what of the processor's state is no register.
fn states(regs: &Regs) -> [u8; 7]
    ensures { result ≡ states_of regs.now }
{
    [
        regs.i,
        regs.r,
        flag(regs.iff1),
        flag(regs.iff2),
        regs.mode.0,
        flag(regs.halted),
        flag(regs.shadow),
    ]
}

impl Head {
    /// The bytes that say it.
    #[tactic(auto, unfolding(crate::specs::CoreFiles::head_bytes))]
    pub fn bytes(&self) -> [u8; HEAD_SIZE]
        ensures { result ≡ head_bytes self.now }
    {
        let mut bytes = [0; HEAD_SIZE];
        bytes[16..].copy_from_slice(&self.fields());
        bytes[8..16].copy_from_slice(&self.step.to_le_bytes());
        bytes[..8].copy_from_slice(&MAGIC);
        bytes
    }

    /// The bytes after the step.
    #[tactic(auto, unfolding(crate::specs::CoreFiles::fields_of))]
    fn fields(&self) -> [u8; 35]
        ensures { result ≡ fields_of self.now }
    {
        let mut fields = [0; 35];
        fields[28..].copy_from_slice(&states(&self.regs));
        fields[20..28].copy_from_slice(&words(&self.regs));
        fields[4..20].copy_from_slice(&bytes(&self.regs));
        fields[..4].copy_from_slice(&[
            self.process.0,
            self.spec.base,
            self.spec.pages,
            flag(self.inside),
        ]);
        fields
    }
}
