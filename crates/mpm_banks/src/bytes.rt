ghost use Rattle.std.specs.Prelude.{◌≡◌, ◌+◌, ◌-◌, ◌<◌, ◌≤◌, IfOk, Some, None, length, nat_lt, slice_get, slice_index, slice_range, slice_set, if◌then◌else◌};
ghost use Rattle.std.specs.Borrow.{sem};
ghost use Rattle.z80_regs.specs.Words.{word_of};

use crate::OutOfMemory;
use std::alloc::Global;
use std::marker::Model;

/// The bytes of a segment or of common memory. Contracts see the list.
#[derive(Drop)]
pub(crate) struct Bytes {
    items: Vec<u8>,
}

impl Model for Bytes {
    ghost use Rattle.std.specs.Prelude.{ℕ, List};

    ghost Value = { List ℕ };

    ghost view = { λ bytes. bytes.items.items };
}

impl Bytes {
    ghost use Rattle.mpm_banks.specs.Lending.{LendsRange};
    ghost use Rattle.mpm_base.specs.Lists.{zeros};

    /// So many bytes, all 0.
    #[tactic(auto, unfolding(mpm_base::specs::Lists::zeros))]
    pub fn zeros(alloc: Global, count: usize) -> Result<Bytes, OutOfMemory>
        requires { count ≤ 65536 }
        ensures { IfOk result (λ bytes. bytes ≡ zeros count) }
    {
        let mut items = Vec::with_capacity(alloc, count)?;
        items.resize(count, 0)?;
        Ok(Bytes { items })
    }

    /// How many bytes there are.
    #[inline(always)]
    pub fn len(&self) -> usize
        ensures { result ≡ length self.now }
    {
        self.items.len()
    }

    /// The byte at an index.
    #[inline(always)]
    pub fn at(&self, index: usize) -> u8
        requires { index < length self.now }
        ensures { result ≡ slice_index self.now index }
    {
        self.items[index]
    }

    /// The byte at an index, where there is one.
    #[inline(always)]
    pub fn get(&self, index: usize) -> Option<u8>
        ensures { result ≡ slice_get self.now index }
    {
        self.items.get(index).copied()
    }

    /// The word at an index, low byte first, where both its bytes are there: one comparison tells that, as there is a byte.
    #[inline(always)]
    pub fn word(&self, index: usize) -> Option<u16>
        requires { 0 < length self.now }
        ensures { result ≡ if nat_lt index (length self.now - 1) then Some (word_of (slice_index self.now index) (slice_index self.now (index + 1))) else None }
    {
        if index < self.items.len() - 1 {
            let bytes = [self.items[index], self.items[index + 1]];
            return Some(u16::from_le_bytes(bytes));
        }
        None
    }

    /// Writes the byte at an index, where there is one; answers whether there is.
    #[inline(always)]
    pub fn set(&mut self, index: usize, value: u8) -> bool
        ensures answer { result ≡ nat_lt index (length self.old) }
        ensures after { self.new ≡ slice_set self.old index value }
    {
        if index < self.items.len() {
            self.items[index] = value;
            return true;
        }
        false
    }

    /// The bytes of a range.
    pub fn range(&self, from: usize, to: usize) -> &[u8]
        requires order { from ≤ to }
        requires inside { to ≤ length self.now }
        ensures { result.now ≡ slice_range self.now from to }
    {
        &self.items[from..to]
    }

    /// Lends the bytes of a range.
    pub fn range_mut(&mut self, from: usize, to: usize) -> &mut [u8]
        requires order { from ≤ to }
        requires inside { to ≤ length self.old }
        ensures* lends { sem 𝓛 (LendsRange self.entry from result) }
        ensures value { result.now ≡ slice_range self.old from to }
        ensures size { length result.now ≡ to - from }
    {
        self.items.slice_mut(from..to)
    }

    /// Lends all of them.
    pub fn all_mut(&mut self) -> &mut [u8]
        ensures* lends { sem 𝓛 (LendsRange self.entry 0 result) }
        ensures value { result.now ≡ self.old }
    {
        let end = self.items.len();
        self.range_mut(0, end)
    }
}
