ghost use Rattle.std.specs.Prelude.{◌≡◌, ◌+◌, ◌≤◌, ◌<◌, ◌-◌, ◌*◌, IfOk, length};

use crate::OutOfMemory;
use crate::bytes::Bytes;
use crate::first_page::FirstPage;
use crate::range::{Range, Space};
use mpm_base::{Pid, Seg, SegmentSpec};
use std::alloc::Global;

/// Who has a segment.
#[derive(Clone, Copy, Debug, PartialEq, Eq)]
pub(crate) enum Allocation {
    /// Nobody.
    Free,
    /// A process reserved it.
    Reserved(Pid),
    /// A process lives in it.
    Occupied,
}

/// A memory segment: its first page, its number of pages, who has it, and 256 bytes for each page.
#[derive(Drop)]
pub(crate) struct Segment {
    pub base: FirstPage,
    pub pages: u8,
    pub allocation: Allocation,
    pub bytes: Bytes,
}

impl Segment {
    ghost use Rattle.mpm_banks.specs.Stretches.{is_among, byte_among, word_among, put_among};
    ghost use Rattle.mpm_banks.specs.Memory.{IsSegment};
    ghost use Rattle.mpm_banks.specs.Ranges.{range_from};
    ghost use Rattle.mpm_banks.specs.Allocations.{new_segment, fits, freed};

    /// A free segment, all of whose bytes are 0.
    pub fn new(alloc: Global, spec: SegmentSpec) -> Result<Segment, OutOfMemory>
        ensures { IfOk result (λ segment. segment ≡ new_segment spec) }
    {
        Ok(Segment {
            base: FirstPage::new(spec.base),
            pages: spec.pages,
            allocation: Allocation::Free,
            bytes: Bytes::zeros(alloc, 256 * usize::from(spec.pages))?,
        })
    }

    /// Where it lies.
    #[inline]
    pub fn spec(&self) -> SegmentSpec
        ensures { result ≡ record { base = self.now.base; pages = self.now.pages } }
    {
        SegmentSpec {
            base: self.base.page(),
            pages: self.pages,
        }
    }

    /// Whether it is free, of at least so many pages, and of that base page if one is given.
    pub fn fits(&self, base: Option<u8>, pages: u8) -> bool
        ensures { result ≡ fits base pages self.now }
    {
        let has_base = match base {
            None => true,
            Some(asked) => self.base.page() == asked,
        };
        self.allocation == Allocation::Free && pages <= self.pages && has_base
    }

    /// Gives it back, if the process reserved it.
    pub fn release(&mut self, owner: Pid)
        ensures { self.new ≡ freed owner self.old }
    {
        if self.allocation == Allocation::Reserved(owner) {
            self.allocation = Allocation::Free;
        }
    }

    /// The byte that an address names, if it names one of the segment's.
    #[inline(always)]
    pub fn byte(&self, address: u16) -> Option<u8>
        requires { IsSegment self.now }
        ensures { result ≡ byte_among (256 * self.now.base) self.now.bytes address }
    {
        self.bytes.get(self.index(address))
    }

    /// The word at an address, low byte first, where both its bytes are the segment's.
    #[inline(always)]
    pub fn word(&self, address: u16) -> Option<u16>
        requires { IsSegment self.now }
        ensures { result ≡ word_among (256 * self.now.base) self.now.bytes address }
    {
        self.bytes.word(self.index(address))
    }

    /// Writes the byte that an address names, if it names one of the segment's; answers whether it does.
    #[inline(always)]
    pub fn put(&mut self, address: u16, value: u8) -> bool
        requires { IsSegment self.old }
        ensures answer { result ≡ is_among (256 * self.old.base) self.old.bytes address }
        ensures after { self.new ≡ record self.old { bytes = put_among (256 * self.old.base) self.old.bytes address value } }
    {
        let index = self.index(address);
        self.bytes.set(index, value)
    }

    /// How far an address is from the first of the segment; below that one, more than the segment has bytes.
    #[inline(always)]
    fn index(&self, address: u16) -> usize
        ensures behind { 256 * self.now.base ≤ address → result ≡ address - 256 * self.now.base }
        ensures below { address < 256 * self.now.base → 65536 ≤ result }
    {
        usize::from(address).wrapping_sub(self.base.address())
    }

    /// The range that `size` addresses from one on name in this segment, which has the number `seg`; none where they
    /// aren't all its own.
    pub fn range(&self, seg: Seg, address: u16, size: u16) -> Option<Range>
        requires { IsSegment self.now }
        ensures { result ≡ range_from (Space.InSegment seg) (256 * self.now.base) (256 * self.now.base + length self.now.bytes) address size }
    {
        let first = self.base.address();
        let from = usize::from(address);
        let to = from + usize::from(size);
        if from < first || first + self.bytes.len() < to {
            return None;
        }
        Some(Range {
            space: Space::InSegment(seg.0),
            from: from - first,
            to: to - first,
        })
    }
}
