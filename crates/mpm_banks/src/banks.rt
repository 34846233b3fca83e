ghost use Rattle.std.specs.Prelude.{◌≡◌, ◌<◌, ◌≤◌, ◌↔◌, IsSome, IfSome, IfOk, All, map, position, length, option_copied, option_map, unwrap_or};
ghost use Rattle.std.specs.Bool.{OnTrue};
ghost use Rattle.std.specs.Borrow.{sem};
ghost use Rattle.mpm_banks.specs.Ranges.{range_from};
ghost use Rattle.mpm_banks.specs.Allocations.{new_segment, fits, freed};

use crate::OutOfMemory;
use crate::burst::Burst;
use crate::bytes::Bytes;
use crate::range::{COMMON_BASE, Range, Space};
use crate::segment::{Allocation, Segment};
use crate::window::Window;
use mpm_base::{Devices, Pid, Seg, SegmentSpec};
use std::alloc::Global;
use std::marker::Model;
use z80_regs::Regs;

/// How many bytes it has.
const COMMON_SIZE: usize = 16_384;

/// The memory of a machine: its segments, and 16,384 bytes of common memory from C000h on.
#[derive(Drop)]
pub struct Banks {
    segments: Vec<Segment>,
    common: Bytes,
}

impl Model for Banks {
    ghost use Rattle.mpm_banks.specs.Memory.{Memory, IsMemory};

    ghost Value = { Memory };

    ghost view = { λ banks. record { segments = banks.segments.items; common = banks.common } };

    ghost invariant = { λ banks. IsMemory (record { segments = banks.segments.items; common = banks.common }) };
}

impl Banks {
    ghost use Rattle.z80_regs.specs.Words.{word_from};
    ghost use Rattle.mpm_banks.specs.Stretches.{byte_among};
    ghost use Rattle.mpm_banks.specs.Memory.{IsMemory, HasSegment, segment_of, byte_at, with_byte};
    ghost use Rattle.mpm_banks.specs.Allocations.{FitsBelowCommon, new_memory, spec_of, lowest_free, allocated, reserved, is_reserved, released, all_released, occupied, vacated};
    ghost use Rattle.mpm_banks.specs.Ranges.{range_of, range_size, range_bytes, IsInsideMemory};
    ghost use Rattle.mpm_banks.specs.Windows.{LendsMemory, LendsWindow, IsWindow};
    ghost use Rattle.mpm_banks.specs.Sides.{with_sides, reach_of};

    /// Memory of 1 to 16 segments, all of them free, each of at least one page and below page C0h. All bytes are 0.
    #[tactic(auto, using(crate::proofs::SegmentLaws::new_is_memory), unfolding(crate::specs::Allocations::new_memory))]
    pub fn new(alloc: Global, specs: &[SegmentSpec]) -> Result<Banks, OutOfMemory>
        requires count { (1 ≤ length specs.now) × (length specs.now ≤ 16) }
        requires fit { All FitsBelowCommon specs.now }
        ensures { IfOk result (λ banks. banks ≡ new_memory specs.now) }
    {
        let segments = new_segments(alloc, specs)?;
        let common = Bytes::zeros(alloc, COMMON_SIZE)?;
        Ok(Banks { segments, common })
    }

    /// How many segments there are, 1 to 16.
    pub fn segments(&self) -> u8
        ensures value { result ≡ length self.now.segments }
        ensures whole { IsMemory self.now }
    {
        self.segments.len() as u8
    }

    /// Where a segment lies.
    pub fn spec(&self, seg: Seg) -> SegmentSpec
        requires { HasSegment self.now seg }
        ensures value { result ≡ spec_of self.now seg }
        ensures whole { IsMemory self.now }
    {
        self.segments[usize::from(seg.0)].spec()
    }

    /// Reserves the lowest free segment of at least `pages` pages, and of that base page where one is given. None comes
    /// exactly where there is none. (MP/M II Programmer's Guide, "Function 128: Absolute Memory Request", "Function 129:
    /// Relocatable Memory Request".)
    #[tactic(auto, unfolding(crate::specs::Allocations::reserved))]
    pub fn reserve(&mut self, owner: Pid, base: Option<u8>, pages: u8) -> Option<Seg>
        ensures found { result ≡ lowest_free self.old base pages }
        ensures after { self.new ≡ reserved self.old owner (lowest_free self.old base pages) }
    {
        let seg = self.lowest_free(base, pages)?;
        self.allocate(seg, Allocation::Reserved(owner));
        Some(seg)
    }

    /// Gives back a segment that the process reserved; false exactly where it didn't, and then nothing changes. (MP/M II
    /// Programmer's Guide, "Function 130: Memory Free".)
    #[tactic(auto, unfolding(crate::specs::Allocations::released))]
    pub fn release(&mut self, owner: Pid, seg: Seg) -> bool
        ensures answer { result ≡ is_reserved self.old owner seg }
        ensures after { self.new ≡ released self.old owner seg }
    {
        if !self.is_reserved(owner, seg) {
            return false;
        }
        self.vacate(seg);
        true
    }

    /// Gives back all segments that the process reserved.
    #[tactic(auto, using(crate::proofs::SegmentLaws::all_released_is_memory), unfolding(crate::specs::Allocations::all_released))]
    pub fn release_all(&mut self, owner: Pid)
        ensures { self.new ≡ all_released self.old owner }
    {
        release_each(self.segments.as_mut_slice(), owner);
    }

    /// A process lives in the segment from now on, and nobody has reserved it.
    pub fn occupy(&mut self, seg: Seg)
        requires { HasSegment self.old seg }
        ensures { self.new ≡ occupied self.old seg }
    {
        self.allocate(seg, Allocation::Occupied);
    }

    /// The segment is free.
    pub fn vacate(&mut self, seg: Seg)
        requires { HasSegment self.old seg }
        ensures { self.new ≡ vacated self.old seg }
    {
        self.allocate(seg, Allocation::Free);
    }

    /// The lowest free segment of at least so many pages, and of that base page where one is given.
    #[tactic(auto, unfolding(crate::specs::Allocations::lowest_free))]
    fn lowest_free(&self, base: Option<u8>, pages: u8) -> Option<Seg>
        ensures value { result ≡ lowest_free self.now base pages }
        ensures there { IfSome result (λ seg. HasSegment self.now seg) }
    {
        let index = first_fit(self.segments.as_slice(), base, pages)?;
        Some(Seg(index as u8))
    }

    /// Puts a segment into other hands.
    #[tactic(auto, unfolding(crate::specs::Allocations::allocated))]
    fn allocate(&mut self, seg: Seg, allocation: Allocation)
        requires { HasSegment self.old seg }
        ensures { self.new ≡ allocated self.old seg allocation }
    {
        self.segments[usize::from(seg.0)].allocation = allocation;
    }

    /// Whether the process reserved the segment.
    #[tactic(auto, unfolding(crate::specs::Allocations::is_reserved))]
    fn is_reserved(&self, owner: Pid, seg: Seg) -> bool
        ensures answer { result ≡ is_reserved self.now owner seg }
        ensures there { OnTrue result (HasSegment self.now seg) }
    {
        match self.segments.get(usize::from(seg.0)) {
            Some(segment) => segment.allocation == Allocation::Reserved(owner),
            None => false,
        }
    }

    /// The byte that the process of a segment reads at an address.
    #[inline(always)]
    #[tactic(auto, unfolding(crate::specs::Memory::place_of, crate::specs::Memory::byte_at))]
    pub fn byte(&self, seg: Seg, address: u16) -> u8
        ensures { result ≡ byte_at self.now seg address }
    {
        if let Some(segment) = self.segments.get(usize::from(seg.0)) {
            if let Some(byte) = segment.byte(address) {
                return byte;
            }
        }
        self.byte_outside(address)
    }

    /// The byte that a process reads at an address outside its segment.
    #[cold]
    #[inline(never)]
    fn byte_outside(&self, address: u16) -> u8
        ensures { result ≡ unwrap_or (byte_among 49152 self.now.common address) 255 }
    {
        if address < COMMON_BASE {
            0xFF
        } else {
            self.common.at(usize::from(address - COMMON_BASE))
        }
    }

    /// The word that the process of a segment reads at an address, low byte first. Where both its bytes lie in the segment it takes
    /// one look.
    #[inline(always)]
    #[tactic(auto, unfolding(crate::specs::Memory::place_of, crate::specs::Memory::byte_at))]
    pub fn word(&self, seg: Seg, address: u16) -> u16
        ensures { result ≡ word_from (byte_at self.now seg) address }
    {
        if let Some(segment) = self.segments.get(usize::from(seg.0)) {
            if let Some(word) = segment.word(address) {
                return word;
            }
        }
        self.word_apart(seg, address)
    }

    /// The word that a process reads at an address, byte by byte: they may lie anywhere.
    #[cold]
    #[inline(never)]
    fn word_apart(&self, seg: Seg, address: u16) -> u16
        ensures { result ≡ word_from (byte_at self.now seg) address }
    {
        u16::from_le_bytes([
            self.byte(seg, address),
            self.byte(seg, address.wrapping_add(1)),
        ])
    }

    /// Writes the byte that an address names for the process of a segment; it is lost where the address names none.
    #[inline(always)]
    #[tactic(auto, unfolding(crate::specs::Memory::place_of, crate::specs::Memory::with_byte))]
    pub fn put(&mut self, seg: Seg, address: u16, value: u8)
        ensures { self.new ≡ with_byte self.old seg address value }
    {
        if let Some(segment) = self.segments.get_mut(usize::from(seg.0)) {
            if segment.put(address, value) {
                return;
            }
        }
        if address >= COMMON_BASE {
            self.common.set(usize::from(address - COMMON_BASE), value);
        }
    }

    /// Lends `size` bytes (at least 1) from an address on, as the process of a segment names them. None comes exactly
    /// where they don't lie wholly in the segment or wholly in common memory.
    pub fn window(&mut self, seg: Seg, address: u16, size: u16) -> Option<Window>
        requires { 0 < size }
        ensures* lends { sem 𝓛 (LendsWindow self.entry result) }
        ensures exactly { IsSome result ↔ IsSome (range_of self.old seg address size) }
        ensures value { IfSome result (λ window. IsWindow self.entry seg address size window) }
    {
        let range = self.range(seg, address, size)?;
        Some(Window { banks: self, range })
    }

    /// `size` bytes (at least 1) from an address on, as the process of a segment names them. None comes exactly where
    /// they don't lie wholly in the segment or wholly in common memory.
    pub fn view(&self, seg: Seg, address: u16, size: u16) -> Option<&[u8]>
        requires { 0 < size }
        ensures { option_copied result ≡ option_map (range_bytes self.now) (range_of self.now seg address size) }
    {
        let range = self.range(seg, address, size)?;
        Some(self.range_at(range))
    }

    /// Does a burst of what a process does, over its segment and common memory.
    #[inline]
    #[tactic(auto, using(crate::proofs::SideLaws::with_range_whole, crate::proofs::SideLaws::sides_are_memory))]
    pub fn run<B: Burst>(
        &mut self,
        burst: &B,
        seg: Seg,
        regs: &mut Regs,
        devices: &mut Devices,
    ) -> u64
        requires { HasSegment self.old seg }
        ensures ran { B.ran burst.now regs.old (reach_of self.old seg) devices.old result regs.new (reach_of self.new seg) devices.new }
        ensures others { self.new ≡ with_sides self.old seg (segment_of self.new seg).bytes self.new.common }
    {
        let segment = &mut self.segments[usize::from(seg.0)];
        let spec = segment.spec();
        let bytes = segment.bytes.all_mut();
        burst.run(spec, regs, bytes, self.common.all_mut(), devices)
    }

    /// The range that `size` addresses from one on name for the process of a segment.
    #[tactic(auto, unfolding(crate::specs::Ranges::range_of, crate::specs::Ranges::IsInsideMemory, crate::specs::Ranges::range_size))]
    fn range(&self, seg: Seg, address: u16, size: u16) -> Option<Range>
        requires { 0 < size }
        ensures value { result ≡ range_of self.now seg address size }
        ensures inside { IfSome result (λ range. IsInsideMemory self.now range) }
        ensures size { IfSome result (λ range. range_size range ≡ size) }
    {
        if address >= COMMON_BASE {
            common_range(address, size)
        } else {
            self.segments
                .get(usize::from(seg.0))?
                .range(seg, address, size)
        }
    }

    /// The bytes of a range.
    #[tactic(auto, unfolding(crate::specs::Ranges::IsInsideMemory, crate::specs::Ranges::range_bytes))]
    fn range_at(&self, range: Range) -> &[u8]
        requires { IsInsideMemory self.now range }
        ensures { result.now ≡ range_bytes self.now range }
    {
        match range.space {
            Space::Common => self.common.range(range.from, range.to),
            Space::InSegment(seg) => self.segments[usize::from(seg)]
                .bytes
                .range(range.from, range.to),
        }
    }

    /// Lends the bytes of a range.
    #[tactic(auto, unfolding(crate::specs::Ranges::IsInsideMemory, crate::specs::Ranges::put_range, crate::specs::Ranges::range_bytes, crate::specs::Ranges::range_size))]
    pub(crate) fn range_mut(&mut self, range: Range) -> &mut [u8]
        requires { IsInsideMemory self.old range }
        ensures* lends { sem 𝓛 (LendsMemory self.entry range result) }
        ensures value { result.now ≡ range_bytes self.old range }
        ensures size { length result.now ≡ range_size range }
    {
        match range.space {
            Space::Common => self.common.range_mut(range.from, range.to),
            Space::InSegment(seg) => self.segments[usize::from(seg)]
                .bytes
                .range_mut(range.from, range.to),
        }
    }
}

/// The first of some segments that is free, of at least so many pages, and of that base page where one is given.
fn first_fit(segments: &[Segment], base: Option<u8>, pages: u8) -> Option<usize>
    ensures value { result ≡ position (fits base pages) segments.now }
    ensures below { IfSome result (λ index. index < length segments.now) }
{
    segments
        .iter()
        .position(|segment| segment.fits(base, pages))
}

/// Gives back each of some segments that the process reserved.
fn release_each(segments: &mut [Segment], owner: Pid)
    ensures { segments.new ≡ map (freed owner) segments.old }
{
    for segment in segments.iter_mut() {
        segment.release(owner);
    }
}

/// A free segment for each of some specs.
fn new_segments(alloc: Global, specs: &[SegmentSpec]) -> Result<Vec<Segment>, OutOfMemory>
    requires { length specs.now ≤ 16 }
    ensures { IfOk result (λ segments. segments.items ≡ map new_segment specs.now) }
{
    let mut segments = Vec::with_capacity(alloc, specs.len())?;
    for spec in specs {
        segments.push(Segment::new(alloc, *spec)?)?;
    }
    Ok(segments)
}

/// The range that `size` addresses from one on name in common memory; none where they pass FFFFh.
fn common_range(address: u16, size: u16) -> Option<Range>
    requires { 49152 ≤ address }
    ensures { result ≡ range_from Space.Common 49152 65536 address size }
{
    let from = usize::from(address - COMMON_BASE);
    let to = from + usize::from(size);
    if COMMON_SIZE < to {
        return None;
    }
    Some(Range {
        space: Space::Common,
        from,
        to,
    })
}
