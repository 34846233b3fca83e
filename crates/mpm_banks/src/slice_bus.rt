ghost use Rattle.std.specs.Prelude.{◌≡◌, ◌+◌, ◌-◌, ◌*◌, ◌&&◌, min, nat_le, nat_lt, length, Some, None, unwrap_or, if◌then◌else◌};

use crate::ports::read_port;
use crate::range::COMMON_BASE;
use mpm_base::{Devices, SegmentSpec};
use z80_regs::Bus;

/// Memory and devices as a process reaches them: the bytes of its segment, which lies there, and those of common memory.
#[derive(Drop)]
pub struct SliceBus<'a, 'b, 'c> {
    /// Where the segment lies.
    pub spec: SegmentSpec,
    /// The segment's bytes, from its base page on.
    pub segment: &'a mut [u8],
    /// The bytes of common memory, from C000h on.
    pub common: &'b mut [u8],
    /// The polled devices.
    pub devices: &'c mut Devices,
}

impl Bus for SliceBus<'_, '_, '_> {
    ghost use Rattle.mpm_banks.specs.Memory.{byte_at, IsWritable};
    ghost use Rattle.mpm_banks.specs.Ports.{port_byte};
    ghost use Rattle.mpm_banks.specs.SliceBus.{reached, WroteSlice, TookSliceInput};
    ghost use Rattle.mpm_banks.specs.SliceLaws.{reads_back_law, write_keeps_bytes_law, write_keeps_ports_law, write_keeps_writable_law, input_keeps_bytes_law, input_keeps_writable_law};

    ghost byte = { λ bus. byte_at (reached bus) 0 };

    ghost port_byte = { λ bus. port_byte bus.devices.now };

    ghost writable = { λ bus. IsWritable (reached bus) 0 };

    ghost wrote = { WroteSlice };

    ghost took = { TookSliceInput };

    ghost reads_back = { reads_back_law };

    ghost write_keeps_bytes = { write_keeps_bytes_law };

    ghost write_keeps_ports = { write_keeps_ports_law };

    ghost write_keeps_writable = { write_keeps_writable_law };

    ghost input_keeps_bytes = { input_keeps_bytes_law };

    ghost input_keeps_writable = { input_keeps_writable_law };

    #[inline(always)]
    #[tactic(auto, unfolding(crate::specs::Memory::place_of, crate::specs::Memory::byte_at))]
    fn read(&self, address: u16) -> u8 {
        match self.index(address) {
            Some(index) => self.segment[index],
            None => self.byte_outside(address),
        }
    }

    #[inline(always)]
    #[tactic(auto, unfolding(crate::specs::Memory::place_of, crate::specs::Memory::with_byte))]
    fn write(&mut self, address: u16, value: u8) {
        match self.index(address) {
            Some(index) => self.segment[index] = value,
            None => self.put_outside(address, value),
        }
    }

    fn input(&mut self, port: u8) -> u8 {
        read_port(self.devices, port)
    }

    fn output(&mut self, _port: u8, _value: u8) {}
}

impl SliceBus<'_, '_, '_> {
    ghost use Rattle.mpm_banks.specs.SliceBus.{SameSlices};
    ghost use Rattle.mpm_banks.specs.Stretches.{byte_among, put_among};

    /// Which byte of the segment an address names. How many it has below common memory doesn't depend on the address.
    #[inline(always)]
    fn index(&self, address: u16) -> Option<usize>
        ensures { result ≡ if nat_le (256 * self.now.spec.base) address && nat_lt address (min (256 * self.now.spec.base + length self.now.segment.now) 49152) then Some (address - 256 * self.now.spec.base) else None }
    {
        let first = 256 * usize::from(self.spec.base);
        let size = usize::from(COMMON_BASE)
            .saturating_sub(first)
            .min(self.segment.len());
        let index = usize::from(address).wrapping_sub(first);
        if index < size {
            return Some(index);
        }
        None
    }

    /// The byte that an address outside the segment reads.
    #[inline(always)]
    fn byte_outside(&self, address: u16) -> u8
        ensures { result ≡ unwrap_or (byte_among 49152 self.now.common.now address) 255 }
    {
        if address < COMMON_BASE {
            return 0xFF;
        }
        match self.common.get(usize::from(address - COMMON_BASE)) {
            Some(byte) => *byte,
            None => 0xFF,
        }
    }

    /// Writes the byte that an address outside the segment names.
    #[inline(always)]
    fn put_outside(&mut self, address: u16, value: u8)
        ensures sides { SameSlices self.old self.new }
        ensures segment { self.new.segment.now ≡ self.old.segment.now }
        ensures common { self.new.common.now ≡ put_among 49152 self.old.common.now address value }
        ensures devices { self.new.devices.now ≡ self.old.devices.now }
    {
        if address < COMMON_BASE {
            return;
        }
        let index = usize::from(address - COMMON_BASE);
        if index < self.common.len() {
            self.common[index] = value;
        }
    }
}
