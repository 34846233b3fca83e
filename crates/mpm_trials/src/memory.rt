//! What a process reaches in its segment and in common memory, and who has which segment.
ghost use Rattle.std.specs.Prelude.{◌≡◌};

use mpm_banks::{BankBus, Banks, Burst, SliceBus};
use mpm_base::{Devices, Pid, Seg, SegmentSpec};
use std::alloc::{AllocError, Global};
use std::test::Fail;
use z80_regs::{Bus, Regs};

/// Two segments of 16 pages each, with the base pages 40h and 60h.
const TWO: [SegmentSpec; 2] = [
    SegmentSpec {
        base: 0x40,
        pages: 16,
    },
    SegmentSpec {
        base: 0x60,
        pages: 16,
    },
];

/// Memory with these two segments.
fn two_segments(alloc: Global) -> Result<Banks, AllocError> {
    Banks::new(alloc, &TWO)
}

/// The first row, if any, of a segment and an address whose byte is another one.
fn first_other(banks: &Banks, rows: &[(u8, u16, u8)]) -> Option<usize> {
    for (place, (seg, address, byte)) in rows.iter().enumerate() {
        if banks.byte(Seg(*seg % 16), *address) != *byte {
            return Some(place);
        }
    }
    None
}

/// Whether memory has these bytes.
fn has(banks: &Banks, rows: &[(u8, u16, u8)]) -> bool {
    first_other(banks, rows).is_none()
}

/// Whether memory that is new is zero.
fn is_zero(banks: &Banks) -> bool {
    let rows = [(0, 0x4000, 0), (1, 0x6FFF, 0), (1, 0xFFFF, 0)];
    has(banks, &rows)
}

/// Whether there is a window of so many bytes from an address of segment 0 on.
fn has_window(banks: &mut Banks, address: u16, size: u16) -> bool {
    size > 0 && banks.window(Seg(0), address, size).is_some()
}

/// Whether windows end with their segment, or with memory.
fn windows_end(banks: &mut Banks) -> bool {
    has_window(banks, 0x4F80, 128)
        && !has_window(banks, 0x4F80, 129)
        && has_window(banks, 0xFFFF, 1)
        && !has_window(banks, 0xFFFF, 2)
}

/// Writes two bytes through a window that ends with segment 1.
fn write_through(banks: &mut Banks) {
    if let Some(window) = banks.window(Seg(1), 0x6FFE, 2) {
        window.into_bytes().copy_from_slice(&[7, 8]);
    }
}

/// Whether they are read at their addresses, and in that segment alone.
fn are_read(banks: &Banks) -> bool {
    let rows = [
        (1, 0x6FFD, 0),
        (1, 0x6FFE, 7),
        (1, 0x6FFF, 8),
        (0, 0x4FFE, 0),
    ];
    has(banks, &rows)
        && banks.view(Seg(1), 0x6FFE, 2) == Some(&[7, 8][..])
        && banks.view(Seg(0), 0x6FFE, 2).is_none()
}

#[test]
fn memory_is_read_and_written_by_addresses(rt: HostRuntime) -> Result<(), Fail> {
    let mut banks = two_segments(rt.alloc())?;
    let zero = is_zero(&banks);
    let end = windows_end(&mut banks);
    write_through(&mut banks);
    let read = are_read(&banks);
    assert!(rt; zero && end && read);
    Ok(())
}

/// Whether the lowest free segment that fits is reserved, and is free again once it is given back.
fn lowest_is_reserved(banks: &mut Banks) -> bool {
    let first = banks.reserve(Pid(3), None, 17).is_none()
        && banks.reserve(Pid(3), Some(0x60), 16) == Some(Seg(1))
        && !banks.release(Pid(4), Seg(1))
        && banks.reserve(Pid(3), Some(0x60), 0).is_none()
        && banks.release(Pid(3), Seg(1));
    let both = banks.reserve(Pid(5), None, 1) == Some(Seg(0))
        && banks.reserve(Pid(5), None, 1) == Some(Seg(1));
    banks.release_all(Pid(5));
    first && both && banks.reserve(Pid(3), None, 1) == Some(Seg(0))
}

/// Whether a segment that is lived in is neither free nor reserved.
fn is_lived_in(banks: &mut Banks) -> bool {
    if banks.segments() != 2 || banks.spec(Seg(0)) != TWO[0] {
        return false;
    }
    banks.occupy(Seg(0));
    banks.reserve(Pid(3), Some(0x40), 1).is_none() && !banks.release(Pid(0), Seg(0))
}

#[test]
fn segments_are_reserved_and_lived_in(rt: HostRuntime) -> Result<(), Fail> {
    let mut banks = two_segments(rt.alloc())?;
    let reserved = lowest_is_reserved(&mut banks);
    let lived_in = is_lived_in(&mut banks);
    assert!(rt; reserved && lived_in);
    Ok(())
}

/// Writes four bytes: before segment 1, into it, after it, and into common memory.
fn write_four<B: Bus>(bus: &mut B) {
    bus.write(0x5FFF, 1);
    bus.write(0x6000, 2);
    bus.write(0x7000, 3);
    bus.write(0xC000, 4);
}

/// Whether those in the segment and in common memory alone are kept.
fn two_are_kept<B: Bus>(bus: &B) -> bool {
    bus.read(0x5FFF) == 0xFF
        && bus.read(0x6000) == 2
        && bus.read(0x7000) == 0xFF
        && bus.read(0xC000) == 4
}

/// Whether a process of segment 1 reaches its segment and common memory alone.
fn reaches_its_own(banks: &mut Banks) -> bool {
    let mut devices = Devices::new();
    let mut bus = BankBus {
        banks,
        seg: Seg(1),
        devices: &mut devices,
    };
    write_four(&mut bus);
    two_are_kept(&bus)
}

#[test]
fn a_process_reaches_its_segment_and_common_memory(rt: HostRuntime) -> Result<(), Fail> {
    let mut banks = two_segments(rt.alloc())?;
    let reaches = reaches_its_own(&mut banks);
    let rows = [
        (0, 0xC000, 4),
        (0, 0x4000, 0),
        (15, 0x6000, 0xFF),
        (15, 0xC000, 4),
    ];
    let kept = has(&banks, &rows);
    assert!(rt; reaches && kept);
    Ok(())
}

/// Whether two slices are reached as segment 1 and as common memory, of which there are two bytes.
fn are_reached(segment: &mut [u8], common: &mut [u8]) -> bool {
    let mut devices = Devices::new();
    let mut bus = SliceBus {
        spec: TWO[1],
        segment,
        common,
        devices: &mut devices,
    };
    write_four(&mut bus);
    bus.write(0xC002, 5);
    two_are_kept(&bus) && bus.read(0x6001) == 0 && bus.read(0xC002) == 0xFF
}

#[test]
fn two_slices_are_reached_as_a_segment_and_common_memory(rt: HostRuntime) -> Result<(), Fail> {
    let mut segment = [0; 4096];
    let mut common = [0; 2];
    let reached = are_reached(&mut segment, &mut common);
    assert!(rt; reached);
    Ok(())
}

/// A burst that fills the segment with 2 and common memory with 4.
struct Filling;

impl Burst for Filling {
    ghost ran = { λ burst regs memory devices n new_regs new_memory new_devices. n ≡ 2 };

    fn run(
        &self,
        spec: SegmentSpec,
        regs: &mut Regs,
        segment: &mut [u8],
        common: &mut [u8],
        devices: &mut Devices,
    ) -> u64 {
        segment.fill(2);
        common.fill(4);
        2
    }
}

/// Whether a burst in segment 1 does two instructions.
fn fills(banks: &mut Banks) -> bool {
    let mut devices = Devices::new();
    let mut regs = Regs::default();
    banks.segments() == 2 && banks.run(&Filling, Seg(1), &mut regs, &mut devices) == 2
}

#[test]
fn a_burst_leaves_other_segments(rt: HostRuntime) -> Result<(), Fail> {
    let mut banks = two_segments(rt.alloc())?;
    let filled = fills(&mut banks);
    let rows = [
        (1, 0x5FFF, 0xFF),
        (1, 0x6000, 2),
        (1, 0x6FFF, 2),
        (0, 0xC000, 4),
        (0, 0x4000, 0),
        (15, 0x6000, 0xFF),
        (15, 0xFFFF, 4),
    ];
    let left = has(&banks, &rows);
    assert!(rt; filled && left);
    Ok(())
}

/// Whether an input clears the readiness of its device alone, and keeps its byte.
fn inputs(banks: &mut Banks) -> bool {
    let mut devices = Devices::new();
    devices.ready[15] = true;
    devices.ready[14] = true;
    devices.last[15] = 0x41;
    let mut bus = BankBus {
        banks,
        seg: Seg(0),
        devices: &mut devices,
    };
    bus.output(0x8F, 9);
    let bytes = bus.input(0x8F) == 0x41
        && bus.input(0x8F) == 0x41
        && bus.input(0x90) == 0xFF
        && bus.input(0x7F) == 0xFF;
    bytes && !devices.ready[15] && devices.ready[14]
}

#[test]
fn an_input_clears_readiness_and_keeps_the_byte(rt: HostRuntime) -> Result<(), Fail> {
    let mut banks = two_segments(rt.alloc())?;
    let input = inputs(&mut banks);
    assert!(rt; input);
    Ok(())
}
