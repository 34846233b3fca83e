//! The file of a core: a head that was worked out by hand, and bytes that are no file of a core.
use mpm_base::{Pid, SegmentSpec};
use mpm_core_file::{HEAD_SIZE, Head, LARGEST_SIZE, read_head};
use std::alloc::Global;
use std::test::Fail;
use z80_regs::{InterruptMode, Regs};

/// The head of a program in all 192 pages below common memory after its first two instructions, LD C,9 and LD DE,010Dh.
const TWO_STEPS: [u8; HEAD_SIZE] = [
    b'M', b'P', b'M', b'C', b'O', b'R', b'E', b'1', 2, 0, 0, 0, 0, 0, 0, 0, 0, 0, 192, 0, 0, 0, 0,
    9, 1, 0x0D, 0, 0, 0, 0, 0, 0, 0, 0, 0, 0, 0, 0, 0, 0, 0xFE, 0xBE, 0x05, 0x01, 0, 2, 1, 1, 0, 0,
    0,
];

/// What that head says.
fn two_steps() -> Head {
    Head {
        step: 2,
        process: Pid(0),
        spec: SegmentSpec {
            base: 0,
            pages: 192,
        },
        inside: false,
        regs: Regs {
            c: 9,
            d: 1,
            e: 0x0D,
            sp: 0xBEFE,
            pc: 0x0105,
            r: 2,
            iff1: true,
            iff2: true,
            ..Regs::default()
        },
    }
}

/// A head none of whose bytes is that of another one.
fn all_different() -> Head {
    Head {
        step: 0x0807_0605_0403_0201,
        process: Pid(31),
        spec: SegmentSpec {
            base: 100,
            pages: 92,
        },
        inside: true,
        regs: Regs {
            a: 0x10,
            f: 0x11,
            b: 0x12,
            c: 0x13,
            d: 0x14,
            e: 0x15,
            h: 0x16,
            l: 0x17,
            a2: 0x18,
            f2: 0x19,
            b2: 0x1A,
            c2: 0x1B,
            d2: 0x1C,
            e2: 0x1D,
            h2: 0x1E,
            l2: 0x20,
            ix: 0x2221,
            iy: 0x2423,
            sp: 0x2625,
            pc: 0x2827,
            i: 0x29,
            r: 0x2A,
            iff1: false,
            iff2: true,
            mode: InterruptMode(2),
            halted: true,
            shadow: false,
        },
    }
}

/// The bytes of that head.
const ALL_DIFFERENT: [u8; HEAD_SIZE] = [
    b'M', b'P', b'M', b'C', b'O', b'R', b'E', b'1', 1, 2, 3, 4, 5, 6, 7, 8, 31, 100, 92, 1, 0x10,
    0x11, 0x12, 0x13, 0x14, 0x15, 0x16, 0x17, 0x18, 0x19, 0x1A, 0x1B, 0x1C, 0x1D, 0x1E, 0x20, 0x21,
    0x22, 0x23, 0x24, 0x25, 0x26, 0x27, 0x28, 0x29, 0x2A, 0, 1, 2, 1, 0,
];

/// A file of so many bytes that begins with a head, and has zeros after it.
fn file(alloc: Global, head: &[u8; HEAD_SIZE], size: usize) -> Result<Vec<u8>, Fail> {
    let mut text = vec![in alloc; 0; size]?;
    for (byte, kept) in text.iter_mut().zip(head) {
        *byte = *kept;
    }
    Ok(text)
}

/// Where some bytes are seen to be no file of a core.
fn fault(text: &[u8]) -> Option<u32> {
    match read_head(text) {
        Ok(_) => None,
        Err(fault) => Some(fault.place),
    }
}

/// Where some bytes with another byte at a place are seen to be no file of a core. The byte is put back then.
fn fault_with(text: &mut [u8], place: usize, byte: u8) -> Option<u32> {
    let kept = match text.get(place) {
        Some(kept) => *kept,
        None => 0,
    };
    if let Some(there) = text.get_mut(place) {
        *there = byte;
    }
    let found = fault(text);
    if let Some(there) = text.get_mut(place) {
        *there = kept;
    }
    found
}

/// Whether a file has each of some faults where a byte is another one.
fn has_faults(text: &mut [u8], rows: &[(usize, u8, Option<u32>)]) -> bool {
    for (place, byte, found) in rows {
        if fault_with(text, *place, *byte) != *found {
            return false;
        }
    }
    true
}

/// Whether the first bytes of a file, so many, have each of some faults.
fn is_short(text: &[u8], sizes: &[u32]) -> bool {
    for size in sizes {
        match text.get(..*size as usize) {
            Some(part) => {
                if fault(part) != Some(*size) {
                    return false;
                }
            }
            None => return false,
        }
    }
    true
}

/// Whether a head is written as some bytes, and read from a file that begins with them.
fn is_read_back(head: Head, bytes: &[u8; HEAD_SIZE], text: &[u8]) -> bool {
    head.bytes() == *bytes && read_head(text) == Ok(head)
}

#[test]
fn a_head_is_written_as_worked_out_by_hand_and_read_again(rt: HostRuntime) -> Result<(), Fail> {
    let text = file(rt.alloc(), &TWO_STEPS, LARGEST_SIZE)?;
    assert!(rt; is_read_back(two_steps(), &TWO_STEPS, &text));
    Ok(())
}

#[test]
fn each_field_has_its_place(rt: HostRuntime) -> Result<(), Fail> {
    let text = file(rt.alloc(), &ALL_DIFFERENT, 51 + 256 * 92 + 16_384)?;
    assert!(rt; is_read_back(all_different(), &ALL_DIFFERENT, &text));
    Ok(())
}

#[test]
fn a_byte_that_cannot_stand_is_found(rt: HostRuntime) -> Result<(), Fail> {
    let mut text = file(rt.alloc(), &TWO_STEPS, LARGEST_SIZE)?;
    let rows = [
        (0, b'm', Some(0)),
        (7, b'2', Some(7)),
        (15, 255, None),
        (16, 31, None),
        (16, 32, Some(16)),
        (17, 1, Some(17)),
        (18, 3, Some(18)),
        (18, 193, Some(18)),
        (18, 4, Some(17_459)),
        (19, 2, Some(19)),
        (45, 255, None),
        (46, 2, Some(46)),
        (47, 255, Some(47)),
        (48, 2, None),
        (48, 3, Some(48)),
        (49, 2, Some(49)),
        (50, 2, Some(50)),
        (51, 255, None),
    ];
    assert!(rt; has_faults(&mut text, &rows));
    Ok(())
}

#[test]
fn the_pages_are_judged_before_the_base(rt: HostRuntime) -> Result<(), Fail> {
    let mut text = file(rt.alloc(), &TWO_STEPS, LARGEST_SIZE)?;
    if let Some(base) = text.get_mut(17) {
        *base = 200;
    }
    assert!(rt;
        has_faults(
            &mut text,
            &[(18, 3, Some(18)), (18, 4, Some(17)), (19, 2, Some(17))]
        )
    );
    Ok(())
}

#[test]
fn a_file_that_is_too_short_ends_where_a_byte_is_missing(rt: HostRuntime) -> Result<(), Fail> {
    let text = file(rt.alloc(), &TWO_STEPS, LARGEST_SIZE)?;
    assert!(rt; is_short(&text, &[0, 1, 16, 17, 18, 19, 50, 51, 100, 65_586]));
    Ok(())
}

#[test]
fn a_file_that_is_too_long_has_the_right_length(rt: HostRuntime) -> Result<(), Fail> {
    let text = file(rt.alloc(), &TWO_STEPS, LARGEST_SIZE + 1)?;
    assert!(rt; fault(&text) == Some(65_587));
    Ok(())
}
