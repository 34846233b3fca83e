//! What one step leaves of registers and memory after the prefixes, one case a line; the bytes that are no instruction there; and some
//! programs of a few steps.
use crate::page_cases::{
    BITS_IX, BITS_IY, EXTENDED, HIGH_RESETS, HIGH_SETS, HIGH_TESTS, INDEX_IX, INDEX_IY, LOW_RESETS,
    LOW_SETS, LOW_TESTS, PAGE_EDGES, SHIFTS,
};
use std::test::Fail;
use z80_ext::{Stepped, step};
use z80_regs::{Bus, Regs};
use z80_scenes::{Memory, all_of_page_come_out, behind, fixture};

/// Whether an opcode after EDh, with IFF2 alone on, leaves A, F, SP, PC and IFF1 so.
fn shows_second(memory: &mut Memory, row: (u8, u8, u8, u16, u16, bool)) -> bool {
    let (opcode, a, f, sp, pc, iff1) = row;
    memory.place(0x0100, &[0xed, opcode]);
    let mut regs = fixture();
    (regs.iff1, regs.iff2) = (false, true);
    step(&mut regs, memory);
    regs == Regs {
        a,
        f,
        sp,
        iff1,
        iff2: true,
        ..behind(pc)
    }
}

/// IFF2 is the P/V of LD A,I and LD A,R. RETN copies it to IFF1, and RETI copies nothing.
#[test]
fn second_flip_flop(rt: HostRuntime) -> Result<(), Fail> {
    let mut memory = Memory::new(rt.alloc(), 65536)?;
    memory.place(0xbefe, &[0x2b, 0xc9]);
    let loads = shows_second(&mut memory, (0x57, 0x1b, 0x04, 0xbefe, 0x0102, false))
        && shows_second(&mut memory, (0x5f, 0x80, 0x84, 0xbefe, 0x0102, false));
    let returns = shows_second(&mut memory, (0x45, 0x01, 0x02, 0xbf00, 0xc92b, true))
        && shows_second(&mut memory, (0x4d, 0x01, 0x02, 0xbf00, 0xc92b, false));
    assert!(rt; loads && returns);
    Ok(())
}

#[test]
fn bits(rt: HostRuntime) -> Result<(), Fail> {
    let mut memory = Memory::new(rt.alloc(), 65536)?;
    let shifts = all_of_page_come_out(&SHIFTS, &mut memory);
    let tests = all_of_page_come_out(&LOW_TESTS, &mut memory)
        && all_of_page_come_out(&HIGH_TESTS, &mut memory);
    let resets = all_of_page_come_out(&LOW_RESETS, &mut memory)
        && all_of_page_come_out(&HIGH_RESETS, &mut memory);
    let sets = all_of_page_come_out(&LOW_SETS, &mut memory)
        && all_of_page_come_out(&HIGH_SETS, &mut memory);
    assert!(rt; shifts && tests && resets && sets);
    Ok(())
}

#[test]
fn extended_and_indexed(rt: HostRuntime) -> Result<(), Fail> {
    let mut memory = Memory::new(rt.alloc(), 65536)?;
    let extended = all_of_page_come_out(&EXTENDED, &mut memory)
        && all_of_page_come_out(&PAGE_EDGES, &mut memory);
    let by_ix = all_of_page_come_out(&INDEX_IX, &mut memory)
        && all_of_page_come_out(&BITS_IX, &mut memory);
    let by_iy = all_of_page_come_out(&INDEX_IY, &mut memory)
        && all_of_page_come_out(&BITS_IY, &mut memory);
    assert!(rt; extended && by_ix && by_iy);
    Ok(())
}

/// Registers that are all 0 but PC.
fn zeros(pc: u16) -> Regs {
    Regs {
        pc,
        ..Regs::default()
    }
}

/// LDIR of three bytes at 0300h to 0200h: two transfers after three loads, and then the last.
fn copies_a_byte_a_step(memory: &mut Memory) -> bool {
    memory.place(0x0300, &[0x11, 0x22, 0x33]);
    memory.place(
        0x0100,
        &[
            0x21, 0x00, 0x03, 0x11, 0x00, 0x02, 0x01, 0x03, 0x00, 0xed, 0xb0,
        ],
    );
    let mut regs = zeros(0x0100);
    for _ in 0..5 {
        step(&mut regs, memory);
    }
    let two = regs
        == Regs {
            c: 1,
            d: 2,
            e: 2,
            h: 3,
            l: 2,
            f: 0x04,
            r: 5,
            ..zeros(0x0109)
        };
    step(&mut regs, memory);
    let three = regs
        == Regs {
            c: 0,
            d: 2,
            e: 3,
            h: 3,
            l: 3,
            r: 6,
            ..zeros(0x010b)
        };
    two && three && memory.read(0x0202) == 0x33
}

/// LD A,(IX-2) with IX at 0000h.
fn loads_below_0000(memory: &mut Memory) -> bool {
    memory.place(0x0100, &[0xdd, 0x7e, 0xfe]);
    memory.place(0xfffe, &[0x5a]);
    let mut regs = zeros(0x0100);
    step(&mut regs, memory);
    regs == Regs {
        a: 0x5a,
        r: 1,
        ..zeros(0x0103)
    }
}

/// LD IXH,12h, then INC IXH.
fn builds_a_half(memory: &mut Memory) -> bool {
    memory.place(0x0100, &[0xdd, 0x26, 0x12, 0xdd, 0x24]);
    let mut regs = zeros(0x0100);
    step(&mut regs, memory);
    step(&mut regs, memory);
    regs == Regs {
        ix: 0x1300,
        r: 2,
        ..zeros(0x0105)
    }
}

/// EI, then HALT.
fn halts_with_interrupts_on(memory: &mut Memory) -> bool {
    memory.place(0x0200, &[0xfb, 0x76]);
    let mut regs = zeros(0x0200);
    step(&mut regs, memory);
    let on = regs
        == Regs {
            iff1: true,
            iff2: true,
            shadow: true,
            r: 1,
            ..zeros(0x0201)
        };
    step(&mut regs, memory);
    let halted = regs
        == Regs {
            iff1: true,
            iff2: true,
            halted: true,
            r: 2,
            ..zeros(0x0202)
        };
    on && halted
}

/// LDIR of three bytes, one a step; a negative displacement around the end of memory; a half of IX; EI, then HALT.
#[test]
fn worked_programs(rt: HostRuntime) -> Result<(), Fail> {
    let mut memory = Memory::new(rt.alloc(), 65536)?;
    let copied = copies_a_byte_a_step(&mut memory);
    let loaded = loads_below_0000(&mut memory);
    let built = builds_a_half(&mut memory);
    let halted = halts_with_interrupts_on(&mut memory);
    assert!(rt; copied && loaded && built && halted);
    Ok(())
}

/// Whether a prefix and a second byte begin a listed instruction, the fourth byte being 00h.
fn is_listed(prefix: u8, second: u8) -> bool {
    match (prefix, second) {
        (0xcb, _) => true,
        (0xed, 0x40..=0x4b | 0x4d | 0x4f..=0x53 | 0x56..=0x5b | 0x5e..=0x63) => true,
        (0xed, 0x67..=0x6b | 0x6f | 0x72 | 0x73 | 0x78..=0x7b) => true,
        (0xed, 0xa0..=0xa3 | 0xa8..=0xab | 0xb0..=0xb3 | 0xb8..=0xbb) => true,
        (0xed, _) => false,
        (_, 0x09 | 0x19 | 0x21..=0x26 | 0x29..=0x2e | 0x34 | 0x35 | 0x36 | 0x39) => true,
        (_, 0x44..=0x46 | 0x4c..=0x4e | 0x54..=0x56 | 0x5c..=0x5e | 0x60..=0x6f) => true,
        (_, 0x70..=0x75 | 0x77 | 0x7c..=0x7e | 0x84..=0x86 | 0x8c..=0x8e) => true,
        (_, 0x94..=0x96 | 0x9c..=0x9e | 0xa4..=0xa6 | 0xac..=0xae) => true,
        (_, 0xb4..=0xb6 | 0xbc..=0xbe) => true,
        (_, 0xe1 | 0xe3 | 0xe5 | 0xe9 | 0xf9) => true,
        _ => false,
    }
}

/// Whether a step on four bytes answers `Illegal` and changes nothing.
fn is_refused(code: &[u8; 4], memory: &mut Memory) -> bool {
    memory.place(0x0100, code);
    memory.writes = [0; 4];
    let mut regs = fixture();
    step(&mut regs, memory) == Stepped::Illegal && regs == fixture() && memory.writes == [0; 4]
}

/// Whether the instructions after prefixes that begin with a byte are refused exactly where they aren't listed.
fn are_refused_as_listed(byte: u8, memory: &mut Memory) -> bool {
    for prefix in [0xcb, 0xdd, 0xed, 0xfd] {
        if is_refused(&[prefix, byte, 0x00, 0x00], memory) == is_listed(prefix, byte) {
            return false;
        }
    }
    let bit_is_listed = byte % 8 == 6 && byte != 0x36;
    is_refused(&[0xdd, 0xcb, 0x05, byte], memory) != bit_is_listed
        && is_refused(&[0xfd, 0xcb, 0x05, byte], memory) != bit_is_listed
}

/// After the prefixes all bytes that aren't listed are refused, and no others.
#[test]
fn unlisted_bytes(rt: HostRuntime) -> Result<(), Fail> {
    let mut memory = Memory::new(rt.alloc(), 65536)?;
    let mut first_wrong = None;
    for byte in 0..=255 {
        if !are_refused_as_listed(byte, &mut memory) && first_wrong.is_none() {
            first_wrong = Some(byte);
        }
    }
    assert_eq!(rt; first_wrong, None);
    Ok(())
}
