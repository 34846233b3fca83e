//! Cases, one instruction a line, in hexadecimal: its bytes, AF and BC before it; the registers after it; the address and the byte of
//! its last two writes.
use crate::memory::Memory;
use crate::registers::fixture;
use z80_ext::{Stepped, step};
use z80_regs::Regs;

/// The low byte of a number.
fn low_byte(number: u32) -> u8 {
    (number % 256) as u8
}

/// The byte above it.
fn high_byte(number: u32) -> u8 {
    (number / 256 % 256) as u8
}

/// The low word of a number.
fn word(number: u32) -> u16 {
    (number % 65536) as u16
}

/// The value of a digit in hexadecimal.
fn digit(byte: u8) -> Option<u32> {
    match byte {
        b'0'..=b'9' => Some(u32::from(byte - b'0')),
        b'A'..=b'F' => Some(u32::from(byte - b'A') + 10),
        _ => None,
    }
}

/// The numbers of a line, apart from one another by anything else.
fn numbers(line: &str) -> [u32; 17] {
    let mut numbers = [0; 17];
    let mut place = 0;
    let mut is_inside = false;
    for byte in line.as_bytes() {
        match digit(*byte) {
            Some(value) if place < 17 => {
                let number: u32 = numbers[place];
                numbers[place] = number.wrapping_mul(16).wrapping_add(value);
                is_inside = true;
            }
            _ if is_inside && place < 17 => {
                place += 1;
                is_inside = false;
            }
            _ => {}
        }
    }
    numbers
}

/// Places bytes where the registers of a case, its word and its displacement point to.
fn prepare(memory: &mut Memory) {
    memory.place(0x0304, &[0x91]);
    memory.place(0x0586, &[0x7a]);
    memory.place(0x4708, &[0x3c]);
    memory.place(0x9234, &[0x5d, 0xa6]);
    memory.place(0x169d, &[0xb9]);
    memory.place(0x189f, &[0x6e]);
    memory.place(0xbefe, &[0x2b, 0xc9]);
    memory.writes = [0; 4];
}

/// A case's registers before, or what is wanted of them, from AF, BC, DE, HL, SP and PC.
fn registers(words: [u32; 6]) -> Regs {
    let [af, bc, de, hl, sp, pc] = words;
    Regs {
        a: high_byte(af),
        f: low_byte(af),
        b: high_byte(bc),
        c: low_byte(bc),
        d: high_byte(de),
        e: low_byte(de),
        h: high_byte(hl),
        l: low_byte(hl),
        sp: word(sp),
        pc: word(pc),
        ..fixture()
    }
}

/// Whether a case comes out as it says.
fn comes_out(line: &str, memory: &mut Memory) -> bool {
    let [
        code,
        af,
        bc,
        new_af,
        new_bc,
        de,
        hl,
        sp,
        pc,
        first,
        one,
        second,
        other,
        ..
    ] = numbers(line);
    memory.place(
        0x0100,
        &[low_byte(code / 65536), high_byte(code), low_byte(code)],
    );
    prepare(memory);
    let mut regs = registers([af, bc, 0x0586, 0x4708, 0xbefe, 0x0100]);
    let stepped = step(&mut regs, memory);
    let mut want = registers([new_af, new_bc, de, hl, sp, pc]);
    (want.r, want.shadow) = (0x80, false);
    stepped == Stepped::Ran && regs == want && memory.writes == [first, one, second, other]
}

/// Whether a case of the other pages comes out as it says.
fn page_comes_out(line: &str, memory: &mut Memory) -> bool {
    let [
        code,
        af,
        bc,
        new_af,
        new_bc,
        de,
        hl,
        sp,
        pc,
        ix,
        iy,
        ir,
        switches,
        first,
        one,
        second,
        other,
    ] = numbers(line);
    let [upper, lower] = [code / 65536, code % 65536];
    memory.place(
        0x0100,
        &[
            high_byte(upper),
            low_byte(upper),
            high_byte(lower),
            low_byte(lower),
        ],
    );
    prepare(memory);
    let mut regs = registers([af, bc, 0x0586, 0x4708, 0xbefe, 0x0100]);
    let stepped = step(&mut regs, memory);
    let mut want = registers([new_af, new_bc, de, hl, sp, pc]);
    (want.ix, want.iy) = (word(ix), word(iy));
    (want.i, want.r) = (high_byte(ir), low_byte(ir));
    (want.iff1, want.mode) = (switches >= 16, regs.mode);
    let has_mode = u32::from(regs.mode.0) == switches % 16;
    want.shadow = false;
    stepped == Stepped::Ran
        && has_mode
        && regs == want
        && memory.writes == [first, one, second, other]
}

/// Whether no case of a table of the main page fails.
pub fn all_come_out(lines: &[&str], memory: &mut Memory) -> bool {
    for line in lines {
        if !comes_out(line, memory) {
            return false;
        }
    }
    true
}

/// Whether no case of a table of the other pages fails.
pub fn all_of_page_come_out(lines: &[&str], memory: &mut Memory) -> bool {
    for line in lines {
        if !page_comes_out(line, memory) {
            return false;
        }
    }
    true
}
