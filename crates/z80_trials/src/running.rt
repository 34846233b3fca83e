//! What one step leaves of registers and memory, one case a line, and some programs of a few steps.
mod cases;

use crate::running::cases::{CALCULATIONS, EDGES, HIGH_QUARTER, LOW_QUARTER, MOVES, OTHERWISE};
use std::test::Fail;
use z80_decode::{Instr, Page};
use z80_exec::main_page;
use z80_ext::{Stepped, step};
use z80_regs::{Bus, Regs};
use z80_scenes::{Memory, all_come_out, behind, fixture};

/// What some steps make of `fixture`, the code being at 0100h.
fn after(memory: &mut Memory, code: &[u8], steps: usize) -> Regs {
    memory.place(0x0100, code);
    let mut regs = fixture();
    for _ in 0..steps {
        step(&mut regs, memory);
    }
    regs
}

#[test]
fn loads_jumps_and_calls(rt: HostRuntime) -> Result<(), Fail> {
    let mut memory = Memory::new(rt.alloc(), 65536)?;
    let low = all_come_out(&LOW_QUARTER, &mut memory);
    let moves = all_come_out(&MOVES, &mut memory);
    let high = all_come_out(&HIGH_QUARTER, &mut memory);
    assert!(rt; low && moves && high);
    Ok(())
}

#[test]
fn calculations(rt: HostRuntime) -> Result<(), Fail> {
    let mut memory = Memory::new(rt.alloc(), 65536)?;
    let calculations = all_come_out(&CALCULATIONS, &mut memory);
    let otherwise = all_come_out(&OTHERWISE, &mut memory);
    let edges = all_come_out(&EDGES, &mut memory);
    assert!(rt; calculations && otherwise && edges);
    Ok(())
}

/// Whether some steps make of `fixture` what is wanted, the code being at 0100h.
fn comes_to(memory: &mut Memory, code: &[u8], steps: usize, want: Regs) -> bool {
    after(memory, code, steps) == want
}

/// What EX AF,AF' and EXX exchange.
fn are_sets_exchanged(memory: &mut Memory) -> bool {
    let accumulators = Regs {
        a: 9,
        f: 10,
        a2: 1,
        f2: 2,
        ..behind(0x0101)
    };
    let pairs = Regs {
        b: 11,
        c: 12,
        b2: 3,
        c2: 4,
        d: 13,
        e: 14,
        d2: 5,
        e2: 6,
        h: 15,
        l: 16,
        h2: 7,
        l2: 8,
        ..behind(0x0101)
    };
    comes_to(memory, &[0x08], 1, accumulators) && comes_to(memory, &[0xd9], 1, pairs)
}

/// What DI, EI and HALT switch.
fn are_switched(memory: &mut Memory) -> bool {
    let off = Regs {
        iff1: false,
        iff2: false,
        ..behind(0x0101)
    };
    let on = Regs {
        iff1: true,
        iff2: true,
        shadow: true,
        ..behind(0x0101)
    };
    let next = Regs {
        iff1: true,
        iff2: true,
        r: 0x81,
        ..behind(0x0102)
    };
    let halted = Regs {
        halted: true,
        ..behind(0x0101)
    };
    comes_to(memory, &[0xf3], 1, off)
        && comes_to(memory, &[0xfb], 1, on)
        && comes_to(memory, &[0xfb, 0x00], 2, next)
        && comes_to(memory, &[0x76], 1, halted)
}

/// The registers that no case shows: the alternate set, the flip-flops, the shadow of EI, and HALT.
#[test]
fn switches(rt: HostRuntime) -> Result<(), Fail> {
    let mut memory = Memory::new(rt.alloc(), 65536)?;
    let exchanged = are_sets_exchanged(&mut memory);
    let switched = are_switched(&mut memory);
    assert!(rt; exchanged && switched);
    Ok(())
}

/// Whether a call goes to 0005h, with its return address below SP, and a return comes back after it.
fn calls_and_comes_back(memory: &mut Memory) -> bool {
    memory.place(0x0005, &[0xc9]);
    let mut regs = after(memory, &[0xcd, 0x05, 0x00], 1);
    let called = regs
        == Regs {
            sp: 0xbefc,
            ..behind(0x0005)
        };
    step(&mut regs, memory);
    let returned = regs
        == Regs {
            r: 0x81,
            ..behind(0x0103)
        };
    called && returned && memory.read(0xbefd) == 0x01 && memory.read(0xbefc) == 0x03
}

#[test]
fn calls_and_returns(rt: HostRuntime) -> Result<(), Fail> {
    let mut memory = Memory::new(rt.alloc(), 65536)?;
    let comes_back = calls_and_comes_back(&mut memory);
    assert!(rt; comes_back);
    Ok(())
}

/// Whether a call with SP at 0001h goes on with SP at FFFFh, where nothing is kept: the high byte alone is written, at 0000h.
fn calls_around_the_end(memory: &mut Memory) -> bool {
    memory.place(0xfffe, &[0xcd, 0x34, 0x12]);
    let mut regs = fixture();
    (regs.sp, regs.pc) = (0x0001, 0xfffe);
    step(&mut regs, memory);
    let called = regs
        == Regs {
            sp: 0xffff,
            ..behind(0x1234)
        };
    called && memory.read(0x0000) == 0x00 && memory.read(0xffff) == 0x34
}

/// Whether, where nothing is kept from 8000h on, L alone is stored, and an increment there shows in the flags alone.
fn stores_up_to_a_limit(memory: &mut Memory) -> bool {
    let stored = comes_to(memory, &[0x22, 0xff, 0x7f], 1, behind(0x0103));
    let kept = memory.read(0x7fff) == 0x08 && memory.read(0x8000) == 0x00;
    memory.place(0x8000, &[0x7f]);
    let incremented = Regs {
        h: 0x80,
        l: 0x00,
        f: 0x94,
        r: 0x81,
        ..behind(0x0104)
    };
    let flags = comes_to(memory, &[0x21, 0x00, 0x80, 0x34], 2, incremented);
    stored && kept && flags && memory.read(0x8000) == 0x7f
}

#[test]
fn writes_around_a_limit(rt: HostRuntime) -> Result<(), Fail> {
    let mut memory = Memory::new(rt.alloc(), 32768)?;
    let called = calls_around_the_end(&mut memory);
    let stored = stores_up_to_a_limit(&mut memory);
    assert!(rt; called && stored);
    Ok(())
}

/// What was decoded of an instruction of the main page, and where it leaves PC and SP.
#[derive(Clone, Copy)]
struct Decoded {
    length: u8,
    opcode: u8,
    displacement: u8,
    operand: u16,
    pc: u16,
    sp: u16,
}

/// Whether an instruction of the main page leaves PC, SP and the writes so, and all else as it was.
fn leaves(memory: &mut Memory, row: Decoded, writes: [u32; 4]) -> bool {
    let instr = Instr {
        length: row.length,
        page: Page::Main,
        opcode: row.opcode,
        displacement: row.displacement,
        operand: row.operand,
    };
    memory.writes = [0; 4];
    let mut regs = fixture();
    main_page(&instr, &mut regs, memory);
    let want = Regs {
        pc: row.pc,
        sp: row.sp,
        ..fixture()
    };
    regs == want && memory.writes == writes
}

/// A row for an opcode of so many bytes.
fn row(length: u8, opcode: u8, displacement: u8, operand: u16, pc: u16, sp: u16) -> Decoded {
    Decoded {
        length,
        opcode,
        displacement,
        operand,
        pc,
        sp,
    }
}

/// JR -2, CALL 9234h and LD (HL),34h as they were decoded: neither R nor the shadow changes. A prefix alone is no instruction
/// of the main page.
#[test]
fn decoded_instructions(rt: HostRuntime) -> Result<(), Fail> {
    let mut memory = Memory::new(rt.alloc(), 65536)?;
    let jump = row(2, 0x18, 0xfe, 0, 0x0100, 0xbefe);
    let call = row(3, 0xcd, 0x00, 0x9234, 0x9234, 0xbefc);
    let load = row(2, 0x36, 0x00, 0x0034, 0x0102, 0xbefe);
    let jumps = leaves(&mut memory, jump, [0; 4]);
    let calls = leaves(&mut memory, call, [0xbefd, 0x01, 0xbefc, 0x03]);
    let loads = leaves(&mut memory, load, [0, 0, 0x0708, 0x34]);
    let mut prefixes = true;
    for prefix in [0xcb, 0xdd, 0xed, 0xfd] {
        let prefixed = row(1, prefix, 0, 0, 0x0100, 0xbefe);
        prefixes = prefixes && leaves(&mut memory, prefixed, [0; 4]);
    }
    assert!(rt; jumps && calls && loads && prefixes);
    Ok(())
}

/// Whether a halted processor stays: R alone rises, and the shadow stays.
fn stays_halted(memory: &mut Memory) -> bool {
    let mut regs = Regs {
        halted: true,
        ..fixture()
    };
    step(&mut regs, memory) == Stepped::Ran
        && regs
            == Regs {
                r: 0x80,
                halted: true,
                ..fixture()
            }
}

#[test]
fn a_halted_processor_stays(rt: HostRuntime) -> Result<(), Fail> {
    let mut memory = Memory::new(rt.alloc(), 65536)?;
    let stays = stays_halted(&mut memory);
    assert!(rt; stays);
    Ok(())
}
