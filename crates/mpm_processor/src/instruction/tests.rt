ghost use Rattle.std.specs.Prelude.{◌≡◌, false, None, IfOk};
ghost use Rattle.mpm_banks.specs.Memory.{SameSegments};
ghost use Rattle.mpm_gate.specs.Gates.{IsHome, gate_of};

use super::*;
use mpm_banks::OutOfMemory;
use mpm_gate::page_of_gates;
use std::alloc::Global;
use z80_regs::InterruptMode;

/// A segment from 4000h to 43FFh, so that its gates are at 4303h, 4306h and 4309h.
const FOUR_PAGES: SegmentSpec = SegmentSpec {
    base: 0x40,
    pages: 4,
};

/// Registers of a process that stands at an address, with its stack below the gates.
fn registers_at(pc: u16) -> Regs
    ensures { result.pc ≡ pc }
{
    Regs {
        sp: 0x4300,
        pc,
        iff1: true,
        iff2: true,
        mode: InterruptMode(1),
        ..Regs::default()
    }
}

/// Places bytes from an address on.
fn place(banks: &mut Banks, address: u16, bytes: &[u8])
    ensures { SameSegments banks.old banks.new }
{
    let mut at = address;
    for byte in bytes {
        banks.put(Seg(0), at, *byte);
        at = at.wrapping_add(1);
    }
}

/// Memory of one segment that begins with these bytes. Where the gate of a resident procedure is, INC A and an opcode that
/// isn't listed stand.
fn memory_with(alloc: Global, program: &[u8]) -> Result<Banks, OutOfMemory>
    ensures home { IfOk result (λ banks. IsHome banks 0) }
    ensures gate { IfOk result (λ banks. gate_of false banks 0 16384 ≡ None) }
{
    let mut banks = Banks::new(alloc, &[FOUR_PAGES])?;
    place(&mut banks, 0x4000, program);
    place(&mut banks, 0x4309, &[0x3C, 0xED, 0x00]);
    Ok(banks)
}

/// What a process left.
#[derive(Drop)]
struct Behind {
    regs: Regs,
    banks: Banks,
    done: u64,
}

/// What is looked at of it.
#[derive(Clone, Copy)]
enum Part {
    Done,
    Pc,
    Sp,
    Ix,
    A,
    C,
    R,
    Byte(u16),
}

impl Behind {
    /// What it has there.
    fn at(&self, part: Part) -> u64 {
        match part {
            Part::Done => self.done,
            Part::Pc => u64::from(self.regs.pc),
            Part::Sp => u64::from(self.regs.sp),
            Part::Ix => u64::from(self.regs.ix),
            Part::A => u64::from(self.regs.a),
            Part::C => u64::from(self.regs.c),
            Part::R => u64::from(self.regs.r),
            Part::Byte(address) => u64::from(self.banks.byte(Seg(0), address)),
        }
    }

    /// Whether it has these values at their parts.
    fn has(&self, rows: &[(Part, u64)]) -> bool {
        for (part, value) in rows {
            if self.at(*part) != *value {
                return false;
            }
        }
        true
    }
}

/// Runs a program, at most so many instructions of it, of a process in a resident procedure (`inside`) or in none.
fn run(alloc: Global, inside: bool, most: u64, program: &[u8]) -> Result<Behind, OutOfMemory> {
    let mut banks = memory_with(alloc, program)?;
    let mut devices = Devices::new();
    let mut regs = registers_at(0x4000);
    let done = run_instructions(inside, &mut regs, &mut banks, Seg(0), &mut devices, most);
    Ok(Behind { regs, banks, done })
}

/// Whether such a run leaves these values.
fn leaves(
    alloc: Global,
    inside: bool,
    most: u64,
    program: &[u8],
    rows: &[(Part, u64)],
) -> Result<bool, OutOfMemory> {
    let behind = run(alloc, inside, most, program)?;
    Ok(behind.has(rows))
}

/// How many instructions are done at most, and what these leave.
type Row<'a> = (u64, &'a [(Part, u64)]);

/// Whether runs of a program in no resident procedure leave these values.
fn each_leaves(alloc: Global, program: &[u8], rows: &[Row]) -> Result<bool, OutOfMemory> {
    for (most, left) in rows {
        if !leaves(alloc, false, *most, program, *left)? {
            return Ok(false);
        }
    }
    Ok(true)
}

#[test]
fn a_burst_stops_at_a_gate(rt: HostRuntime) -> Result<(), OutOfMemory> {
    // INC A; INC A; JP 4306h.
    let program = [0x3C, 0x3C, 0xC3, 0x06, 0x43, 0, 0, 0];
    let left = [
        (Part::Done, 3),
        (Part::Pc, 0x4306),
        (Part::A, 2),
        (Part::R, 3),
    ];
    assert!(rt; leaves(rt.alloc(), false, 10, &program, &left)?);
    Ok(())
}

/// Whether the gate of a procedure stops those inside it, and nobody else.
fn stops_those_inside(alloc: Global) -> Result<bool, OutOfMemory> {
    // JP 4309h.
    let program = [0xC3, 0x09, 0x43, 0, 0, 0, 0, 0];
    let inside = [(Part::Done, 1), (Part::Pc, 0x4309)];
    let outside = [(Part::Done, 2), (Part::Pc, 0x430A), (Part::A, 1)];
    let stops = leaves(alloc, true, 10, &program, &inside)?;
    Ok(stops && leaves(alloc, false, 10, &program, &outside)?)
}

#[test]
fn the_gate_of_a_procedure_stops_those_inside(rt: HostRuntime) -> Result<(), OutOfMemory> {
    assert!(rt; stops_those_inside(rt.alloc())?);
    Ok(())
}

#[test]
fn a_burst_stops_at_an_unlisted_opcode(rt: HostRuntime) -> Result<(), OutOfMemory> {
    // LD A,44h; ADD A,11h; an opcode that isn't listed.
    let program = [0x3E, 0x44, 0xC6, 0x11, 0xED, 0x00, 0x3C, 0x3C];
    let left = [
        (Part::Done, 2),
        (Part::Pc, 0x4004),
        (Part::A, 0x55),
        (Part::R, 2),
    ];
    assert!(rt; leaves(rt.alloc(), false, 10, &program, &left)?);
    Ok(())
}

#[test]
fn a_burst_stops_after_as_many_as_it_may(rt: HostRuntime) -> Result<(), OutOfMemory> {
    // LD IX,1234h; PUSH IX; NOP.
    let program = [0xDD, 0x21, 0x34, 0x12, 0xDD, 0xE5, 0, 0];
    let none = [(Part::Done, 0), (Part::Pc, 0x4000)];
    let two = [
        (Part::Done, 2),
        (Part::Pc, 0x4006),
        (Part::Ix, 0x1234),
        (Part::Sp, 0x42FE),
        (Part::Byte(0x42FF), 0x12),
        (Part::Byte(0x42FE), 0x34),
    ];
    let five = [(Part::Done, 5), (Part::Pc, 0x4009)];
    let rows: [Row; 3] = [(0, &none), (2, &two), (5, &five)];
    assert!(rt; each_leaves(rt.alloc(), &program, &rows)?);
    Ok(())
}

#[test]
fn a_block_transfer_goes_on_as_long_as_it_may(rt: HostRuntime) -> Result<(), OutOfMemory> {
    // LD HL,4000h; LD DE,4100h; LD BC,3; LDIR.
    let program = [
        0x21, 0x00, 0x40, 0x11, 0x00, 0x41, 0x01, 0x03, 0x00, 0xED, 0xB0,
    ];
    let five = [
        (Part::Done, 5),
        (Part::Pc, 0x4009),
        (Part::C, 1),
        (Part::R, 5),
    ];
    let six = [
        (Part::Done, 6),
        (Part::Pc, 0x400B),
        (Part::C, 0),
        (Part::Byte(0x4102), 0x40),
    ];
    let rows: [Row; 2] = [(5, &five), (6, &six)];
    assert!(rt; each_leaves(rt.alloc(), &program, &rows)?);
    Ok(())
}

#[test]
fn a_block_transfer_that_writes_over_itself_ends(rt: HostRuntime) -> Result<(), OutOfMemory> {
    // LD HL,4200h; LD DE,4009h; LD BC,2; LDIR, which becomes NOP and OR B.
    let program = [
        0x21, 0x00, 0x42, 0x11, 0x09, 0x40, 0x01, 0x02, 0x00, 0xED, 0xB0,
    ];
    let left = [
        (Part::Done, 6),
        (Part::Pc, 0x400B),
        (Part::C, 1),
        (Part::Byte(0x4009), 0),
    ];
    assert!(rt; leaves(rt.alloc(), false, 6, &program, &left)?);
    Ok(())
}

#[test]
fn a_burst_writes_to_its_segment(rt: HostRuntime) -> Result<(), OutOfMemory> {
    // LD HL,1234h; LD (4200h),HL; NOP.
    let program = [0x21, 0x34, 0x12, 0x22, 0x00, 0x42];
    let left = [
        (Part::Done, 3),
        (Part::Pc, 0x4007),
        (Part::Byte(0x4200), 0x34),
        (Part::Byte(0x4201), 0x12),
    ];
    assert!(rt; leaves(rt.alloc(), false, 3, &program, &left)?);
    Ok(())
}

/// Whether the gates of a segment of four pages from 4000h on are in page 43h.
fn has_gates(alloc: Global) -> Result<bool, OutOfMemory> {
    let banks = memory_with(alloc, &[])?;
    Ok(page_of_gates(&banks, Seg(0)) == 0x43)
}

#[test]
fn gates_are_in_the_last_page(rt: HostRuntime) -> Result<(), OutOfMemory> {
    assert!(rt; has_gates(rt.alloc())?);
    Ok(())
}

/// Whether one instruction is done of a program, or none, and leaves PC, B, C and R so.
fn does(
    alloc: Global,
    program: &[u8],
    is_done: bool,
    left: (u16, u8, u8, u8),
) -> Result<bool, OutOfMemory> {
    let mut banks = memory_with(alloc, program)?;
    let mut devices = Devices::new();
    let mut regs = registers_at(0x4000);
    let done = execute(false, &mut regs, &mut banks, Seg(0), &mut devices);
    Ok(done == is_done && (regs.pc, regs.b, regs.c, regs.r) == left)
}

#[test]
fn one_instruction_is_done(rt: HostRuntime) -> Result<(), OutOfMemory> {
    // LD BC,1234h.
    assert!(rt;
        does(
            rt.alloc(),
            &[0x01, 0x34, 0x12],
            true,
            (0x4003, 0x12, 0x34, 1)
        )?
    );
    Ok(())
}

#[test]
fn no_unlisted_instruction_is_done(rt: HostRuntime) -> Result<(), OutOfMemory> {
    assert!(rt; does(rt.alloc(), &[0xED, 0x00, 0x3C], false, (0x4000, 0, 0, 0))?);
    Ok(())
}
