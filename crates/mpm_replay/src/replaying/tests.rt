use super::*;

/// A segment from 4000h to 43FFh, so that its gates are at 4303h, 4306h and 4309h.
const FOUR_PAGES: SegmentSpec = SegmentSpec {
    base: 0x40,
    pages: 4,
};

/// Registers of a process that stands at an address, with its stack below the gates.
fn registers_at(pc: u16) -> Regs {
    Regs {
        sp: 0x4300,
        pc,
        ..Regs::default()
    }
}

/// Replays a program at 4000h, of a process in a resident procedure (`inside`) or in none.
fn replayed(inside: bool, regs: &mut Regs, most: u64, program: [u8; 8]) -> Replayed {
    let mut segment = [0; 1024];
    segment[..8].copy_from_slice(&program);
    let mut common = [0; 4];
    replay(inside, FOUR_PAGES, regs, &mut segment, &mut common, most)
}

/// Whether a replay of a program from its first instruction on did so many, ended so, and left PC there.
fn ends(program: [u8; 8], most: u64, done: u64, why: Why, pc: u16) -> bool {
    let mut regs = registers_at(0x4000);
    let replayed = replayed(false, &mut regs, most, program);
    replayed.done == done && replayed.why == why && regs.pc == pc
}

#[test]
fn a_replay_stops_before_the_gate_of_calls(rt: HostRuntime) {
    // LD C,9; INC A; CALL 4306h.
    let program = [0x0E, 0x09, 0x3C, 0xCD, 0x06, 0x43, 0, 0];
    assert!(rt; ends(program, 10, 3, Why::Gate, 0x4306));
    assert!(rt; ends(program, 3, 3, Why::Steps, 0x4306));
    assert!(rt; ends(program, 2, 2, Why::Steps, 0x4003));
    assert!(rt; ends(program, 0, 0, Why::Steps, 0x4000));
}

#[test]
fn a_replay_leaves_the_registers(rt: HostRuntime) {
    // LD C,9; INC A; CALL 4306h.
    let mut regs = registers_at(0x4000);
    let _ = replayed(
        false,
        &mut regs,
        10,
        [0x0E, 0x09, 0x3C, 0xCD, 0x06, 0x43, 0, 0],
    );
    assert!(rt; regs.c == 9 && regs.a == 1 && regs.sp == 0x42FE && regs.r == 3);
}

#[test]
fn the_gate_of_a_procedure_stops_those_inside(rt: HostRuntime) {
    // JP 4309h.
    let program = [0xC3, 0x09, 0x43, 0, 0, 0, 0, 0];
    assert!(rt; ends(program, 5, 5, Why::Steps, 0x430D));
    let mut regs = registers_at(0x4000);
    let replayed = replayed(true, &mut regs, 5, program);
    assert!(rt; replayed.done == 1 && replayed.why == Why::Gate && regs.pc == 0x4309);
}

#[test]
fn a_replay_stops_before_an_unlisted_opcode(rt: HostRuntime) {
    // INC A; EDh 00h.
    assert!(rt; ends([0x3C, 0xED, 0, 0, 0, 0, 0, 0], 5, 1, Why::Illegal, 0x4001));
}

#[test]
fn a_replay_stops_before_what_reads_a_port(rt: HostRuntime) {
    // IN A,(80h); IN A,(C); INI; IND; INIR; INDR.
    assert!(rt; ends([0, 0xDB, 0x80, 0, 0, 0, 0, 0], 5, 1, Why::Input, 0x4001));
    assert!(rt; ends([0, 0xED, 0x78, 0, 0, 0, 0, 0], 5, 1, Why::Input, 0x4001));
    assert!(rt; ends([0, 0xED, 0xA2, 0, 0, 0, 0, 0], 5, 1, Why::Input, 0x4001));
    assert!(rt; ends([0, 0xED, 0xAA, 0, 0, 0, 0, 0], 5, 1, Why::Input, 0x4001));
    assert!(rt; ends([0, 0xED, 0xB2, 0, 0, 0, 0, 0], 5, 1, Why::Input, 0x4001));
    assert!(rt; ends([0, 0xED, 0xBA, 0, 0, 0, 0, 0], 5, 1, Why::Input, 0x4001));
}

#[test]
fn a_replay_does_what_writes_a_port(rt: HostRuntime) {
    // OUT (80h),A; OUT (C),A; EX AF,AF'.
    assert!(rt;
        ends(
            [0xD3, 0x80, 0xED, 0x79, 0x08, 0, 0, 0],
            3,
            3,
            Why::Steps,
            0x4005
        )
    );
}

#[test]
fn a_replay_goes_on_in_a_halt(rt: HostRuntime) {
    // HALT; what is after it doesn't count, unless it is a gate.
    assert!(rt; ends([0x76, 0xED, 0, 0, 0, 0, 0, 0], 3, 3, Why::Steps, 0x4001));
    assert!(rt; ends([0x76, 0xDB, 0, 0, 0, 0, 0, 0], 3, 3, Why::Steps, 0x4001));
    let mut regs = registers_at(0x4303);
    regs.halted = true;
    let replayed = replayed(false, &mut regs, 3, [0; 8]);
    assert!(rt; replayed.done == 0 && replayed.why == Why::Gate);
}

#[test]
fn a_replay_reaches_common_memory(rt: HostRuntime) {
    // LD A,(C000h); LD (4100h),A; LD (C001h),A.
    let mut regs = registers_at(0x4000);
    let mut segment = [0; 1024];
    segment[..8].copy_from_slice(&[0x3A, 0, 0xC0, 0x32, 0, 0x41, 0x32, 0x01]);
    segment[8] = 0xC0;
    let mut common = [0x5A, 0, 0, 0];
    let _ = replay(false, FOUR_PAGES, &mut regs, &mut segment, &mut common, 3);
    assert!(rt; regs.a == 0x5A && segment[256] == 0x5A && common[1] == 0x5A);
}

#[test]
fn a_replay_copies_by_ldir_a_byte_at_a_time(rt: HostRuntime) {
    // LDIR, from 4000h to 4100h; INC A.
    let mut regs = registers_at(0x4000);
    (regs.h, regs.d, regs.c) = (0x40, 0x41, 3);
    let mut segment = [0; 1024];
    segment[..3].copy_from_slice(&[0xED, 0xB0, 0x3C]);
    let mut common = [0; 4];
    let two = replay(false, FOUR_PAGES, &mut regs, &mut segment, &mut common, 2);
    assert!(rt;
        two.done == 2
            && regs.pc == 0x4000
            && regs.c == 1
            && segment[257] == 0xB0
            && segment[258] == 0
    );
    let rest = replay(false, FOUR_PAGES, &mut regs, &mut segment, &mut common, 2);
    assert!(rt;
        rest.done == 2 && regs.pc == 0x4003 && regs.c == 0 && regs.e == 3 && segment[258] == 0x3C
    );
}
