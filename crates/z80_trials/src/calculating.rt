//! Results and flags of single operations.
use crate::calculating::Operation::{
    Adc16, Add8, Add16, Daa, Dec8, Does, Inc8, Rotates, RotatesA, Sbc16, Sub8,
};
use std::test::Fail;
use z80_alu::{
    Flags, Logic, Rotate, adc16, add8, add16, bit_flags, block_compare_flags, block_load_flags,
    block_port_flags, complement_carry_flags, complement_flags, daa, dec8, inc8, load_flags, logic,
    rotate, rotate_a, sbc16, set_carry_flags, sub8, value_flags,
};

/// An operation with what it takes, the flags before it last.
#[derive(Clone, Copy)]
enum Operation {
    Add8(u8, u8, bool, u8),
    Sub8(u8, u8, bool, u8),
    Inc8(u8, u8),
    Dec8(u8, u8),
    Does(Logic, u8, u8, u8),
    Rotates(Rotate, u8, u8),
    RotatesA(Rotate, u8, u8),
    Daa(u8, u8),
    Add16(u16, u16, u8),
    Adc16(u16, u16, u8),
    Sbc16(u16, u16, u8),
}

/// A byte and flags, the byte as a word.
fn widened(done: (u8, u8)) -> (u16, u8) {
    (u16::from(done.0), done.1)
}

/// The result of an operation, and the flags after it.
fn done(operation: Operation) -> (u16, u8) {
    match operation {
        Add8(a, b, carry, f) => widened(add8(a, b, carry, f)),
        Sub8(a, b, carry, f) => widened(sub8(a, b, carry, f)),
        Inc8(a, f) => widened(inc8(a, f)),
        Dec8(a, f) => widened(dec8(a, f)),
        Does(kind, a, b, f) => widened(logic(kind, a, b, f)),
        Rotates(kind, a, f) => widened(rotate(kind, a, f)),
        RotatesA(kind, a, f) => widened(rotate_a(kind, a, f)),
        Daa(a, f) => widened(daa(a, f)),
        Add16(a, b, f) => add16(a, b, f),
        Adc16(a, b, f) => adc16(a, b, f),
        Sbc16(a, b, f) => sbc16(a, b, f),
    }
}

/// The first row, if any, whose operation has another result or leaves other flags.
fn first_wrong(rows: &[(Operation, u16, u8)]) -> Option<usize> {
    for (place, (operation, result, flags)) in rows.iter().enumerate() {
        if done(*operation) != (*result, *flags) {
            return Some(place);
        }
    }
    None
}

#[test]
fn bytes(rt: HostRuntime) -> Result<(), Fail> {
    let rows = [
        (Add8(0x7f, 0x01, false, 0x00), 0x80, 0x94),
        (Add8(0x01, 0x01, false, 0x28), 0x02, 0x28),
        (Add8(0xff, 0x01, false, 0x00), 0x00, 0x51),
        (Add8(0xff, 0xff, true, 0x00), 0xff, 0x91),
        (Add8(0x80, 0x80, false, 0x00), 0x00, 0x45),
        (Inc8(0x7f, 0x01), 0x80, 0x95),
        (Inc8(0xff, 0x00), 0x00, 0x50),
        (Sub8(0x00, 0x01, false, 0x00), 0xff, 0x93),
        (Sub8(0x80, 0x01, false, 0x00), 0x7f, 0x16),
        (Sub8(0x00, 0xff, true, 0x00), 0x00, 0x53),
        (Sub8(0x10, 0x10, false, 0x28), 0x00, 0x6a),
        (Dec8(0x80, 0x01), 0x7f, 0x17),
        (Dec8(0x01, 0x00), 0x00, 0x42),
        (Dec8(0x00, 0x01), 0xff, 0x93),
        (Does(Logic::And, 0xf0, 0x0f, 0x03), 0x00, 0x54),
        (Does(Logic::Or, 0x80, 0x01, 0x13), 0x81, 0x84),
        (Does(Logic::Xor, 0xff, 0x0f, 0x28), 0xf0, 0xac),
        (Daa(0x06, 0x12), 0x00, 0x46),
        (Daa(0x9a, 0x00), 0x00, 0x55),
        (Daa(0x00, 0x00), 0x00, 0x44),
        (Daa(0x99, 0x00), 0x99, 0x84),
        (Daa(0x0a, 0x00), 0x10, 0x10),
        (Daa(0x00, 0x01), 0x60, 0x05),
        (Daa(0xff, 0x00), 0x65, 0x15),
        (Daa(0x9a, 0x02), 0x34, 0x03),
        (Daa(0x00, 0x13), 0x9a, 0x97),
    ];
    assert_eq!(rt; first_wrong(&rows), None);
    Ok(())
}

#[test]
fn rotations_and_shifts(rt: HostRuntime) -> Result<(), Fail> {
    let rows = [
        (Rotates(Rotate::Rlc, 0x80, 0x00), 0x01, 0x01),
        (Rotates(Rotate::Rrc, 0x01, 0x00), 0x80, 0x81),
        (Rotates(Rotate::Rl, 0x80, 0x00), 0x00, 0x45),
        (Rotates(Rotate::Rl, 0x80, 0x01), 0x01, 0x01),
        (Rotates(Rotate::Rr, 0x01, 0x01), 0x80, 0x81),
        (Rotates(Rotate::Rr, 0x02, 0x28), 0x01, 0x28),
        (Rotates(Rotate::Sla, 0xc0, 0x12), 0x80, 0x81),
        (Rotates(Rotate::Sra, 0x81, 0x00), 0xc0, 0x85),
        (Rotates(Rotate::Srl, 0x81, 0x00), 0x40, 0x01),
        (Rotates(Rotate::Srl, 0x01, 0x00), 0x00, 0x45),
        (Rotates(Rotate::Sll, 0x80, 0x00), 0x01, 0x01),
        (Rotates(Rotate::Sll, 0x40, 0xff), 0x81, 0xac),
        (RotatesA(Rotate::Rlc, 0x81, 0xff), 0x03, 0xed),
        (RotatesA(Rotate::Rrc, 0x02, 0x01), 0x01, 0x00),
        (RotatesA(Rotate::Rl, 0x7f, 0x01), 0xff, 0x00),
        (RotatesA(Rotate::Rr, 0x01, 0x00), 0x00, 0x01),
    ];
    assert_eq!(rt; first_wrong(&rows), None);
    Ok(())
}

#[test]
fn words(rt: HostRuntime) -> Result<(), Fail> {
    let rows = [
        (Add16(0x0fff, 0x0001, 0x00), 0x1000, 0x10),
        (Add16(0xffff, 0x0001, 0xc4), 0x0000, 0xd5),
        (Add16(0x8000, 0x8000, 0x02), 0x0000, 0x01),
        (Adc16(0x7fff, 0x0000, 0x01), 0x8000, 0x94),
        (Adc16(0xffff, 0x0000, 0x01), 0x0000, 0x51),
        (Adc16(0x8000, 0x8000, 0x28), 0x0000, 0x6d),
        (Sbc16(0x0000, 0x0001, 0x00), 0xffff, 0x93),
        (Sbc16(0x8000, 0x0000, 0x01), 0x7fff, 0x16),
        (Sbc16(0x1234, 0x1234, 0x28), 0x0000, 0x6a),
        (Sbc16(0x1000, 0x0fff, 0x00), 0x0001, 0x12),
    ];
    assert_eq!(rt; first_wrong(&rows), None);
    Ok(())
}

/// Whether A5h has the sign, bit 5, P/V and carry alone, and some results change it as they should.
fn has_its_flags() -> bool {
    let flags = Flags::of(0xa5);
    let on = flags.sign && flags.five && flags.parity_overflow && flags.carry;
    let off = !flags.zero && !flags.half_carry && !flags.three && !flags.subtract;
    on && off
        && flags.byte() == 0xa5
        && flags.sign_zero(0).byte() == 0x65
        && flags.sign_zero_parity(0x80).byte() == 0xa1
}

/// Whether the instructions that change flags alone change them as they should.
fn change_flags_alone() -> bool {
    complement_flags(0xed) == 0xff
        && set_carry_flags(0x12) == 0x01
        && complement_carry_flags(0x03) == 0x10
        && complement_carry_flags(0x12) == 0x01
        && bit_flags(true, 0x83) == 0xd1
        && bit_flags(false, 0x46) == 0x14
}

/// Whether loads, block instructions and IN leave the flags that they should.
fn leave_flags() -> bool {
    load_flags(0x00, true, 0x01) == 0x45
        && load_flags(0x80, false, 0x57) == 0x81
        && value_flags(0x03, 0x93) == 0x05
        && block_load_flags(true, 0xd3) == 0xc5
        && block_compare_flags(0x10, 0x01, true, 0x01) == 0x17
        && block_port_flags(true, 0x15) == 0x57
        && block_port_flags(false, 0x40) == 0x02
}

#[test]
fn flags(rt: HostRuntime) -> Result<(), Fail> {
    let all = has_its_flags() && change_flags_alone() && leave_flags();
    assert!(rt; all);
    Ok(())
}
