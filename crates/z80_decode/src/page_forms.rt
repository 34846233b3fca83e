use crate::forms::{Math, Operand, Pair};
use z80_regs::InterruptMode;

/// How a byte is rotated or shifted: RLC, RRC, RL, RR, SLA, SRA, SLL and SRL, by three bits. SLL is undocumented.
#[derive(Clone, Copy)]
pub enum Shift {
    LeftCircular,
    RightCircular,
    Left,
    Right,
    LeftArithmetic,
    RightArithmetic,
    LeftLogical,
    RightLogical,
}

/// What becomes of a byte on the page CBh.
#[derive(Clone, Copy)]
pub enum BitChange {
    /// RLC and its kin.
    Rotate(Shift),
    /// RES, with the bit's weight.
    Reset(u8),
    /// SET, with the bit's weight.
    Set(u8),
}

/// The forms of the instructions after CBh, DDh CBh and FDh CBh (UM0080, "Rotate and Shift Group", "Bit Set, Reset,
/// and Test Group").
#[derive(Clone, Copy)]
pub enum BitForm {
    /// BIT, with the bit's weight.
    Test(u8),
    Change(BitChange),
}

/// What one step of a block instruction does: LD, CP, IN or OUT.
#[derive(Clone, Copy)]
pub enum Transfer {
    Load,
    Compare,
    Input,
    Output,
}

/// Which way the addresses of a block instruction go.
#[derive(Clone, Copy)]
pub enum Direction {
    Up,
    Down,
}

/// The forms of the instructions after EDh (UM0080, "Z80 Instruction Description").
#[derive(Clone, Copy)]
pub enum ExtendedForm {
    /// IN r,(C).
    Input(Operand),
    /// OUT (C),r.
    Output(Operand),
    /// SBC HL,ss.
    SubtractPair(Pair),
    /// ADC HL,ss.
    AddPair(Pair),
    /// LD (nn),dd.
    StorePair(Pair),
    /// LD dd,(nn).
    LoadPair(Pair),
    /// NEG.
    Negate,
    /// RETN.
    ReturnNonmaskable,
    /// RETI.
    ReturnInterrupt,
    /// IM 0, IM 1 and IM 2.
    Mode(InterruptMode),
    /// LD I,A.
    StoreI,
    /// LD R,A.
    StoreR,
    /// LD A,I.
    LoadI,
    /// LD A,R.
    LoadR,
    /// RRD.
    RotateRight,
    /// RLD.
    RotateLeft,
    /// LDI and its kin: one step, and whether it is repeated.
    Block(Transfer, Direction, bool),
}

/// The forms of the instructions after DDh and FDh, in which IX or IY stands for HL (UM0080, "Z80 Instruction
/// Description"). An operand H or L is the high or low half of that register, IXH or IXL, which is undocumented, and
/// (HL) is (IX+d).
#[derive(Clone, Copy)]
pub enum IndexForm {
    /// ADD IX,pp, where HL stands for IX.
    AddPair(Pair),
    /// LD IX,nn.
    LoadNumber,
    /// LD (nn),IX.
    Store,
    /// LD IX,(nn).
    Load,
    /// INC IX.
    Increment,
    /// DEC IX.
    Decrement,
    /// INC IXH, INC IXL and INC (IX+d).
    IncrementByte(Operand),
    /// DEC IXH, DEC IXL and DEC (IX+d).
    DecrementByte(Operand),
    /// LD IXH,n, LD IXL,n and LD (IX+d),n.
    LoadByte(Operand),
    /// LD IXH,r, LD r,IXH and their kin: the operand that is set, and the one that it is set to. Neither is (IX+d).
    LoadHalf(Operand, Operand),
    /// LD r,(IX+d), where H and L are H and L themselves.
    LoadFrom(Operand),
    /// LD (IX+d),r, where H and L are H and L themselves.
    StoreTo(Operand),
    /// ADD A,IXH, ADD A,IXL, ADD A,(IX+d) and their kin.
    Calculate(Math, Operand),
    /// POP IX.
    Pop,
    /// EX (SP),IX.
    ExchangeStack,
    /// PUSH IX.
    Push,
    /// JP (IX).
    Jump,
    /// LD SP,IX.
    LoadSp,
}
