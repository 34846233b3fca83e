/// A pair of registers that an instruction names by two bits (UM0080, "dd" and "ss").
#[derive(Clone, Copy)]
pub enum Pair {
    BC,
    DE,
    HL,
    SP,
}

/// A pair of registers that PUSH and POP name by two bits (UM0080, "qq").
#[derive(Clone, Copy)]
pub enum StackPair {
    BC,
    DE,
    HL,
    AF,
}

/// A byte that an instruction names by three bits: a register, or the byte in memory at HL (UM0080, "r" and "(HL)").
#[derive(Clone, Copy)]
pub enum Operand {
    B,
    C,
    D,
    E,
    H,
    L,
    /// The byte at HL.
    Memory,
    A,
}

/// A condition on the flags that an instruction names by three bits (UM0080, "cc").
#[derive(Clone, Copy)]
pub enum Condition {
    NotZero,
    Zero,
    NoCarry,
    Carry,
    ParityOdd,
    ParityEven,
    Plus,
    Minus,
}

/// What becomes of A and a byte: ADD, ADC, SUB, SBC, AND, XOR, OR and CP, by three bits.
#[derive(Clone, Copy)]
pub enum Math {
    Add,
    AddCarry,
    Subtract,
    SubtractCarry,
    And,
    Xor,
    Or,
    Compare,
}

/// How A is rotated: RLCA, RRCA, RLA and RRA, by two bits.
#[derive(Clone, Copy)]
pub enum Rotation {
    LeftCircular,
    RightCircular,
    Left,
    Right,
}

/// The forms of the instructions without prefix (UM0080, "Z80 Instruction Description").
#[derive(Clone, Copy)]
pub enum Form {
    /// NOP.
    Nop,
    /// EX AF,AF'.
    ExchangeAf,
    /// DJNZ e.
    DecrementJump,
    /// JR e.
    JumpRelative,
    /// JR cc,e.
    JumpRelativeIf(Condition),
    /// LD dd,nn.
    LoadPair(Pair),
    /// ADD HL,ss.
    AddPair(Pair),
    /// LD (BC),A and LD (DE),A.
    StoreAAt(Pair),
    /// LD A,(BC) and LD A,(DE).
    LoadAFrom(Pair),
    /// LD (nn),HL.
    StoreHl,
    /// LD HL,(nn).
    LoadHl,
    /// LD (nn),A.
    StoreA,
    /// LD A,(nn).
    LoadA,
    /// INC ss.
    IncrementPair(Pair),
    /// DEC ss.
    DecrementPair(Pair),
    /// INC r and INC (HL).
    Increment(Operand),
    /// DEC r and DEC (HL).
    Decrement(Operand),
    /// LD r,n and LD (HL),n.
    LoadNumber(Operand),
    /// RLCA, RRCA, RLA and RRA.
    Rotate(Rotation),
    /// DAA.
    DecimalAdjust,
    /// CPL.
    Complement,
    /// SCF.
    SetCarry,
    /// CCF.
    ComplementCarry,
    /// LD r,r', LD r,(HL) and LD (HL),r: the operand that is set, and the one that it is set to.
    Load(Operand, Operand),
    /// HALT.
    Halt,
    /// ADD A,r and its kin.
    Calculate(Math, Operand),
    /// ADD A,n and its kin.
    CalculateNumber(Math),
    /// RET cc.
    ReturnIf(Condition),
    /// POP qq.
    Pop(StackPair),
    /// RET.
    Return,
    /// EXX.
    Exchange,
    /// JP (HL).
    JumpHl,
    /// LD SP,HL.
    LoadSpHl,
    /// JP cc,nn.
    JumpIf(Condition),
    /// JP nn.
    Jump,
    /// OUT (n),A.
    Output,
    /// IN A,(n).
    Input,
    /// EX (SP),HL.
    ExchangeStack,
    /// EX DE,HL.
    ExchangeDe,
    /// DI.
    DisableInterrupts,
    /// EI.
    EnableInterrupts,
    /// CALL cc,nn.
    CallIf(Condition),
    /// PUSH qq.
    Push(StackPair),
    /// CALL nn.
    Call,
    /// RST p, with the address p.
    Restart(u8),
}

/// What follows the opcode of an instruction.
#[derive(Clone, Copy)]
pub enum Tail {
    Nothing,
    /// The byte n.
    Byte,
    /// The word nn, low byte first.
    Word,
    /// The displacement e or d.
    Displacement,
    /// The displacement d, then the byte n.
    DisplacementByte,
}
