/// The page that an opcode stands on: what prefix it has (UM0080, "Z80 Instruction Description").
#[derive(Clone, Copy, Debug, PartialEq, Eq)]
pub enum Page {
    /// No prefix.
    Main,
    /// CBh.
    Cb,
    /// EDh.
    Ed,
    /// DDh: IX stands for HL.
    Ix,
    /// FDh: IY stands for HL.
    Iy,
    /// DDh, CBh and the displacement: (IX+d) stands for the operand.
    IxCb,
    /// FDh, CBh and the displacement: (IY+d) stands for the operand.
    IyCb,
}

/// An instruction as its bytes say it.
#[derive(Clone, Copy, Debug, PartialEq, Eq)]
pub struct Instr {
    /// How many bytes it has, its prefixes among them, 1 to 4.
    pub length: u8,
    pub page: Page,
    /// The last byte of the opcode, which tells the instruction within its page.
    pub opcode: u8,
    /// The byte e of JR and DJNZ, or d of (IX+d) and (IY+d): 80h and more stand for 256 less. 0 in every other
    /// instruction.
    pub displacement: u8,
    /// The byte n or the word nn. 0 where neither stands there.
    pub operand: u16,
}
