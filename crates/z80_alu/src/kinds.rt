/// The logical operations on two bytes (UM0080, "8-Bit Arithmetic Group").
#[derive(Clone, Copy, Debug, PartialEq, Eq)]
pub enum Logic {
    And,
    Or,
    Xor,
}

/// The rotations and shifts of a byte by one bit (UM0080, "Rotate and Shift Group"; SLL is undocumented).
#[derive(Clone, Copy, Debug, PartialEq, Eq)]
pub enum Rotate {
    /// To the left; bit 7 comes in at bit 0.
    Rlc,
    /// To the right; bit 0 comes in at bit 7.
    Rrc,
    /// To the left; C comes in at bit 0.
    Rl,
    /// To the right; C comes in at bit 7.
    Rr,
    /// To the left; 0 comes in at bit 0.
    Sla,
    /// To the right; bit 7 stays.
    Sra,
    /// To the right; 0 comes in at bit 7.
    Srl,
    /// To the left; 1 comes in at bit 0.
    Sll,
}
