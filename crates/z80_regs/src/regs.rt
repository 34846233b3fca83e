ghost use Rattle.std.specs.Prelude.{ℕ, ◌<◌};

use std::marker::Model;

/// An interrupt mode of the Z80, below 3 (UM0080, "Interrupt Response"). Contracts see the number.
#[derive(Clone, Copy, Debug, Default, PartialEq, Eq)]
pub struct InterruptMode(pub u8);

impl Model for InterruptMode {
    ghost Value = { ℕ };

    ghost view = { λ m. m.0 };

    ghost invariant = { λ m. m.0 < 3 };

    ghost inverse = { λ n. record { 0 = n } };
}

/// The registers of the Z80 (UM0080, "CPU Registers"). `f` holds the flags S Z 5 H 3 P/V N C from bit 7 down;
/// the names that end in 2 are the alternate set.
#[derive(Clone, Copy, Debug, Default, PartialEq, Eq)]
pub struct Regs {
    pub a: u8,
    pub f: u8,
    pub b: u8,
    pub c: u8,
    pub d: u8,
    pub e: u8,
    pub h: u8,
    pub l: u8,
    pub a2: u8,
    pub f2: u8,
    pub b2: u8,
    pub c2: u8,
    pub d2: u8,
    pub e2: u8,
    pub h2: u8,
    pub l2: u8,
    pub ix: u16,
    pub iy: u16,
    pub sp: u16,
    pub pc: u16,
    /// The page of interrupt vectors; it is kept and has no effect.
    pub i: u8,
    /// The refresh counter: its low seven bits count instructions.
    pub r: u8,
    /// Whether interrupts are taken.
    pub iff1: bool,
    /// What IFF1 was before a non-maskable interrupt.
    pub iff2: bool,
    /// The interrupt mode; it is kept and has no effect.
    pub mode: InterruptMode,
    /// Whether the processor stands in a HALT.
    pub halted: bool,
    /// Whether the instruction before was EI, after which no interrupt is taken yet.
    pub shadow: bool,
}
