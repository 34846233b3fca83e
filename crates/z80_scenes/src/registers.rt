//! Registers that instructions begin with, and what every one leaves of them.
use z80_regs::{InterruptMode, Regs};

/// Registers of which each has its own value, so that one that changes shows.
pub fn fixture() -> Regs {
    Regs {
        a: 1,
        f: 2,
        b: 3,
        c: 4,
        d: 5,
        e: 6,
        h: 7,
        l: 8,
        a2: 9,
        f2: 10,
        b2: 11,
        c2: 12,
        d2: 13,
        e2: 14,
        h2: 15,
        l2: 16,
        ix: 0x1718,
        iy: 0x191a,
        sp: 0xbefe,
        pc: 0x0100,
        i: 0x1b,
        r: 0xff,
        iff1: true,
        iff2: false,
        mode: InterruptMode(1),
        halted: false,
        shadow: true,
    }
}

/// What every instruction leaves of `fixture`: R has gone from FFh to 80h, and the shadow has ended.
pub fn behind(pc: u16) -> Regs {
    Regs {
        pc,
        r: 0x80,
        shadow: false,
        ..fixture()
    }
}
