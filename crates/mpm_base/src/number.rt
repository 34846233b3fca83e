ghost use Rattle.std.specs.Prelude.{ℕ, ◌<◌};

use std::marker::Model;

/// The number of a process: that of its slot in the table of processes, below 32. Contracts see the number.
#[derive(Clone, Copy, Debug, PartialEq, Eq)]
pub struct Pid(pub u8);

impl Model for Pid {
    ghost Value = { ℕ };

    ghost view = { λ p. p.0 };

    ghost invariant = { λ p. p.0 < 32 };

    ghost inverse = { λ n. record { 0 = n } };
}

/// The number of a memory segment, below 16. Contracts see the number.
#[derive(Clone, Copy, Debug, PartialEq, Eq)]
pub struct Seg(pub u8);

impl Model for Seg {
    ghost Value = { ℕ };

    ghost view = { λ s. s.0 };

    ghost invariant = { λ s. s.0 < 16 };

    ghost inverse = { λ n. record { 0 = n } };
}

/// The name of a process or a queue: eight bytes, as they are given.
#[derive(Clone, Copy, Debug, Default, PartialEq, Eq)]
pub struct Name8(pub [u8; 8]);
