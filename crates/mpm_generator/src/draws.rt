ghost use Rattle.std.specs.Prelude.{◌≡◌, ◌<◌};
ghost use Rattle.mpm_generator.specs.Draws.{following, drawn};

use std::marker::Model;

/// Numbers that are drawn one after the other, by linear congruence. Contracts see the last of them, or the seed.
#[derive(Drop)]
pub(crate) struct Draws {
    last: u32,
}

impl Model for Draws {
    ghost use Rattle.std.specs.Prelude.{ℕ};

    ghost Value = { ℕ };

    ghost view = { λ draws. draws.last };
}

impl Draws {
    /// Those after a seed.
    pub(crate) fn behind(seed: u32) -> Draws
        ensures { result ≡ seed }
    {
        Draws { last: seed }
    }

    /// The next one, as it is drawn below a bound.
    pub(crate) fn below(&mut self, bound: u8) -> u8
        requires { 0 < bound }
        ensures draws { self.new ≡ following self.old }
        ensures drawn { result ≡ drawn bound self.new }
        ensures below { result < bound }
    {
        self.last = ((u64::from(self.last) * 1103515245 + 12345) % 2147483648) as u32;
        (self.last / 65536 % u32::from(bound)) as u8
    }
}
