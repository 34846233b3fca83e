ghost use Rattle.std.specs.Prelude.{◌≡◌, ◌<◌};

/// A console or a printer, by its number.
#[derive(Clone, Copy, Debug, PartialEq, Eq)]
pub enum Unit {
    /// Console 0 to 7.
    Console { n: u8 },
    /// Printer 0 to 3.
    Printer { n: u8 },
}

impl Unit {
    ghost use Rattle.mpm_base.specs.Units.{IsUnit, place_of};

    /// The unit's place among all units, 0 to 11: eight consoles, then four printers.
    pub fn place(self) -> u8
        requires { IsUnit self }
        ensures place { result ≡ place_of self }
        ensures below { result < 12 }
    {
        match self {
            Unit::Console { n } => n,
            Unit::Printer { n } => 8 + n,
        }
    }
}
