ghost use Rattle.std.specs.Prelude.{◌≡◌};
ghost use Rattle.mpm_script.specs.declared.error.LineRefusal.TheVariants.{OutOfMemory};

use std::alloc::AllocFailed;

/// Why a script was not read.
#[derive(Clone, Copy, Debug, PartialEq, Eq)]
pub enum ScriptError {
    /// A line has none of a script's forms, or its step is below the one before: the first such line, counted from 1.
    Fault { line: u32 },
    /// There was no memory for it.
    OutOfMemory,
}

/// Why a line was not read.
#[derive(Clone, Copy, Debug, PartialEq, Eq)]
pub enum LineRefusal {
    /// The line is none of a script there.
    Bad,
    /// There was no memory for it.
    OutOfMemory,
}

impl<T: Drop> From<AllocFailed<T>> for LineRefusal {
    ghost from_gives = { λ _ e. e ≡ OutOfMemory };

    fn from(_: AllocFailed<T>) -> LineRefusal {
        LineRefusal::OutOfMemory
    }
}
