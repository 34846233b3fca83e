ghost use Rattle.std.specs.Prelude.{◌≡◌};
ghost use Rattle.mpm_machine_file.specs.declared.error.MachineError.TheVariants.{OutOfMemory};

use std::alloc::{AllocError, AllocFailed};

/// Why a machine file was not read.
#[derive(Clone, Copy, Debug, PartialEq, Eq)]
pub enum MachineError {
    /// The text is no machine file.
    Fault,
    /// There was no memory for it.
    OutOfMemory,
}

impl From<AllocError> for MachineError {
    ghost from_gives = { λ _ e. e ≡ OutOfMemory };

    fn from(_: AllocError) -> MachineError {
        MachineError::OutOfMemory
    }
}

impl<T: Drop> From<AllocFailed<T>> for MachineError {
    ghost from_gives = { λ _ e. e ≡ OutOfMemory };

    fn from(_: AllocFailed<T>) -> MachineError {
        MachineError::OutOfMemory
    }
}
