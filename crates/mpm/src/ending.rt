ghost use Rattle.std.specs.Prelude.{◌≡◌};
ghost use Rattle.mpm.specs.Endings.{number_of};

use mpm_top::{Message, Status};

/// The exit status that stands for an ending.
pub fn number(status: Status) -> u8
    ensures { result ≡ number_of status }
{
    match status {
        Status::Ran => 0,
        Status::Usage => 1,
        Status::MachineFault => 2,
        Status::ScriptFault { .. } => 3,
        Status::ImageFault { .. } => 4,
        Status::TooLong { .. } => 5,
        Status::ReadFault => 6,
        Status::DiskFault { .. } => 7,
        Status::WriteFault { .. } => 8,
        Status::OutOfMemory => 9,
    }
}

/// Says on the standard error why the program ended, where it did not run to its end; a failure of the standard error
/// goes unsaid.
pub fn report(rt: &impl Eprint, status: Status) {
    if status != Status::Ran {
        let message = Message(status);
        let _ = eprintln!(rt; "{message}");
    }
}
