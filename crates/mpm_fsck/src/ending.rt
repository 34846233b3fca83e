ghost use Rattle.std.specs.Prelude.{◌≡◌};
ghost use Rattle.mpm_fsck.specs.Numbers.{number_of};

use crate::status::FsckStatus;
use std::fmt;

/// The exit status that stands for an ending.
pub fn number(status: FsckStatus) -> u8
    ensures { result ≡ number_of status }
{
    match status {
        FsckStatus::Done => 0,
        FsckStatus::Usage => 1,
        FsckStatus::Unsound { .. } => 2,
        FsckStatus::WrongSize => 3,
        FsckStatus::BadList { .. } => 4,
        FsckStatus::NotEnough { .. } => 5,
        FsckStatus::ReadFault => 6,
        FsckStatus::DiskFault => 7,
        FsckStatus::WriteFault => 8,
        FsckStatus::OutOfMemory => 9,
        FsckStatus::TooLong => 10,
    }
}

/// What is said of an ending on the standard error; nothing where all was done, or the faults are listed.
#[derive(Clone, Copy, Drop)]
pub struct Message(pub FsckStatus);

impl fmt::Display for Message {
    ghost use Rattle.std.specs.Prelude.{Some};
    ghost use Rattle.mpm_fsck.specs.Numbers.{message_of};

    ghost output = { λ message. Some (message_of message.0) };

    fn fmt<W: fmt::Write>(&self, f: &mut fmt::Formatter<W>) -> fmt::Result {
        match self.0 {
            FsckStatus::Done => write!(f, ""),
            FsckStatus::Usage => {
                write!(
                    f,
                    "usage: mpm_fsck check KIND IMAGE or mpm_fsck apply KIND IMAGE LIST"
                )
            }
            FsckStatus::Unsound { .. } => write!(f, ""),
            FsckStatus::WrongSize => write!(f, "wrong size"),
            FsckStatus::BadList { line } => write!(f, "bad list line {line}"),
            FsckStatus::NotEnough { slot, cause } => {
                write!(f, "not enough: cause {cause} at {slot}")
            }
            FsckStatus::ReadFault => write!(f, "cannot read"),
            FsckStatus::DiskFault => write!(f, "disk failed"),
            FsckStatus::WriteFault => write!(f, "output failed"),
            FsckStatus::OutOfMemory => write!(f, "out of memory"),
            FsckStatus::TooLong => write!(f, "list too long"),
        }
    }
}

/// Says on the standard error why the program ended, where it neither did all nor listed faults; a failure of the standard error goes
/// unsaid.
pub fn report(rt: &impl Eprint, status: FsckStatus) {
    match status {
        FsckStatus::Done | FsckStatus::Unsound { .. } => {}
        _ => {
            let message = Message(status);
            let _ = eprintln!(rt; "{message}");
        }
    }
}
