ghost use Rattle.std.specs.Prelude.{◌≡◌, ◌≢◌};
ghost use Rattle.mpm_snapshot.specs.Numbers.{number_of};
ghost use Rattle.mpm_snapshot.specs.Endings.{run_of as run_said};

use crate::status::SnapStatus;
use mpm_top::Status;
use std::fmt;

/// The exit status that stands for an ending.
pub fn number(status: SnapStatus) -> u8
    ensures { result ≡ number_of status }
{
    match status {
        SnapStatus::Done => 0,
        SnapStatus::Usage => 1,
        SnapStatus::MachineFault => 2,
        SnapStatus::ScriptFault { .. } => 3,
        SnapStatus::ImageFault { .. } => 4,
        SnapStatus::TooLong { .. } => 5,
        SnapStatus::ReadFault => 6,
        SnapStatus::DiskFault { .. } => 7,
        SnapStatus::WriteFault => 8,
        SnapStatus::OutOfMemory => 9,
        SnapStatus::NoProcess => 10,
        SnapStatus::CoreFault { .. } => 11,
    }
}

/// How the run of a machine ended, where that is the ending.
fn run_of(status: SnapStatus) -> Status
    requires { run_said status ≢ Status.Ran }
    ensures { result ≡ run_said status }
{
    match status {
        SnapStatus::Usage => Status::Usage,
        SnapStatus::MachineFault => Status::MachineFault,
        SnapStatus::ScriptFault { line } => Status::ScriptFault { line },
        SnapStatus::ImageFault {
            drive,
            cause,
            place,
        } => Status::ImageFault {
            drive,
            cause,
            place,
        },
        SnapStatus::TooLong { what } => Status::TooLong { what },
        SnapStatus::ReadFault => Status::ReadFault,
        SnapStatus::DiskFault { step } => Status::DiskFault { step },
        SnapStatus::OutOfMemory => Status::OutOfMemory,
        SnapStatus::Done => unreachable!(),
        SnapStatus::WriteFault => unreachable!(),
        SnapStatus::NoProcess => unreachable!(),
        SnapStatus::CoreFault { .. } => unreachable!(),
    }
}

/// What is said of an ending on the standard error; nothing where all is done.
#[derive(Clone, Copy, Drop)]
pub struct Message(pub SnapStatus);

impl fmt::Display for Message {
    ghost use Rattle.std.specs.Prelude.{Some};
    ghost use Rattle.mpm_snapshot.specs.Numbers.{message_of};

    ghost output = { λ message. Some (message_of message.0) };

    #[tactic(auto, using(crate::proofs::EndingLaws::ended_early))]
    fn fmt<W: fmt::Write>(&self, f: &mut fmt::Formatter<W>) -> fmt::Result {
        match self.0 {
            SnapStatus::Done => write!(f, ""),
            SnapStatus::Usage => {
                write!(
                    f,
                    "usage: mpm_snapshot save program FILE STEPS PID or mpm_snapshot save run MACHINE STEPS PID or mpm_snapshot resume CORE M"
                )
            }
            SnapStatus::WriteFault => write!(f, "output failed"),
            SnapStatus::NoProcess => write!(f, "no process"),
            SnapStatus::CoreFault { place } => write!(f, "bad core at {place}"),
            status => {
                let message = mpm_top::Message(run_of(status));
                write!(f, "{message}")
            }
        }
    }
}

/// Says on the standard error why the program ended, where it did not do all; a failure of the standard error goes unsaid.
pub fn report(rt: &impl Eprint, status: SnapStatus) {
    if status != SnapStatus::Done {
        let message = Message(status);
        let _ = eprintln!(rt; "{message}");
    }
}
