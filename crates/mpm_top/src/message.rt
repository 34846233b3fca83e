use crate::status::Status;
use std::fmt;

/// The letter of a drive, numbered from 0 to 15.
#[derive(Clone, Copy, Drop)]
struct Letter(u8);

impl fmt::Display for Letter {
    ghost use Rattle.std.specs.Prelude.{Some, [], ◌∷◌};
    ghost use Rattle.mpm_top.specs.Messages.{letter_of};

    ghost output = { λ letter. Some (letter_of letter.0 ∷ []) };

    fn fmt<W: fmt::Write>(&self, f: &mut fmt::Formatter<W>) -> fmt::Result {
        let letter = char::from(b'A' + self.0 % 16);
        write!(f, "{letter}")
    }
}

/// What a program says of an ending on the standard error; nothing where all steps are done.
#[derive(Clone, Copy, Drop)]
pub struct Message(pub Status);

impl fmt::Display for Message {
    ghost use Rattle.std.specs.Prelude.{Some};
    ghost use Rattle.mpm_top.specs.Messages.{message_of};

    ghost output = { λ message. Some (message_of message.0) };

    fn fmt<W: fmt::Write>(&self, f: &mut fmt::Formatter<W>) -> fmt::Result {
        match self.0 {
            Status::Ran => write!(f, ""),
            Status::Usage => {
                write!(
                    f,
                    "usage: mpm program FILE STEPS [--trace] or mpm run MACHINE STEPS [--trace]"
                )
            }
            Status::MachineFault => write!(f, "bad machine file"),
            Status::ScriptFault { line } => write!(f, "bad script line {line}"),
            Status::ImageFault {
                drive,
                cause,
                place,
            } => {
                let letter = Letter(drive);
                write!(f, "bad image {letter}: cause {cause} at {place}")
            }
            Status::TooLong { .. } => write!(f, "input too long"),
            Status::ReadFault => write!(f, "cannot read"),
            Status::DiskFault { step } => write!(f, "disk failed at step {step}"),
            Status::WriteFault { step } => write!(f, "output failed at step {step}"),
            Status::OutOfMemory => write!(f, "out of memory"),
        }
    }
}
