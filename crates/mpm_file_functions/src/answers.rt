ghost use Rattle.std.specs.Prelude.{◌≡◌};
ghost use Rattle.mpm_file_functions.specs.Refusals as refusals;

use crate::refusals::{Extended, Refusal};

/// How a refusal is answered. (MP/M II Programmer's Guide, "BDOS Error Handling".)
#[derive(Clone, Copy, Debug, PartialEq, Eq)]
pub enum Answered {
    /// By an extended error, in H, and FFh.
    AsExtended(u8),
    /// By a code of a record.
    AsRecord(u8),
    /// By FFh, as what isn't found.
    AsNotFound,
}

impl Refusal {
    /// How it is answered.
    pub fn answer(self) -> Answered
        ensures { result ≡ refusals.answered self }
    {
        match self {
            Refusal::ProtectedDrive => Answered::AsExtended(2),
            Refusal::ReadOnlyFile => Answered::AsExtended(3),
            Refusal::NotMounted => Answered::AsExtended(4),
            Refusal::InUse => Answered::AsExtended(5),
            Refusal::WrongPassword => Answered::AsExtended(7),
            Refusal::FileExists => Answered::AsExtended(8),
            Refusal::Ambiguous => Answered::AsExtended(9),
            Refusal::FileLimit => Answered::AsExtended(10),
            Refusal::ListFull => Answered::AsExtended(11),
            Refusal::BeyondFile => Answered::AsRecord(6),
            Refusal::NotOpen => Answered::AsRecord(10),
            Refusal::NotOpenToLock => Answered::AsRecord(13),
            Refusal::NotFound | Refusal::DirectoryFull | Refusal::Busy => Answered::AsNotFound,
        }
    }
}

impl Answered {
    /// The value, for HL.
    pub fn value(self) -> u16
        ensures { result ≡ refusals.refused_value self }
    {
        match self {
            Answered::AsExtended(code) => 256 * u16::from(code) + 0xFF,
            Answered::AsRecord(code) => u16::from(code),
            Answered::AsNotFound => 0xFF,
        }
    }

    /// The extended error of a call on a drive, if it is one.
    pub fn extended(self, drive: u8) -> Option<Extended>
        ensures { result ≡ refusals.refused_extended drive self }
    {
        match self {
            Answered::AsExtended(code) => Some(Extended { code, drive }),
            Answered::AsRecord(_) | Answered::AsNotFound => None,
        }
    }
}
