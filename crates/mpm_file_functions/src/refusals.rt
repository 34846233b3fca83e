ghost use Rattle.std.specs.Prelude.{◌≡◌};
ghost use Rattle.mpm_file_functions.specs.Refusals as spec;

use crate::functions::FileFunction;

/// An extended error: its code, and the drive of which it is, from 0. (MP/M II Programmer's Guide, "BDOS Error Handling".)
#[derive(Clone, Copy, Debug, PartialEq, Eq)]
pub struct Extended {
    /// The error code.
    pub code: u8,
    /// The drive, 0 to 15 for A to P; more where a call names a drive that there can't be.
    pub drive: u8,
}

/// Why a file call is refused as a whole. (MP/M II Programmer's Guide, "BDOS Error Handling".)
#[derive(Clone, Copy, Debug, PartialEq, Eq)]
pub enum Refusal {
    /// The drive isn't mounted: extended error 4.
    NotMounted,
    /// There is a `?` in a name or type: extended error 9.
    Ambiguous,
    /// The control block names no open file of the process: code 10.
    NotOpen,
    /// A call on record locks names no open file of the process: code 13.
    NotOpenToLock,
    /// A record lies beyond the last that a file can have: code 6.
    BeyondFile,
    /// There is no such file, extent or open file: FFh.
    NotFound,
    /// The drive is protected from writing: extended error 2.
    ProtectedDrive,
    /// The file is read-only, or it was opened in read-only mode: extended error 3.
    ReadOnlyFile,
    /// There is a file of the new name: extended error 8.
    FileExists,
    /// The password is missing: extended error 7.
    WrongPassword,
    /// Another process has the file open, or it is open in a mode beside which this one can't be: extended error 5.
    InUse,
    /// The process has as many files open as it may, or opened this one as often as it may: extended error 10.
    FileLimit,
    /// As many files are open in all as there is room for: extended error 11.
    ListFull,
    /// There are too few free directory entries: FFh.
    DirectoryFull,
    /// Another process has a file open on the drive, or has marked it: FFh.
    Busy,
}

/// The refusals of a call, in the order in which they are asked.
#[tactic(auto, unfolding(crate::specs::Refusals::refusals_of))]
pub fn refusals_of(function: FileFunction) -> &'static [Refusal]
    ensures { result.now ≡ spec.refusals_of function }
{
    match function {
        FileFunction::ResetDisks | FileFunction::ProtectDisk | FileFunction::ResetDrives => {
            &[Refusal::Busy]
        }
        FileFunction::OpenFile => &[
            Refusal::NotMounted,
            Refusal::Ambiguous,
            Refusal::NotFound,
            Refusal::WrongPassword,
            Refusal::InUse,
            Refusal::FileLimit,
            Refusal::ListFull,
        ],
        FileFunction::CloseFile | FileFunction::SearchFirst | FileFunction::SearchNext => {
            &[Refusal::NotMounted, Refusal::NotFound]
        }
        FileFunction::DeleteFile => &[
            Refusal::NotMounted,
            Refusal::NotFound,
            Refusal::ProtectedDrive,
        ],
        FileFunction::ReadSequential => &[Refusal::NotMounted, Refusal::NotOpen],
        FileFunction::WriteSequential | FileFunction::WriteRandom | FileFunction::TestAndWrite => &[
            Refusal::NotMounted,
            Refusal::NotOpen,
            Refusal::BeyondFile,
            Refusal::ProtectedDrive,
            Refusal::ReadOnlyFile,
        ],
        FileFunction::MakeFile => &[
            Refusal::NotMounted,
            Refusal::Ambiguous,
            Refusal::ProtectedDrive,
            Refusal::FileExists,
            Refusal::FileLimit,
            Refusal::ListFull,
            Refusal::DirectoryFull,
        ],
        FileFunction::RenameFile => &[
            Refusal::NotMounted,
            Refusal::Ambiguous,
            Refusal::NotFound,
            Refusal::ProtectedDrive,
            Refusal::ReadOnlyFile,
            Refusal::FileExists,
            Refusal::WrongPassword,
            Refusal::InUse,
        ],
        FileFunction::SetAttributes => &[
            Refusal::NotMounted,
            Refusal::Ambiguous,
            Refusal::NotFound,
            Refusal::ProtectedDrive,
            Refusal::WrongPassword,
            Refusal::InUse,
        ],
        FileFunction::ReadRandom => {
            &[Refusal::NotMounted, Refusal::NotOpen, Refusal::BeyondFile]
        }
        FileFunction::FileSize | FileFunction::ReadXfcb => {
            &[Refusal::NotMounted, Refusal::Ambiguous, Refusal::NotFound]
        }
        FileFunction::AccessDrives | FileFunction::FreeDrives | FileFunction::FlushBuffers => &[],
        FileFunction::LockRecord | FileFunction::UnlockRecord => &[
            Refusal::NotMounted,
            Refusal::NotOpenToLock,
            Refusal::BeyondFile,
        ],
        FileFunction::FreeSpace | FileFunction::LabelData => &[Refusal::NotMounted],
        FileFunction::SetLabel => &[
            Refusal::NotMounted,
            Refusal::ProtectedDrive,
            Refusal::WrongPassword,
            Refusal::DirectoryFull,
        ],
        FileFunction::WriteXfcb => &[
            Refusal::NotMounted,
            Refusal::Ambiguous,
            Refusal::NotFound,
            Refusal::ProtectedDrive,
            Refusal::WrongPassword,
            Refusal::InUse,
            Refusal::DirectoryFull,
        ],
    }
}
