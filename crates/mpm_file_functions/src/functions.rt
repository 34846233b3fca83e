ghost use Rattle.std.specs.Prelude.{◌≡◌};
ghost use Rattle.mpm_file_functions.specs.Functions.{function_of};

use mpm_base::functions;

/// A function on files and drives that the disk serves. (MP/M II Programmer's Guide, "BDOS Function Calls".)
#[derive(Clone, Copy, Debug, PartialEq, Eq)]
pub enum FileFunction {
    /// 13, Reset Disk System: resets all drives.
    ResetDisks,
    /// 15, Open File.
    OpenFile,
    /// 16, Close File.
    CloseFile,
    /// 17, Search for First.
    SearchFirst,
    /// 18, Search for Next.
    SearchNext,
    /// 19, Delete File.
    DeleteFile,
    /// 20, Read Sequential.
    ReadSequential,
    /// 21, Write Sequential.
    WriteSequential,
    /// 22, Make File.
    MakeFile,
    /// 23, Rename File.
    RenameFile,
    /// 28, Write Protect Disk: protects the process's drive from writing.
    ProtectDisk,
    /// 30, Set File Attributes.
    SetAttributes,
    /// 33, Read Random.
    ReadRandom,
    /// 34, Write Random, and 40, Write Random With Zero Fill, which are the same: a fresh block begins as zeros.
    WriteRandom,
    /// 35, Compute File Size.
    FileSize,
    /// 37, Reset Drive: resets some drives.
    ResetDrives,
    /// 38, Access Drive: marks some drives.
    AccessDrives,
    /// 39, Free Drive: gives some drives back.
    FreeDrives,
    /// 41, Test and Write Record.
    TestAndWrite,
    /// 42, Lock Record.
    LockRecord,
    /// 43, Unlock Record.
    UnlockRecord,
    /// 46, Get Disk Free Space.
    FreeSpace,
    /// 48, Flush Buffers.
    FlushBuffers,
    /// 100, Set Directory Label.
    SetLabel,
    /// 101, Return Directory Label Data.
    LabelData,
    /// 102, Read File XFCB.
    ReadXfcb,
    /// 103, Write File XFCB.
    WriteXfcb,
}

impl FileFunction {
    /// The function of a number, if it is one on files and drives that the disk serves.
    #[inline(always)]
    #[tactic(auto, unfolding(crate::specs::Functions::function_of))]
    pub fn of(number: u8) -> Option<FileFunction>
        ensures { result ≡ function_of number }
    {
        match number {
            functions::RESET_DISK_SYSTEM => Some(FileFunction::ResetDisks),
            functions::OPEN_FILE => Some(FileFunction::OpenFile),
            functions::CLOSE_FILE => Some(FileFunction::CloseFile),
            functions::SEARCH_FOR_FIRST => Some(FileFunction::SearchFirst),
            functions::SEARCH_FOR_NEXT => Some(FileFunction::SearchNext),
            functions::DELETE_FILE => Some(FileFunction::DeleteFile),
            functions::READ_SEQUENTIAL => Some(FileFunction::ReadSequential),
            functions::WRITE_SEQUENTIAL => Some(FileFunction::WriteSequential),
            functions::MAKE_FILE => Some(FileFunction::MakeFile),
            functions::RENAME_FILE => Some(FileFunction::RenameFile),
            functions::WRITE_PROTECT_DISK => Some(FileFunction::ProtectDisk),
            functions::SET_FILE_ATTRIBUTES => Some(FileFunction::SetAttributes),
            functions::READ_RANDOM => Some(FileFunction::ReadRandom),
            functions::WRITE_RANDOM => Some(FileFunction::WriteRandom),
            functions::COMPUTE_FILE_SIZE => Some(FileFunction::FileSize),
            functions::RESET_DRIVE => Some(FileFunction::ResetDrives),
            functions::ACCESS_DRIVE => Some(FileFunction::AccessDrives),
            functions::FREE_DRIVE => Some(FileFunction::FreeDrives),
            functions::WRITE_RANDOM_WITH_ZERO_FILL => Some(FileFunction::WriteRandom),
            functions::TEST_AND_WRITE_RECORD => Some(FileFunction::TestAndWrite),
            functions::LOCK_RECORD => Some(FileFunction::LockRecord),
            functions::UNLOCK_RECORD => Some(FileFunction::UnlockRecord),
            functions::GET_DISK_FREE_SPACE => Some(FileFunction::FreeSpace),
            functions::FLUSH_BUFFERS => Some(FileFunction::FlushBuffers),
            functions::SET_DIRECTORY_LABEL => Some(FileFunction::SetLabel),
            functions::RETURN_DIRECTORY_LABEL_DATA => Some(FileFunction::LabelData),
            functions::READ_FILE_XFCB => Some(FileFunction::ReadXfcb),
            functions::WRITE_FILE_XFCB => Some(FileFunction::WriteXfcb),
            _ => None,
        }
    }
}

/// A function on drives and positions that is done in its gate step, as no disk serves it. (MP/M II Programmer's Guide, "BDOS
/// Function Calls".)
#[derive(Clone, Copy, Debug, PartialEq, Eq)]
pub enum DirectFunction {
    /// 14, Select Disk.
    SelectDisk,
    /// 24, Return Login Vector.
    LoginVector,
    /// 29, Get Read/Only Vector.
    ReadOnlyVector,
    /// 31, Get Address of Disk Parameters.
    DiskParameters,
    /// 36, Set Random Record.
    SetRandomRecord,
}

impl DirectFunction {
    ghost use Rattle.mpm_file_functions.specs.Functions.{direct_of};

    /// The function of a number, if it is one of these.
    #[tactic(auto, unfolding(crate::specs::Functions::direct_of))]
    pub fn of(number: u8) -> Option<DirectFunction>
        ensures { result ≡ direct_of number }
    {
        match number {
            functions::SELECT_DISK => Some(DirectFunction::SelectDisk),
            functions::RETURN_LOGIN_VECTOR => Some(DirectFunction::LoginVector),
            functions::GET_READ_ONLY_VECTOR => Some(DirectFunction::ReadOnlyVector),
            functions::GET_DISK_PARAMETERS => Some(DirectFunction::DiskParameters),
            functions::SET_RANDOM_RECORD => Some(DirectFunction::SetRandomRecord),
            _ => None,
        }
    }
}
