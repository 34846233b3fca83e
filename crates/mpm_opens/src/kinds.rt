ghost use Rattle.std.specs.Prelude.{◌≡◌, ◌==◌};
ghost use Rattle.mpm_opens.specs.Kinds.{is_same_file, is_same_mode, do_modes_go_together, is_among};

use mpm_base::Pid;

/// A file, by where it stands.
#[derive(Clone, Copy, Debug, PartialEq, Eq)]
pub struct FileKey {
    /// 0 to 15 for A to P.
    pub drive: u8,
    /// 0 to 15.
    pub user: u8,
    /// The name, eight bytes, and the type, three, without the attributes in bit 7.
    pub name: [u8; 11],
}

/// How a file is opened. (MP/M II Programmer's Guide, "Function 15: Open File".)
#[derive(Clone, Copy, Debug, PartialEq, Eq)]
pub enum Mode {
    /// By one process alone.
    Locked,
    /// By several processes, which may lock records.
    Unlocked,
    /// By several processes, which only read.
    ReadOnly,
}

/// Why a file isn't opened: the first of these that is so, and the extended error that a file call answers for it. (MP/M II
/// Programmer's Guide, "BDOS Error Handling".)
#[derive(Clone, Copy, Debug, PartialEq, Eq)]
pub enum OpenRefused {
    /// It is open in a mode beside which this one can't be: extended error 5.
    Incompatible,
    /// The process has 16 open files, or opened this one 255 times: extended error 10.
    ProcessLimit,
    /// 64 files are open in all: extended error 11.
    NoRoom,
}

/// What became of a lock that was asked for: the first of these that is so, `Locked` where none of the others is, and the code
/// that a file call answers for it. (MP/M II Programmer's Guide, "Function 42: Lock Record".)
#[derive(Clone, Copy, Debug, PartialEq, Eq)]
pub enum LockDone {
    /// The process has it, from now on or since before, whatever the limits: code 0.
    Locked,
    /// Another process has it: code 8.
    Other { owner: Pid },
    /// The process has 32 locks: code 12.
    ProcessLimit,
    /// 128 records are locked in all: code 14.
    NoRoom,
}

/// A file that a process has open.
#[derive(Clone, Copy)]
pub(crate) struct Item {
    pub(crate) process: Pid,
    pub(crate) file: FileKey,
    pub(crate) mode: Mode,
    /// How often it was opened and not closed since, 1 to 255.
    pub(crate) count: u8,
    /// Whether a record of the file was written by way of it.
    pub(crate) has_written: bool,
}

/// A lock on a record of a file.
#[derive(Clone, Copy)]
pub(crate) struct RecordLock {
    pub(crate) owner: Pid,
    pub(crate) file: FileKey,
    pub(crate) number: u32,
}

/// Some of the files.
#[derive(Clone, Copy)]
pub(crate) enum FileSet {
    All,
    OnDrive(u8),
    One(FileKey),
}

/// Some of the locks: those on some files, or that on one record.
#[derive(Clone, Copy)]
pub(crate) enum LockSet {
    OnFiles(FileSet),
    OnRecord { file: FileKey, number: u32 },
}

impl FileKey {
    /// Whether two files are the same.
    pub(crate) fn is_same(&self, other: &FileKey) -> bool
        ensures { result ≡ is_same_file self.now other.now }
    {
        self.drive == other.drive && self.user == other.user && self.name == other.name
    }
}

impl Mode {
    /// Whether two modes are the same.
    pub(crate) fn is_same(self, other: Mode) -> bool
        ensures { result ≡ is_same_mode self other }
    {
        match (self, other) {
            (Mode::Locked, Mode::Locked) => true,
            (Mode::Unlocked, Mode::Unlocked) => true,
            (Mode::ReadOnly, Mode::ReadOnly) => true,
            _ => false,
        }
    }

    /// Whether two processes can have a file open in them.
    pub(crate) fn goes_with(self, other: Mode) -> bool
        ensures { result ≡ do_modes_go_together self other }
    {
        match (self, other) {
            (Mode::Unlocked, Mode::Unlocked) => true,
            (Mode::ReadOnly, Mode::ReadOnly) => true,
            _ => false,
        }
    }
}

impl FileSet {
    /// Whether a file is one of them.
    pub(crate) fn has(&self, file: &FileKey) -> bool
        ensures { result ≡ is_among self.now file.now }
    {
        match self {
            FileSet::All => true,
            FileSet::OnDrive(drive) => file.drive == *drive,
            FileSet::One(one) => file.is_same(one),
        }
    }
}

/// Whether two numbers are those of one process.
pub(crate) fn is_process(a: Pid, b: Pid) -> bool
    ensures { result ≡ (a == b) }
{
    a.0 == b.0
}
