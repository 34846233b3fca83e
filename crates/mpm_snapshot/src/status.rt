use mpm_top::Input;

/// How the program ended.
#[derive(Clone, Copy, Debug, PartialEq, Eq)]
pub enum SnapStatus {
    /// All is done and written.
    Done,
    /// The words have no form that the program knows.
    Usage,
    /// The machine file has not the form of one.
    MachineFault,
    /// That line of the script, counted from 1, is the first that has none of a script's forms.
    ScriptFault { line: u32 },
    /// The image of a drive, numbered from 0 for A, has that first fault, as in `mpm_top::Status`.
    ImageFault { drive: u8, cause: u8, place: u32 },
    /// An input of the machine is longer than it may be.
    TooLong { what: Input },
    /// A file that the words or the machine file name could not be read.
    ReadFault,
    /// A drive couldn't be attached to its image, or failed, in this step, as in `mpm_top::Status`.
    DiskFault { step: u64 },
    /// The output failed.
    WriteFault,
    /// There was no memory for it.
    OutOfMemory,
    /// After the steps the process doesn't live, or is a resident, which has no segment.
    NoProcess,
    /// The file is none of a core: the place of the first byte that can't stand there, or, where there are too few bytes or too many,
    /// how many there are or should be.
    CoreFault { place: u32 },
}
