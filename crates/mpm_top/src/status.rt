/// An input that has a greatest length.
#[derive(Clone, Copy, Debug, PartialEq, Eq)]
pub enum Input {
    /// A machine file, of at most 65,536 bytes.
    MachineText,
    /// A script, of at most 1,048,576 bytes.
    ScriptText,
    /// A program file, of at most 48,512 bytes.
    ProgramBytes,
}

/// How the program ended.
#[derive(Clone, Copy, Debug, PartialEq, Eq)]
pub enum Status {
    /// All steps are done, and all output is written.
    Ran,
    /// The words have no form that the program knows.
    Usage,
    /// The machine file has not the form of one.
    MachineFault,
    /// That line of the script, counted from 1, is the first that has none of a script's forms.
    ScriptFault { line: u32 },
    /// The image of a drive, numbered from 0 for A, has that first fault: its cause, as in `mpm_mount::ImageFault`, and the slot
    /// of the directory entry, or 0 for a size. No drive of an earlier letter has one.
    ImageFault { drive: u8, cause: u8, place: u32 },
    /// An input is longer than it may be.
    TooLong { what: Input },
    /// A file that the words or the machine file name could not be read.
    ReadFault,
    /// A drive couldn't be attached to its image, or failed, in this step. It is 0 as the drives were mounted, or the step in which a call
    /// on files or a turn of one was done. It is the last one, as the call in service was carried to its end or the drives were synced.
    DiskFault { step: u64 },
    /// The output failed in this step, or after the last one, at the end of the run.
    WriteFault { step: u64 },
    /// There was no memory to read and boot.
    OutOfMemory,
}

impl Input {
    ghost use Rattle.std.specs.Prelude.{◌≡◌};
    ghost use Rattle.mpm_top.specs.Beginnings.{room_for};

    /// The most bytes that it may have.
    pub fn room(self) -> usize
        ensures { result ≡ room_for self }
    {
        match self {
            Input::MachineText => 65_536,
            Input::ScriptText => 1_048_576,
            Input::ProgramBytes => 48_512,
        }
    }
}
