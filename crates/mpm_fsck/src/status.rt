/// How the program ended.
#[derive(Clone, Copy, Debug, PartialEq, Eq)]
pub enum FsckStatus {
    /// All is done and written.
    Done,
    /// The words have no form that the program knows.
    Usage,
    /// So many entries of the image's directory are at fault, at least one; their list is written.
    Unsound { count: u32 },
    /// The image hasn't the size of its kind.
    WrongSize,
    /// That line of the list, counted from 1, is the first that has not a list's form.
    BadList { line: u32 },
    /// The image without the listed slots has that first fault: its slot, and its cause from 2 to 8.
    NotEnough { slot: u32, cause: u8 },
    /// The list could not be read.
    ReadFault,
    /// The drive couldn't be attached to the image, or failed.
    DiskFault,
    /// The output failed.
    WriteFault,
    /// There was no memory for it.
    OutOfMemory,
    /// The list has more than 65,536 bytes.
    TooLong,
}
