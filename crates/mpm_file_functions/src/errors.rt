/// Why a record isn't read or written, so that its call ends with those before it. (MP/M II Programmer's Guide, "Function 33:
/// Read Random", "Function 34: Write Random", "Function 41: Test and Write Record".)
#[derive(Clone, Copy, Debug, PartialEq, Eq)]
pub enum RecordError {
    /// Its extent isn't there.
    UnwrittenExtent,
    /// Its extent is there, but the record isn't.
    UnwrittenData,
    /// It hasn't the bytes that it was to have.
    Mismatch,
    /// It needs a directory entry, and none is free.
    NoDirectorySpace,
    /// It needs an allocation block, and none is free.
    NoDataBlock,
}
