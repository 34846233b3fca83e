/// What is wrong with an image.
#[derive(Clone, Copy, Debug, PartialEq, Eq)]
pub struct ImageFault {
    /// 1: another size. 2: more than 128 records in an extent. 3: the number of no block that files have. 4: a block that
    /// is used already. 5: an entry number that its file has already. 6: S2 above 63 or EX above 31. 7: a second label. 8: a
    /// second XFCB of a file.
    pub cause: u8,
    /// The slot of the directory entry, or 0 for a size.
    pub place: u32,
}

/// Why an image isn't mounted.
#[derive(Clone, Copy, Debug, PartialEq, Eq)]
pub enum MountError {
    /// The first slot that is at fault, with its least cause, as in `ImageFault`.
    Image { cause: u8, place: u32 },
    /// The device failed.
    DiskFault,
    /// No memory was found.
    OutOfMemory,
}
