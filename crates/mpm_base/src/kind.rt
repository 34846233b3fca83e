/// The kinds of disk drives.
#[derive(Clone, Copy, Debug, PartialEq, Eq)]
pub enum Kind {
    /// An 8-inch floppy disk of single density: 77 tracks of 26 sectors of 128 bytes, of which two are the system's.
    Ibm3740,
    /// A hard disk of 4,194,304 bytes with no tracks for the system.
    Hd4,
    /// A hard disk of 8,388,608 bytes with no tracks for the system, where a directory entry covers two extents.
    Hd8,
}
