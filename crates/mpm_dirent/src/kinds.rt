/// A directory entry.
#[derive(Clone, Copy, Debug, PartialEq, Eq)]
pub enum Entry {
    /// Of no file: the first byte is E5h.
    Free,
    /// A part of a file: the first byte is 0 to 15.
    File { file: FileEntry },
    /// A file's extended control block: the first byte is 16 to 31.
    Xfcb { xfcb: XfcbEntry },
    /// The directory's label: the first byte is 20h.
    Label { label: LabelEntry },
    /// Of another sort, kept as it is.
    Kept { bytes: [u8; 32] },
}

/// A part of a file: which blocks hold it.
#[derive(Clone, Copy, Debug, PartialEq, Eq)]
pub struct FileEntry {
    /// The user, 0 to 15.
    pub user: u8,
    /// The name, eight bytes, and the type, three; bit 7 of each is an attribute.
    pub name: [u8; 11],
    /// The number of its last extent, the low five bits.
    pub ex: u8,
    /// Of no meaning here: 0 in a new entry, and in one that a record raises.
    pub s1: u8,
    /// The number of its last extent, the high bits.
    pub s2: u8,
    /// The records of its last extent.
    pub rc: u8,
    /// The blocks' numbers: all sixteen at most 255 in a narrow map, the first eight alone in a wide one, where the
    /// others are 0.
    pub blocks: [u16; 16],
}

/// A file's extended control block: its password and its stamps.
#[derive(Clone, Copy, Debug, PartialEq, Eq)]
pub struct XfcbEntry {
    /// The user, 0 to 15.
    pub user: u8,
    /// The name and type, as in the file's own entries.
    pub name: [u8; 11],
    /// What the password protects.
    pub mode: u8,
    /// How the password is encoded.
    pub decode: u8,
    /// The password, encoded.
    pub password: [u8; 8],
    /// When the file was made, or read.
    pub first: [u8; 4],
    /// When the file was written.
    pub second: [u8; 4],
}

/// The directory's label.
#[derive(Clone, Copy, Debug, PartialEq, Eq)]
pub struct LabelEntry {
    /// The label's name and type.
    pub name: [u8; 11],
    /// The label's data byte: what the directory keeps.
    pub mode: u8,
    /// How the password is encoded.
    pub decode: u8,
    /// The password, encoded.
    pub password: [u8; 8],
    /// When the label was made.
    pub first: [u8; 4],
    /// When the label was changed.
    pub second: [u8; 4],
}
