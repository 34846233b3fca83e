/// The size of a disk and of its parts, as its disk parameter block says it.
#[derive(Clone, Copy, Debug, PartialEq, Eq)]
pub struct Geometry {
    /// The bytes of the image, the system's tracks included.
    pub bytes: u32,
    /// The bytes of a block.
    pub block: u16,
    /// The number of the last block.
    pub dsm: u16,
    /// The number of the last directory entry.
    pub drm: u16,
    /// How many blocks the directory takes, from block 0 on.
    pub directory_blocks: u16,
    /// Whether an entry's map has block numbers of 16 bits; else they have 8.
    pub wide: bool,
    /// The extent mask: how many extents of 128 records an entry covers, less one.
    pub mask: u8,
}
