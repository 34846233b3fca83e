/// The first address of common memory.
pub(crate) const COMMON_BASE: u16 = 0xC000;

/// What an address reaches into.
#[derive(Clone, Copy)]
pub(crate) enum Space {
    Common,
    /// The segment of this number.
    InSegment(u8),
}

/// A range of bytes of one space, by their indexes.
#[derive(Clone, Copy)]
pub(crate) struct Range {
    pub space: Space,
    pub from: usize,
    pub to: usize,
}
