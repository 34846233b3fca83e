/// Where a memory segment lies: its first page and its number of pages of 256 bytes.
#[derive(Clone, Copy, Debug, PartialEq, Eq)]
pub struct SegmentSpec {
    /// The base page: the segment begins at the address 256 times this number.
    pub base: u8,
    /// How many pages it has.
    pub pages: u8,
}
