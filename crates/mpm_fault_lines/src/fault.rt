/// A directory entry that keeps an image from being mounted.
#[derive(Clone, Copy, Debug, PartialEq, Eq)]
pub struct SlotFault {
    /// The entry's slot in the directory, from 0 on.
    pub slot: u16,

    /// What is wrong with it, 2 to 8: the causes of a mount.
    pub cause: u8,

    /// The lowest slot with which it clashes, where its cause is such a clash.
    pub other: Option<u16>,
}
