/// Why a machine isn't booted.
#[derive(Clone, Copy, Debug, PartialEq, Eq)]
pub enum BootError {
    /// The image of a drive, numbered from 0, has this first fault, as in `mpm_mount::ImageFault`.
    Image { drive: u8, cause: u8, place: u32 },
    /// A drive couldn't be attached to its image, or failed while its directory was read.
    DiskFault,
    /// There was no memory for it.
    OutOfMemory,
}
