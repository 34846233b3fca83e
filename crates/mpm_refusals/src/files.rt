ghost use Rattle.std.specs.Prelude.{◌≡◌, ◌<◌};
ghost use Rattle.mpm_dirent.specs.Names.{plain};
ghost use Rattle.mpm_mount.specs.Standing.{OnItsDrive};
ghost use Rattle.mpm_refusals.specs.Subjects as spec;

use mpm_mount::{Mounted, attributes};

/// The place of T1', read-only, among the attributes.
const READ_ONLY: usize = 8;

/// Whether an attribute of a file is set, if the file is there.
fn is_set(attributes: Option<[bool; 11]>, place: usize) -> bool
    requires { place < 11 }
    ensures { result ≡ spec.is_set attributes place }
{
    match attributes {
        Some(attributes) => attributes[place],
        None => false,
    }
}

/// Whether a user's file is there.
pub(crate) fn is_there(mounted: &Mounted, user: u8, name: &[u8; 11]) -> bool
    ensures { OnItsDrive mounted.now (λ drive. result ≡ spec.is_there drive (record { user = user; name = plain name.now })) }
{
    attributes(mounted, user, name).is_some()
}

/// Whether a user's file is read-only. (MP/M II Programmer's Guide, "File Attributes".)
pub(crate) fn is_read_only(mounted: &Mounted, user: u8, name: &[u8; 11]) -> bool
    ensures { OnItsDrive mounted.now (λ drive. result ≡ spec.has_attribute drive (record { user = user; name = plain name.now }) 8) }
{
    is_set(attributes(mounted, user, name), READ_ONLY)
}
