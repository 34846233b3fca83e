ghost use Rattle.std.specs.Prelude.{◌≡◌, option_map, unwrap_or};
ghost use Rattle.std.specs.FinMap.{get};
ghost use Rattle.mpm_dirent.specs.Names.{plain};
ghost use Rattle.mpm_mount.specs.Standing.{OnItsDrive};
ghost use Rattle.mpm_file_entries.specs.Protections as spec;

use crate::protection::StoredProtection;
use mpm_mount::{Mounted, label, xfcb};

/// What the label of a drive keeps; nothing where there is none.
pub fn label_there(mounted: &Mounted) -> StoredProtection
    ensures { OnItsDrive mounted.now (λ drive. result ≡ unwrap_or (option_map (λ label. label.protection) drive.label) spec.no_protection) }
{
    match label(mounted) {
        Some(label) => StoredProtection::of_label(&label),
        None => StoredProtection::none(),
    }
}

/// What the XFCB of a user's file keeps; nothing where there is none.
pub fn xfcb_there(mounted: &Mounted, user: u8, name: &[u8; 11]) -> StoredProtection
    ensures { OnItsDrive mounted.now (λ drive. result ≡ unwrap_or (get drive.xfcbs (record { user = user; name = plain name.now })) spec.no_protection) }
{
    match xfcb(mounted, user, name) {
        Some(xfcb) => StoredProtection::of_xfcb(&xfcb),
        None => StoredProtection::none(),
    }
}
