ghost use Rattle.std.specs.Prelude.{◌≡◌};
ghost use Rattle.mpm_dirent.specs.Names.{plain};
ghost use Rattle.mpm_mount.specs.Standing.{OnItsDrive};
ghost use Rattle.mpm_refusals.specs.Subjects.{file_admits};
ghost use Rattle.mpm_refusals.specs.Refusals as spec;

use mpm_file_functions::FileFunction;
use mpm_guard::{admits, admits_label};
use mpm_mount::{Mounted, label, label_byte, xfcb};

/// Which bits of an XFCB's mode guard a file against a call: for opening 80h, for others any.
fn need_of(function: FileFunction) -> u8
    ensures { result ≡ spec.need_of function }
{
    match function {
        FileFunction::OpenFile => 0x80,
        _ => 0xFF,
    }
}

/// Whether a call changes the label.
fn is_of_label(function: FileFunction) -> bool
    ensures { result ≡ spec.is_of_label function }
{
    match function {
        FileFunction::SetLabel => true,
        _ => false,
    }
}

/// Whether the label may be changed, if there is one, by a password.
fn label_admits(mounted: &Mounted, given: &[u8; 8], default: &[u8; 8]) -> bool
    ensures { OnItsDrive mounted.now (λ drive. result ≡ spec.label_admits given.now default.now drive.label) }
{
    match label(mounted) {
        Some(label) => admits_label(&label, given, default),
        None => true,
    }
}

/// Whether a user's file is open to a process by what its XFCB guards with `need`: by the password that it gives, by its default
/// one, or as nothing guards.
pub(crate) fn file_admits(
    mounted: &Mounted,
    user: u8,
    name: &[u8; 11],
    need: u8,
    given: &[u8; 8],
    default: &[u8; 8],
) -> bool
    ensures { OnItsDrive mounted.now (λ drive. result ≡ file_admits drive (record { user = user; name = plain name.now }) need given.now default.now) }
{
    match xfcb(mounted, user, name) {
        Some(xfcb) => admits(label_byte(mounted), &xfcb, need, given, default),
        None => true,
    }
}

/// Whether a call lacks the password that it needs, of the label or of a user's file. (MP/M II Programmer's Guide, "File
/// Passwords".)
pub(crate) fn lacks_password(
    mounted: &Mounted,
    user: u8,
    name: &[u8; 11],
    function: FileFunction,
    given: &[u8; 8],
    default: &[u8; 8],
) -> bool
    ensures { OnItsDrive mounted.now (λ drive. result ≡ spec.lacks_password drive (record { user = user; name = plain name.now }) function given.now default.now) }
{
    if is_of_label(function) {
        return !label_admits(mounted, given, default);
    }
    !file_admits(mounted, user, name, need_of(function), given, default)
}
