ghost use Rattle.std.specs.Prelude.{◌≡◌};
ghost use Rattle.mpm_dirent.specs.Names.{plain};
ghost use Rattle.mpm_mount.specs.Standing.{OnItsDrive};
ghost use Rattle.mpm_refusals.specs.Subjects as spec;

use crate::passwords::file_admits;
use mpm_fcb::ControlBlock;
use mpm_file_functions::FileFunction;
use mpm_mount::{Mounted, attributes};
use mpm_opens::Mode;

/// In an XFCB's mode: the password is asked for writing.
const WRITING: u8 = 0x40;

/// Whether a file is shared, by its attributes in the user and in user 0.
fn shared_by(own: Option<[bool; 11]>, shared: Option<[bool; 11]>) -> bool
    ensures { result ≡ spec.shared_by own shared }
{
    match (own, shared) {
        (None, Some(attributes)) => attributes[9],
        _ => false,
    }
}

/// Whether a file that the user lacks is a system file of user 0. (MP/M II Programmer's Guide, "Function
/// 15: Open File".)
pub(crate) fn is_shared(mounted: &Mounted, user: u8, name: &[u8; 11]) -> bool
    ensures { OnItsDrive mounted.now (λ drive. result ≡ spec.is_shared drive (record { user = user; name = plain name.now })) }
{
    shared_by(
        attributes(mounted, user, name),
        attributes(mounted, 0, name),
    )
}

/// The mode in which an opening asks for a file.
pub(crate) fn mode_asked(
    mounted: &Mounted,
    user: u8,
    block: &ControlBlock,
    given: &[u8; 8],
    default: &[u8; 8],
) -> Mode
    ensures { OnItsDrive mounted.now (λ drive. result ≡ spec.mode_asked drive (record { user = user; name = plain block.now.name }) block.now given.now default.now) }
{
    if is_shared(mounted, user, &block.name) {
        return Mode::ReadOnly;
    }
    if file_admits(mounted, user, &block.name, WRITING, given, default) {
        block.open_mode()
    } else {
        Mode::ReadOnly
    }
}

/// The mode in which a call opens a file: one that it makes in the mode of the block.
pub(crate) fn mode_in(
    mounted: &Mounted,
    user: u8,
    block: &ControlBlock,
    given: &[u8; 8],
    default: &[u8; 8],
    function: FileFunction,
) -> Mode
    ensures { OnItsDrive mounted.now (λ drive. result ≡ spec.mode_in drive (record { user = user; name = plain block.now.name }) block.now given.now default.now function) }
{
    match function {
        FileFunction::MakeFile => block.made_mode(),
        _ => mode_asked(mounted, user, block, given, default),
    }
}
