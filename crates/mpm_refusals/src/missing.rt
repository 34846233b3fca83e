ghost use Rattle.std.specs.Prelude.{◌≡◌, ◌==◌, length};
ghost use Rattle.mpm_dirent.specs.Names.{plain};
ghost use Rattle.mpm_mount.specs.Standing.{OnItsDrive};
ghost use Rattle.mpm_refusals.specs.Subjects.{deleted_in};
ghost use Rattle.mpm_refusals.specs.Refusals as spec;

use crate::files::is_there;
use crate::searching::found_in;
use mpm_fcb::ControlBlock;
use mpm_file_functions::FileFunction;
use mpm_mount::{Mounted, extent_count};

/// Whether a deletion of a user's files of a pattern names none.
fn deletes_nothing(mounted: &Mounted, user: u8, pattern: &[u8; 11]) -> bool
    ensures { OnItsDrive mounted.now (λ drive. result ≡ (length (deleted_in drive user pattern.now) == 0)) }
{
    found_in(mounted, user, pattern, b'?', None).is_none()
}

/// Whether nothing is found that a call needs: of the file of a name in the user `owner`, or of the caller's, `user`; by whether
/// the call names an open file, and whether its search finds an entry.
pub(crate) fn is_missing(
    mounted: &Mounted,
    owner: u8,
    user: u8,
    block: &ControlBlock,
    function: FileFunction,
    is_open: bool,
    is_found: bool,
) -> bool
    ensures { OnItsDrive mounted.now (λ drive. result ≡ spec.is_missing_in drive (record { user = owner; name = plain block.now.name }) user block.now is_open is_found function) }
{
    match function {
        FileFunction::OpenFile => extent_count(
            mounted,
            owner,
            &block.name,
            u16::from(block.ex),
        ).is_none(),
        FileFunction::CloseFile => !is_open,
        FileFunction::SearchFirst | FileFunction::SearchNext => !is_found,
        FileFunction::DeleteFile => deletes_nothing(mounted, user, &block.name),
        _ => !is_there(mounted, owner, &block.name),
    }
}
