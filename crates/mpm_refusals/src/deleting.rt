ghost use Rattle.std.specs.Prelude.{◌≡◌};
ghost use Rattle.mpm_dirent.specs.Names.{plain};
ghost use Rattle.mpm_mount.specs.Standing.{OnItsDrive};
ghost use Rattle.mpm_refusals.specs.Refusals as spec;

use crate::files::is_read_only;
use crate::passwords::lacks_password;
use mpm_base::Pid;
use mpm_dirent::plain_name;
use mpm_file_functions::{FileFunction, Refusal};
use mpm_mount::Mounted;
use mpm_opens::{FileKey, Opens};

/// Who deletes files: a process, as a user, on a drive, by the password that it gives or its default one.
#[derive(Clone, Copy)]
pub struct Deleter {
    /// The process.
    pub process: Pid,
    /// The user whose files it deletes.
    pub user: u8,
    /// The drive, from 0.
    pub drive: u8,
    /// The password that the call gives.
    pub given: [u8; 8],
    /// The process's default password.
    pub default: [u8; 8],
}

/// Why a file of the user isn't deleted, if it isn't.
#[tactic(auto, unfolding(crate::specs::Refusals::file_refusal, mpm_file_functions::specs::Refusals::refusals_of_each))]
fn file_refusal(mounted: &Mounted, opens: &Opens, by: &Deleter, name: &[u8; 11]) -> Option<Refusal>
    ensures { OnItsDrive mounted.now (λ drive. result ≡ spec.file_refusal drive opens.now by.now (record { user = by.now.user; name = plain name.now })) }
{
    let key = FileKey {
        drive: by.drive,
        user: by.user,
        name: plain_name(name),
    };
    if is_read_only(mounted, by.user, name) {
        return Some(Refusal::ReadOnlyFile);
    }
    if lacks_password(
        mounted,
        by.user,
        name,
        FileFunction::DeleteFile,
        &by.given,
        &by.default,
    ) {
        return Some(Refusal::WrongPassword);
    }
    if opens.others(by.process, key) {
        Some(Refusal::InUse)
    } else {
        None
    }
}

/// Why the files of a pattern aren't deleted, if one of them isn't: for the first of them. (MP/M II Programmer's Guide, "Function
/// 19: Delete File".)
pub(crate) fn deletion_refusal(
    mounted: &Mounted,
    opens: &Opens,
    by: &Deleter,
    pattern: &[u8; 11],
) -> Option<Refusal>
    ensures { OnItsDrive mounted.now (λ drive. result ≡ spec.deletion_refusal drive opens.now by.now pattern.now) }
{
    let mut last = None;
    while let Some(found) = mounted.next(by.user, pattern, last) {
        let refusal = file_refusal(mounted, opens, by, &found.name);
        if refusal.is_some() {
            return refusal;
        }
        last = Some(found);
    }
    None
}
