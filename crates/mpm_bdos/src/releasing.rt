ghost use Rattle.std.specs.Prelude.{◌≡◌, ◌==◌, ◌&&◌, length, map};
ghost use Rattle.mpm_opens.specs.Items.{place_at, file_where, is_given_back};
ghost use Rattle.mpm_opens.specs.Opens.{given_back};
ghost use Rattle.mpm_mount.specs.Files.{is_fitting, has_file};
ghost use Rattle.mpm_refusals.specs.Subjects.{file_of};
ghost use Rattle.mpm_bdos.specs.Changes as spec;
ghost use Rattle.mpm_mount.specs.Standing.{OnItsDrive};

use mpm_base::Pid;
use mpm_mount::Mounted;
use mpm_names::matches;
use mpm_opens::{FileKey, Opens};

/// Whether a user's file of this very name is there.
fn is_file(mounted: &Mounted, user: u8, name: &[u8; 11]) -> bool
    ensures { OnItsDrive mounted.now (λ drive. result ≡ has_file drive (record { user = user; name = name.now })) }
{
    let mut last = None;
    while let Some(found) = mounted.next(user, name, last) {
        if *name == found.name {
            return true;
        }
        last = Some(found);
    }
    false
}

/// Whose files a deletion names: those of a user on a drive, by a pattern.
#[derive(Clone, Copy)]
pub(crate) struct Deletion {
    pub(crate) user: u8,
    pub(crate) drive: u8,
    pub(crate) pattern: [u8; 11],
}

/// Whether a deletion names a file, if that is there.
fn names(deletion: &Deletion, file: &FileKey) -> bool
    ensures { result ≡ ((file.now.drive == deletion.now.drive) && is_fitting deletion.now.user deletion.now.pattern (file_of file.now)) }
{
    file.drive == deletion.drive
        && file.user == deletion.user
        && matches(&deletion.pattern, &file.name)
}

/// Whether a file is one that is deleted.
fn is_deleted(mounted: &Mounted, deletion: &Deletion, file: &FileKey) -> bool
    ensures { OnItsDrive mounted.now (λ drive. result ≡ spec.is_deleted_in drive deletion.now file.now) }
{
    names(deletion, file) && is_file(mounted, file.user, &file.name)
}

/// The file of a process's open file, by its number, if it is deleted.
fn deleted_at(
    mounted: &Mounted,
    opens: &Opens,
    p: Pid,
    deletion: &Deletion,
    number: u8,
) -> Option<FileKey>
    ensures file { OnItsDrive mounted.now (λ drive. result ≡ file_where (is_given_back p (spec.is_deleted_in drive deletion.now)) (place_at opens.now.items number)) }
    ensures places { length opens.now.items ≡ 64 }
{
    match opens.file(p, number) {
        Some(file) if is_deleted(mounted, deletion, &file) => Some(file),
        _ => None,
    }
}

/// A process's open files that a deletion will give back, each at the place of its number.
pub(crate) fn deleted(
    mounted: &Mounted,
    opens: &Opens,
    p: Pid,
    deletion: &Deletion,
) -> [Option<FileKey>; 64]
    ensures { OnItsDrive mounted.now (λ drive. result ≡ map (file_where (is_given_back p (spec.is_deleted_in drive deletion.now))) opens.now.items) }
{
    // There are 64 places.
    opens.recall_sound();
    let mut deleted = [None; 64];
    for number in 0..64 {
        deleted[usize::from(number)] = deleted_at(mounted, opens, p, deletion, number);
    }
    deleted
}

/// Gives back one of a process's open files, if there is one.
fn give_back(opens: &mut Opens, p: Pid, file: &Option<FileKey>)
    ensures { opens.new ≡ given_back opens.old p (spec.is_at file.now) }
{
    match file {
        Some(file) => opens.leave_file(p, *file),
        None => {}
    }
}

/// Gives back those of a process's open files that a deletion has deleted, with its locks there.
#[tactic(auto, using(crate::proofs::DeletedFiles::one_given, crate::proofs::DeletedFiles::all_given, crate::proofs::DeletedFiles::deleted_given))]
pub(crate) fn give_back_deleted(opens: &mut Opens, p: Pid, deleted: &[Option<FileKey>; 64])
    ensures { opens.new ≡ given_back opens.old p (spec.is_among deleted.now) }
{
    for number in 0..64 {
        give_back(opens, p, &deleted[number]);
    }
}
