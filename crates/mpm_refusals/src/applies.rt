ghost use Rattle.std.specs.Prelude.{◌≡◌, option_map, find};
ghost use Rattle.mpm_dirent.specs.Names.{plain};
ghost use Rattle.mpm_mount.specs.Standing.{OnItsDrive};
ghost use Rattle.mpm_refusals.specs.Subjects.{is_there as file_is_there};
ghost use Rattle.mpm_refusals.specs.Refusals as spec;
ghost use Rattle.mpm_marks.specs.Busy as in_use;
ghost use Rattle.mpm_refusals.specs.Asking as asking;
ghost use Rattle.mpm_opens.specs.declared.kinds.Mode.TheVariants.{ReadOnly};

use crate::asking::Asked;
use crate::deleting::{Deleter, deletion_refusal};
use crate::files::{is_read_only, is_there};
use crate::missing::is_missing;
use crate::passwords::lacks_password;
use crate::room::is_directory_full;
use crate::sharing::mode_in;
use crate::subjects::{OpenItem, first_record};
use mpm_dirent::plain_name;
use mpm_fcb::{ControlBlock, are_beyond, is_ambiguous};
use mpm_file_functions::{FileFunction, Refusal};
use mpm_marks::{Marks, are_busy};
use mpm_mount::Mounted;
use mpm_opens::{FileKey, Mode, OpenRefused, Opens};

/// Whether there is a `?` where one name is meant; a renaming has two.
fn has_question(block: &ControlBlock, function: FileFunction) -> bool
    ensures { result ≡ spec.has_question block.now function }
{
    match function {
        FileFunction::RenameFile => is_ambiguous(&block.name) || is_ambiguous(&block.new_name()),
        _ => is_ambiguous(&block.name),
    }
}

/// Whether the records of a call go beyond the last that a file can have.
fn is_beyond(asked: &Asked) -> bool
    ensures { result ≡ asking.is_beyond_asked asked.now }
{
    are_beyond(
        first_record(&asked.block, asked.function),
        asked.caller.multi,
    )
}

/// Whether a file that is open was opened in read-only mode.
fn is_read_only_item(item: Option<OpenItem>) -> bool
    ensures { result ≡ spec.is_mode ReadOnly (option_map asking.mode_of_item item) }
{
    match item {
        Some(item) => match item.mode {
            Mode::ReadOnly => true,
            Mode::Locked | Mode::Unlocked => false,
        },
        None => false,
    }
}

/// Whether the open file of a call that writes was opened in read-only mode.
fn is_open_read_only(item: Option<OpenItem>, function: FileFunction) -> bool
    ensures { result ≡ spec.is_open_read_only (option_map asking.mode_of_item item) function }
{
    match function {
        FileFunction::DeleteFile | FileFunction::RenameFile => false,
        _ => is_read_only_item(item),
    }
}

/// Whether the file is read-only, or was opened so.
fn is_file_read_only(mounted: &Mounted, asked: &Asked) -> bool
    ensures { OnItsDrive mounted.now (λ drive. result ≡ asking.is_read_only_asked drive asked.now) }
{
    if is_open_read_only(asked.item, asked.function) {
        return true;
    }
    is_read_only(mounted, asked.owner, &asked.block.name)
}

/// The name of the file that must not be there.
fn existing_name(block: &ControlBlock, function: FileFunction) -> [u8; 11]
    ensures { result ≡ spec.existing_name block.now function }
{
    match function {
        FileFunction::RenameFile => block.new_name(),
        _ => block.name,
    }
}

/// Whether a file is there that must not be.
fn does_exist(mounted: &Mounted, asked: &Asked) -> bool
    ensures { OnItsDrive mounted.now (λ drive. result ≡ file_is_there drive (record { user = asked.now.caller.user; name = plain (spec.existing_name asked.now.block asked.now.function) })) }
{
    let name = existing_name(&asked.block, asked.function);
    is_there(mounted, asked.caller.user, &name)
}

/// The file that a call is about, by its drive.
pub fn subject_key(asked: &Asked) -> FileKey
    ensures { result ≡ asking.key_asked asked.now }
{
    let name = plain_name(&asked.block.name);
    FileKey {
        drive: asked.drive,
        user: asked.owner,
        name,
    }
}

/// The mode in which an opening or a making asks for its file.
pub fn mode_needed(mounted: &Mounted, asked: &Asked) -> Mode
    ensures { OnItsDrive mounted.now (λ drive. result ≡ asking.mode_needed drive asked.now) }
{
    mode_in(
        mounted,
        asked.caller.user,
        &asked.block,
        &asked.given,
        &asked.caller.password,
        asked.function,
    )
}

/// Why the list of open files refuses an opening or a making, if it does.
fn opening_refusal(mounted: &Mounted, opens: &Opens, asked: &Asked) -> Option<OpenRefused>
    ensures { OnItsDrive mounted.now (λ drive. result ≡ asking.opening_asked drive opens.now asked.now) }
{
    let mode = mode_needed(mounted, asked);
    opens.refusal(asked.caller.process, subject_key(asked), mode)
}

/// Whether two reasons why a file isn't opened are the same.
fn is_same_reason(a: OpenRefused, b: OpenRefused) -> bool
    ensures { result ≡ spec.is_same_reason a b }
{
    match (a, b) {
        (OpenRefused::Incompatible, OpenRefused::Incompatible) => true,
        (OpenRefused::ProcessLimit, OpenRefused::ProcessLimit) => true,
        (OpenRefused::NoRoom, OpenRefused::NoRoom) => true,
        _ => false,
    }
}

/// Whether a file isn't opened, for a reason.
fn is_refused_for(refusal: Option<OpenRefused>, reason: OpenRefused) -> bool
    ensures { result ≡ spec.is_refused_for reason refusal }
{
    match refusal {
        Some(refusal) => is_same_reason(refusal, reason),
        None => false,
    }
}

/// Whether the list of open files refuses an opening or a making for a reason.
fn does_list_refuse(mounted: &Mounted, opens: &Opens, asked: &Asked, reason: OpenRefused) -> bool
    ensures { OnItsDrive mounted.now (λ drive. result ≡ spec.is_refused_for reason (asking.opening_asked drive opens.now asked.now)) }
{
    is_refused_for(opening_refusal(mounted, opens, asked), reason)
}

/// Whether another process has the file open.
fn have_others(opens: &Opens, asked: &Asked) -> bool
    ensures { result ≡ asking.have_others_asked opens.now asked.now }
{
    opens.others(asked.caller.process, subject_key(asked))
}

/// Whether the file is in use: open to another process, or for an opening in a mode that excludes it.
fn is_in_use(mounted: &Mounted, opens: &Opens, asked: &Asked) -> bool
    ensures { OnItsDrive mounted.now (λ drive. result ≡ asking.is_used_asked drive opens.now asked.now) }
{
    match asked.function {
        FileFunction::OpenFile => does_list_refuse(
            mounted,
            opens,
            asked,
            OpenRefused::Incompatible,
        ),
        _ => have_others(opens, asked),
    }
}

/// Whether nothing is found that a call needs.
fn is_not_found(mounted: &Mounted, asked: &Asked) -> bool
    ensures { OnItsDrive mounted.now (λ drive. result ≡ asking.is_missing_asked drive asked.now) }
{
    is_missing(
        mounted,
        asked.owner,
        asked.caller.user,
        &asked.block,
        asked.function,
        asked.item.is_some(),
        asked.is_found,
    )
}

/// Whether a call lacks the password that it needs.
fn has_wrong_password(mounted: &Mounted, asked: &Asked) -> bool
    ensures { OnItsDrive mounted.now (λ drive. result ≡ spec.lacks_password drive (asking.file_asked asked.now) asked.now.function asked.now.given asked.now.caller.password) }
{
    lacks_password(
        mounted,
        asked.owner,
        &asked.block.name,
        asked.function,
        &asked.given,
        &asked.caller.password,
    )
}

/// Whether a drive that a call names is busy.
fn is_busy(opens: &Opens, marks: &Marks, asked: &Asked) -> bool
    ensures { result ≡ in_use.are_busy opens.now marks.now asked.now.caller.process asked.now.function asked.now.caller.drive asked.now.word }
{
    are_busy(
        opens,
        marks,
        asked.caller.process,
        asked.function,
        asked.caller.drive,
        asked.word,
    )
}

/// Whether a refusal applies to a call on a drive that is mounted. (MP/M II Programmer's Guide, "BDOS Error Handling".)
fn applies(mounted: &Mounted, opens: &Opens, marks: &Marks, asked: &Asked, refusal: Refusal) -> bool
    ensures { OnItsDrive mounted.now (λ drive. result ≡ asking.asks drive opens.now marks.now asked.now refusal) }
{
    match refusal {
        Refusal::NotMounted => false,
        Refusal::Ambiguous => has_question(&asked.block, asked.function),
        Refusal::NotOpen | Refusal::NotOpenToLock => asked.item.is_none(),
        Refusal::BeyondFile => is_beyond(asked),
        Refusal::NotFound => is_not_found(mounted, asked),
        Refusal::ProtectedDrive => asked.is_protected,
        Refusal::ReadOnlyFile => is_file_read_only(mounted, asked),
        Refusal::FileExists => does_exist(mounted, asked),
        Refusal::WrongPassword => has_wrong_password(mounted, asked),
        Refusal::InUse => is_in_use(mounted, opens, asked),
        Refusal::FileLimit => does_list_refuse(mounted, opens, asked, OpenRefused::ProcessLimit),
        Refusal::ListFull => does_list_refuse(mounted, opens, asked, OpenRefused::NoRoom),
        Refusal::DirectoryFull => {
            is_directory_full(mounted, asked.owner, &asked.block, asked.function)
        }
        Refusal::Busy => is_busy(opens, marks, asked),
    }
}

/// The first refusal of some that applies.
pub(crate) fn first_refusal(
    mounted: &Mounted,
    opens: &Opens,
    marks: &Marks,
    asked: &Asked,
    refusals: &[Refusal],
) -> Option<Refusal>
    ensures { OnItsDrive mounted.now (λ drive. result ≡ find (asking.asks drive opens.now marks.now asked.now) refusals.now) }
{
    for place in 0..refusals.len() {
        let refusal = refusals[place];
        if applies(mounted, opens, marks, asked, refusal) {
            return Some(refusal);
        }
    }
    None
}

/// Who deletes the files of a call.
fn deleter(asked: &Asked) -> Deleter
    ensures { result ≡ asking.deleter_asked asked.now }
{
    let given = asked.given;
    let default = asked.caller.password;
    Deleter {
        process: asked.caller.process,
        user: asked.caller.user,
        drive: asked.drive,
        given,
        default,
    }
}

/// Why the files of a pattern aren't deleted, if one of them isn't.
fn pattern_refusal(mounted: &Mounted, opens: &Opens, asked: &Asked) -> Option<Refusal>
    ensures { OnItsDrive mounted.now (λ drive. result ≡ spec.deletion_refusal drive opens.now (asking.deleter_asked asked.now) asked.now.block.name) }
{
    deletion_refusal(mounted, opens, &deleter(asked), &asked.block.name)
}

/// The refusal of the files that a call names, of which a deletion alone has any.
pub(crate) fn each_refusal(mounted: &Mounted, opens: &Opens, asked: &Asked) -> Option<Refusal>
    ensures { OnItsDrive mounted.now (λ drive. result ≡ asking.each_asked drive opens.now asked.now) }
{
    match asked.function {
        FileFunction::DeleteFile => pattern_refusal(mounted, opens, asked),
        _ => None,
    }
}
