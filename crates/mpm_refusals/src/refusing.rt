ghost use Rattle.std.specs.Prelude.{◌≡◌, ℕ, List, Option, Some, None, false, slice_index_or, if◌then◌else◌};
ghost use Rattle.std.specs.Option.{option_copied};
ghost use Rattle.mpm_fcb.specs.Blocks.{block_of};
ghost use Rattle.mpm_mount.specs.Drives.{Drive};
ghost use Rattle.mpm_mount.specs.Directories.{Stands};
ghost use Rattle.mpm_mount.specs.Standing.{OnItsDrive};
ghost use Rattle.mpm_file_functions.specs.declared.refusals.Refusal.TheVariants.{Busy};
ghost use Rattle.mpm_refusals.specs.Subjects.{drive_named as named, drive_at, drive_by};
ghost use Rattle.mpm_refusals.specs.Refusals as spec;
ghost use Rattle.mpm_marks.specs.Busy as in_use;
ghost use Rattle.mpm_refusals.specs.Asking as asking;
ghost use Rattle.mpm_refusals.specs.Asking.{called, StandsForDirectory};

use crate::applies::{each_refusal, first_refusal};
use crate::asking::{Asked, ask, block_of_call, word_of_call};
use crate::caller::{Caller, FileCall};
use crate::searches::Searches;
use crate::subjects::drive_named;
use mpm_file_functions::{FileFunction, Refusal, refusals_of};
use mpm_marks::{Marks, Protected, are_busy};
use mpm_mount::Mounted;
use mpm_opens::Opens;

/// Why a call is refused by what it names on a drive that is mounted, if it is.
fn refusal_asked(mounted: &Mounted, opens: &Opens, marks: &Marks, asked: &Asked) -> Option<Refusal>
    ensures { OnItsDrive mounted.now (λ drive. result ≡ asking.refused_asked drive opens.now marks.now asked.now) }
{
    match first_refusal(mounted, opens, marks, asked, refusals_of(asked.function)) {
        Some(refusal) => Some(refusal),
        None => each_refusal(mounted, opens, asked),
    }
}

/// Why a call is refused on a drive that is mounted, if it is.
fn mounted_refusal(
    mounted: &Mounted,
    protected: &Protected,
    opens: &Opens,
    marks: &Marks,
    searches: &Searches,
    file_call: &FileCall<'_>,
) -> Option<Refusal>
    ensures { (image : List ℕ) (drives : List (Option Drive)) (moment : List ℕ)
        → Stands image mounted.now (drive_at (called drives protected.now opens.now marks.now searches.now file_call.now.caller file_call.now.function file_call.now.call.now moment))
        → spec.is_unmounted (called drives protected.now opens.now marks.now searches.now file_call.now.caller file_call.now.function file_call.now.call.now moment) (named (called drives protected.now opens.now marks.now searches.now file_call.now.caller file_call.now.function file_call.now.call.now moment)) ≡ false
        → result ≡ spec.refusal_of (called drives protected.now opens.now marks.now searches.now file_call.now.caller file_call.now.function file_call.now.call.now moment) }
{
    let asked = ask(mounted, protected, opens, searches, file_call);
    refusal_asked(mounted, opens, marks, &asked)
}

/// The refusal of a call on drives that are busy.
fn busy_refusal(busy: bool) -> Option<Refusal>
    ensures { result ≡ (if busy then Some Busy else None) }
{
    if busy { Some(Refusal::Busy) } else { None }
}

/// Why a call that names no drive is refused, if it is.
fn unnamed_refusal(
    opens: &Opens,
    marks: &Marks,
    caller: &Caller,
    function: FileFunction,
    word: u16,
) -> Option<Refusal>
    ensures { result ≡ asking.unnamed_refusal (in_use.are_busy opens.now marks.now caller.now.process function caller.now.drive word) function }
{
    match function {
        FileFunction::ResetDisks | FileFunction::ProtectDisk | FileFunction::ResetDrives => {
            busy_refusal(are_busy(opens, marks, caller.process, function, caller.drive, word))
        }
        FileFunction::SearchNext => Some(Refusal::NotFound),
        _ => None,
    }
}

/// Why a call is refused whose drive isn't mounted, or that names none, if it is.
fn unmounted_refusal(
    opens: &Opens,
    marks: &Marks,
    searches: &Searches,
    file_call: &FileCall<'_>,
) -> Option<Refusal>
    ensures { result ≡ asking.unmounted_refusal
        (drive_by (slice_index_or searches.now file_call.now.caller.process None) file_call.now.caller.drive file_call.now.call.now.word (block_of file_call.now.call.now.fcb) file_call.now.function)
        (asking.unnamed_refusal (in_use.are_busy opens.now marks.now file_call.now.caller.process file_call.now.function file_call.now.caller.drive file_call.now.call.now.word) file_call.now.function) }
{
    let FileCall {
        caller,
        function,
        call,
        ..
    } = *file_call;
    let word = word_of_call(call);
    let block = block_of_call(call);
    let search = searches.get(caller.process);
    match drive_named(search, caller.drive, word, &block, function) {
        Some(_) => Some(Refusal::NotMounted),
        None => unnamed_refusal(opens, marks, &caller, function, word),
    }
}

/// Why a call is refused as a whole, if it is: the first of its refusals that applies. `mounted` is the directory of the drive
/// that it names, or else of its caller's, if that is mounted. (MP/M II Programmer's Guide, "BDOS Error Handling".)
pub fn refusal_of(
    mounted: Option<&Mounted>,
    protected: &Protected,
    opens: &Opens,
    marks: &Marks,
    searches: &Searches,
    file_call: &FileCall<'_>,
) -> Option<Refusal>
    ensures { (image : List ℕ) (drives : List (Option Drive)) (moment : List ℕ)
        → StandsForDirectory image (option_copied mounted.entry) (called drives protected.now opens.now marks.now searches.now file_call.now.caller file_call.now.function file_call.now.call.now moment)
        → result ≡ spec.refusal_of (called drives protected.now opens.now marks.now searches.now file_call.now.caller file_call.now.function file_call.now.call.now moment) }
{
    match mounted {
        Some(mounted) => mounted_refusal(mounted, protected, opens, marks, searches, file_call),
        None => unmounted_refusal(opens, marks, searches, file_call),
    }
}
