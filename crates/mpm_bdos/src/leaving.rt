ghost use Rattle.std.specs.Prelude.{◌≡◌, ◌≤◌, None, IfSome, if◌then◌else◌};
ghost use Rattle.mpm_dirent.specs.declared.limits.TheConstants.{LAST_RECORD};
ghost use Rattle.mpm_opens.specs.Opens.{closed, process_of};
ghost use Rattle.mpm_fcb.specs.Names.{has_f5};
ghost use Rattle.mpm_fcb.specs.Positions.{random_record};
ghost use Rattle.mpm_file_functions.specs.declared.functions.FileFunction.TheVariants as functions;
ghost use Rattle.mpm_bdos.specs.Leaving as spec;
ghost use Rattle.mpm_bdos.specs.Records.{MayLock};
ghost use Rattle.mpm_refusals.specs.Asking as asking;
ghost use Rattle.mpm_bdos.specs.ReplyParts.{OpensFile, MayLockBy, LocksByItem, OpensAsked, MayEndRecords, EndsRecords, GrantsCall};

use crate::ending::ended;
use crate::records::lock_records;
use crate::releasing::give_back_deleted;
use mpm_base::Pid;
use mpm_dirent::LAST_RECORD;
use mpm_fcb::ControlBlock;
use mpm_file_entries::{Granted, OpenedAs};
use mpm_file_functions::{Ended, FileFunction};
use mpm_files::Work;
use mpm_locks::{close_file, note_written, unlock_records};
use mpm_mount::Mounted;
use mpm_opens::{FileKey, Mode, Opens};
use mpm_refusals::{Asked, OpenItem, first_record, mode_needed, subject_key};

/// Opens a file for a process.
fn open_file(opens: &mut Opens, p: Pid, file: FileKey, mode: Mode) -> Option<OpenedAs>
    ensures { OpensFile opens.old opens.new p file mode result }
{
    match opens.add(p, file, mode) {
        Ok(number) => Some(OpenedAs { mode, number }),
        Err(_) => None,
    }
}

/// Closes a process's file once, unless F5' asks to leave it open.
fn close_unless_f5(opens: &mut Opens, p: Pid, file: FileKey, block: &ControlBlock)
    ensures { opens.new ≡ (if has_f5 block.now then opens.old else (closed opens.old p file)) }
{
    if !block.has_f5() {
        close_file(opens, p, file);
    }
}

/// No record is locked, and nothing keeps one from it.
fn nothing_locked() -> Ended
    ensures { result ≡ record { moved = 0; end = None } }
{
    Ended {
        moved: 0,
        end: None,
    }
}

/// Locks so many records from one on by way of an open file, if that is open in unlocked mode.
fn lock_by(opens: &mut Opens, mounted: &Mounted, item: &OpenItem, first: u32, count: u8) -> Ended
    requires { MayLock opens.old item.now.number item.now.file first count }
    ensures { LocksByItem mounted.now opens.old opens.new (λ drive. spec.locked_by drive opens.old (process_of opens.old item.now.number) item.now.file first count item.now.mode) result }
{
    match item.mode {
        Mode::Unlocked => lock_records(opens, mounted, item.number, item.file, first, count),
        Mode::Locked | Mode::ReadOnly => nothing_locked(),
    }
}

/// Locks the records of a call, from one on, by way of the open file that it names, if its caller has that. (MP/M II Programmer's
/// Guide, "Function 42: Lock Record".)
fn lock(opens: &mut Opens, mounted: &Mounted, asked: &Asked, first: u32) -> Ended
    requires { MayLockBy opens.old asked.now.caller.process asked.now.item first asked.now.caller.multi }
    ensures { LocksByItem mounted.now opens.old opens.new (λ drive. spec.locked_where drive opens.old asked.now.caller.process first asked.now.caller.multi asked.now.item) result }
{
    match asked.item {
        Some(item) => lock_by(opens, mounted, &item, first, asked.caller.multi),
        None => nothing_locked(),
    }
}

/// Frees the records of a call, from one on, by way of the open file that it names, if its caller has that. (MP/M II Programmer's
/// Guide, "Function 43: Unlock Record".)
fn unlock(opens: &mut Opens, asked: &Asked, first: u32)
    requires item { IfSome asked.now.item (λ item. asking.IsOwnItem opens.old asked.now.caller.process item) }
    requires first { first ≤ 16777216 }
    ensures { opens.new ≡ spec.unlocked_where opens.old asked.now.caller.process first asked.now.caller.multi asked.now.item }
{
    match asked.item {
        Some(item) => unlock_records(opens, item.number, first, asked.caller.multi),
        None => {}
    }
}

/// What a call on a mounted drive leaves of open files, unless it opens one or locks records.
#[tactic(auto, unfolding(crate::specs::Leaving::left_by))]
pub(crate) fn leave(
    opens: &mut Opens,
    asked: &Asked,
    file: FileKey,
    moved: u8,
    deleted: &[Option<FileKey>; 64],
)
    requires item { asked.now.function ≡ functions.UnlockRecord → IfSome asked.now.item (λ item. asking.IsOwnItem opens.old asked.now.caller.process item) }
    ensures { opens.new ≡ spec.left_by opens.old asked.now file moved deleted.now asked.now.function }
{
    let p = asked.caller.process;
    match asked.function {
        FileFunction::CloseFile => close_unless_f5(opens, p, file, &asked.block),
        FileFunction::DeleteFile => give_back_deleted(opens, p, deleted),
        FileFunction::RenameFile => opens.leave_file(p, file),
        FileFunction::WriteSequential | FileFunction::WriteRandom | FileFunction::TestAndWrite =>
            note_written(opens, p, file, moved),
        FileFunction::UnlockRecord => {
            let first = first_record(&asked.block, asked.function);
            unlock(opens, asked, first);
        }
        _ => {}
    }
}

/// What a call on a mounted drive opens or makes, in the mode in which it asks for its file.
#[tactic(auto, unfolding(crate::specs::Leaving::opened_by, crate::specs::Leaving::opened_for))]
fn open_asked(opens: &mut Opens, mounted: &Mounted, asked: &Asked) -> Option<OpenedAs>
    ensures { OpensAsked mounted.now opens.old opens.new asked.now result }
{
    match asked.function {
        FileFunction::OpenFile | FileFunction::MakeFile => open_file(
            opens,
            asked.caller.process,
            subject_key(asked),
            mode_needed(mounted, asked),
        ),
        _ => None,
    }
}

/// The first of the records that a call locks, at most the last that a file may have.
fn first_locked(block: &ControlBlock) -> u32
    ensures low { result ≤ LAST_RECORD }
    ensures first { random_record block.now ≤ LAST_RECORD → result ≡ random_record block.now }
{
    block.random_record().min(LAST_RECORD)
}

/// What the records of a call on a mounted drive come to: those that it locks are locked.
#[tactic(auto, unfolding(crate::specs::Leaving::locked_for, crate::specs::Leaving::ended_for))]
fn end_records(opens: &mut Opens, mounted: &Mounted, asked: &Asked, work: &Option<Work>) -> Ended
    requires { MayEndRecords opens.old asked.now }
    ensures { EndsRecords mounted.now opens.old opens.new asked.now work.now result }
{
    match asked.function {
        FileFunction::LockRecord => lock(opens, mounted, asked, first_locked(&asked.block)),
        function => ended(function, asked.caller.multi, work),
    }
}

/// What the reply of a call on a mounted drive goes by, which isn't refused: its file is opened or made, its records are locked.
pub(crate) fn grant(
    opens: &mut Opens,
    mounted: &Mounted,
    asked: &Asked,
    work: &Option<Work>,
) -> Granted
    requires { MayEndRecords opens.old asked.now }
    ensures { GrantsCall mounted.now opens.old opens.new asked.now work.now result }
{
    let ended = end_records(opens, mounted, asked, work);
    let opened = open_asked(opens, mounted, asked);
    Granted {
        function: asked.function,
        block: asked.block,
        owner: asked.owner,
        first: first_record(&asked.block, asked.function),
        ended,
        opened,
    }
}
