ghost use Rattle.std.specs.Prelude.{◌≡◌, ◌≤◌, Some, IfSome};
ghost use Rattle.mpm_dirent.specs.declared.limits.TheConstants.{LAST_POSITION};
ghost use Rattle.mpm_fcb.specs.Names.{new_name_of};
ghost use Rattle.mpm_files.specs.Finding.{HasFewRecords};
ghost use Rattle.mpm_jobs.specs.declared.jobs.JobKind.TheVariants as kinds;
ghost use Rattle.mpm_jobs.specs.Jobs as jobs;
ghost use Rattle.mpm_mount.specs.Standing.{OnItsDrive};
ghost use Rattle.mpm_bdos.specs.Standing.{entered_at_own_moment};
ghost use Rattle.mpm_bdos.specs.Planning as planning;
ghost use Rattle.mpm_bdos.specs.Jobs as spec;
ghost use Rattle.mpm_locks.specs.Locks as locks;
ghost use Rattle.mpm_bdos.specs.ReplyParts.{MayTestRecords, MayPlanJob};

use crate::records::count_tested;
use mpm_base::Call;
use mpm_fcb::ControlBlock;
use mpm_file_entries::{guarding, labelling, made_xfcb, making_job, opening, writing_stamp};
use mpm_file_functions::FileFunction;
use mpm_jobs::{Job, JobKind, job_on, reading_job, renaming_job, testing, writing};
use mpm_locks::count_free;
use mpm_mount::{Mounted, label_byte};
use mpm_opens::{FileKey, Opens};
use mpm_refusals::{Caller, FileCall, makes_xfcb};

/// What was looked up of a call, of which its job is made.
#[derive(Clone, Copy)]
pub(crate) struct About {
    /// Its file.
    pub(crate) file: FileKey,
    /// The first of its records, at most 262,271.
    pub(crate) first: u32,
    /// Whether a record was written by way of its open file.
    pub(crate) has_written: bool,
}

// A job takes some 4 KiB. Each function below answers it as its caller does, and is code of its own, so that one place is enough for
// the jobs of all calls.

/// The job of an opening on a drive.
#[inline(never)]
fn opened(mounted: &Mounted, user: u8, name: &[u8; 11], moment: [u8; 4]) -> Option<Job>
    ensures job { OnItsDrive mounted.now (λ drive. result ≡ Some (planning.opened drive user name.now moment)) }
    ensures few { IfSome result HasFewRecords }
{
    mounted.recall_directory();
    Some(opening(mounted, user, name, moment))
}

/// The job of a call that changes directory entries alone, as a deletion does.
#[inline(never)]
fn changed(kind: JobKind, user: u8, name: &[u8; 11]) -> Option<Job>
    ensures job { result ≡ Some (jobs.job_for kind user name.now) }
    ensures few { IfSome result HasFewRecords }
{
    Some(job_on(kind, user, name))
}

/// The job of a call that reads so many records, 16 at most.
#[inline(never)]
fn read(user: u8, name: &[u8; 11], first: u32, count: u8) -> Option<Job>
    requires first { first ≤ LAST_POSITION }
    requires few { count ≤ 16 }
    ensures job { result ≡ Some (jobs.with_records first count (jobs.job_for kinds.Read user name.now)) }
    ensures few { IfSome result HasFewRecords }
{
    Some(reading_job(user, name, first, count))
}

/// The job of a renaming.
#[inline(never)]
fn renamed(user: u8, block: &ControlBlock) -> Option<Job>
    ensures job { result ≡ Some (jobs.with_new_name (new_name_of block.now) (jobs.job_for kinds.Rename user block.now.name)) }
    ensures few { IfSome result HasFewRecords }
{
    Some(renaming_job(user, &block.name, &block.new_name()))
}

/// The job of a making on a drive.
#[inline(never)]
fn made(
    mounted: &Mounted,
    user: u8,
    block: &ControlBlock,
    call: &Call,
    moment: [u8; 4],
) -> Option<Job>
    ensures job { OnItsDrive mounted.now (λ drive. result ≡ Some (planning.made drive user block.now call.now moment)) }
    ensures few { IfSome result HasFewRecords }
{
    let label = label_byte(mounted);
    let xfcb = made_xfcb(label, block, call, moment);
    Some(making_job(user, &block.name, makes_xfcb(label, block), &xfcb))
}

/// The job of a labelling on a drive.
#[inline(never)]
fn labelled(mounted: &Mounted, user: u8, block: &ControlBlock, call: &Call) -> Option<Job>
    ensures job { OnItsDrive mounted.now (λ drive. result ≡ Some (planning.labelled drive user block.now call.now)) }
    ensures few { IfSome result HasFewRecords }
{
    mounted.recall_directory();
    Some(labelling(mounted, user, block, call))
}

/// The job that makes or changes the XFCB of a file on a drive.
#[inline(never)]
fn guarded(mounted: &Mounted, user: u8, block: &ControlBlock, call: &Call) -> Option<Job>
    ensures job { OnItsDrive mounted.now (λ drive. result ≡ Some (planning.guarded drive user block.now call.now)) }
    ensures few { IfSome result HasFewRecords }
{
    mounted.recall_directory();
    Some(guarding(mounted, user, block, call))
}

/// The job of a call that writes records.
#[inline(never)]
fn written(
    mounted: &Mounted,
    opens: &Opens,
    caller: &Caller,
    name: &[u8; 11],
    bytes: &[u8],
    moment: [u8; 4],
    about: About,
) -> Option<Job>
    requires few { caller.now.multi ≤ 16 }
    requires first { about.first ≤ LAST_POSITION }
    ensures job { OnItsDrive mounted.now (λ drive. result ≡ planning.written drive (locks.count_until (locks.is_locked_off opens.now caller.now.process about.file) about.first caller.now.multi) name.now bytes.now moment about) }
    ensures few { IfSome result HasFewRecords }
{
    let count = count_free(opens, caller.process, about.file, about.first, caller.multi);
    let stamp = writing_stamp(mounted, about.has_written, moment);
    writing(about.file.user, name, about.first, count, stamp, bytes)
}

/// The job of a call that tests and writes records.
#[inline(never)]
fn tested(
    mounted: &Mounted,
    opens: &Opens,
    caller: &Caller,
    name: &[u8; 11],
    bytes: &[u8],
    moment: [u8; 4],
    about: About,
) -> Option<Job>
    requires { MayTestRecords about.file about.first caller.now.multi }
    ensures job { OnItsDrive mounted.now (λ drive. result ≡ planning.tested drive (locks.count_until (spec.is_tested_off drive opens.now caller.now.process about.file) about.first caller.now.multi) caller.now.multi name.now bytes.now moment about) }
    ensures few { IfSome result HasFewRecords }
{
    let count = count_tested(
        mounted,
        opens,
        caller.process,
        about.file,
        about.first,
        caller.multi,
    );
    let stamp = writing_stamp(mounted, about.has_written, moment);
    testing(
        about.file.user,
        name,
        about.first,
        count,
        caller.multi,
        stamp,
        bytes,
    )
}

/// The job of a call that isn't refused, if it has one; of the call's block, and of what was looked up of it.
pub(crate) fn job_by(
    mounted: &Mounted,
    opens: &Opens,
    file_call: &FileCall<'_>,
    block: &ControlBlock,
    about: About,
) -> Option<Job>
    requires { MayPlanJob about file_call.now.caller.multi block.now file_call.now.call.now.fcb }
    ensures job { planning.IsJobOf mounted.now about (λ drives protected marks searches. entered_at_own_moment file_call.now protected opens.now searches drives marks) result }
    ensures few { IfSome result HasFewRecords }
{
    let FileCall {
        caller,
        function,
        call,
        moment,
    } = *file_call;
    let user = about.file.user;
    let name = &block.name;
    let bytes = call.taken();
    match function {
        FileFunction::OpenFile => opened(mounted, user, name, moment),
        FileFunction::DeleteFile => changed(JobKind::Delete, user, name),
        FileFunction::ReadSequential => read(user, name, about.first, caller.multi),
        FileFunction::WriteSequential => {
            written(mounted, opens, &caller, name, bytes, moment, about)
        }
        FileFunction::MakeFile => made(mounted, user, block, call, moment),
        FileFunction::RenameFile => renamed(user, block),
        FileFunction::SetAttributes => changed(JobKind::Attributes, user, name),
        FileFunction::ReadRandom => read(user, name, about.first, caller.multi),
        FileFunction::WriteRandom => {
            written(mounted, opens, &caller, name, bytes, moment, about)
        }
        FileFunction::TestAndWrite => {
            tested(mounted, opens, &caller, name, bytes, moment, about)
        }
        FileFunction::SetLabel => labelled(mounted, user, block, call),
        FileFunction::WriteXfcb => guarded(mounted, user, block, call),
        _ => None,
    }
}
