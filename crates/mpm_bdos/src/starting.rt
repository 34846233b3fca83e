ghost use Rattle.std.specs.Prelude.{◌≡◌, ◌&&◌, Some, is_some, IsSome, IfSome, option_and_then, unwrap_or};
ghost use Rattle.std.specs.Option.{option_copied};
ghost use Rattle.mpm_opens.specs.Items.{file_named};
ghost use Rattle.mpm_opens.specs.Opens.{item_of};
ghost use Rattle.mpm_bdos.specs.Changes as changes;
ghost use Rattle.mpm_file_functions.specs.Functions.{function_of};
ghost use Rattle.mpm_files.specs.Finding.{HasFewRecords};
ghost use Rattle.mpm_bdos.specs.Serving.{CallsUpon};
ghost use Rattle.mpm_bdos.specs.Standing.{entered_at_own_moment};
ghost use Rattle.mpm_bdos.specs.Starting as spec;
ghost use Rattle.mpm_bdos.specs.ReplyParts.{IsFirstPosition, LooksUpCall};
ghost use Rattle.mpm_bdos.specs.WholeCalls.{EntersOnDrive, EntersOnDrives};

use crate::bdos::Bdos;
use crate::directories::Directories;
use crate::planning::{About, job_by};
use crate::releasing::{Deletion, deleted};
use crate::service::Service;
use mpm_base::{Call, Pid};
use mpm_clock::{Moment, stamp};
use mpm_dirent::{LAST_POSITION, plain_name};
use mpm_fcb::ControlBlock;
use mpm_file_functions::{FileFunction, Refusal};
use mpm_files::{Job, Work, plan, turns};
use mpm_marks::{Marks, Protected};
use mpm_mount::Mounted;
use mpm_opens::{FileKey, Opens};
use mpm_procs::Process;
use mpm_refusals::{
    Caller, FileCall, Searches, ask, block_of_call, drive_of_call, item_number, refusal_of,
    word_of_call,
};

/// The first of a call's records, or the last position that a block can have, where it is past that.
pub(crate) fn first_position(block: &ControlBlock, function: FileFunction) -> u32
    ensures { IsFirstPosition block.now function result }
{
    let sequential = block.sequential_record();
    match function {
        FileFunction::ReadSequential | FileFunction::WriteSequential => sequential,
        _ => block.random_record().min(LAST_POSITION),
    }
}

/// Whether a record was written by way of an open file of a process, on a drive and of a name; not where that isn't so.
fn was_written(opens: &Opens, p: Pid, number: u8, drive: u8, name: &[u8; 11]) -> bool
    ensures { result ≡ (is_some (file_named opens.now.items p number drive name.now) && (item_of opens.now number).has_written) }
{
    match opens.named(p, number, drive, name) {
        Some(_) => opens.has_written(number),
        None => false,
    }
}

/// Whether a record was written by way of the open file that a call names, if it names one.
fn has_written(opens: &Opens, p: Pid, number: Option<u8>, drive: u8, name: &[u8; 11]) -> bool
    ensures { result ≡ (is_some (option_and_then (λ n. file_named opens.now.items p n drive name.now) number) && (item_of opens.now (unwrap_or number 0)).has_written) }
{
    match number {
        Some(number) => was_written(opens, p, number, drive, name),
        None => false,
    }
}

/// Looks up that of a call of which its job is made: by its block, the drive that it names, the user of its file and the number of
/// its open file.
#[tactic(auto, using(crate::proofs::Started::plain_again))]
fn about_of(
    opens: &Opens,
    p: Pid,
    block: &ControlBlock,
    function: FileFunction,
    drive: u8,
    owner: u8,
    number: Option<u8>,
) -> About
    ensures { LooksUpCall opens.now p block.now function drive owner number result }
{
    let name = plain_name(&block.name);
    let first = first_position(block, function);
    let has_written = has_written(opens, p, number, drive, &name);
    About {
        file: FileKey {
            drive,
            user: owner,
            name,
        },
        first,
        has_written,
    }
}

/// Begins a job that suits its drive. Its work stays where it is, as it takes some 4 KiB.
fn begin_job(work: &mut Option<Work>, mounted: &Mounted, job: &Job)
    requires { HasFewRecords job.now }
    ensures { spec.BeginsOn mounted.now (Some job.now) work.new }
{
    *work = Some(plan(mounted, job));
}

/// Begins a job that suits its drive, if there is one.
fn begin(work: &mut Option<Work>, mounted: &Mounted, job: &Option<Job>)
    requires { IfSome job.now HasFewRecords }
    ensures { spec.BeginsOn mounted.now job.now work.new }
{
    match job {
        Some(job) => begin_job(work, mounted, job),
        None => *work = None,
    }
}

/// Begins the job of a call that isn't refused, on a drive that is mounted.
fn begin_call(
    work: &mut Option<Work>,
    mounted: &Mounted,
    protected: &Protected,
    opens: &Opens,
    searches: &Searches,
    file_call: &FileCall<'_>,
)
    requires { CallsUpon file_call.now.caller opens.now }
    ensures { spec.BeginsCallJob mounted.now (entered_at_own_moment file_call.now protected.now opens.now searches.now) work.new }
{
    let FileCall {
        caller,
        function,
        call,
        ..
    } = *file_call;
    let block = block_of_call(call);
    let number = item_number(call.word(0), &block, function);
    let asked = ask(mounted, protected, opens, searches, file_call);
    let about = about_of(
        opens,
        caller.process,
        &block,
        function,
        asked.drive,
        asked.owner,
        number,
    );
    let job = job_by(mounted, opens, file_call, &block, about);
    begin(work, mounted, &job);
}

/// Begins the job of a call, if it has one: of one that isn't refused, on a drive that is mounted.
fn begin_unless(
    work: &mut Option<Work>,
    refusal: Option<Refusal>,
    mounted: Option<&Mounted>,
    protected: &Protected,
    opens: &Opens,
    searches: &Searches,
    file_call: &FileCall<'_>,
)
    requires { CallsUpon file_call.now.caller opens.now }
    ensures { spec.BeginsUnless refusal (option_copied mounted.entry) (entered_at_own_moment file_call.now protected.now opens.now searches.now) work.new }
{
    if refusal.is_some() {
        *work = None;
        return;
    }
    match mounted {
        Some(mounted) => begin_call(work, mounted, protected, opens, searches, file_call),
        None => *work = None,
    }
}

/// How many turns the work of a call takes; one where it has none.
fn turns_of(work: &Option<Work>) -> u32
    ensures { result ≡ spec.turns_where work.now }
{
    match work {
        Some(work) => turns(work),
        None => 1,
    }
}

/// A call with the same content.
fn copied(call: &Call) -> Call
    ensures { result ≡ call.now }
{
    Call {
        function: call.function,
        word: call.word,
        dma: call.dma,
        fcb: call.fcb,
        length: call.length,
        bytes: call.bytes,
    }
}

/// A process's open files that a call deletes on a drive that is mounted.
#[tactic(auto, unfolding(crate::specs::Changes::deleted_by))]
fn deleted_on(
    mounted: &Mounted,
    opens: &Opens,
    p: Pid,
    deletion: &Deletion,
    function: FileFunction,
) -> [Option<FileKey>; 64]
    ensures { spec.IsDeletedOn mounted.now opens.now p deletion.now (λ s. result ≡ changes.deleted_by s function) }
{
    match function {
        FileFunction::DeleteFile => deleted(mounted, opens, p, deletion),
        _ => [None; 64],
    }
}

/// A caller's open files that a call deletes, which isn't refused, by the drive that it names and its block.
fn deleted_of(
    mounted: Option<&Mounted>,
    opens: &Opens,
    caller: &Caller,
    drive: u8,
    block: &ControlBlock,
    function: FileFunction,
) -> [Option<FileKey>; 64]
    ensures { spec.IsDeletedBy (option_copied mounted.entry) opens.now caller.now drive block.now function result }
{
    let deletion = Deletion {
        user: caller.user,
        drive,
        pattern: block.name,
    };
    match mounted {
        Some(mounted) => deleted_on(mounted, opens, caller.process, &deletion, function),
        None => [None; 64],
    }
}

/// What is kept of a call as it enters service: on a drive, by that drive's directory, where it is mounted.
fn entered(
    drive: u8,
    mounted: Option<&Mounted>,
    protected: &Protected,
    opens: &Opens,
    marks: &Marks,
    searches: &Searches,
    file_call: &FileCall<'_>,
) -> Service
    requires { CallsUpon file_call.now.caller opens.now }
    ensures { EntersOnDrive (option_copied mounted.entry) drive file_call.now (λ drives. entered_at_own_moment file_call.now protected.now opens.now searches.now drives marks.now) result }
{
    let FileCall {
        caller,
        function,
        call,
        moment,
    } = *file_call;
    let refusal = refusal_of(mounted, protected, opens, marks, searches, file_call);
    let mut work = None;
    begin_unless(
        &mut work, refusal, mounted, protected, opens, searches, file_call,
    );
    let block = block_of_call(call);
    let deleted = deleted_of(mounted, opens, &caller, drive, &block, function);
    Service {
        caller,
        function,
        drive,
        call: copied(call),
        moment,
        refusal,
        work,
        deleted,
    }
}

/// What is kept of a call as it enters service, over the directories of all drives.
fn entered_among(
    mounted: &Directories,
    protected: &Protected,
    opens: &Opens,
    marks: &Marks,
    searches: &Searches,
    file_call: &FileCall<'_>,
) -> Service
    requires { CallsUpon file_call.now.caller opens.now }
    ensures { EntersOnDrives mounted.now file_call.now (λ drives. entered_at_own_moment file_call.now protected.now opens.now searches.now drives marks.now) result }
{
    let FileCall {
        caller,
        function,
        call,
        ..
    } = *file_call;
    let search = searches.get(caller.process);
    let word = word_of_call(call);
    let block = block_of_call(call);
    let drive = drive_of_call(search, caller.drive, word, &block, function);
    entered(
        drive,
        mounted.get(drive),
        protected,
        opens,
        marks,
        searches,
        file_call,
    )
}

/// A process as it calls.
fn caller_of(p: Pid, process: &Process) -> Caller
    ensures { result ≡ spec.caller_of p process.now }
{
    Caller {
        process: p,
        user: process.user,
        drive: process.drive,
        multi: process.multi,
        password: process.password,
    }
}

/// The function of a call on files and drives.
fn function_of_call(call: &Call) -> FileFunction
    requires { IsSome (function_of call.now.function) }
    ensures { function_of call.now.function ≡ Some result }
{
    match FileFunction::of(call.function) {
        Some(function) => function,
        None => unreachable!(),
    }
}

impl Bdos {
    ghost use Rattle.std.specs.Prelude.{◌≡◌, IsSome};
    ghost use Rattle.mpm_clock.specs.Times.{IsTime};
    ghost use Rattle.mpm_file_functions.specs.Functions.{function_of};
    ghost use Rattle.mpm_bdos.specs.Serving.{IsCaller};
    ghost use Rattle.mpm_bdos.specs.Starting.{caller_of};
    ghost use Rattle.mpm_bdos.specs.WholeCalls.{StartsService};

    /// A process's call on files and drives enters service: how many turns it takes. No device is asked. A call that is still in
    /// service is replaced, and isn't answered. (MP/M II Programmer's Guide, "BDOS Function Calls".)
    pub fn start(&mut self, p: Pid, call: &Call, process: &Process, now: Moment) -> u32
        requires caller { IsCaller (caller_of p process.now) }
        requires file { IsSome (function_of call.now.function) }
        requires time { IsTime now }
        ensures { StartsService self.old self.new p process.now call.now now result }
    {
        let caller = caller_of(p, process);
        let file_call = FileCall {
            caller,
            function: function_of_call(call),
            call,
            moment: stamp(now),
        };
        let service = entered_among(
            &self.mounted,
            &self.protected,
            &self.opens,
            &self.marks,
            &self.searches,
            &file_call,
        );
        let turns = turns_of(&service.work);
        self.service.enter(service);
        turns
    }
}
