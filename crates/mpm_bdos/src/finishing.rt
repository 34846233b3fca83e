ghost use Rattle.std.specs.Prelude.{◌≡◌, ◌≤◌, ◌<◌, ℕ, true, List, Option, None, IsSome, length};
ghost use Rattle.std.specs.Option.{option_copied};
ghost use Rattle.mpm_dirent.specs.declared.limits.TheConstants.{LAST_POSITION};
ghost use Rattle.mpm_fcb.specs.Blocks.{block_of};
ghost use Rattle.mpm_fcb.specs.Positions.{sequential_record};
ghost use Rattle.mpm_file_functions.specs.declared.refusals.Refusal.{Refusal as Refused};
ghost use Rattle.mpm_refusals.specs.Filing.{Situation, HaveUsers};
ghost use Rattle.mpm_bdos.specs.Finishing as spec;
ghost use Rattle.mpm_bdos.specs.Jobs.{call_turns};
ghost use Rattle.mpm_refusals.specs.Refusals as refusals;
ghost use Rattle.mpm_bdos.specs.Replying as replying;
ghost use Rattle.mpm_directories.specs.Places.{directory_at};
ghost use Rattle.mpm_bdos.specs.Held.{IsMountedFor};
ghost use Rattle.mpm_bdos.specs.Serving.{IsCaller, Serves};
ghost use Rattle.mpm_bdos.specs.Standing.{entered_at};
ghost use Rattle.mpm_bdos.specs.ReplyParts.{RefusesCall, RepliesOnDrives};

use crate::answering::dma_of_call;
use crate::bdos::Bdos;
use crate::directories::Directories;
use crate::replying::{Served, reply_mounted};
use crate::service::Service;
use mpm_base::{Call, Reply};
use mpm_file_functions::{Extended, FileFunction, Refusal};
use mpm_marks::{Marks, Protected, leave_drives, mark_drives, protect_drives};
use mpm_mount::Mounted;
use mpm_opens::Opens;
use mpm_refusals::{FileCall, Searches, block_of_call, word_of_call};

/// Whether a call is one on drives, which names none.
fn is_on_drives(function: FileFunction) -> bool
    ensures { result ≡ replying.is_on_drives function }
{
    match function {
        FileFunction::ResetDisks
        | FileFunction::ProtectDisk
        | FileFunction::ResetDrives
        | FileFunction::AccessDrives
        | FileFunction::FreeDrives
        | FileFunction::FlushBuffers => true,
        _ => false,
    }
}

/// Answers a call that is refused, on a drive.
fn refuse(reply: &mut Reply, refusal: Refusal, drive: u8) -> Option<Extended>
    ensures { RefusesCall refusal drive reply.new result }
{
    let answered = refusal.answer();
    reply.answer(answered.value());
    answered.extended(drive)
}

/// Says what is so of a call's file control block: its sequential position is one that a file can have.
fn recall_position(call: &Call)
    ensures size { length call.now.fcb ≡ 36 }
    ensures low { sequential_record (block_of call.now.fcb) ≤ LAST_POSITION }
{
    let block = block_of_call(call);
    block.sequential_record();
}

/// Answers a call on drives that isn't refused, with what it leaves of marks, of open files and of drives that are protected from
/// writing.
fn reply_on_drives(
    reply: &mut Reply,
    protected: &mut Protected,
    opens: &mut Opens,
    marks: &mut Marks,
    is_mounted: bool,
    file_call: &FileCall<'_>,
)
    requires { is_mounted ≡ true → file_call.now.caller.drive < 16 }
    ensures { RepliesOnDrives file_call.now is_mounted reply.new protected.old protected.new opens.old opens.new marks.old marks.new }
{
    let FileCall {
        caller,
        function,
        call,
        ..
    } = *file_call;
    let word = word_of_call(call);
    reply.answer_with(0, dma_of_call(call), &[]);
    protect_drives(protected, caller.drive, is_mounted, word, function);
    leave_drives(opens, caller.process, word, function);
    mark_drives(marks, caller.process, word, function);
}

/// Answers a call on the drive that it names, which is mounted.
fn reply_on(
    reply: &mut Reply,
    mounted: Option<&Mounted>,
    protected: &Protected,
    opens: &mut Opens,
    searches: &mut Searches,
    served: &Served<'_>,
)
    requires caller { IsCaller served.now.file_call.caller }
    requires drive { IsSome (option_copied mounted) }
    ensures users { HaveUsers opens.old → HaveUsers opens.new }
    ensures replied { replying.IsRepliedWhere (option_copied mounted.entry) (λ drives marks moment. entered_at served.now.file_call moment protected.now opens.old searches.old drives marks) served.now.work.now served.now.deleted.now reply.new opens.new searches.new }
{
    match mounted {
        Some(mounted) => reply_mounted(reply, mounted, protected, opens, searches, served),
        None => unreachable!(),
    }
}

/// Answers a call that isn't refused, by what is kept of it.
fn reply_granted(
    reply: &mut Reply,
    mounted: &Directories,
    protected: &mut Protected,
    opens: &mut Opens,
    marks: &mut Marks,
    searches: &mut Searches,
    served: &Served<'_>,
)
    requires { spec.MayReplyGranted mounted.now opens.old served.now }
    ensures users { HaveUsers opens.new }
    ensures finished { (images : ℕ → List ℕ) (s : Situation) (moment : List ℕ) (refusal : Option Refused)
        → Serves images (spec.serving mounted.now protected.old opens.old marks.old searches.old (spec.service_of served.now moment refusal)) s (call_turns s) → refusals.refusal_of s ≡ None → spec.IsFinished s reply.new protected.new opens.new marks.new searches.new }
{
    recall_position(served.file_call.call);
    if is_on_drives(served.file_call.function) {
        reply_on_drives(
            reply,
            protected,
            opens,
            marks,
            mounted.has(served.file_call.caller.drive),
            &served.file_call,
        );
    } else {
        reply_on(
            reply,
            mounted.get(served.drive),
            protected,
            opens,
            searches,
            served,
        );
    }
}

/// Answers a call in service, after its turns.
fn reply_service(
    service: &Service,
    reply: &mut Reply,
    mounted: &Directories,
    protected: &mut Protected,
    opens: &mut Opens,
    marks: &mut Marks,
    searches: &mut Searches,
) -> Option<Extended>
    requires users { HaveUsers opens.old }
    requires granted { IsMountedFor (directory_at mounted.now service.now.drive) service.now }
    ensures users { HaveUsers opens.new }
    ensures comes { spec.ComesToAfterTurns (spec.serving mounted.now protected.old opens.old marks.old searches.old service.now) (spec.serving mounted.now protected.new opens.new marks.new searches.new service.now) reply.new result }
{
    match service.refusal {
        Some(refusal) => refuse(reply, refusal, service.drive),
        None => {
            let served = Served {
                file_call: FileCall {
                    caller: service.caller,
                    function: service.function,
                    call: &service.call,
                    moment: service.moment,
                },
                drive: service.drive,
                work: &service.work,
                deleted: &service.deleted,
            };
            reply_granted(reply, mounted, protected, opens, marks, searches, &served);
            None
        }
    }
}

impl Bdos {
    ghost use Rattle.std.specs.Prelude.{IsSome};
    ghost use Rattle.mpm_bdos.specs.WholeCalls.{RepliesInService};

    /// Answers the call in service, after its turns, with its extended error, if it has one; then none is in service. (MP/M II
    /// Programmer's Guide, "BDOS Function Calls", "BDOS Error Handling".)
    pub fn reply(&mut self, reply: &mut Reply) -> Option<Extended>
        requires { IsSome self.old.service }
        ensures { RepliesInService self.old self.new reply.new result }
    {
        match self.service.get() {
            Some(service) => {
                let extended = reply_service(
                    service,
                    reply,
                    &self.mounted,
                    &mut self.protected,
                    &mut self.opens,
                    &mut self.marks,
                    &mut self.searches,
                );
                self.service.leave();
                extended
            }
            None => unreachable!(),
        }
    }
}
