ghost use Rattle.std.specs.Prelude.{option_map};
ghost use Rattle.mpm_refusals.specs.Asking.{found_as};
ghost use Rattle.mpm_refusals.specs.Filing.{HaveUsers};
ghost use Rattle.mpm_bdos.specs.Replying.{IsRepliedOn};
ghost use Rattle.mpm_bdos.specs.Serving.{IsCaller};
ghost use Rattle.mpm_bdos.specs.Standing.{entered_at};
ghost use Rattle.mpm_bdos.specs.ReplyParts.{MayAnswerMounted, AnswersMounted};

use crate::answering::answer;
use crate::ending::moved_by;
use crate::leaving::{grant, leave};
use crate::replies::told_found;
use mpm_base::Reply;
use mpm_files::Work;
use mpm_marks::Protected;
use mpm_mount::Mounted;
use mpm_opens::{FileKey, Opens};
use mpm_refusals::{Asked, FileCall, FoundEntry, Searches, ask, found, keep_found, subject_key};

/// A call in service, after its turns, of which its reply is made.
#[derive(Clone, Copy)]
pub(crate) struct Served<'a> {
    /// The call, as it entered.
    pub(crate) file_call: FileCall<'a>,
    /// The drive that it names, from 0, or else its caller's.
    pub(crate) drive: u8,
    /// The work of its job, if it has one.
    pub(crate) work: &'a Option<Work>,
    /// Its caller's open files that it deleted, each at the place of its number.
    pub(crate) deleted: &'a [Option<FileKey>; 64],
}

/// Answers a call on a mounted drive, which isn't refused, and does what it leaves of open files and of locks.
pub(crate) fn answer_mounted(
    reply: &mut Reply,
    mounted: &Mounted,
    opens: &mut Opens,
    asked: &Asked,
    found: &Option<FoundEntry>,
    served: &Served<'_>,
)
    requires { MayAnswerMounted opens.old asked.now }
    ensures { AnswersMounted mounted.now opens.old opens.new asked.now served.now.work.now served.now.deleted.now (option_map (found_as mounted.now.kind) found.now) served.now.file_call.call.now reply.new }
{
    opens.recall_sound();
    leave(
        opens,
        asked,
        subject_key(asked),
        moved_by(served.work),
        served.deleted,
    );
    let granted = grant(opens, mounted, asked, served.work);
    let told = told_found(mounted, found);
    let multi = asked.caller.multi;
    answer(
        reply,
        &granted,
        multi,
        mounted,
        served.work,
        &told,
        served.file_call.call,
    );
}

/// Answers a call on a mounted drive, which isn't refused, after its turns: with what it leaves of open files and of its caller's
/// search.
pub(crate) fn reply_mounted(
    reply: &mut Reply,
    mounted: &Mounted,
    protected: &Protected,
    opens: &mut Opens,
    searches: &mut Searches,
    served: &Served<'_>,
)
    requires { IsCaller served.now.file_call.caller }
    ensures users { HaveUsers opens.old → HaveUsers opens.new }
    ensures replied { IsRepliedOn mounted.now (λ drives marks moment. entered_at served.now.file_call moment protected.now opens.old searches.old drives marks) served.now.work.now served.now.deleted.now reply.new opens.new searches.new }
{
    let asked = ask(mounted, protected, opens, searches, &served.file_call);
    let caller = asked.caller;
    let search = searches.get(caller.process);
    let found = found(mounted, caller.user, &asked.block, search, asked.function);
    keep_found(searches, &asked, mounted.kind(), &found);
    answer_mounted(reply, mounted, opens, &asked, &found, served);
}
