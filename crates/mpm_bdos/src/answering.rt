ghost use Rattle.std.specs.Prelude.{◌≡◌, ◌≤◌, true, None};
ghost use Rattle.mpm_mount.specs.Drives.{free_records};
ghost use Rattle.mpm_mount.specs.Files.{where_there};
ghost use Rattle.mpm_fcb.specs.Blocks.{bytes_of};
ghost use Rattle.mpm_fcb.specs.Positions.{three_bytes};
ghost use Rattle.mpm_bdos.specs.Ending as ending;
ghost use Rattle.mpm_file_entries.specs.Granting as granting;
ghost use Rattle.mpm_file_functions.specs.Ends.{done_by};
ghost use Rattle.mpm_bdos.specs.Replies as spec;
ghost use Rattle.mpm_mount.specs.Standing.{OnItsDrive};
ghost use Rattle.mpm_directories.specs.Direct as directly;
ghost use Rattle.mpm_bdos.specs.ReplyParts.{AnswersRecords, MayAnswerGranted};
ghost use Rattle.mpm_file_entries.specs.Limits.{IsMultiCount};

use crate::replies::read_bytes;
use mpm_base::{Call, Reply};
use mpm_fcb::ControlBlock;
use mpm_file_entries::{Granted, free_bytes, reply_block, reply_value};
use mpm_file_functions::{FileFunction, done_by as records_done};
use mpm_files::Work;
use mpm_mount::Mounted;

/// Answers a value, and as many records as it says are done of those that a job has read.
fn answer_read(reply: &mut Reply, value: u16, at: u16, multi: u8, work: &Work)
    requires { multi ≤ 16 }
    ensures { AnswersRecords (ending.IsRead (done_by multi value) work.now) value at reply.new }
{
    reply.answer_with(value, at, read_bytes(work, records_done(multi, value)));
}

/// Answers a value, and the records that a call has read; without a job no record is there.
fn answer_records(reply: &mut Reply, value: u16, at: u16, multi: u8, work: &Option<Work>)
    requires { multi ≤ 16 }
    ensures { AnswersRecords (ending.HasRead (done_by multi value) work.now) value at reply.new }
{
    match work {
        Some(work) => answer_read(reply, value, at, multi, work),
        None => reply.answer_with(value, at, &[]),
    }
}

/// Answers a value, and how many records there is room for on a drive.
fn answer_free(reply: &mut Reply, value: u16, at: u16, mounted: &Mounted)
    ensures all { OnItsDrive mounted.now (λ drive. reply.new ≡ spec.answering_at value at (three_bytes (free_records drive))) }
    ensures none { reply.new.fcb ≡ None }
{
    reply.answer_with(value, at, &free_bytes(mounted));
}

/// Answers a value, and the bytes of the entry that a search found, if it found one.
fn answer_found(reply: &mut Reply, value: u16, at: u16, told: &Option<[u8; 128]>)
    ensures { reply.new ≡ spec.answering_at value at (where_there told.now (λ bytes. bytes)) }
{
    match told {
        Some(bytes) => reply.answer_with(value, at, bytes),
        None => reply.answer_with(value, at, &[]),
    }
}

/// Answers the value of a call that isn't refused, and the bytes to place at the DMA address; `told` has those of the entry that a
/// search found.
#[tactic(auto, unfolding(crate::specs::Replies::bytes_by))]
fn answer_bytes(
    reply: &mut Reply,
    granted: &Granted,
    multi: u8,
    mounted: &Mounted,
    work: &Option<Work>,
    told: &Option<[u8; 128]>,
    at: u16,
)
    requires { IsMultiCount multi }
    ensures all { spec.IsAnswered mounted.now granted.now multi work.now told.now (λ drive records found. reply.new ≡ spec.answering_at (granting.value_by drive granted.now granted.now.function) at (spec.bytes_by drive records found granted.now.function)) }
    ensures none { reply.new.fcb ≡ None }
{
    let value = reply_value(granted, multi, mounted);
    match granted.function {
        FileFunction::ReadSequential | FileFunction::ReadRandom => {
            answer_records(reply, value, at, multi, work);
        }
        FileFunction::SearchFirst | FileFunction::SearchNext => {
            answer_found(reply, value, at, told);
        }
        FileFunction::FreeSpace => answer_free(reply, value, at, mounted),
        _ => reply.answer_with(value, at, &[]),
    }
}

/// Places a file control block where it changes.
fn place_block(reply: &mut Reply, old: &[u8; 36], block: &ControlBlock)
    requires { reply.old.fcb ≡ None }
    ensures { reply.new ≡ record reply.old { fcb = directly.where_changed old.now (bytes_of block.now) } }
{
    let bytes = block.write();
    if bytes != *old {
        reply.has_fcb = true;
        reply.fcb = bytes;
    }
}

/// The file control block that a call gave.
fn fcb_of_call(call: &Call) -> &[u8; 36]
    ensures { result.now ≡ call.now.fcb }
{
    &call.fcb
}

/// The DMA address of a call.
pub(crate) fn dma_of_call(call: &Call) -> u16
    ensures { result ≡ call.now.dma }
{
    call.dma
}

/// Answers a call that isn't refused, by what it goes by: with its caller's multi-sector count, and the entry that it found.
pub(crate) fn answer(
    reply: &mut Reply,
    granted: &Granted,
    multi: u8,
    mounted: &Mounted,
    work: &Option<Work>,
    told: &Option<[u8; 128]>,
    call: &Call,
)
    requires { MayAnswerGranted granted.now multi }
    ensures { (granting.is_moving granted.now.function ≡ true → granting.IsPlaced granted.now)
        → spec.IsAnswered mounted.now granted.now multi work.now told.now (λ drive records found. reply.new ≡ spec.answer_by drive granted.now records found call.now.fcb call.now.dma) }
{
    answer_bytes(
        reply,
        granted,
        multi,
        mounted,
        work,
        told,
        dma_of_call(call),
    );
    place_block(reply, fcb_of_call(call), &reply_block(granted, mounted));
}
