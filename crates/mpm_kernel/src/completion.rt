ghost use Rattle.std.specs.Prelude.{◌≡◌};
ghost use Rattle.mpm_kernel.specs.Completion.{completion_of, completion_value as value_of_completion};

use mpm_base::{Call, Reply, functions};
use mpm_queues::BLOCK_SIZE;

/// Answers a held call as it is completed: a read with the message that was put after its user queue control block.
#[tactic(auto, unfolding(crate::specs::Completion::completion_of))]
pub(crate) fn complete(call: &Call, reply: &mut Reply)
    ensures { reply.new ≡ completion_of call.now }
{
    if call.function == functions::READ_QUEUE {
        reply.answer_with(0, call.word(2), call.from(BLOCK_SIZE));
    } else {
        reply.answer(completion_value(call.function));
    }
}

/// What a held call answers as it is completed, by its function.
fn completion_value(function: u8) -> u16
    ensures { result ≡ value_of_completion function }
{
    match function {
        functions::POLL
        | functions::FLAG_WAIT
        | functions::WRITE_QUEUE
        | functions::DELAY
        | functions::SEND_CLI_COMMAND
        | functions::CALL_RESIDENT_SYSTEM_PROCEDURE => 0,
        _ => 0xFFFF,
    }
}
