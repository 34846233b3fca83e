ghost use Rattle.std.specs.Prelude.{◌≡◌, ◌≤◌, drop, length};
ghost use Rattle.mpm_procs.specs.Table.{call_of};
ghost use Rattle.mpm_system.specs.Asking.{MayParse};
ghost use Rattle.mpm_names.specs.Spellings.{parsed};
ghost use Rattle.mpm_system.specs.Parsing.{parse_reply, address_of_next};

use crate::system::System;
use mpm_base::{Call, Outcome, Pid, Reply};
use mpm_command::file_block;
use mpm_names::{BadName, parse_filename};

impl System {
    ghost use Rattle.mpm_system.specs.Calling.{CallGives};
    ghost use Rattle.mpm_system.specs.Parsing.{parsing};

    /// Function 152: parses the file name of which the call gives the address.
    #[inline(never)]
    #[tactic(auto, unfolding(crate::specs::Parsing::parsing))]
    pub fn parse(&mut self, p: Pid, reply: &mut Reply) -> Outcome
        requires { MayParse p self.old }
        ensures { CallGives (parsing (call_of self.old.kernel.dispatcher.procs p) self.old) self.new result reply.new }
    {
        answer_name(self.kernel.kept_call(p), reply);
        Outcome::Done
    }
}

/// Answers a call of function 152, which read two words and a text after them: where that begins with a file name, its file
/// control block goes to the second of them.
fn answer_name(call: &Call, reply: &mut Reply)
    requires { length call.now.bytes ≤ 132 }
    ensures { reply.new ≡ parse_reply call.now (parsed (drop 4 call.now.bytes)) }
{
    match parse_filename(call.from(4)) {
        Ok(name) => reply.answer_with(
            address_of(call.word(0), name.next),
            call.word(2),
            &file_block(&name),
        ),
        Err(BadName) => reply.answer(u16::MAX),
    }
}

/// The address of what follows a name in the text at an address; 0 where nothing does.
fn address_of(address: u16, next: Option<u16>) -> u16
    ensures { result ≡ address_of_next address next }
{
    match next {
        Some(place) => address.wrapping_add(place),
        None => 0,
    }
}
