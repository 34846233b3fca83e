ghost use Rattle.std.specs.Prelude.{◌≡◌};
ghost use Rattle.mpm_procs.specs.Table.{Lives, call_of};
ghost use Rattle.mpm_system.specs.Sending.{chained as chained_by, framed as framed_with, ended_if_done as end_of, chains as is_chain};

use crate::system::System;
use mpm_base::{Call, FAILURE_CODE, Outcome, Pid, Reply, functions, in_width};
use mpm_procs::Process;

/// The slot of the command line interpreter.
const INTERPRETER: Pid = Pid(0);

/// The user queue control block of the command queue, which is queue 0, so that its pointer is 1.
const COMMAND_QUEUE: [u8; 12] = [1, 0, 0, 0, 0, 0, 0, 0, 0, 0, 0, 0];

/// Where the console stands in a call that is written to the command queue: after the block, and the user and drive.
const CONSOLE: usize = 13;

impl System {
    ghost use Rattle.mpm_system.specs.Whole.{LivesInSystem};
    ghost use Rattle.mpm_system.specs.Calling.{asking, served_by, CallGives};
    ghost use Rattle.mpm_system.specs.Sending.{IsReadyWithin, framed, renamed, passed, passed_after, sent, has_interpreter, sending, chaining, let_in};

    /// Function 150: a process sends a command to the command line interpreter.
    #[inline(never)]
    #[tactic(auto, unfolding(crate::specs::Sending::sending))]
    pub fn send_command(&mut self, p: Pid, reply: &mut Reply) -> Outcome
        requires { IsReadyWithin p self.old }
        ensures { CallGives (served_by (sending (has_interpreter self.old) p self.old.kernel) self.old) self.new result reply.new }
    {
        let call = self.kernel.kept_call(p);
        let console = call.byte(1);
        let message: [u8; 130] = in_width(call.taken());
        if self.residents.interprets(INTERPRETER) && console < self.kernel.consoles() {
            self.send(functions::SEND_CLI_COMMAND, &message, p, reply)
        } else {
            reply.answer(FAILURE_CODE);
            Outcome::Done
        }
    }

    /// Function 47: a process sends a command, and ends.
    #[inline(never)]
    #[tactic(auto, unfolding(crate::specs::Sending::chaining))]
    pub fn chain(&mut self, p: Pid, reply: &mut Reply) -> Outcome
        requires { IsReadyWithin p self.old }
        ensures { CallGives (served_by (chaining (has_interpreter self.old) p self.old.kernel) self.old) self.new result reply.new }
    {
        if self.residents.interprets(INTERPRETER) {
            let message = chained(self.kernel.living(p), self.kernel.kept_call(p).taken());
            ended_if_done(self.send(functions::CHAIN_TO_PROGRAM, &message, p, reply))
        } else {
            reply.answer(0);
            Outcome::Ended
        }
    }

    /// A message goes into the command queue, or waits until it can.
    #[tactic(auto, unfolding(crate::specs::Sending::sent))]
    fn send(&mut self, function: u8, message: &[u8; 130], p: Pid, reply: &mut Reply) -> Outcome
        requires { IsReadyWithin p self.old }
        ensures { CallGives (served_by (sent function message.now p self.old.kernel) self.old) self.new result reply.new }
    {
        self.frame_call(p, message);
        let outcome = self.kernel.call(p, reply);
        self.rename_call(p, function);
        self.pass_after(outcome, reply, p);
        outcome
    }

    /// The interpreter becomes the owner of the console of a command in the step in which that goes in.
    fn pass_after(&mut self, outcome: Outcome, reply: &Reply, p: Pid)
        requires { LivesInSystem p self.old }
        ensures { self.new ≡ record self.old { kernel = passed_after outcome reply.now p self.old.kernel } }
    {
        match outcome {
            Outcome::Done => {
                if reply.hl == 0 {
                    self.pass_console(p);
                }
            }
            Outcome::Held | Outcome::Retry | Outcome::Ended => {}
        }
    }

    /// The call that a process keeps becomes one that writes a message to the command queue.
    fn frame_call(&mut self, p: Pid, message: &[u8; 130])
        requires { Lives self.old.kernel.dispatcher.procs p }
        ensures { self.new ≡ asking p (framed message.now (call_of self.old.kernel.dispatcher.procs p)) self.old }
    {
        frame(self.kernel.call_mut(p), message);
    }

    /// The call that a process keeps gets another function.
    fn rename_call(&mut self, p: Pid, function: u8)
        requires { Lives self.old.kernel.dispatcher.procs p }
        ensures { self.new ≡ record self.old { kernel = renamed function p self.old.kernel } }
    {
        rename(self.kernel.call_mut(p), function);
    }

    /// A command went in: where the process that sent it owns the console of the command, the interpreter becomes the owner.
    fn pass_console(&mut self, p: Pid)
        requires { LivesInSystem p self.old }
        ensures { self.new ≡ record self.old { kernel = passed p self.old.kernel } }
    {
        let console = self.kernel.kept_call(p).byte(CONSOLE);
        if console < self.kernel.consoles() && self.kernel.lives(INTERPRETER) {
            self.kernel.give(console, Some(p), Some(INTERPRETER));
        }
    }

    /// The held call of a process was completed: where it sent a command, that went in.
    pub fn let_in(&mut self, p: Pid)
        requires { LivesInSystem p self.old }
        ensures { self.new ≡ record self.old { kernel = let_in p self.old.kernel } }
    {
        match self.kernel.kept_call(p).function {
            functions::SEND_CLI_COMMAND | functions::CHAIN_TO_PROGRAM => self.pass_console(p),
            _ => {}
        }
    }

    /// Whether a process chains to a program by the call that it keeps.
    pub fn chains(&self, p: Pid) -> bool
        requires { Lives self.now.kernel.dispatcher.procs p }
        ensures { result ≡ is_chain p self.now.kernel }
    {
        self.kernel.kept_call(p).function == functions::CHAIN_TO_PROGRAM
    }
}

/// A call becomes one that writes a message to the command queue.
#[tactic(auto, unfolding(mpm_base::specs::Lists::zeros))]
fn frame(call: &mut Call, message: &[u8; 130])
    ensures { call.new ≡ framed_with message.now call.old }
{
    let word = call.word;
    let dma = call.dma;
    call.begin(functions::WRITE_QUEUE, word, dma);
    call.append(&COMMAND_QUEUE);
    call.append(message);
}

/// A call gets another function.
fn rename(call: &mut Call, function: u8)
    ensures { call.new ≡ record call.old { function = function } }
{
    call.function = function;
}

/// The message of a text to which a process chains: its user, its drive and its console, and the text.
fn chained(process: &Process, text: &[u8]) -> [u8; 130]
    ensures { result ≡ chained_by process.now text.now }
{
    let text: [u8; 128] = in_width(text);
    let mut message = [0; 130];
    message[2..].copy_from_slice(&text);
    message[1] = process.console;
    message[0] = 16 * (process.user % 16) + process.drive % 16;
    message
}

/// A process that chains ends once its command went in.
fn ended_if_done(outcome: Outcome) -> Outcome
    ensures { result ≡ end_of outcome }
{
    match outcome {
        Outcome::Done | Outcome::Ended => Outcome::Ended,
        Outcome::Held => Outcome::Held,
        Outcome::Retry => Outcome::Retry,
    }
}
