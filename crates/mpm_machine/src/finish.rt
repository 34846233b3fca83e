ghost use Rattle.std.specs.Prelude.{◌≡◌};
ghost use Rattle.mpm_procs.specs.Table.{process_in};
ghost use Rattle.mpm_system.specs.Whole.{IsWhole};
ghost use Rattle.mpm_machine.specs.Acting.{MayAnswerAll};
ghost use Rattle.mpm_machine.specs.Finishing.{finished, all_finished, command_let_in, finished_or_ended, all_answered, HandsOut, MayFinish};
ghost use Rattle.mpm_machine.specs.PartCalls.{MayFinishAll, MayFinishEach, AnswersHeld};

use crate::call::{end, fulfil};
use mpm_base::{Pid, Reply};
use mpm_system::System;

/// The held calls that a step completed are answered: mostly there are none. A command that was held goes in with the first
/// of them.
#[inline(always)]
pub(crate) fn answer_all(system: &mut System, reply: &mut Reply)
    requires { MayAnswerAll system.old }
    ensures { AnswersHeld (all_answered system.old) 65 system.old system.new }
{
    if system.kernel.has_completed() {
        answer_each(system, reply);
    }
}

/// The held calls that a step completed are answered: the first, and then the others.
#[cold]
#[inline(never)]
fn answer_each(system: &mut System, reply: &mut Reply)
    requires { MayAnswerAll system.old }
    ensures { AnswersHeld (all_answered system.old) 65 system.old system.new }
{
    if let Some(p) = next_completed(system, reply) {
        finish_first(system, p, reply);
        finish_all(system, reply);
    }
}

/// The held call that was completed first: a command goes in with it, and it is answered, unless its process chained by it.
fn finish_first(system: &mut System, p: Pid, reply: &mut Reply)
    requires { MayFinish p reply.old system.old }
    ensures { system.new ≡ finished_or_ended p (command_let_in p system.old) }
{
    system.let_in(p);
    if system.chains(p) {
        end(system, p);
    } else {
        finish(system, p, reply);
    }
}

/// The held calls that were completed are answered: mostly there are none.
#[inline(always)]
pub(crate) fn finish_all(system: &mut System, reply: &mut Reply)
    requires { MayFinishAll system.old }
    ensures { AnswersHeld (all_finished system.old) 64 system.old system.new }
{
    if system.kernel.has_completed() {
        finish_each(system, reply);
    }
}

/// The held calls that were completed are answered, in order: each reply is placed, and its record joins the others.
#[inline(never)]
fn finish_each(system: &mut System, reply: &mut Reply)
    requires { MayFinishEach system.old }
    ensures { system.new ≡ all_finished system.old }
{
    while let Some(p) = next_completed(system, reply) {
        finish(system, p, reply);
    }
}

/// Hands out the next process whose held call was completed, with its reply.
#[tactic(auto, using(crate::proofs::WholeStepLaws::whole_dequeued, crate::proofs::FinishLaws::dequeued_nobody, crate::proofs::FinishLaws::dequeued_lives, crate::proofs::FinishLaws::dequeued_reply))]
fn next_completed(system: &mut System, reply: &mut Reply) -> Option<Pid>
    requires { IsWhole system.old }
    ensures { HandsOut system.old system.new reply.new result }
{
    system.kernel.completed(reply)
}

/// The held call of a process is completed, with its reply. A resident takes the answer.
fn finish(system: &mut System, p: Pid, reply: &mut Reply)
    requires { MayFinish p reply.old system.old }
    ensures { system.new ≡ finished (process_in system.old.kernel.dispatcher.procs p).seg p system.old }
{
    match system.kernel.segment(p) {
        Some(seg) => fulfil(system, p, seg, reply),
        None => system.take_answer(p, reply),
    }
}
