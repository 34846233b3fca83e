ghost use Rattle.std.specs.Prelude.{◌≡◌, ◌<◌, true, Some, None, is_some, is_none};
ghost use Rattle.mpm_procs.specs.Table.{call_of};
ghost use Rattle.mpm_file_functions.specs.declared.refusals.Extended.{Extended};
ghost use Rattle.mpm_machine.specs.Acting.{LivesInSystem, MayAnswer, Makes};
ghost use Rattle.mpm_machine.specs.FileCalls.{is_of_files as is_file_function, called_next, is_file_number, calls_files as files_called, told_of, answered_or_ended, told_then, error_met, concluded};
ghost use Rattle.mpm_machine.specs.PartCalls.{LivesAtHome, MayLookForCall, FindsFileCaller};

use crate::acting::gate;
use crate::call::end;
use mpm_base::{Pid, Reply, Seg};
use mpm_bdos::{DirectFunction, Extended, FileFunction};
use mpm_gate::Gate;
use mpm_port::{Failed, Sink};
use mpm_render::Render;
use mpm_system::System;

/// The error modes of a process that takes extended errors as answers, and of one that has them displayed too.
const ANSWERS: u8 = 0xFF;

const TELLS_AND_ANSWERS: u8 = 0xFE;

/// The process that makes a file call in the next step, if one does.
#[inline(always)]
#[tactic(auto, using(mpm_kernel::proofs::SoundLaws::runner_lives), unfolding(crate::specs::FileCalls::file_caller))]
pub(crate) fn file_caller(system: &System) -> Option<Pid>
    requires { MayLookForCall system.now }
    ensures { FindsFileCaller system.now result }
{
    match system.kernel.running() {
        Some(p) => {
            if calls_files(system, p) && !system.comes() {
                Some(p)
            } else {
                None
            }
        }
        None => None,
    }
}

/// Whether a process calls a function on files and drives as it goes on.
#[inline(always)]
#[tactic(auto, unfolding(crate::specs::FileCalls::calls_files))]
fn calls_files(system: &System, p: Pid) -> bool
    requires { LivesInSystem p system.now }
    ensures { result ≡ files_called p system.now }
{
    match system.kernel.segment(p) {
        Some(seg) => calls_files_at_gate(system, p, seg),
        None => asks_for_files(system, p),
    }
}

/// Whether a resident calls one as it goes on, by what it fills in.
fn asks_for_files(system: &System, p: Pid) -> bool
    ensures { result ≡ is_file_number (called_next None p system.now) }
{
    match system.residents.function(p) {
        Some(number) => is_of_files(number),
        None => false,
    }
}

/// Whether a process of a segment calls one as it goes on: it does where it stands at the gate of calls. Its register C is asked first, as
/// a look for the gate takes longer.
#[inline(always)]
#[tactic(auto, using(crate::proofs::FileStepLaws::no_file_called))]
fn calls_files_at_gate(system: &System, p: Pid, seg: Seg) -> bool
    requires { LivesAtHome p seg system.now }
    ensures { result ≡ is_file_number (called_next (Some seg) p system.now) }
{
    if !is_of_files(system.kernel.regs(p).c) {
        return false;
    }
    match gate(system, p, seg) {
        Some(Gate::Call) => true,
        Some(Gate::End) => false,
        Some(Gate::Return) => false,
        None => false,
    }
}

/// The file call that a process keeps is concluded: its caller's drive and DMA address change, and it is answered, or its
/// extended error is met.
#[tactic(auto, unfolding(crate::specs::FileCalls::concluded))]
pub(crate) fn conclude_file_call<S: Sink>(
    system: &mut System,
    p: Pid,
    error: Option<Extended>,
    reply: &Reply,
    render: &mut Render,
    sink: &mut S,
) -> Result<(), Failed>
    requires { MayAnswer p system.old }
    ensures { Makes S.written S.faults (concluded (told_of (call_of system.old.kernel.dispatcher.procs p) reply.now error) p system.old) system.new render.old sink.old render.new sink.new result }
{
    system.change_caller(p, error.is_none());
    match error {
        None => {
            system.put_file_reply(p, reply);
            Ok(())
        }
        Some(error) => meet_error(system, p, error, reply, render, sink),
    }
}

/// An extended error is met by the error mode of its process.
#[tactic(auto, unfolding(crate::specs::FileCalls::error_met))]
fn meet_error<S: Sink>(
    system: &mut System,
    p: Pid,
    error: Extended,
    reply: &Reply,
    render: &mut Render,
    sink: &mut S,
) -> Result<(), Failed>
    requires { MayAnswer p system.old }
    ensures { Makes S.written S.faults (error_met error reply.now p system.old) system.new render.old sink.old render.new sink.new result }
{
    let mode = system.kernel.living(p).error_mode;
    if mode == ANSWERS {
        system.put_file_reply(p, reply);
        return Ok(());
    }
    tell_and_meet(
        system,
        p,
        error,
        mode == TELLS_AND_ANSWERS,
        reply,
        render,
        sink,
    )
}

/// An extended error is displayed, and then it is answered, or ends its process.
#[tactic(auto, unfolding(crate::specs::FileCalls::told_then))]
fn tell_and_meet<S: Sink>(
    system: &mut System,
    p: Pid,
    error: Extended,
    answers: bool,
    reply: &Reply,
    render: &mut Render,
    sink: &mut S,
) -> Result<(), Failed>
    requires { MayAnswer p system.old }
    ensures { Makes S.written S.faults (told_then answers error reply.now p system.old) system.new render.old sink.old render.new sink.new result }
{
    system.tell_error(p, error, render, sink)?;
    answer_or_end(system, p, answers, reply);
    Ok(())
}

/// A file call whose extended error was displayed is answered, or ends its process.
fn answer_or_end(system: &mut System, p: Pid, answers: bool, reply: &Reply)
    requires { MayAnswer p system.old }
    ensures { system.new ≡ answered_or_ended answers reply.now p system.old }
{
    if answers {
        system.put_file_reply(p, reply);
    } else {
        end(system, p);
    }
}

/// Whether a number is that of a call on files and drives.
#[inline(always)]
#[tactic(auto, unfolding(crate::specs::FileCalls::is_of_files))]
fn is_of_files(number: u8) -> bool
    ensures { result ≡ is_file_function number }
{
    FileFunction::of(number).is_some() || DirectFunction::of(number).is_some()
}
