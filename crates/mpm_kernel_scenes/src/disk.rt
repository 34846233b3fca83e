//! Scenes of file calls at the disk, beside processes that run: who waits, who is served, and who is ready again.
ghost use Rattle.std.specs.Prelude.{◌<◌};
ghost use Rattle.mpm_kernel_scenes.specs.Serving.{ServesScene};

use crate::scene::{begin, kernel_of_one, slot};
use mpm_base::{Pid, Seg};
use mpm_kernel::{Kernel, Turn};
use mpm_script::Event;
use std::alloc::Global;
use std::test::Fail;

/// A line of a scene: what happens, or what is seen. A process is named by its slot.
#[derive(Clone, Copy)]
pub enum Line {
    /// A process of that priority begins.
    Begin(u8),
    /// Who runs after this.
    Next(Option<u8>),
    /// Who runs waits for the disk.
    Wait,
    /// A process ends.
    End(u8),
    /// A tick of the clock.
    Tick,
    /// A step of the disk in which nobody is served and nobody waits.
    Idle,
    /// So many of its steps that aren't the last of a turn.
    Pass(u32),
    /// So many of its steps that aren't the last of a turn, passed at once.
    PassAtOnce(u32),
    /// The last step of a turn of this process that isn't its last turn.
    Work(u8),
    /// The last step of its last turn, after which it is ready again.
    Over(u8),
    /// A step in which this process enters service, for so many turns.
    Start(u8, u32),
    /// The service of this process ends with so many turns left, and it is ready again.
    Finish(u8, u32),
    /// Who is served.
    Served(Option<u8>),
    /// Whether a process lives.
    Lives(u8, bool),
}

/// Another process of that priority begins, where a slot is free.
fn begin_another(kernel: &mut Kernel, priority: u8) -> bool
    requires { ServesScene kernel.old }
    ensures { ServesScene kernel.new }
{
    begin(kernel, b"OTHER   ", priority, Some(Seg(0)))
}

/// Who runs after what was no instruction.
fn next(kernel: &mut Kernel) -> Option<u8>
    requires { ServesScene kernel.old }
    ensures { ServesScene kernel.new }
{
    kernel.pick(false);
    slot(kernel.running())
}

/// Who runs waits for the disk, if anybody does.
fn wait(kernel: &mut Kernel) -> bool
    requires { ServesScene kernel.old }
    ensures { ServesScene kernel.new }
{
    let Some(p) = kernel.running() else {
        return false;
    };
    kernel.wait_for_disk(p);
    true
}

/// A process ends, if it lives.
fn end(kernel: &mut Kernel, p: u8) -> bool
    requires { ServesScene kernel.old }
    ensures { ServesScene kernel.new }
{
    if 32 <= p || !kernel.lives(Pid(p)) {
        return false;
    }
    kernel.discharge(Pid(p));
    true
}

/// The clock ticks.
fn tick(kernel: &mut Kernel) -> bool
    requires { ServesScene kernel.old }
    ensures { ServesScene kernel.new }
{
    kernel.event(Event::Tick);
    true
}

/// A step of the disk: whose call is over is ready again, and one that enters service takes so many turns.
fn turn(kernel: &mut Kernel, turns: u32) -> Turn
    requires some { 0 < turns }
    requires serves { ServesScene kernel.old }
    ensures { ServesScene kernel.new }
{
    let turn = kernel.turn_disk();
    match turn {
        Turn::Work { p, last } => {
            if last {
                kernel.end_disk_call(p);
            }
        }
        Turn::Starts { p: _ } => kernel.begin_disk_call(turns),
        Turn::Idle => {}
        Turn::Passing => {}
    }
    turn
}

/// So many steps of the disk pass that aren't the last of a turn.
fn pass(kernel: &mut Kernel, steps: u32) -> bool
    requires { ServesScene kernel.old }
    ensures { ServesScene kernel.new }
{
    for _step in 0..steps {
        if turn(kernel, 1) != Turn::Passing {
            return false;
        }
    }
    true
}

/// So many of them pass at once, if there are as many.
fn pass_at_once(kernel: &mut Kernel, steps: u32) -> bool
    requires { ServesScene kernel.old }
    ensures { ServesScene kernel.new }
{
    match kernel.disk().quiet() {
        Some(quiet) if steps <= quiet => {
            kernel.pass_disk(steps);
            true
        }
        _ => false,
    }
}

/// The service of a call ends: whose it was, who is ready again, and how many turns were left.
fn finish(kernel: &mut Kernel) -> Option<(u8, u32)>
    requires { ServesScene kernel.old }
    ensures { ServesScene kernel.new }
{
    let Some(p) = kernel.disk().serving() else {
        return None;
    };
    let left = kernel.finish_disk_call();
    kernel.end_disk_call(p);
    Some((p.0, left))
}

/// Whether a step of the disk is the last of a turn of that process, which is its last turn or not.
fn works(kernel: &mut Kernel, number: u8, ends: bool) -> bool
    requires { ServesScene kernel.old }
    ensures { ServesScene kernel.new }
{
    match turn(kernel, 1) {
        Turn::Work { p, last } => p.0 == number && last == ends,
        _ => false,
    }
}

/// Whether that process enters service in a step of the disk, for so many turns.
fn starts(kernel: &mut Kernel, number: u8, turns: u32) -> bool
    requires { ServesScene kernel.old }
    ensures { ServesScene kernel.new }
{
    match turn(kernel, turns.max(1)) {
        Turn::Starts { p } => p.0 == number,
        _ => false,
    }
}

/// A line comes to pass, and all is so that it says.
fn passes(kernel: &mut Kernel, line: Line) -> bool
    requires { ServesScene kernel.old }
    ensures { ServesScene kernel.new }
{
    match line {
        Line::Begin(priority) => begin_another(kernel, priority),
        Line::Next(p) => next(kernel) == p,
        Line::Wait => wait(kernel),
        Line::End(p) => end(kernel, p),
        Line::Tick => tick(kernel),
        Line::Idle => turn(kernel, 1) == Turn::Idle,
        Line::Pass(steps) => pass(kernel, steps),
        Line::PassAtOnce(steps) => pass_at_once(kernel, steps),
        Line::Work(p) => works(kernel, p, false),
        Line::Over(p) => works(kernel, p, true),
        Line::Start(p, turns) => starts(kernel, p, turns),
        Line::Finish(p, left) => finish(kernel) == Some((p, left)),
        Line::Served(p) => slot(kernel.disk().serving()) == p,
        Line::Lives(p, lives) => p < 32 && kernel.lives(Pid(p)) == lives,
    }
}

/// A scene of a kernel in which process 0 of priority 200 runs, and whose disk has turns of twenty steps.
///
/// # Errors
/// The number of the first line that isn't so; or there isn't enough memory for the kernel.
pub fn play(alloc: Global, lines: &[Line]) -> Result<(), Fail> {
    let mut kernel = kernel_of_one(alloc)?;
    kernel.set_disk_turn(20);
    play_on(&mut kernel, lines)
}

/// A scene of such a kernel.
fn play_on(kernel: &mut Kernel, lines: &[Line]) -> Result<(), Fail>
    requires { ServesScene kernel.old }
{
    for (number, line) in lines.iter().enumerate() {
        if !passes(kernel, *line) {
            return Err(Fail::new(format_args!("line {number} of the scene, from 0")));
        }
    }
    Ok(())
}
