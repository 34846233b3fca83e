//! Scenes of disk service: who enters and leaves, and what each step of the disk is.
ghost use Rattle.std.specs.Prelude.{◌<◌};
ghost use Rattle.mpm_service.specs.Disk.{HasBegun};

use mpm_base::Pid;
use mpm_service::{Service, Turn};
use std::test::Fail;

/// A line of a scene: what happens, or what is seen.
#[derive(Clone, Copy)]
enum Line {
    /// A process of this priority waits.
    Enters(u8, u8),
    /// A process leaves, and waited or not.
    Leaves(u8, bool),
    /// A step in which nobody is served and nobody waits.
    Idle,
    /// So many steps that aren't the last of a turn.
    Pass(u32),
    /// The last step of a turn of this process that isn't its last turn.
    Work(u8),
    /// The last step of its last turn.
    Last(u8),
    /// A step in which this process enters service, for so many turns.
    Starts(u8, u32),
    /// Who is served.
    Serves(Option<u8>),
    /// What the next step will be.
    Ahead(Turn),
    /// How many steps will only pass; none where any number will.
    Quiet(Option<u32>),
    /// So many steps at once that only pass.
    Skip(u32),
    /// The service ends, and so many turns were left to it.
    Finish(u32),
}

/// Puts a process into the list; false where it waits or is served.
#[tactic(auto, unfolding(mpm_service::specs::Disk::entered, mpm_service::specs::Disk::left_by, mpm_service::specs::Disk::served_process))]
fn enter(service: &mut Service, p: u8, priority: u8) -> bool
    requires steps { 0 < service.old.turn_steps }
    requires begun { HasBegun service.old }
    ensures steps { 0 < service.new.turn_steps }
    ensures begun { HasBegun service.new }
{
    if p >= 32 {
        return false;
    }
    if let Some(other) = service.serving() {
        if other.0 == p {
            return false;
        }
    }
    if service.leave(Pid(p)) {
        return false;
    }
    service.enter(Pid(p), priority);
    true
}

/// One step of the disk; a call that enters service takes so many turns.
fn step(service: &mut Service, turns: u32) -> Turn
    requires some { 0 < turns }
    requires steps { 0 < service.old.turn_steps }
    requires begun { HasBegun service.old }
    ensures steps { 0 < service.new.turn_steps }
    ensures begun { HasBegun service.new }
{
    let turn = service.turn();
    if let Turn::Starts { p: _ } = turn {
        service.begin(turns);
    }
    turn
}

/// So many steps pass that aren't the last of a turn.
fn pass(service: &mut Service, steps: u32) -> bool
    requires steps { 0 < service.old.turn_steps }
    requires begun { HasBegun service.old }
    ensures steps { 0 < service.new.turn_steps }
    ensures begun { HasBegun service.new }
{
    for _step in 0..steps {
        if step(service, 1) != Turn::Passing {
            return false;
        }
    }
    true
}

/// So many steps pass at once; false, and none does, where one of them would be more.
fn skip(service: &mut Service, steps: u32) -> bool
    requires steps { 0 < service.old.turn_steps }
    requires begun { HasBegun service.old }
    ensures steps { 0 < service.new.turn_steps }
    ensures begun { HasBegun service.new }
{
    let most = service.quiet().unwrap_or(steps);
    if steps > most {
        return false;
    }
    service.pass(steps);
    true
}

/// The number of the process that is served.
fn served(service: &Service) -> Option<u8> {
    match service.serving() {
        Some(p) => Some(p.0),
        None => None,
    }
}

/// Plays a line, and says whether what is seen is as it says.
#[tactic(auto, unfolding(mpm_service::specs::Disk::left_by))]
fn passes(service: &mut Service, line: Line) -> bool
    requires steps { 0 < service.old.turn_steps }
    requires begun { HasBegun service.old }
    ensures steps { 0 < service.new.turn_steps }
    ensures begun { HasBegun service.new }
{
    match line {
        Line::Enters(p, priority) => enter(service, p, priority),
        Line::Leaves(p, waited) => p < 32 && service.leave(Pid(p)) == waited,
        Line::Idle => step(service, 1) == Turn::Idle,
        Line::Pass(steps) => pass(service, steps),
        Line::Work(slot) => match step(service, 1) {
            Turn::Work { p, last } => p.0 == slot && !last,
            _ => false,
        },
        Line::Last(slot) => match step(service, 1) {
            Turn::Work { p, last } => p.0 == slot && last,
            _ => false,
        },
        Line::Starts(slot, turns) => match step(service, turns.max(1)) {
            Turn::Starts { p } => p.0 == slot,
            _ => false,
        },
        Line::Serves(slot) => served(service) == slot,
        Line::Ahead(turn) => service.ahead() == turn,
        Line::Quiet(steps) => service.quiet() == steps,
        Line::Skip(steps) => skip(service, steps),
        Line::Finish(turns) => service.finish() == turns,
    }
}

/// Plays a scene with turns of so many steps.
fn play(turn_steps: u32, lines: &[Line]) -> Result<(), Fail>
    requires { 0 < turn_steps }
{
    let mut service = Service::new(turn_steps);
    for (number, line) in lines.iter().enumerate() {
        if !passes(&mut service, *line) {
            return Err(Fail::new(format_args!("line {number} of the scene, from 0")));
        }
    }
    Ok(())
}

/// Three calls, of which one is of better priority, and one more of the same as the first.
#[test]
fn calls_are_served_in_ready_order(_rt: HostRuntime) -> Result<(), Fail> {
    play(
        1,
        &[
            Line::Idle,
            Line::Serves(None),
            Line::Enters(4, 200),
            Line::Enters(9, 200),
            Line::Enters(0, 199),
            Line::Serves(None),
            Line::Starts(0, 1),
            Line::Enters(7, 200),
            Line::Serves(Some(0)),
            Line::Last(0),
            Line::Serves(None),
            Line::Starts(4, 2),
            Line::Work(4),
            Line::Last(4),
            Line::Starts(9, 1),
            Line::Last(9),
            Line::Starts(7, 1),
            Line::Last(7),
            Line::Idle,
        ],
    )
}

/// A write of sixteen records takes sixteen turns of twenty steps: it is done 320 steps after the one in which it entered.
#[test]
fn a_turn_ends_in_its_last_step(_rt: HostRuntime) -> Result<(), Fail> {
    play(
        20,
        &[
            Line::Enters(3, 200),
            Line::Starts(3, 16),
            Line::Pass(19),
            Line::Work(3),
            Line::Enters(31, 0),
            Line::Pass(19),
            Line::Work(3),
            Line::Leaves(31, true),
            Line::Enters(30, 0),
            Line::Pass(19),
            Line::Work(3),
            Line::Pass(10),
            Line::Serves(Some(3)),
            Line::Pass(9),
            Line::Work(3),
            Line::Pass(19),
            Line::Work(3),
            Line::Pass(19),
            Line::Work(3),
            Line::Pass(19),
            Line::Work(3),
            Line::Pass(19),
            Line::Work(3),
            Line::Pass(19),
            Line::Work(3),
            Line::Pass(19),
            Line::Work(3),
            Line::Pass(19),
            Line::Work(3),
            Line::Pass(19),
            Line::Work(3),
            Line::Pass(19),
            Line::Work(3),
            Line::Pass(19),
            Line::Work(3),
            Line::Pass(19),
            Line::Work(3),
            Line::Pass(19),
            Line::Last(3),
            Line::Starts(30, 1),
        ],
    )
}

/// Who waits may leave; who is served, and who does neither, may not.
#[test]
fn only_who_waits_leaves(_rt: HostRuntime) -> Result<(), Fail> {
    play(
        2,
        &[
            Line::Enters(1, 10),
            Line::Enters(2, 10),
            Line::Enters(5, 10),
            Line::Starts(1, 1),
            Line::Leaves(1, false),
            Line::Leaves(2, true),
            Line::Leaves(2, false),
            Line::Leaves(8, false),
            Line::Pass(1),
            Line::Last(1),
            Line::Enters(1, 10),
            Line::Starts(5, 1),
            Line::Pass(1),
            Line::Last(5),
            Line::Starts(1, 1),
        ],
    )
}

/// The steps of a turn before its last may pass at once, in parts too, and none more: a call of three turns of twenty steps.
#[test]
fn steps_pass_at_once_up_to_a_turns_end(_rt: HostRuntime) -> Result<(), Fail> {
    play(
        20,
        &[
            Line::Ahead(Turn::Idle),
            Line::Quiet(None),
            Line::Skip(1_000_000),
            Line::Enters(6, 200),
            Line::Ahead(Turn::Starts { p: Pid(6) }),
            Line::Quiet(Some(0)),
            Line::Starts(6, 3),
            Line::Ahead(Turn::Passing),
            Line::Quiet(Some(19)),
            Line::Skip(19),
            Line::Quiet(Some(0)),
            Line::Ahead(Turn::Work {
                p: Pid(6),
                last: false,
            }),
            Line::Work(6),
            Line::Pass(4),
            Line::Skip(5),
            Line::Enters(2, 10),
            Line::Quiet(Some(10)),
            Line::Skip(10),
            Line::Work(6),
            Line::Skip(0),
            Line::Skip(18),
            Line::Ahead(Turn::Passing),
            Line::Pass(1),
            Line::Ahead(Turn::Work {
                p: Pid(6),
                last: true,
            }),
            Line::Serves(Some(6)),
            Line::Last(6),
            Line::Ahead(Turn::Starts { p: Pid(2) }),
            Line::Quiet(Some(0)),
        ],
    )
}

/// A service ends in the midst of a turn: that turn is left to it too, and who waits enters after it.
#[test]
fn a_service_ends_in_the_midst_of_a_turn(_rt: HostRuntime) -> Result<(), Fail> {
    play(
        20,
        &[
            Line::Finish(0),
            Line::Enters(3, 200),
            Line::Finish(0),
            Line::Starts(3, 16),
            Line::Skip(19),
            Line::Work(3),
            Line::Enters(5, 200),
            Line::Skip(7),
            Line::Finish(15),
            Line::Serves(None),
            Line::Finish(0),
            Line::Starts(5, 1),
            Line::Skip(19),
            Line::Last(5),
            Line::Idle,
        ],
    )
}

/// Where turns have no steps nobody waits, and each step is idle.
#[test]
#[tactic(auto, unfolding(mpm_service::specs::Disk::no_service, mpm_service::specs::Disk::turned, mpm_service::specs::Disk::turn_answer))]
fn without_turns_all_steps_are_idle(rt: HostRuntime) {
    let mut service = Service::new(0);
    assert_eq!(rt; service.turn(), Turn::Idle);
    assert_eq!(rt; service.turn(), Turn::Idle);
}
