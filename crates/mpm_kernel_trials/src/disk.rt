//! File calls at the disk, beside processes that run: who waits, who is served, and who is ready again.
use mpm_kernel_scenes::disk::{Line, play};
use std::test::Fail;

/// Who waits for the disk neither runs nor becomes ready by a tick until its call is over; others run meanwhile.
#[test]
fn others_run_while_a_call_is_served(rt: HostRuntime) -> Result<(), Fail> {
    play(
        rt.alloc(),
        &[
            Line::Begin(210),
            Line::Next(Some(0)),
            Line::Wait,
            Line::Next(Some(1)),
            Line::Served(None),
            Line::Start(0, 2),
            Line::Served(Some(0)),
            Line::Tick,
            Line::Next(Some(1)),
            Line::Pass(19),
            Line::Work(0),
            Line::Next(Some(1)),
            Line::PassAtOnce(19),
            Line::Next(Some(1)),
            Line::Over(0),
            Line::Served(None),
            Line::Next(Some(0)),
            Line::Idle,
        ],
    )
}

/// Calls are served in the order of priorities, and the service of one may end before its turns.
#[test]
fn the_better_priority_is_served_first(rt: HostRuntime) -> Result<(), Fail> {
    play(
        rt.alloc(),
        &[
            Line::Begin(200),
            Line::Begin(199),
            Line::Next(Some(2)),
            Line::Wait,
            Line::Next(Some(0)),
            Line::Wait,
            Line::Next(Some(1)),
            Line::Wait,
            Line::Next(None),
            Line::Start(2, 1),
            Line::Pass(19),
            Line::Over(2),
            Line::Next(Some(2)),
            Line::Wait,
            Line::Next(None),
            Line::Start(2, 5),
            Line::PassAtOnce(19),
            Line::Work(2),
            Line::PassAtOnce(7),
            Line::Finish(2, 4),
            Line::Next(Some(2)),
            Line::Start(0, 1),
            Line::Served(Some(0)),
        ],
    )
}

/// Who ends while it waits is never served, and who ends while it is served leaves the disk; a process in that slot has no call there.
#[test]
fn who_ends_has_no_call_at_the_disk(rt: HostRuntime) -> Result<(), Fail> {
    play(
        rt.alloc(),
        &[
            Line::Begin(200),
            Line::Begin(200),
            Line::Next(Some(0)),
            Line::Wait,
            Line::Next(Some(1)),
            Line::Wait,
            Line::Start(0, 4),
            Line::End(1),
            Line::Lives(1, false),
            Line::Served(Some(0)),
            Line::Finish(0, 4),
            Line::Idle,
            Line::Begin(199),
            Line::Next(Some(1)),
            Line::Wait,
            Line::Next(Some(2)),
            Line::Start(1, 3),
            Line::End(1),
            Line::Served(None),
            Line::Idle,
            Line::Begin(199),
            Line::Next(Some(1)),
        ],
    )
}
