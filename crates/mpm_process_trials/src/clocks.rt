//! The clock, the delays that its ticks end, and dates and times in packed decimal.
ghost use Rattle.std.specs.Prelude.{◌≡◌, ◌<◌, ◌≤◌, length};
ghost use Rattle.mpm_clock.specs.Times.{IsTime};

use mpm_base::{Call, Pid};
use mpm_clock::{Clock, Moment, moment_in, packed, stamp};
use std::test::Fail;

/// A moment.
fn moment(date: u16, hour: u8, minute: u8, second: u8) -> Moment
    ensures { result ≡ record { date = date; hour = hour; minute = minute; second = second } }
{
    Moment {
        date,
        hour,
        minute,
        second,
    }
}

/// The clock ticks so often; how many are woken.
fn ticks(clock: &mut Clock, count: usize) -> usize {
    let mut woken = 0usize;
    for _tick in 0..count {
        woken = woken.saturating_add(clock.tick().as_slice().len());
    }
    woken
}

/// Whether so many ticks lead from one moment to another.
fn leads(from: Moment, count: usize, to: Moment) -> bool
    requires { IsTime from }
{
    let mut clock = Clock::new(from.date, from.hour, from.minute, from.second);
    let _woken = ticks(&mut clock, count);
    clock.now() == to
}

/// Whether sixty ticks are a second, and the last date stays at midnight.
fn tells_the_time() -> bool {
    leads(moment(7, 8, 59, 59), 59, moment(7, 8, 59, 59))
        && leads(moment(7, 8, 59, 59), 60, moment(7, 9, 0, 0))
        && leads(moment(65_534, 23, 59, 59), 60, moment(65_535, 0, 0, 0))
        && leads(moment(65_535, 23, 59, 59), 60, moment(65_535, 0, 0, 0))
}

/// Whether a clock that is set begins a second.
fn begins_a_second() -> bool {
    let mut clock = Clock::new(1, 0, 0, 0);
    let _woken = ticks(&mut clock, 59);
    clock.set(moment(300, 12, 30, 0));
    let _woken = ticks(&mut clock, 59);
    let same = clock.now() == moment(300, 12, 30, 0);
    let _woken = ticks(&mut clock, 1);
    same && clock.now() == moment(300, 12, 30, 1)
}

#[test]
fn sixty_ticks_are_a_second(rt: HostRuntime) -> Result<(), Fail> {
    let told = tells_the_time();
    let begun = begins_a_second();
    assert!(rt; told && begun);
    Ok(())
}

/// Two processes wait for so many ticks, the first of them first.
#[tactic(auto, using(mpm_clock::proofs::DelayLaws::delays_none, mpm_clock::proofs::DelayLaws::delays_more_other), unfolding(mpm_clock::specs::Times::new_clock, mpm_clock::specs::Times::delayed))]
fn two_wait(first: u16, second: u16) -> Clock
    requires first { 0 < first }
    requires second { 0 < second }
{
    let mut clock = Clock::new(1, 0, 0, 0);
    clock.delay(Pid(9), first);
    clock.delay(Pid(2), second);
    clock
}

/// Whether the next tick wakes just these processes, in order.
fn wakes(clock: &mut Clock, order: &[Pid]) -> bool {
    let woken = clock.tick();
    woken.as_slice() == order
}

/// Whether delays that end in one tick end in the order of their beginning, and each has its own end.
fn end_in_order() -> bool {
    let mut together = two_wait(3, 3);
    let mut apart = two_wait(2, 1);
    ticks(&mut together, 2) == 0
        && wakes(&mut together, &[Pid(9), Pid(2)])
        && ticks(&mut together, 100) == 0
        && wakes(&mut apart, &[Pid(2)])
        && wakes(&mut apart, &[Pid(9)])
}

/// Whether a process that leaves isn't woken.
fn leaves() -> bool {
    let mut clock = two_wait(1, 1);
    clock.leave(Pid(9));
    wakes(&mut clock, &[Pid(2)])
}

#[test]
fn delays_end_with_their_ticks(rt: HostRuntime) -> Result<(), Fail> {
    let ended = end_in_order();
    let left = leaves();
    assert!(rt; ended && left);
    Ok(())
}

/// The moment that a call names which read these bytes.
fn named(bytes: &[u8]) -> Option<Moment>
    requires { length bytes.now ≤ 4 }
{
    let mut call = Call::new();
    call.append(bytes);
    moment_in(&call)
}

/// Whether moments are named in packed decimal, and are stamped so.
fn are_packed() -> bool {
    let digits = packed(59) == 0x59 && packed(7) == 0x07;
    let moments = named(&[0x2C, 1, 0x23, 0x59]) == Some(moment(300, 23, 59, 0))
        && named(&[0x2C, 1, 0x25, 0x00]).is_none()
        && named(&[0x2C, 1, 0x12, 0x60]).is_none()
        && named(&[0x2C, 1, 0x12, 0x6A]).is_none()
        && named(&[0x2C, 1, 0x6A, 0x00]).is_none()
        && named(&[0x2C, 1, 0x12, 0x1A]).is_none();
    let stamps = stamp(moment(1, 23, 59, 0)) == [1, 0, 0x23, 0x59]
        && stamp(moment(0x1234, 0, 10, 59)) == [0x34, 0x12, 0, 0x10];
    digits && moments && stamps
}

#[test]
fn moments_are_in_packed_decimal(rt: HostRuntime) -> Result<(), Fail> {
    assert!(rt; are_packed());
    Ok(())
}
