//! Which event is due at a step: periodic ticks and the events of a script.
use mpm_interrupts::Interrupts;
use mpm_script::{Event, read_script};
use std::test::Fail;

/// Whether a tick is due before an event of the same step, each once.
fn tick_comes_first(interrupts: &mut Interrupts) -> bool {
    interrupts.next_step() == 100
        && interrupts.take_due(99).is_none()
        && interrupts.take_due(100) == Some(Event::Tick)
        && interrupts.take_due(100) == Some(Event::Int { flag: 4 })
        && interrupts.take_due(100).is_none()
        && interrupts.next_step() == 200
}

/// Whether ticks that could not come come one by one.
fn ticks_come_singly(interrupts: &mut Interrupts) -> bool {
    interrupts.take_due(250) == Some(Event::Tick)
        && interrupts.take_due(251) == Some(Event::Tick)
        && interrupts.take_due(252).is_none()
        && interrupts.next_step() == 300
}

#[test]
fn a_tick_is_due_before_an_event_of_the_same_step(rt: HostRuntime) -> Result<(), Fail> {
    let script = read_script(rt.alloc(), b"100 int 4\n")?;
    let mut interrupts = Interrupts::new(100, script);
    let first = tick_comes_first(&mut interrupts);
    assert!(rt; first);
    Ok(())
}

#[test]
fn ticks_that_could_not_come_come_one_by_one(rt: HostRuntime) -> Result<(), Fail> {
    let script = read_script(rt.alloc(), b"")?;
    let mut interrupts = Interrupts::new(100, script);
    let singly = ticks_come_singly(&mut interrupts);
    assert!(rt; singly);
    Ok(())
}
