//! Who runs after a step, and which calls were completed.
use mpm_base::{Name8, Outcome, Pid, Reply, Seg, functions};
use mpm_clock::Woken;
use mpm_dispatcher::{Dispatcher, READY};
use mpm_procs::{NewProcess, NoSlot};
use std::test::Fail;

/// A process begins, of that priority, in the lowest free slot, and is ready.
fn begin(dispatcher: &mut Dispatcher, priority: u8) -> Result<Pid, NoSlot> {
    let p = dispatcher.procs.add(NewProcess {
        name: Name8(*b"PROGRAM "),
        priority,
        console: 0,
        seg: Some(Seg(0)),
        pc: 0x0100,
        sp: 0xBEFE,
        dma: 0x0080,
        user: 3,
        drive: 1,
    })?;
    come_to(dispatcher, p, READY);
    Ok(p)
}

/// A process comes to a list, if it lives and the list is there.
fn come_to(dispatcher: &mut Dispatcher, p: Pid, list: u8) {
    if dispatcher.procs.lives(p) && list < 96 {
        dispatcher.move_to(p, list);
    }
}

/// Processes of priorities 200, 100 and 200 begin, the second of which runs.
fn three(dispatcher: &mut Dispatcher) -> Result<(), NoSlot> {
    let _first = begin(dispatcher, 200)?;
    let _second = begin(dispatcher, 100)?;
    let _third = begin(dispatcher, 200)?;
    dispatcher.running = dispatcher.first_ready();
    Ok(())
}

/// Who runs after a step, which was an instruction or not.
#[tactic(auto, using(mpm_dispatcher::proofs::ReadyLaws::only_runner, mpm_dispatcher::proofs::ReadyLaws::no_runner))]
fn next(dispatcher: &mut Dispatcher, instruction: bool) -> Option<Pid> {
    match dispatcher.running {
        Some(p) => {
            if !dispatcher.procs.lives(p) {
                return None;
            }
            dispatcher.pick(instruction);
            dispatcher.running
        }
        None => {
            dispatcher.pick(instruction);
            dispatcher.running
        }
    }
}

/// A process is put after its equals, if it is ready.
fn turn(dispatcher: &mut Dispatcher, p: Pid) {
    if dispatcher.procs.lives(p) && dispatcher.lists.list_of(p) == Some(READY) {
        dispatcher.rotate(p);
    }
}

/// A ready process gets another priority.
fn set_priority(dispatcher: &mut Dispatcher, p: Pid, priority: u8) {
    if dispatcher.procs.lives(p) && dispatcher.lists.list_of(p) == Some(READY) {
        dispatcher.set_priority(p, priority);
    }
}

/// A process has its interrupts on or off, if it lives.
fn set_interrupts(dispatcher: &mut Dispatcher, p: Pid, on: bool) {
    if dispatcher.procs.lives(p) {
        let process = dispatcher.procs.get_mut(p);
        process.regs.iff1 = on;
    }
}

/// The call of a process begins, if it lives.
fn call(dispatcher: &mut Dispatcher, p: Pid, function: u8) {
    if dispatcher.procs.lives(p) {
        dispatcher.procs.call_mut(p).begin(function, 0, 0);
    }
}

/// Whether the best priority runs, and equals take turns.
fn take_turns(dispatcher: &mut Dispatcher) -> bool {
    let best = three(dispatcher).is_ok() && next(dispatcher, false) == Some(Pid(1));
    dispatcher.unlist(Pid(1));
    let first = next(dispatcher, false) == Some(Pid(0));
    turn(dispatcher, Pid(0));
    best && first && next(dispatcher, false) == Some(Pid(2))
}

#[test]
fn the_best_priority_runs_and_equals_take_turns(rt: HostRuntime) -> Result<(), Fail> {
    let mut dispatcher = Dispatcher::new(rt.alloc())?;
    let taken = take_turns(&mut dispatcher);
    assert!(rt; taken);
    Ok(())
}

/// Whether a process that has interrupts off keeps the processor.
fn keeps_the_processor(dispatcher: &mut Dispatcher) -> bool {
    let begun = three(dispatcher).is_ok();
    set_interrupts(dispatcher, Pid(1), false);
    begun
        && begin(dispatcher, 50) == Ok(Pid(3))
        && next(dispatcher, true) == Some(Pid(1))
        && next(dispatcher, false) == Some(Pid(3))
}

#[test]
fn who_has_interrupts_off_keeps_the_processor(rt: HostRuntime) -> Result<(), Fail> {
    let mut dispatcher = Dispatcher::new(rt.alloc())?;
    let kept = keeps_the_processor(&mut dispatcher);
    assert!(rt; kept);
    Ok(())
}

/// Whether a new priority puts a process after its equals.
fn goes_behind(dispatcher: &mut Dispatcher) -> bool {
    let begun = three(dispatcher).is_ok();
    set_priority(dispatcher, Pid(1), 200);
    let first = next(dispatcher, false) == Some(Pid(0));
    dispatcher.unlist(Pid(0));
    dispatcher.unlist(Pid(2));
    begun && first && next(dispatcher, false) == Some(Pid(1))
}

#[test]
fn a_new_priority_puts_behind_its_equals(rt: HostRuntime) -> Result<(), Fail> {
    let mut dispatcher = Dispatcher::new(rt.alloc())?;
    let behind = goes_behind(&mut dispatcher);
    assert!(rt; behind);
    Ok(())
}

/// Whether a call that is held, and one that is tried again, let another process run.
fn lets_run(dispatcher: &mut Dispatcher, reply: &mut Reply) -> bool {
    let begun = three(dispatcher).is_ok();
    come_to(dispatcher, Pid(1), 7);
    let held = dispatcher.hold(Pid(1), reply) == Outcome::Held && dispatcher.running.is_none();
    let first = next(dispatcher, true) == Some(Pid(0));
    let again = dispatcher.retry(Pid(0), reply) == Outcome::Retry;
    begun && held && first && again && next(dispatcher, true) == Some(Pid(2))
}

#[test]
fn a_call_that_is_held_lets_another_run(rt: HostRuntime) -> Result<(), Fail> {
    let mut dispatcher = Dispatcher::new(rt.alloc())?;
    let mut reply = Reply::new();
    let run = lets_run(&mut dispatcher, &mut reply);
    assert!(rt; run);
    Ok(())
}

/// Whether calls are handed out as they were completed.
fn are_handed_out(dispatcher: &mut Dispatcher) -> bool {
    let begun = three(dispatcher).is_ok();
    call(dispatcher, Pid(2), functions::DELAY);
    call(dispatcher, Pid(0), functions::READ_QUEUE);
    let mut woken = Woken::new();
    woken.push(Pid(2));
    woken.push(Pid(0));
    dispatcher.complete(woken);
    begun
        && dispatcher.completed.has_some()
        && dispatcher.completed.take() == Some(Pid(2))
        && dispatcher.completed.take() == Some(Pid(0))
        && dispatcher.completed.take().is_none()
        && !dispatcher.completed.has_some()
}

#[test]
fn calls_are_handed_out_as_they_were_completed(rt: HostRuntime) -> Result<(), Fail> {
    let mut dispatcher = Dispatcher::new(rt.alloc())?;
    let handed_out = are_handed_out(&mut dispatcher);
    assert!(rt; handed_out);
    Ok(())
}
