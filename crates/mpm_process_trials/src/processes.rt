//! Processes in their slots: who gets which, with what a process begins, and what is changed of it.
use mpm_base::{Name8, Pid, Seg, functions};
use mpm_procs::{NewProcess, NoSlot, Process, Procs};
use std::test::Fail;

/// A program in segment 2.
fn program(name: [u8; 8], console: u8) -> NewProcess {
    NewProcess {
        name: Name8(name),
        priority: 200,
        console,
        seg: Some(Seg(2)),
        pc: 0x4100,
        sp: 0x7EFE,
        dma: 0x4080,
        user: 3,
        drive: 1,
    }
}

/// Whether a new process gets a slot.
fn adds(procs: &mut Procs, slot: u8) -> bool {
    match procs.add(program(*b"PROGRAM ", 0)) {
        Ok(p) => p.0 == slot,
        Err(NoSlot) => false,
    }
}

/// Whether processes take the lowest free slots.
fn take_the_lowest(procs: &mut Procs) -> bool {
    let first = adds(procs, 0) && adds(procs, 1) && adds(procs, 2);
    procs.end(Pid(1));
    let live = procs.lives(Pid(0)) && !procs.lives(Pid(1)) && procs.lives(Pid(2));
    first && live && adds(procs, 1) && adds(procs, 3)
}

#[test]
fn processes_take_the_lowest_free_slots(rt: HostRuntime) -> Result<(), Fail> {
    let mut procs = Procs::new(rt.alloc())?;
    let taken = take_the_lowest(&mut procs);
    assert!(rt; taken);
    Ok(())
}

/// Whether all slots are taken one after the other.
fn take_all(procs: &mut Procs) -> bool {
    for slot in 0..32 {
        if !adds(procs, slot) {
            return false;
        }
    }
    true
}

/// Whether the thirty-third process finds no slot, and one that was given back is found.
fn find_no_slot(procs: &mut Procs) -> bool {
    let all = procs.free_slots() == 32 && take_all(procs) && procs.free_slots() == 0;
    let refused = procs.add(program(*b"PROGRAM ", 0)) == Err(NoSlot);
    procs.end(Pid(31));
    procs.end(Pid(17));
    all && refused && procs.free_slots() == 2 && adds(procs, 17)
}

#[test]
fn the_thirty_third_process_finds_no_slot(rt: HostRuntime) -> Result<(), Fail> {
    let mut procs = Procs::new(rt.alloc())?;
    let found = find_no_slot(&mut procs);
    assert!(rt; found);
    Ok(())
}

/// Whether a process begins with what it was made with.
fn has_what_was_given(process: &Process) -> bool {
    process.name == Name8(*b"PROGRAM ")
        && (process.priority, process.console, process.printer) == (200, 5, 0)
        && process.seg == Some(Seg(2))
        && (process.user, process.drive) == (3, 1)
        && (process.dma, process.multi, process.error_mode) == (0x4080, 1, 0)
}

/// Whether it has its registers and nothing else.
fn has_nothing_else(process: &Process) -> bool {
    let regs = &process.regs;
    (regs.pc, regs.sp) == (0x4100, 0x7EFE)
        && (regs.a, regs.f, regs.ix, regs.h2) == (0, 0, 0, 0)
        && regs.iff1
        && regs.iff2
        && !regs.halted
        && !regs.shadow
        && process.password == [0; 8]
        && !process.abort_due
        && process.procedure.is_none()
        && process.line_length == 0
}

/// Whether a process begins with its stack and nothing else.
fn begins(procs: &mut Procs) -> bool {
    if procs.add(program(*b"PROGRAM ", 5)) != Ok(Pid(0)) || !procs.lives(Pid(0)) {
        return false;
    }
    let process = procs.get(Pid(0));
    has_what_was_given(process) && has_nothing_else(process)
}

#[test]
fn a_process_begins_with_its_stack_and_nothing_else(rt: HostRuntime) -> Result<(), Fail> {
    let mut procs = Procs::new(rt.alloc())?;
    let begun = begins(&mut procs);
    assert!(rt; begun);
    Ok(())
}

/// A process, where it lives, gets a priority and keeps a call.
fn change(procs: &mut Procs, p: Pid, priority: u8) -> bool {
    if !procs.lives(p) {
        return false;
    }
    procs.get_mut(p).priority = priority;
    if !procs.lives(p) {
        return false;
    }
    procs
        .call_mut(p)
        .begin(functions::READ_QUEUE, 0x0200, 0x0080);
    true
}

/// Whether a process lives with a priority, and keeps a call of a function with a word.
fn keeps(procs: &Procs, p: Pid, priority: u8, function: u8, word: u16) -> bool {
    procs.lives(p)
        && procs.get(p).priority == priority
        && procs.call(p).function == function
        && procs.call(p).word == word
}

/// Whether what is lent of a process is changed, and of no other one.
fn is_written_back(procs: &mut Procs) -> bool {
    adds(procs, 0)
        && adds(procs, 1)
        && change(procs, Pid(1), 10)
        && keeps(procs, Pid(0), 200, 0, 0)
        && keeps(procs, Pid(1), 10, functions::READ_QUEUE, 0x0200)
}

/// Whether a slot forgets the call of who ended in it.
fn is_forgotten(procs: &mut Procs) -> bool {
    procs.end(Pid(1));
    adds(procs, 1) && keeps(procs, Pid(1), 200, 0, 0)
}

#[test]
fn what_is_lent_is_written_back_and_forgotten_at_the_end(rt: HostRuntime) -> Result<(), Fail> {
    let mut procs = Procs::new(rt.alloc())?;
    let written = is_written_back(&mut procs);
    let forgotten = is_forgotten(&mut procs);
    assert!(rt; written && forgotten);
    Ok(())
}
