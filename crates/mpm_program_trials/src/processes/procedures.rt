use super::*;
use mpm_xdos::{enter_procedure, leave_procedure};

/// What a process comes to, and what its reply places.
#[derive(Clone, Copy, Debug, PartialEq, Eq)]
struct Entry {
    pc: u16,
    sp: u16,
    de: (u8, u8),
    back: u16,
    hl: u16,
    at: u16,
}

/// A call 151 with the parameter 1234h.
fn call_procedure(call: &mut Call) {
    call.begin(functions::CALL_RESIDENT_SYSTEM_PROCEDURE, 0x4130, 0x4080);
    call.append(&[0x50, 0x41, 0x34, 0x12]);
    call.append(b"PROC    ");
}

/// The first process keeps such a call.
fn ask(kernel: &mut Kernel) {
    if kernel.lives(Pid(0)) {
        call_procedure(kernel.call_mut(Pid(0)));
    }
}

/// The first process got the message 4200h; its return address is 4108h.
fn get_message(kernel: &mut Kernel) {
    if kernel.lives(Pid(0)) {
        let process = kernel.process_mut(Pid(0));
        process.kept = 0x4200;
        process.regs.pc = 0x4108;
    }
}

/// The first process, which lives in the first segment, enters its procedure.
fn enter(kernel: &mut Kernel, banks: &Banks, reply: &mut Reply) {
    if 1 <= banks.segments() && kernel.lives(Pid(0)) && kernel.segment(Pid(0)) == Some(Seg(0)) {
        enter_procedure(kernel, banks, Pid(0), reply);
    }
}

/// What a process came to, and what its reply says.
fn entry_of(process: &Process, reply: &Reply) -> Entry {
    Entry {
        pc: process.regs.pc,
        sp: process.regs.sp,
        de: (process.regs.d, process.regs.e),
        back: process.back,
        hl: reply.hl,
        at: reply.at,
    }
}

/// Whether the first process, at its message, goes on there with its gate pushed.
fn is_entered(kernel: &mut Kernel, banks: &Banks) -> bool {
    let mut reply = Reply::new();
    let entry = Entry {
        pc: 0x4200,
        sp: 0x4EFC,
        de: (0x12, 0x34),
        back: 0x4108,
        hl: 0,
        at: 0x4EFC,
    };
    ask(kernel);
    get_message(kernel);
    enter(kernel, banks, &mut reply);
    match kernel.process(Pid(0)) {
        Some(process) => {
            entry_of(process, &reply) == entry && reply.placed() == [0x09, 0x4F].as_slice()
        }
        None => false,
    }
}

#[test]
fn a_procedure_is_entered_with_its_gate_pushed(rt: HostRuntime) -> Result<(), Fail> {
    let banks = memory(rt.alloc())?;
    let mut kernel = kernel(rt.alloc())?;
    let entered = is_entered(&mut kernel, &banks);
    assert!(rt; entered);
    Ok(())
}
