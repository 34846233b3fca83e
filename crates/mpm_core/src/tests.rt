//! A core that was worked out by hand: written as it was read, and run on.
use crate::Core;
use mpm_port::{MemorySink, Sink};
use mpm_replay::{Replayed, Why};
use std::alloc::Global;
use std::test::Fail;

/// The head of a program in all 192 pages below common memory after its first two instructions, LD C,9 and LD DE,010Dh.
const HEAD: [u8; 51] = [
    b'M', b'P', b'M', b'C', b'O', b'R', b'E', b'1', 2, 0, 0, 0, 0, 0, 0, 0, 0, 0, 192, 0, 0, 0, 0,
    9, 1, 0x0D, 0, 0, 0, 0, 0, 0, 0, 0, 0, 0, 0, 0, 0, 0, 0xFE, 0xBE, 0x05, 0x01, 0, 2, 1, 1, 0, 0,
    0,
];

/// At what place of the file of that core the byte of an address below C000h stands.
fn place(address: u16) -> usize {
    51 + usize::from(address)
}

/// Puts bytes at a place, as far as there are such.
fn put(text: &mut [u8], place: usize, bytes: &[u8]) {
    for (at, byte) in bytes.iter().enumerate() {
        if let Some(there) = text.get_mut(place.saturating_add(at)) {
            *there = *byte;
        }
    }
}

/// The file of that core. At 0005h there is a jump to the gate of calls, at BF06h. At PC, 0105h, are some bytes.
fn file(alloc: Global, code: &[u8]) -> Result<Vec<u8>, Fail> {
    let mut text = vec![in alloc; 0; 65_587]?;
    put(&mut text, 0, &HEAD);
    put(&mut text, place(0x0005), &[0xC3, 0x06, 0xBF]);
    put(&mut text, place(0x0105), code);
    Ok(text)
}

/// Reads a core, and does at most so many of its instructions.
fn replay(core: &mut Core, text: &[u8], most: u64) -> Option<Replayed> {
    match core.read(text) {
        Ok(()) => Some(core.replay(most)),
        Err(_) => None,
    }
}

/// Whether a replay of some code ends so.
fn ends(alloc: Global, code: &[u8], most: u64, done: u64, why: Why) -> Result<bool, Fail> {
    let text = file(alloc, code)?;
    let mut core = Core::new(alloc)?;
    Ok(replay(&mut core, &text, most) == Some(Replayed { done, why }))
}

/// Whether a core is read, and written as it was read to a sink whose call of that number fails, so that this many bytes stand.
fn is_written(core: &mut Core, text: &[u8], sink: &mut MemorySink, size: usize) -> bool {
    match core.read(text) {
        Ok(()) => {
            let is_whole = core.write(sink).is_ok();
            is_whole == (size == text.len()) && Some(sink.written()) == text.get(..size)
        }
        Err(_) => false,
    }
}

/// Whether the call of a program leaves PC and SP so, once it has come to the gate.
fn calls(core: &mut Core, text: &[u8], pc: u16, sp: u16) -> bool {
    let replayed = replay(core, text, 5);
    let head = core.head();
    replayed
        == Some(Replayed {
            done: 2,
            why: Why::Gate,
        })
        && head.regs.pc == pc
        && head.regs.sp == sp
        && head.step == 2
}

#[test]
fn a_call_runs_to_the_gate(rt: HostRuntime) -> Result<(), Fail> {
    let text = file(rt.alloc(), &[0xCD, 0x05, 0x00])?;
    let mut core = Core::new(rt.alloc())?;
    assert!(rt; calls(&mut core, &text, 0xBF06, 0xBEFC));
    Ok(())
}

#[test]
fn all_steps_end_a_replay_also_at_a_gate(rt: HostRuntime) -> Result<(), Fail> {
    let all = ends(rt.alloc(), &[0xCD, 0x05, 0x00], 2, 2, Why::Steps)?;
    assert!(rt; all);
    Ok(())
}

#[test]
fn a_port_that_is_read_ends_it(rt: HostRuntime) -> Result<(), Fail> {
    let input = ends(rt.alloc(), &[0xDB, 0x10], 3, 0, Why::Input)?;
    assert!(rt; input);
    Ok(())
}

#[test]
fn an_unlisted_opcode_ends_it(rt: HostRuntime) -> Result<(), Fail> {
    let illegal = ends(rt.alloc(), &[0x00, 0xED, 0x00], 3, 1, Why::Illegal)?;
    assert!(rt; illegal);
    Ok(())
}

#[test]
fn a_step_in_a_halt_counts(rt: HostRuntime) -> Result<(), Fail> {
    let halted = ends(rt.alloc(), &[0x76], 3, 3, Why::Steps)?;
    assert!(rt; halted);
    Ok(())
}

#[test]
fn a_core_is_written_as_it_was_read(rt: HostRuntime) -> Result<(), Fail> {
    let text = file(rt.alloc(), &[0xCD, 0x05, 0x00])?;
    let mut core = Core::new(rt.alloc())?;
    let mut sink = MemorySink::new(rt.alloc(), 65_587)?;
    assert!(rt; is_written(&mut core, &text, &mut sink, 65_587));
    Ok(())
}

#[test]
fn a_first_part_stands_where_the_sink_fails(rt: HostRuntime) -> Result<(), Fail> {
    let text = file(rt.alloc(), &[0xCD, 0x05, 0x00])?;
    let mut core = Core::new(rt.alloc())?;
    let mut sink = MemorySink::new(rt.alloc(), 65_587)?;
    sink.fail_at(2)?;
    assert!(rt; is_written(&mut core, &text, &mut sink, 51));
    Ok(())
}

#[test]
fn what_is_no_core_is_refused(rt: HostRuntime) -> Result<(), Fail> {
    let mut core = Core::new(rt.alloc())?;
    let refused = core.read(&HEAD);
    let place = match refused {
        Ok(()) => 0,
        Err(fault) => fault.place,
    };
    assert!(rt; place == 51);
    Ok(())
}
