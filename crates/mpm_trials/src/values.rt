//! Calls and replies: what is kept of a call, what of it is read, and what a reply places.
use mpm_base::{Call, Kind, Name8, Pid, Reply, Seg, functions};
use std::test::Fail;

/// Whether kinds, processes, segments and names differ.
fn are_told_apart() -> bool {
    let kinds = Kind::Ibm3740 == Kind::Ibm3740
        && Kind::Ibm3740 != Kind::Hd4
        && Kind::Hd4 != Kind::Hd8;
    let numbers = Pid(31) == Pid(31) && Seg(0) != Seg(15);
    kinds && numbers && Name8(*b"CliQ    ") == Name8(*b"CliQ    ")
}

#[test]
fn values_are_told_apart(rt: HostRuntime) -> Result<(), Fail> {
    assert!(rt; are_told_apart());
    Ok(())
}

/// Whether a call is that of a function with a parameter and a DMA address, and keeps just these bytes.
fn is_call(call: &Call, function: u8, word: u16, dma: u16, bytes: &[u8]) -> bool {
    call.function == function && call.word == word && call.dma == dma && call.taken() == bytes
}

/// Whether a call that is cleared has nothing of what it had.
fn is_cleared(call: &mut Call) -> bool {
    call.function = functions::READ_QUEUE;
    call.word = 0x0200;
    call.dma = 0x0080;
    call.fcb = [3; 36];
    call.length = 12;
    call.bytes = [7; 4096];
    call.clear();
    is_call(call, 0, 0, 0, b"")
        && call.fcb == [0; 36]
        && call.length == 0
        && call.bytes.as_slice() == [0; 4096].as_slice()
}

/// Whether a call keeps what it read, in order, until the next one begins.
fn keeps_in_order(call: &mut Call) -> bool {
    call.begin(functions::SET_DEFAULT_PASSWORD, 0x0130, 0x0080);
    call.push(0x53);
    call.push(0x45);
    let kept = is_call(
        call,
        functions::SET_DEFAULT_PASSWORD,
        0x0130,
        0x0080,
        &[0x53, 0x45],
    );
    call.begin(functions::RETURN_VERSION_NUMBER, 0, 0);
    kept && is_call(call, functions::RETURN_VERSION_NUMBER, 0, 0, b"")
}

/// Whether words and names are read from a call.
fn are_read(call: &mut Call) -> bool {
    call.begin(functions::MAKE_QUEUE, 0x0200, 0x0080);
    call.append(b"\x00\x00MXDisk  \x00\x02\x01");
    call.word(10) == 0x0200
        && call.word(12) == 0x0001
        && call.word(13) == 0
        && call.name(2) == Name8(*b"MXDisk  ")
        && call.eight(8) == *b"  \x00\x02\x01\x00\x00\x00"
        && call.from(10) == b"\x00\x02\x01".as_slice()
        && call.from(14).is_empty()
}

/// Whether a call takes several bytes at once, and a control block until the next one begins.
fn takes_several(call: &mut Call) -> bool {
    call.begin(functions::PARSE_FILENAME, 0x0130, 0x0080);
    call.append(&[0x00, 0x02, 0x00, 0x03]);
    call.append(b"dir");
    call.set_control_block([7; 36]);
    let taken = call.taken() == b"\x00\x02\x00\x03dir".as_slice() && call.fcb == [7; 36];
    call.begin(functions::RETURN_VERSION_NUMBER, 0, 0);
    taken && call.fcb == [0; 36]
}

#[test]
fn a_call_keeps_what_it_took(rt: HostRuntime) -> Result<(), Fail> {
    let mut call = Call::new();
    let cleared = is_cleared(&mut call);
    let kept = keeps_in_order(&mut call);
    let read = are_read(&mut call);
    let several = takes_several(&mut call);
    assert!(rt; cleared && kept && read && several);
    Ok(())
}

/// Whether a reply has a value, and places just these bytes at an address, with no control block.
fn is_reply(reply: &Reply, hl: u16, at: u16, bytes: &[u8]) -> bool {
    reply.hl == hl && reply.at == at && reply.placed() == bytes && reply.control_block().is_none()
}

/// Whether a reply that is cleared places nothing.
fn places_nothing(reply: &mut Reply) -> bool {
    reply.hl = 0xFFFF;
    reply.has_fcb = true;
    reply.fcb = [3; 36];
    reply.at = 0x0080;
    reply.length = 128;
    reply.bytes = [7; 4096];
    reply.clear();
    is_reply(reply, 0, 0, b"")
        && !reply.has_fcb
        && reply.fcb == [0; 36]
        && reply.length == 0
        && reply.bytes.as_slice() == [0; 4096].as_slice()
}

/// Whether a control block is placed where there is one.
fn places_a_block(reply: &mut Reply) -> bool {
    let none = reply.control_block().is_none();
    reply.has_fcb = true;
    reply.fcb = [7; 36];
    none && reply.control_block() == Some(&[7; 36])
}

/// Whether an answer places its own bytes alone.
fn places_its_own(reply: &mut Reply) -> bool {
    reply.answer_with(0xFE80, 0xFE80, &[1, 2, 3]);
    let with = is_reply(reply, 0xFE80, 0xFE80, &[1, 2, 3]) && !reply.has_fcb;
    reply.answer(0x0130);
    with && reply.hl == 0x0130 && reply.placed().is_empty()
}

#[test]
fn a_reply_places_what_it_was_given(rt: HostRuntime) -> Result<(), Fail> {
    let mut reply = Reply::new();
    let nothing = places_nothing(&mut reply);
    let block = places_a_block(&mut reply);
    let own = places_its_own(&mut reply);
    assert!(rt; nothing && block && own);
    Ok(())
}
