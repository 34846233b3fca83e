//! What a kernel call reads as it is taken, and its reply as it is placed.
ghost use Rattle.mpm_banks.specs.Allocations.{FitsBelowCommon};

use mpm_banks::{Banks, OutOfMemory};
use mpm_base::{Call, Reply, Seg, SegmentSpec, functions};
use mpm_gate::{call_of, put_reply, take_return};
use std::alloc::{AllocError, Global};
use z80_regs::{InterruptMode, Regs};

/// The one segment of most tests, from address 0 up to common memory.
const SEG: Seg = Seg(0);

/// The parameter and the DMA address of the calls.
const PARAMETER: u16 = 0x0200;

const DMA: u16 = 0x0400;

/// Each function that reads anything: the function, whether it reads its file control block, and the two ranges that it reads
/// besides, each an address and a number of bytes; with a multi-sector count of 3.
const ROWS: [(u8, bool, u16, u16, u16, u16); 41] = [
    (functions::PRINT_STRING, false, PARAMETER, 30, 0, 0),
    (functions::READ_CONSOLE_BUFFER, false, PARAMETER, 1, 0, 0),
    (functions::OPEN_FILE, true, DMA, 8, 0, 0),
    (functions::CLOSE_FILE, true, 0, 0, 0, 0),
    (functions::SEARCH_FOR_FIRST, true, 0, 0, 0, 0),
    (functions::DELETE_FILE, true, DMA, 8, 0, 0),
    (functions::READ_SEQUENTIAL, true, 0, 0, 0, 0),
    (functions::WRITE_SEQUENTIAL, true, DMA, 384, 0, 0),
    (functions::MAKE_FILE, true, DMA, 9, 0, 0),
    (functions::RENAME_FILE, true, DMA, 8, 0, 0),
    (functions::SET_FILE_ATTRIBUTES, true, DMA, 8, 0, 0),
    (functions::READ_RANDOM, true, 0, 0, 0, 0),
    (functions::WRITE_RANDOM, true, DMA, 384, 0, 0),
    (functions::COMPUTE_FILE_SIZE, true, 0, 0, 0, 0),
    (functions::SET_RANDOM_RECORD, true, 0, 0, 0, 0),
    (functions::WRITE_RANDOM_WITH_ZERO_FILL, true, DMA, 384, 0, 0),
    (functions::TEST_AND_WRITE_RECORD, true, DMA, 768, 0, 0),
    (functions::LOCK_RECORD, true, DMA, 2, 0, 0),
    (functions::UNLOCK_RECORD, true, DMA, 2, 0, 0),
    (functions::CHAIN_TO_PROGRAM, false, DMA, 11, 0, 0),
    (functions::SET_DIRECTORY_LABEL, true, DMA, 16, 0, 0),
    (functions::READ_FILE_XFCB, true, 0, 0, 0, 0),
    (functions::WRITE_FILE_XFCB, true, DMA, 16, 0, 0),
    (functions::SET_DATE_AND_TIME, false, PARAMETER, 4, 0, 0),
    (functions::SET_DEFAULT_PASSWORD, false, PARAMETER, 8, 0, 0),
    (
        functions::ABSOLUTE_MEMORY_REQUEST,
        false,
        PARAMETER,
        4,
        0,
        0,
    ),
    (
        functions::RELOCATABLE_MEMORY_REQUEST,
        false,
        PARAMETER,
        4,
        0,
        0,
    ),
    (functions::MEMORY_FREE, false, PARAMETER, 4, 0, 0),
    (functions::MAKE_QUEUE, false, PARAMETER, 14, 0, 0),
    (functions::OPEN_QUEUE, false, PARAMETER, 12, 0, 0),
    (functions::DELETE_QUEUE, false, PARAMETER, 14, 0, 0),
    (functions::READ_QUEUE, false, PARAMETER, 12, 0, 0),
    (
        functions::CONDITIONAL_READ_QUEUE,
        false,
        PARAMETER,
        12,
        0,
        0,
    ),
    (functions::WRITE_QUEUE, false, PARAMETER, 12, 0x0933, 2048),
    (
        functions::CONDITIONAL_WRITE_QUEUE,
        false,
        PARAMETER,
        12,
        0x0933,
        2048,
    ),
    (functions::CREATE_PROCESS, false, PARAMETER, 16, 0x0A44, 2),
    (functions::ASSIGN_CONSOLE, false, PARAMETER, 10, 0, 0),
    (
        functions::SEND_CLI_COMMAND,
        false,
        PARAMETER,
        2,
        PARAMETER + 2,
        40,
    ),
    (
        functions::CALL_RESIDENT_SYSTEM_PROCEDURE,
        false,
        PARAMETER,
        4,
        0x0000,
        8,
    ),
    (functions::PARSE_FILENAME, false, PARAMETER, 4, 0x0000, 128),
    (
        functions::ABORT_SPECIFIED_PROCESS,
        false,
        PARAMETER,
        13,
        0,
        0,
    ),
];

/// Memory of one segment of `pages` pages from the page `base` on.
fn memory(alloc: Global, base: u8, pages: u8) -> Result<Banks, OutOfMemory>
    requires { FitsBelowCommon (record { base = base; pages = pages }) }
{
    Banks::new(alloc, &[SegmentSpec { base, pages }])
}

/// Writes bytes from an address on.
fn poke(banks: &mut Banks, address: u16, bytes: &[u8]) {
    let mut at = address;
    for byte in bytes {
        banks.put(SEG, at, *byte);
        at = at.wrapping_add(1);
    }
}

/// The registers of a call of a function with a parameter.
fn calling(function: u8, word: u16) -> Regs {
    let [e, d] = word.to_le_bytes();
    Regs {
        a: 0x11,
        f: 0x22,
        b: 0x33,
        c: function,
        d,
        e,
        h: 0x44,
        l: 0x55,
        a2: 1,
        f2: 2,
        b2: 3,
        c2: 4,
        d2: 5,
        e2: 6,
        h2: 7,
        l2: 8,
        ix: 0x1234,
        iy: 0x5678,
        sp: 0xBFFE,
        pc: 0xBF06,
        i: 9,
        r: 10,
        iff1: true,
        iff2: true,
        mode: InterruptMode(2),
        halted: false,
        shadow: true,
    }
}

/// Memory in which every byte tells its address apart from its neighbours, with links, pointers and ends of texts round
/// the parameter and the DMA address.
fn patterned(alloc: Global) -> Result<Banks, OutOfMemory> {
    let mut banks = memory(alloc, 0, 192)?;
    for address in 0..0xC000u16 {
        banks.put(SEG, address, (address % 199 + 40) as u8);
    }
    poke(&mut banks, PARAMETER, &[0, 0, 0x33, 0x09, 0x44, 0x0A]);
    poke(&mut banks, PARAMETER + 30, b"$");
    poke(&mut banks, PARAMETER + 42, b"\r");
    poke(&mut banks, DMA + 11, b"\0");
    Ok(banks)
}

/// The bytes of two ranges, one after the other.
fn ranges(
    alloc: Global,
    banks: &Banks,
    first: u16,
    size: u16,
    second: u16,
    count: u16,
) -> Result<Vec<u8>, AllocError> {
    let mut bytes = Vec::new(alloc);
    for k in 0..size {
        bytes.push(banks.byte(SEG, first.wrapping_add(k)))?;
    }
    for k in 0..count {
        bytes.push(banks.byte(SEG, second.wrapping_add(k)))?;
    }
    Ok(bytes)
}

/// What a call of a function takes, with a parameter, a DMA address and a multi-sector count of at most 16.
fn called(banks: &Banks, seg: Seg, row: (u8, u16, u16, u8)) -> Call {
    let (function, word, dma, multi) = row;
    let mut call = Call::new();
    if multi <= 16 {
        call_of(&calling(function, word), banks, seg, dma, multi, &mut call);
    }
    call
}

/// Whether a call of a function with a parameter takes just these bytes.
fn takes(banks: &Banks, function: u8, word: u16, bytes: &[u8]) -> bool {
    called(banks, SEG, (function, word, DMA, 1)).taken() == bytes
}

/// How many bytes a call of a function with a parameter takes.
fn length_taken(banks: &Banks, function: u8, word: u16) -> usize {
    called(banks, SEG, (function, word, DMA, 1)).taken().len()
}

/// Whether a call is that of a function, with the parameter and the DMA address of the rows, these bytes and this file control
/// block.
fn is_call(call: &Call, function: u8, bytes: &[u8], block: &[u8]) -> bool {
    call.function == function
        && call.word == PARAMETER
        && call.dma == DMA
        && call.taken() == bytes
        && call.fcb.as_slice() == block
}

/// Whether a function reads what its row names, over that memory, in which this is the file control block.
fn is_read_by(
    alloc: Global,
    banks: &Banks,
    row: (u8, bool, u16, u16, u16, u16),
    block: &[u8],
) -> Result<bool, AllocError> {
    let (function, reads_block, first, size, second, count) = row;
    let expected = ranges(alloc, banks, first, size, second, count)?;
    let call = called(banks, SEG, (function, PARAMETER, DMA, 3));
    let none: &[u8] = &[0; 36];
    let read = if reads_block { block } else { none };
    Ok(is_call(&call, function, expected.as_slice(), read))
}

/// The first function, if any, that reads something else than its row names.
fn first_otherwise(alloc: Global, banks: &Banks) -> Result<Option<u8>, AllocError> {
    let block = ranges(alloc, banks, PARAMETER, 36, 0, 0)?;
    for row in ROWS {
        if !is_read_by(alloc, banks, row, block.as_slice())? {
            return Ok(Some(row.0));
        }
    }
    Ok(None)
}

/// Whether a function that has no row reads nothing.
fn reads_nothing(banks: &Banks, function: u8) -> bool {
    let call = called(banks, SEG, (function, PARAMETER, DMA, 16));
    is_call(&call, function, b"", &[0; 36])
}

/// Whether a function has a row.
fn has_row(function: u8) -> bool {
    ROWS.iter().any(|row| row.0 == function)
}

/// The first function, if any, that has no row and reads something.
fn first_that_reads(banks: &Banks) -> Option<u8> {
    for function in 0..=255u8 {
        if !has_row(function) && !reads_nothing(banks, function) {
            return Some(function);
        }
    }
    None
}

#[test]
fn each_function_reads_what_its_row_names(rt: HostRuntime) -> Result<(), AllocError> {
    let banks = patterned(rt.alloc())?;
    let first = first_otherwise(rt.alloc(), &banks)?;
    let other = first_that_reads(&banks);
    assert_eq!(rt; (first, other), (None, None));
    Ok(())
}

/// Whether strings are taken up to a dollar sign, of at most 4096 bytes in a call.
fn takes_strings(banks: &mut Banks) -> bool {
    poke(banks, 0x0300, b"Hi$there$");
    takes(banks, functions::PRINT_STRING, 0x0300, b"Hi")
        && takes(banks, functions::PRINT_STRING, 0x0302, b"")
        && length_taken(banks, functions::PRINT_STRING, 0x0309) == 4096
        && length_taken(banks, functions::PRINT_STRING, 0xFFFF) == 0x0303
}

/// Whether a command ends at 00h or at CR, and has at most 128 bytes.
fn takes_commands(banks: &mut Banks) -> bool {
    poke(banks, PARAMETER, b"\x21\x01dir b:\rx");
    poke(banks, DMA, b"ed x.y\0\r");
    let sent = takes(
        banks,
        functions::SEND_CLI_COMMAND,
        PARAMETER,
        b"\x21\x01dir b:",
    );
    let chained = takes(banks, functions::CHAIN_TO_PROGRAM, PARAMETER, b"ed x.y");
    poke(banks, DMA, &[b'$'; 200]);
    let cut = takes(banks, functions::CHAIN_TO_PROGRAM, PARAMETER, &[b'$'; 128]);
    sent && chained && cut
}

/// Whether descriptors are taken one after the other with their names, at most 32 of them.
fn takes_descriptors(banks: &mut Banks) -> bool {
    poke(banks, 0x0500, b"\x00\x06\x00\xC8\xF0\x10Reader  \x01\x00");
    poke(banks, 0x0600, b"\x00\x00\x00\xC9\xF8\x10Writer  \x02\x00");
    poke(banks, 0x10F0, &[0x00, 0x07, 0, 0, 0, 0, 0, 0, 0x80, 0x07]);
    let two = takes(
        banks,
        functions::CREATE_PROCESS,
        0x0500,
        b"\x00\x06\x00\xC8\xF0\x10Reader  \x01\x00\x00\x07\x00\x00\x00\xC9\xF8\x10Writer  \x02\x00\x80\x07",
    );
    poke(banks, 0x0500, b"\x00\x05");
    two && length_taken(banks, functions::CREATE_PROCESS, 0x0500) == 32 * 18
}

#[test]
fn what_ends_somewhere_is_taken_so_far(rt: HostRuntime) -> Result<(), AllocError> {
    let mut banks = memory(rt.alloc(), 0, 192)?;
    let strings = takes_strings(&mut banks);
    let commands = takes_commands(&mut banks);
    let descriptors = takes_descriptors(&mut banks);
    assert_eq!(rt; (strings, commands, descriptors), (true, true, true));
    Ok(())
}

/// Whether addresses go on from FFFFh to 0000h, for what is read and for the return address.
fn goes_round(banks: &mut Banks) -> bool {
    poke(banks, 0xFFFE, &[0x12, 0x34, 0x56, 0x78]);
    let mut regs = calling(functions::RETURN_VERSION_NUMBER, 0);
    regs.sp = 0xFFFF;
    take_return(banks, SEG, &mut regs);
    takes(
        banks,
        functions::SET_DATE_AND_TIME,
        0xFFFE,
        &[0x12, 0x34, 0x56, 0x78],
    ) && banks.byte(SEG, 0x0001) == 0x78
        && regs.pc == 0x5634
        && regs.sp == 0x0001
}

#[test]
fn addresses_go_on_from_the_last_to_the_first(rt: HostRuntime) -> Result<(), AllocError> {
    let mut banks = memory(rt.alloc(), 0, 192)?;
    let round = goes_round(&mut banks);
    assert!(rt; round);
    Ok(())
}

/// Whether each address without memory reads FFh, before a segment, after it, and in none.
fn reads_ffh(banks: &mut Banks) -> bool {
    poke(banks, 0x3FFE, &[1, 2, 3, 4]);
    let password = called(
        banks,
        Seg(1),
        (functions::SET_DEFAULT_PASSWORD, 0x4000, DMA, 1),
    );
    takes(
        banks,
        functions::ABSOLUTE_MEMORY_REQUEST,
        0x3FFE,
        &[0xFF, 0xFF, 3, 4],
    ) && takes(
        banks,
        functions::ABSOLUTE_MEMORY_REQUEST,
        0x4FFF,
        &[0, 0xFF, 0xFF, 0xFF],
    ) && password.taken() == [0xFF; 8].as_slice()
}

/// Whether bytes that are placed where no memory is are lost, and the others are placed.
fn loses_bytes(banks: &mut Banks) -> bool {
    let mut regs = calling(functions::GET_DATE_TIME_AND_SECOND, 0x3FFF);
    let mut reply = Reply::new();
    reply.answer_with(0, 0x4FFF, &[7, 2, 3]);
    put_reply(&reply, 0x4FFF, banks, SEG, &mut regs);
    let last = (banks.byte(SEG, 0x4FFF), banks.byte(SEG, 0x5000));
    reply.answer_with(0, 0xFFFF, &[7, 8]);
    put_reply(&reply, 0x3FFF, banks, SEG, &mut regs);
    let round = (banks.byte(SEG, 0xFFFF), banks.byte(SEG, 0x0000));
    last == (7, 0xFF) && round == (7, 0xFF)
}

#[test]
fn an_address_without_memory_reads_ffh_and_keeps_nothing(
    rt: HostRuntime,
) -> Result<(), AllocError> {
    let mut banks = memory(rt.alloc(), 0x40, 16)?;
    let read = reads_ffh(&mut banks);
    let lost = loses_bytes(&mut banks);
    assert_eq!(rt; (read, lost), (true, true));
    Ok(())
}

/// Whether a file control block and a record that overlap are both taken whole.
fn takes_both(alloc: Global, banks: &Banks) -> Result<bool, AllocError> {
    let block = ranges(alloc, banks, 0x1000, 36, 0, 0)?;
    let record = ranges(alloc, banks, 0x1010, 128, 0, 0)?;
    let call = called(banks, SEG, (functions::WRITE_SEQUENTIAL, 0x1000, 0x1010, 1));
    Ok(call.fcb.as_slice() == block.as_slice() && call.taken() == record.as_slice())
}

#[test]
fn a_block_and_a_record_that_overlap(rt: HostRuntime) -> Result<(), AllocError> {
    let banks = patterned(rt.alloc())?;
    let both = takes_both(rt.alloc(), &banks)?;
    assert!(rt; both);
    Ok(())
}

/// Whether the return address comes from the stack.
fn returns(banks: &mut Banks) -> bool {
    poke(banks, 0xBFFE, &[0x34, 0x12]);
    let mut regs = calling(functions::RETURN_VERSION_NUMBER, 0x0777);
    take_return(banks, SEG, &mut regs);
    let expected = Regs {
        pc: 0x1234,
        sp: 0xC000,
        shadow: false,
        ..calling(functions::RETURN_VERSION_NUMBER, 0x0777)
    };
    regs == expected
}

/// Whether an answer is in HL, A and B, and nothing else is changed.
fn answers(banks: &mut Banks) -> bool {
    let mut regs = calling(functions::RETURN_VERSION_NUMBER, 0x0777);
    let mut reply = Reply::new();
    reply.answer(0x0130);
    put_reply(&reply, 0x0777, banks, SEG, &mut regs);
    let expected = Regs {
        h: 0x01,
        l: 0x30,
        a: 0x30,
        b: 0x01,
        ..calling(functions::RETURN_VERSION_NUMBER, 0x0777)
    };
    regs == expected && banks.byte(SEG, 0x0777) == 0
}

/// Places a block of EEh at 0200h and bytes over it.
fn place_both(banks: &mut Banks) {
    let mut regs = calling(functions::READ_SEQUENTIAL, 0x0200);
    let mut reply = Reply::new();
    reply.answer_with(0, 0x0220, &[1, 2, 3, 4, 5, 6]);
    reply.has_fcb = true;
    reply.fcb = [0xEE; 36];
    put_reply(&reply, 0x0200, banks, SEG, &mut regs);
}

/// Whether bytes stand over the block.
fn stand_over(alloc: Global, banks: &Banks) -> Result<bool, AllocError> {
    let written = ranges(alloc, banks, 0x01FF, 41, 0, 0)?;
    let mut expected = [0xEE; 41];
    expected[0] = 0;
    expected[33..].copy_from_slice(&[1, 2, 3, 4, 5, 6, 0, 0]);
    Ok(written.as_slice() == expected.as_slice())
}

#[test]
fn a_reply_is_placed(rt: HostRuntime) -> Result<(), AllocError> {
    let mut banks = memory(rt.alloc(), 0, 192)?;
    let returned = returns(&mut banks);
    let answered = answers(&mut banks);
    place_both(&mut banks);
    let over = stand_over(rt.alloc(), &banks)?;
    assert_eq!(rt; (returned, answered, over), (true, true, true));
    Ok(())
}
