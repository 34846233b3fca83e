ghost use Rattle.std.specs.Prelude.{◌≡◌, ◌≤◌, ◌+◌, [], length};
ghost use Rattle.mpm_banks.specs.Memory.{byte_at};
ghost use Rattle.z80_regs.specs.Words.{word_from};
ghost use Rattle.mpm_gate.specs.Bytes.{bytes_from};
ghost use Rattle.mpm_gate.specs.Texts.{text_from};
ghost use Rattle.mpm_gate.specs.Calls.{with_more, descriptor_from, descriptors_from, bytes_read, block_read, taken_call};
ghost use Rattle.mpm_gate.specs.Reads.{reads_of as reads_in_table};
ghost use Rattle.mpm_base.specs.Lists.{zeros};

use crate::memory::range_at;
use crate::reads::{Reads, reads_memory, reads_of};
use mpm_banks::Banks;
use mpm_base::{Call, Seg, ends_text};
use z80_regs::Regs;

/// How many process descriptors of a chain are read at most.
const MOST_DESCRIPTORS: u16 = 32;

/// What ends a text.
#[derive(Clone, Copy)]
pub enum TextEnd {
    /// A dollar sign.
    Dollar,
    /// 00h or CR.
    NullOrReturn,
}

impl TextEnd {
    ghost use Rattle.mpm_gate.specs.Texts.{ends};

    fn ends(self, byte: u8) -> bool
        ensures { result ≡ ends self byte }
    {
        match self {
            TextEnd::Dollar => byte == b'$',
            TextEnd::NullOrReturn => ends_text(byte),
        }
    }
}

/// Takes a kernel call: fills it in with its function, its parameter, the DMA address, and every byte that it reads in its
/// caller's memory, all as they are now. The multi-sector count is at most 16.
#[inline(always)]
#[tactic(auto, unfolding(crate::specs::Calls::taken_call, crate::specs::Calls::bytes_read, crate::specs::Calls::block_read))]
pub fn call_of(regs: &Regs, banks: &Banks, seg: Seg, dma: u16, multi: u8, call: &mut Call)
    requires { multi ≤ 16 }
    ensures { call.new ≡ taken_call regs.now (byte_at banks.now seg) dma multi }
{
    let word = u16::from_le_bytes([regs.e, regs.d]);
    call.begin(regs.c, word, dma);
    if reads_memory(regs.c) {
        take_read(regs.c, word, banks, seg, dma, multi, call);
    }
}

/// Takes what the call of a function reads in its caller's memory, which has read nothing yet. It is code of its own, as most
/// calls read nothing.
#[cold]
#[inline(never)]
#[tactic(auto, using(crate::proofs::BytesLaws::length_bytes), unfolding(crate::specs::Calls::bytes_read, crate::specs::Calls::block_read))]
fn take_read(function: u8, word: u16, banks: &Banks, seg: Seg, dma: u16, multi: u8, call: &mut Call)
    requires few { multi ≤ 16 }
    requires begun { call.old ≡ record { function = function; word = word; dma = dma; fcb = zeros 36; bytes = [] } }
    ensures { call.new ≡ record {
      function = function;
      word = word;
      dma = dma;
      fcb = block_read (reads_in_table function) word (byte_at banks.now seg);
      bytes = bytes_read (reads_in_table function) word dma multi (byte_at banks.now seg);
    } }
{
    match reads_of(function) {
        Reads::Registers => {}
        Reads::Block(size) => take_bytes(banks, seg, word, size, call),
        Reads::Pointing {
            size,
            offset,
            count,
        } => {
            take_bytes(banks, seg, word, size, call);
            let address = banks.word(seg, word.wrapping_add(offset));
            take_bytes(banks, seg, address, count, call);
        }
        Reads::Descriptors => take_descriptors(banks, seg, word, call),
        Reads::DollarString => take_text(TextEnd::Dollar, banks, seg, word, 4096, call),
        Reads::TextAtDma => take_text(TextEnd::NullOrReturn, banks, seg, dma, 128, call),
        Reads::Command => {
            take_bytes(banks, seg, word, 2, call);
            take_text(
                TextEnd::NullOrReturn,
                banks,
                seg,
                word.wrapping_add(2),
                128,
                call,
            );
        }
        Reads::File(size) => {
            take_control_block(banks, seg, word, call);
            take_bytes(banks, seg, dma, size, call);
        }
        Reads::Records(size) => {
            take_control_block(banks, seg, word, call);
            take_bytes(banks, seg, dma, u16::from(multi) * size, call);
        }
    }
}

/// Takes so many bytes from an address on.
#[cold]
#[inline(never)]
#[tactic(auto, using(crate::proofs::TakenLaws::taken_none))]
fn take_bytes(banks: &Banks, seg: Seg, address: u16, count: u16, call: &mut Call)
    requires { length call.old.bytes + count ≤ 4096 }
    ensures { call.new ≡ with_more call.old (bytes_from (byte_at banks.now seg) address count) }
{
    if count == 0 {
        return;
    }
    match range_at(banks, seg, address, count) {
        Some(bytes) => call.append(bytes),
        None => take_each(banks, seg, address, count, call),
    }
}

/// Takes so many bytes from an address on, one by one: they may lie anywhere.
fn take_each(banks: &Banks, seg: Seg, address: u16, count: u16, call: &mut Call)
    requires { length call.old.bytes + count ≤ 4096 }
    ensures { call.new ≡ with_more call.old (bytes_from (byte_at banks.now seg) address count) }
{
    for k in 0..count {
        call.push(banks.byte(seg, address.wrapping_add(k)));
    }
}

/// Takes the text at an address, up to its end, at most so many bytes.
#[cold]
#[inline(never)]
fn take_text(end: TextEnd, banks: &Banks, seg: Seg, address: u16, most: u16, call: &mut Call)
    requires { length call.old.bytes + most ≤ 4096 }
    ensures { call.new ≡ with_more call.old (text_from end (byte_at banks.now seg) address most) }
{
    for k in 0..most {
        let byte = banks.byte(seg, address.wrapping_add(k));
        if end.ends(byte) {
            return;
        }
        call.push(byte);
    }
}

/// Takes the process descriptor at an address, and the word at its stack pointer. Answers its link.
fn take_descriptor(banks: &Banks, seg: Seg, address: u16, call: &mut Call) -> u16
    requires { length call.old.bytes + 18 ≤ 4096 }
    ensures taken { call.new ≡ with_more call.old (descriptor_from (byte_at banks.now seg) address) }
    ensures link { result ≡ word_from (byte_at banks.now seg) address }
{
    take_bytes(banks, seg, address, 16, call);
    let stack = banks.word(seg, address.wrapping_add(4));
    take_bytes(banks, seg, stack, 2, call);
    banks.word(seg, address)
}

/// Takes the process descriptors that are chained from an address on.
#[cold]
#[inline(never)]
fn take_descriptors(banks: &Banks, seg: Seg, first: u16, call: &mut Call)
    requires { length call.old.bytes + 576 ≤ 4096 }
    ensures { call.new ≡ with_more call.old (descriptors_from (byte_at banks.now seg) first 32) }
{
    let mut address = first;
    for _ in 0..MOST_DESCRIPTORS {
        address = take_descriptor(banks, seg, address, call);
        if address == 0 {
            return;
        }
    }
}

/// Takes the file control block at an address, in code of its own: few calls read one.
#[cold]
#[inline(never)]
fn take_control_block(banks: &Banks, seg: Seg, address: u16, call: &mut Call)
    ensures { call.new ≡ record call.old { fcb = bytes_from (byte_at banks.now seg) address 36 } }
{
    call.set_control_block(control_block(banks, seg, address));
}

/// The file control block at an address.
fn control_block(banks: &Banks, seg: Seg, address: u16) -> [u8; 36]
    ensures { result ≡ bytes_from (byte_at banks.now seg) address 36 }
{
    match range_at(banks, seg, address, 36) {
        Some(bytes) => {
            let mut block = [0; 36];
            block.copy_from_slice(bytes);
            block
        }
        None => block_of_each(banks, seg, address),
    }
}

/// The file control block at an address, byte by byte: they may lie anywhere.
fn block_of_each(banks: &Banks, seg: Seg, address: u16) -> [u8; 36]
    ensures { result ≡ bytes_from (byte_at banks.now seg) address 36 }
{
    let mut block = [0; 36];
    for k in 0..36u16 {
        block[k as usize] = banks.byte(seg, address.wrapping_add(k));
    }
    block
}
