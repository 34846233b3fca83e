ghost use Rattle.std.specs.Prelude.{◌≡◌, ◌<◌, ◌≤◌, ◌↔◌, IsTrue, IsSome, length};
ghost use Rattle.std.specs.Bool.{OnTrue, OnFalse};
ghost use Rattle.mpm_banks.specs.Memory.{byte_at, with_bytes};
ghost use Rattle.mpm_banks.specs.Ranges.{range_of};
ghost use Rattle.mpm_gate.specs.Replies.{answered, returned, placed as placed_in};

use mpm_banks::Banks;
use mpm_base::{Reply, Seg};
use z80_regs::Regs;

/// Takes the return address from the stack into PC; the shadow of an EI ends. This comes first in the gate step of a
/// call, before any byte of a reply is placed.
#[tactic(auto, unfolding(crate::specs::Replies::returned))]
pub fn take_return(banks: &Banks, seg: Seg, regs: &mut Regs)
    ensures { regs.new ≡ returned (byte_at banks.now seg) regs.old }
{
    regs.pc = banks.word(seg, regs.sp);
    regs.sp = regs.sp.wrapping_add(2);
    regs.shadow = false;
}

/// Places the reply of the call with the parameter `word`: its answer in HL, and the same in A and B; then its file
/// control block at the parameter, if there is one; then its bytes at their address. Bytes for addresses that name no
/// memory are lost.
#[tactic(auto, unfolding(crate::specs::Replies::placed))]
pub fn put_reply(reply: &Reply, word: u16, banks: &mut Banks, seg: Seg, regs: &mut Regs)
    ensures memory { banks.new ≡ placed_in reply.now word seg banks.old }
    ensures registers { regs.new ≡ answered reply.now.hl regs.old }
{
    put_answer(reply.hl, regs);
    if let Some(block) = reply.control_block() {
        put_bytes(block, banks, seg, word);
    }
    put_bytes(reply.placed(), banks, seg, reply.at);
}

/// Sets HL, A and B to an answer.
#[tactic(auto, unfolding(crate::specs::Replies::answered))]
fn put_answer(hl: u16, regs: &mut Regs)
    ensures { regs.new ≡ answered hl regs.old }
{
    regs.h = (hl / 256) as u8;
    regs.l = (hl % 256) as u8;
    regs.a = regs.l;
    regs.b = regs.h;
}

/// Writes bytes from an address on, at most 65,535.
#[inline]
#[tactic(auto, using(crate::proofs::WritingLaws::written_none))]
pub fn put_bytes(bytes: &[u8], banks: &mut Banks, seg: Seg, address: u16)
    requires { length bytes.now ≤ 65535 }
    ensures { banks.new ≡ with_bytes banks.old seg address bytes.now }
{
    if !bytes.is_empty() {
        put_some(bytes, banks, seg, address);
    }
}

/// Writes bytes, at least one, from an address on. It is code of its own, since most replies place none.
#[cold]
#[inline(never)]
fn put_some(bytes: &[u8], banks: &mut Banks, seg: Seg, address: u16)
    requires some { 0 < length bytes.now }
    requires few { length bytes.now ≤ 65535 }
    ensures { banks.new ≡ with_bytes banks.old seg address bytes.now }
{
    if !put_as_range(bytes, banks, seg, address) {
        put_each(bytes, banks, seg, address);
    }
}

/// Writes bytes (at least one) whose addresses make up a range of memory. Answers false where they don't, and then nothing
/// changes.
#[tactic(auto, using(mpm_banks::proofs::RangeBytes::put_range_is))]
fn put_as_range(bytes: &[u8], banks: &mut Banks, seg: Seg, address: u16) -> bool
    requires some { 0 < length bytes.now }
    requires few { length bytes.now ≤ 65535 }
    ensures exactly { IsTrue result ↔ IsSome (range_of banks.old seg address (length bytes.now)) }
    ensures written { OnTrue result (banks.new ≡ with_bytes banks.old seg address bytes.now) }
    ensures same { OnFalse result (banks.new ≡ banks.old) }
{
    let Some(window) = banks.window(seg, address, bytes.len() as u16) else {
        return false;
    };
    window.into_bytes().copy_from_slice(bytes);
    true
}

/// Writes bytes from an address on, one by one: they may come to stand anywhere.
fn put_each(bytes: &[u8], banks: &mut Banks, seg: Seg, address: u16)
    ensures { banks.new ≡ with_bytes banks.old seg address bytes.now }
{
    let mut at = address;
    for byte in bytes {
        banks.put(seg, at, *byte);
        at = at.wrapping_add(1);
    }
}
