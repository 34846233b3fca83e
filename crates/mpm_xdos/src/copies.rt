ghost use Rattle.std.specs.Prelude.{◌≡◌, ◌≤◌, length};
ghost use Rattle.mpm_procs.specs.Table.{Lives, process_in};
ghost use Rattle.mpm_xdos.specs.Copies.{segment_number as number_of_segment, with_zeros as zeros_behind, system_page as system_page_of, system_answer, process_descriptor as descriptor_of_process, descriptor_answer};
ghost use Rattle.mpm_xdos.specs.Calling.{MayDescribeSegments, DescribesSegments};

use crate::aborting::copy_address;
use arrayvec::ArrayVec;
use mpm_banks::Banks;
use mpm_base::{Pid, Reply, Seg};
use mpm_gate::segment_descriptor;
use mpm_kernel::Kernel;
use mpm_procs::Process;

/// Where the system data page is copied to: the last page of common memory.
const SYSTEM_PAGE: u16 = 0xFF00;

/// The answer of function 154: the system data page is copied into common memory.
pub fn tell_system(kernel: &Kernel, banks: &Banks, reply: &mut Reply)
    ensures { reply.new ≡ system_answer (length kernel.now.units.consoles) banks.now }
{
    reply.answer_with(
        SYSTEM_PAGE,
        SYSTEM_PAGE,
        &system_page(kernel.consoles(), banks),
    );
}

/// The answer of a living process's function 156: its descriptor is copied into common memory.
pub fn tell_descriptor(kernel: &Kernel, p: Pid, reply: &mut Reply)
    requires { Lives kernel.now.dispatcher.procs p }
    ensures { reply.new ≡ descriptor_answer p (process_in kernel.now.dispatcher.procs p) }
{
    let address = copy_address(p);
    reply.answer_with(address, address, &process_descriptor(kernel.living(p)));
}

/// The system data page of a machine with so many consoles, written from its end on.
#[tactic(auto, unfolding(crate::specs::Copies::system_page, mpm_base::specs::Lists::zeros))]
fn system_page(consoles: u8, banks: &Banks) -> [u8; 256]
    ensures { result ≡ system_page_of consoles banks.now }
{
    let segments = banks.segments();
    let mut page = [0; 256];
    page[16..].copy_from_slice(&with_zeros(segment_descriptors(banks, segments).as_slice()));
    page[15] = segments;
    page[1] = consoles;
    page[0] = 0xFF;
    page
}

/// At most 240 bytes, and zeros after them.
#[tactic(auto, unfolding(mpm_base::specs::Lists::zeros))]
fn with_zeros(bytes: &[u8]) -> [u8; 240]
    requires { length bytes.now ≤ 240 }
    ensures { result ≡ zeros_behind bytes.now }
{
    let mut all = [0; 240];
    all[..bytes.len()].copy_from_slice(bytes);
    all
}

/// The descriptors of so many segments.
#[tactic(auto, using(crate::proofs::Copied::no_descriptor, crate::proofs::Copied::descriptors_more))]
fn segment_descriptors(banks: &Banks, segments: u8) -> ArrayVec<u8, 64>
    requires { MayDescribeSegments segments banks.now }
    ensures { DescribesSegments segments banks.now result.items }
{
    let mut descriptors = ArrayVec::new();
    for seg in 0..segments {
        descriptors
            .try_extend_from_slice(&segment_descriptor(banks, Seg(seg)))
            .unwrap();
    }
    descriptors
}

/// The descriptor of a process, written from its end on.
#[tactic(auto, unfolding(crate::specs::Copies::process_descriptor, mpm_base::specs::Lists::zeros))]
fn process_descriptor(process: &Process) -> [u8; 52]
    ensures { result ≡ descriptor_of_process process.now }
{
    let [low, high] = process.regs.sp.to_le_bytes();
    let mut descriptor = [0; 52];
    descriptor[15] = segment_number(process.seg);
    descriptor[14] = process.console;
    descriptor[6..14].copy_from_slice(&process.name.0);
    descriptor[..6].copy_from_slice(&[0, 0, 0, process.priority, low, high]);
    descriptor
}

/// The number of a segment in a descriptor.
fn segment_number(seg: Option<Seg>) -> u8
    ensures { result ≡ number_of_segment seg }
{
    match seg {
        Some(seg) => seg.0,
        None => 0xFF,
    }
}
