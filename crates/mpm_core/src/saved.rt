ghost use Rattle.std.specs.Prelude.{◌≡◌, ◌<◌, ◌≤◌, ◌+◌, ◌*◌, ◌++◌, IfOk, length, take, drop};
ghost use Rattle.mpm_core_file.specs.CoreFiles.{IsCore, CoreContents, core_bytes};
ghost use Rattle.mpm_core.specs.Replaying.{no_core, RunsCoreOn};
ghost use Rattle.mpm_core.specs.Files.{PutsCore};
ghost use Rattle.mpm_core.specs.Parts.{AreZeros, IsKeptCore, RunsKept, ReadsCore, RunsByItself};

use crate::puts::put_three;
use mpm_base::{Pid, SegmentSpec};
use mpm_core_file::{CoreFault, HEAD_SIZE, Head, read_head};
use mpm_port::{Failed, OutOfMemory, Sink};
use mpm_replay::{Replayed, replay};
use std::alloc::Global;
use std::marker::Model;
use z80_regs::Regs;

/// How many bytes a segment of 192 pages has.
const LARGEST_SEGMENT: usize = 49_152;

/// How many bytes common memory has.
const COMMON_SIZE: usize = 16_384;

/// One process of a machine after some step, or after instructions of its own that were run by themselves: its registers, its segment and
/// common memory. A new one is of no process, until one is taken or read.
#[derive(Drop)]
pub struct Core {
    head: Head,
    /// Room for the largest segment; that of the process comes first.
    segment: Vec<u8>,
    common: Vec<u8>,
}

impl Model for Core {
    ghost use Rattle.std.specs.Prelude.{◌≡◌, ◌≤◌, ◌*◌, length, take};
    ghost use Rattle.mpm_core_file.specs.CoreFiles.{CoreContents};

    ghost Value = { CoreContents };

    ghost view = { λ core. record { head = core.head; segment = take (256 * core.head.spec.pages) core.segment.items; common = core.common.items } };

    ghost invariant = { λ core. (length core.segment.items ≡ 49152) × (length core.common.items ≡ 16384) × (core.head.spec.pages ≤ 192) };
}

/// So many bytes, all 0.
///
/// # Errors
/// Where no memory is found.
#[tactic(auto, unfolding(mpm_base::specs::Lists::zeros))]
fn zeros(alloc: Global, count: usize) -> Result<Vec<u8>, OutOfMemory>
    requires { count ≤ 65536 }
    ensures { IfOk result (λ bytes. AreZeros count bytes.items) }
{
    vec![in alloc; 0; count]
}

/// Puts bytes in the place of the first ones.
fn put_first(all: &mut [u8], bytes: &[u8])
    requires { length bytes.now ≤ length all.old }
    ensures { all.new ≡ bytes.now ++ drop (length bytes.now) all.old }
{
    all[..bytes.len()].copy_from_slice(bytes);
}

/// The bytes of the segment in the file of a core.
fn segment_in(text: &[u8], pages: u8) -> &[u8]
    requires { 51 + 256 * pages ≤ length text.now }
    ensures { result.now ≡ take (256 * pages) (drop 51 text.now) }
{
    &text[HEAD_SIZE..][..256 * usize::from(pages)]
}

/// The bytes of common memory in the file of a core.
fn common_in(text: &[u8], pages: u8) -> &[u8]
    requires { 51 + 256 * pages ≤ length text.now }
    ensures { result.now ≡ drop (51 + 256 * pages) text.now }
{
    &text[HEAD_SIZE + 256 * usize::from(pages)..]
}

/// Says what is so of the interrupt mode: it is below 3.
pub(crate) fn recall_mode(regs: &Regs)
    ensures { regs.now.mode < 3 }
{
    let _mode = regs.mode.0;
}

/// Does the instructions of a process, at most so many.
fn replay_parts(head: &mut Head, segment: &mut [u8], common: &mut [u8], most: u64) -> Replayed
    requires { IsCore (record { head = head.old; segment = segment.old; common = common.old }) }
    ensures { RunsCoreOn most (record { head = head.old; segment = segment.old; common = common.old }) (record { head = head.new; segment = segment.new; common = common.new }) result }
{
    let replayed = replay(
        head.inside,
        head.spec,
        &mut head.regs,
        segment,
        common,
        most,
    );
    recall_mode(&head.regs);
    replayed
}

/// Does the instructions of a process whose segment has the first bytes of a buffer, at most so many.
fn replay_kept(head: &mut Head, buffer: &mut [u8], common: &mut [u8], most: u64) -> Replayed
    requires { IsKeptCore head.old buffer.old common.old }
    ensures { RunsKept most head.old buffer.old common.old head.new buffer.new common.new result }
{
    let size = 256 * usize::from(head.spec.pages);
    replay_parts(head, &mut buffer[..size], common, most)
}

/// The head of no process: its segment has no page.
fn no_head() -> Head
    ensures { result ≡ no_core.head }
{
    Head {
        step: 0,
        process: Pid(0),
        spec: SegmentSpec { base: 0, pages: 0 },
        inside: false,
        regs: Regs::default(),
    }
}

impl Core {
    /// A core of no process, with all memory that one takes.
    ///
    /// # Errors
    /// Where no memory is found.
    pub fn new(alloc: Global) -> Result<Core, OutOfMemory>
        ensures { IfOk result (λ core. core ≡ no_core) }
    {
        let segment = zeros(alloc, LARGEST_SEGMENT)?;
        let common = zeros(alloc, COMMON_SIZE)?;
        Ok(Core {
            head: no_head(),
            segment,
            common,
        })
    }

    /// What it says of the process: its step, its number, its segment and its registers.
    pub fn head(&self) -> &Head
        ensures { result.now ≡ self.now.head }
    {
        &self.head
    }

    /// How many bytes the segment has.
    fn size(&self) -> usize
        ensures { result ≡ 256 * self.now.head.spec.pages }
    {
        256 * usize::from(self.head.spec.pages)
    }

    /// Writes the core as a file, one part after the other.
    ///
    /// # Errors
    /// Where the sink failed. A first part of the file stands then.
    pub fn write<S: Sink>(&self, sink: &mut S) -> Result<(), Failed>
        requires { IsCore self.now }
        ensures { PutsCore S.Sink (core_bytes self.now) sink.old sink.new result }
    {
        let head = self.head.bytes();
        put_three(sink, &head, &self.segment[..self.size()], &self.common)
    }

    /// Takes over what a core has: its head, its segment and common memory.
    pub(crate) fn fill(&mut self, head: Head, segment: &[u8], common: &[u8])
        requires { IsCore (record { head = head; segment = segment.now; common = common.now }) }
        ensures { self.new ≡ record { head = head; segment = segment.now; common = common.now } }
    {
        self.head = head;
        put_first(&mut self.segment, segment);
        self.common.copy_from_slice(common);
    }

    /// Reads the file of a core. All of it is judged first: the core is as it was where it is refused.
    ///
    /// # Errors
    /// Exactly where the bytes are no file of a core.
    #[tactic(auto, using(mpm_core_file::proofs::HeadLaws::again))]
    pub fn read(&mut self, text: &[u8]) -> Result<(), CoreFault>
        ensures { ReadsCore text.now self.old self.new result }
    {
        let head = match read_head(text) {
            Ok(head) => head,
            Err(fault) => return Err(fault),
        };
        let pages = head.spec.pages;
        self.fill(head, segment_in(text, pages), common_in(text, pages));
        Ok(())
    }

    /// Does the instructions of the process, at most so many.
    fn run_on(&mut self, most: u64) -> Replayed
        requires { IsCore self.old }
        ensures { RunsCoreOn most self.old self.new result }
    {
        replay_kept(&mut self.head, &mut self.segment, &mut self.common, most)
    }

    /// Does the instructions of the process by itself, at most so many. It stops before a gate, an opcode that isn't listed, and an
    /// instruction that reads a port. The number of steps stays. Where the core was taken of a machine whose next steps, so many, are
    /// instructions of that process alone, none of which reads a port, it does them all, and is then what would be taken after them.
    pub fn replay(&mut self, most: u64) -> Replayed
        requires { IsCore self.old }
        ensures { RunsByItself most self.old self.new result }
    {
        self.run_on(most)
    }
}
