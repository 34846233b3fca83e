ghost use Rattle.std.specs.Prelude.{◌≡◌, Some, None, Option};
ghost use Rattle.mpm_procs.specs.Table.{call_of, process_in};

use crate::system::System;
use mpm_base::{Pid, Reply, functions};
use mpm_file_functions::Extended;

/// Where the DMA address of a process begins: after the base page's first half.
const FIRST_DMA: u8 = 0x80;

impl System {
    ghost use Rattle.std.specs.Prelude.{is_none};
    ghost use Rattle.mpm_file_functions.specs.declared.refusals.Extended.{Extended};
    ghost use Rattle.mpm_directories.specs.Direct.{Resets};
    ghost use Rattle.mpm_system.specs.Whole.{LivesInSystem, MayRecord};
    ghost use Rattle.mpm_system.specs.Asking.{MayMakeFileCall};
    ghost use Rattle.mpm_system.specs.FileCalling.{call_made, change_of, with_caller, first_dma, file_replied};

    /// A step begins in which a process makes its file call, which it keeps.
    #[tactic(auto, unfolding(crate::specs::FileCalling::call_made))]
    pub fn make_file_call(&mut self, p: Pid)
        requires { MayMakeFileCall p self.old }
        ensures { self.new ≡ call_made p self.old }
    {
        self.steps += 1;
        match self.kernel.segment(p) {
            Some(seg) => {
                self.take_call(p, seg);
                self.pop(p, seg);
            }
            None => self.ask_next(p),
        }
    }

    /// The caller of 13 has the first drive and its first DMA address again, and that of 14 the drive that it selects, unless it
    /// is refused.
    #[tactic(auto, unfolding(crate::specs::FileCalling::with_caller, crate::specs::FileCalling::change_of))]
    pub fn change_caller(&mut self, p: Pid, granted: bool)
        requires { LivesInSystem p self.old }
        ensures { (error : Option Extended) → granted ≡ is_none error → self.new ≡ with_caller (change_of (call_of self.old.kernel.dispatcher.procs p) error) p self.old }
    {
        let call = self.kernel.kept_call(p);
        let drive = (call.word % 256) as u8;
        match call.function {
            functions::RESET_DISK_SYSTEM => self.reset_caller(p),
            functions::SELECT_DISK if granted => self.kernel.process_mut(p).drive = drive,
            _ => {}
        }
    }

    /// A process has the first drive and its first DMA address again.
    #[tactic(auto, unfolding(crate::specs::FileCalling::with_caller))]
    fn reset_caller(&mut self, p: Pid)
        requires { LivesInSystem p self.old }
        ensures { self.new ≡ with_caller Resets p self.old }
    {
        let dma = self.first_dma(p);
        let process = self.kernel.process_mut(p);
        process.drive = 0;
        process.dma = dma;
    }

    /// The DMA address with which a process begins.
    #[tactic(auto, using(crate::proofs::WholeLaws::segment_is_there))]
    fn first_dma(&self, p: Pid) -> u16
        requires { LivesInSystem p self.now }
        ensures { result ≡ first_dma self.now.memory (process_in self.now.kernel.dispatcher.procs p).seg }
    {
        match self.kernel.segment(p) {
            Some(seg) => u16::from_le_bytes([FIRST_DMA, self.memory.spec(seg).base]),
            None => 0,
        }
    }

    /// A file call that a process keeps is answered: its reply is placed, and its record joins the others; a resident takes the
    /// answer.
    #[tactic(auto, unfolding(crate::specs::FileCalling::file_replied))]
    pub fn put_file_reply(&mut self, p: Pid, reply: &Reply)
        requires { MayRecord p self.old }
        ensures { self.new ≡ file_replied reply.now p self.old }
    {
        match self.kernel.segment(p) {
            Some(seg) => self.answer(p, seg, reply),
            None => self.take_answer(p, reply),
        }
    }
}
