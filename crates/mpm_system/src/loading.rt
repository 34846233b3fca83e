ghost use Rattle.std.specs.Prelude.{◌≡◌};
ghost use Rattle.mpm_banks.specs.Ranges.{range_of};
ghost use Rattle.mpm_procs.specs.Table.{call_of};
ghost use Rattle.mpm_system.specs.Asking.{MayMoveRange, TellsMayLive, MayBeginFor};
ghost use Rattle.mpm_system.specs.Loading.{moved};
ghost use Rattle.mpm_system.specs.Processes.{BeginsFor};

use crate::system::System;
use mpm_banks::Banks;
use mpm_base::{FAILURE_CODE, Pid, Seg};
use mpm_gate::put_bytes;
use mpm_kernel::Kernel;
use mpm_prl::patch;
use mpm_procs::{NewProcess, NoSlot};
use mpm_residents::Act;

impl System {
    ghost use Rattle.mpm_system.specs.Whole.{LivesInSystem};
    ghost use Rattle.mpm_system.specs.Leaving.{LeavesSystem};
    ghost use Rattle.mpm_system.specs.Loading.{placing, moving, giving, beginning, begins, handed_over, handed_value};

    /// What the interpreter of a slot hands over is done, with the bytes of the call that its process keeps. Answers 0, or FFh
    /// where no process can begin.
    pub(crate) fn hand_over(&mut self, p: Pid, act: Act) -> u16
        requires { LivesInSystem p self.old }
        ensures { LeavesSystem (handed_over act (call_of self.old.kernel.dispatcher.procs p).bytes p self.old) (handed_value act self.old) self.new result }
    {
        match act {
            Act::Ask => 0,
            Act::PlaceBytes { seg, address, .. } => {
                self.place_bytes(p, seg, address);
                0
            }
            Act::MoveCode {
                seg,
                address,
                length,
                page,
            } => {
                self.move_code(p, seg, address, length, page);
                0
            }
            Act::BeginProcess { seg, new } => {
                if self.begin_program(p, seg, new) {
                    0
                } else {
                    FAILURE_CODE
                }
            }
            Act::GiveConsole { console } => {
                self.give_console(p, console);
                0
            }
        }
    }

    /// The bytes of the call that a process keeps come into a segment, from an address on.
    fn place_bytes(&mut self, p: Pid, seg: Seg, address: u16)
        requires { LivesInSystem p self.old }
        ensures { self.new ≡ placing seg address (call_of self.old.kernel.dispatcher.procs p).bytes self.old }
    {
        let bytes = self.kernel.kept_call(p).from(0);
        put_bytes(bytes, &mut self.memory, seg, address);
    }

    /// So many bytes of code in a segment, from an address on, are moved to a page, as the bytes of the call that a process
    /// keeps mark them.
    fn move_code(&mut self, p: Pid, seg: Seg, address: u16, count: u16, page: u8)
        requires { LivesInSystem p self.old }
        ensures { self.new ≡ moving seg address count (call_of self.old.kernel.dispatcher.procs p).bytes page self.old }
    {
        let marks = self.kernel.kept_call(p).from(0);
        if 0 < count && usize::from(count) <= 8 * marks.len() {
            move_range(&mut self.memory, seg, address, count, marks, page);
        }
    }

    /// A process gives a console to the one that waits for it first, if it owns it.
    fn give_console(&mut self, p: Pid, console: u8)
        requires { LivesInSystem p self.old }
        ensures { self.new ≡ giving console p self.old }
    {
        if console < self.kernel.consoles() {
            self.kernel.give(console, Some(p), None);
        }
    }

    /// The process of a program begins in a segment, and owns its console where the one that hands it over does. Answers
    /// whether a process may live there, its console is there and a slot is free.
    fn begin_program(&mut self, p: Pid, seg: Seg, new: NewProcess) -> bool
        requires { LivesInSystem p self.old }
        ensures { LeavesSystem (beginning seg new p self.old) (begins seg new self.old) self.new result }
    {
        if !may_live(&self.memory, seg) || self.kernel.consoles() <= new.console {
            return false;
        }
        if !begin_for(
            &mut self.kernel,
            p,
            NewProcess {
                seg: Some(seg),
                ..new
            },
        ) {
            return false;
        }
        let base = self.memory.spec(seg).base;
        put_bytes(&[0, base], &mut self.memory, seg, new.sp);
        self.memory.occupy(seg);
        true
    }
}

/// The code of a range of memory is moved to a page.
fn move_range(banks: &mut Banks, seg: Seg, address: u16, count: u16, marks: &[u8], page: u8)
    requires { MayMoveRange count marks.now }
    ensures { banks.new ≡ moved (range_of banks.old seg address count) marks.now page banks.old }
{
    let Some(window) = banks.window(seg, address, count) else {
        return;
    };
    patch(window.into_bytes(), marks, page);
}

/// Whether a process may live in a segment.
fn may_live(banks: &Banks, seg: Seg) -> bool
    ensures { TellsMayLive banks.now seg result }
{
    if banks.segments() <= seg.0 {
        return false;
    }
    let spec = banks.spec(seg);
    4 <= spec.pages && u16::from(spec.base) + u16::from(spec.pages) <= 192
}

/// A process begins, if a slot is free, and owns its console where the one that hands it over does. Answers whether it does.
fn begin_for(kernel: &mut Kernel, p: Pid, new: NewProcess) -> bool
    requires { MayBeginFor p new kernel.old }
    ensures { BeginsFor p new kernel.old kernel.new result }
{
    let console = new.console;
    match kernel.admit(new) {
        Ok(q) => {
            kernel.give(console, Some(p), Some(q));
            true
        }
        Err(NoSlot) => false,
    }
}
