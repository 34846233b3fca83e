ghost use Rattle.std.specs.Prelude.{◌≡◌, ◌<◌, [], ◌∷◌, ◌++◌, length};
ghost use Rattle.mpm_output.specs.Writing.{WritesAlone};
ghost use Rattle.z80_regs.specs.Words.{word_of};
ghost use Rattle.mpm_render.specs.Completions.{completion};
ghost use Rattle.mpm_render.specs.Outputs.{Completed};
ghost use Rattle.mpm_system.specs.Written.{recorded_behind};

use mpm_base::Pid;
use mpm_port::{Failed, Sink};
use mpm_render::Render;
use std::marker::Model;
use z80_regs::Regs;

/// A completed call: the step, its process and its function, and the registers as its reply left them.
#[derive(Default, Drop)]
struct Record {
    step: u64,
    process: u8,
    function: u8,
    regs: Regs,
}

impl Model for Record {
    ghost use Rattle.z80_regs.specs.Words.{word_of};
    ghost use Rattle.mpm_render.specs.Completions.{Completion, completion};

    ghost Value = { Completion };

    ghost view = { λ r. completion r.step r.process r.function r.regs.a (word_of r.regs.c r.regs.b) (word_of r.regs.e r.regs.d) (word_of r.regs.l r.regs.h) };
}

impl Record {
    /// The record comes out.
    pub(crate) fn write<S: Sink>(&self, render: &mut Render, sink: &mut S) -> Result<(), Failed>
        ensures { WritesAlone S.written S.faults render.old sink.old render.new sink.new (Completed self.now ∷ []) result }
    {
        let regs = &self.regs;
        render.trace(
            self.step,
            self.process,
            self.function,
            regs.a,
            u16::from_le_bytes([regs.c, regs.b]),
            u16::from_le_bytes([regs.e, regs.d]),
            u16::from_le_bytes([regs.l, regs.h]),
            sink,
        )
    }
}

/// The records of the calls that this step completed and that aren't written yet, in order: the first `count` of `items`. There are at
/// most one by what the step begins with, 65 after it, and 64 by an end; one more by a call whose last turn is over.
#[derive(Drop)]
pub struct Records {
    count: u8,
    items: [Record; 131],
}

impl Model for Records {
    ghost use Rattle.std.specs.Prelude.{◌≤◌, List, take};
    ghost use Rattle.mpm_render.specs.Completions.{Completion};

    ghost Value = { List Completion };

    ghost view = { λ r. take r.count r.items };

    ghost invariant = { λ r. (r.count ≤ 131) };
}

impl Records {
    /// None.
    pub fn new() -> Records
        ensures { result ≡ [] }
    {
        Records {
            count: 0,
            items: Default::default(),
        }
    }

    /// One more, after the others: of a process's call of a function, in a step, which left these registers. It is filled in
    /// where it stands.
    #[inline(always)]
    pub(crate) fn put(&mut self, step: u64, p: Pid, function: u8, regs: &Regs)
        requires { length self.old < 131 }
        ensures { self.new ≡ self.old ++ completion step p function regs.now.a (word_of regs.now.c regs.now.b) (word_of regs.now.e regs.now.d) (word_of regs.now.l regs.now.h) ∷ [] }
    {
        let record = &mut self.items[usize::from(self.count)];
        record.step = step;
        record.process = p.0;
        record.function = function;
        record.regs = *regs;
        self.count += 1;
    }

    /// They come out, in order.
    pub(crate) fn write<S: Sink>(&self, render: &mut Render, sink: &mut S) -> Result<(), Failed>
        ensures { WritesAlone S.written S.faults render.old sink.old render.new sink.new (recorded_behind self.now []) result }
    {
        for call in self.as_slice() {
            if let Err(Failed) = call.write(render, sink) {
                return Err(Failed);
            }
        }
        Ok(())
    }

    /// All of them, in order.
    fn as_slice(&self) -> &[Record]
        ensures { result.now ≡ self.now }
    {
        &self.items[..usize::from(self.count)]
    }

    /// None are left.
    pub fn clear(&mut self)
        ensures { self.new ≡ [] }
    {
        self.count = 0;
    }
}
