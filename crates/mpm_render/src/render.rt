ghost use Rattle.std.specs.Prelude.{◌≡◌};
ghost use Rattle.mpm_render.specs.Completions.{completion, trace_line};
ghost use Rattle.mpm_render.specs.Puts.{WritesText};

use crate::line::Line;
use crate::text::LineText;
use mpm_base::Unit;
use mpm_port::{Failed, Sink};
use std::marker::Model;

/// The lines of a machine's consoles and printers as they grow, and whether the records of completed calls are
/// written too.
#[derive(Drop)]
pub struct Render {
    lines: [Line; 12],
    trace: bool,
}

impl Model for Render {
    ghost use Rattle.mpm_render.specs.Shown.{KeptLines};

    ghost Value = { KeptLines };

    ghost view = { λ render. record { lines = render.lines; trace = render.trace } };
}

impl Render {
    ghost use Rattle.mpm_base.specs.Units.{IsUnit};
    ghost use Rattle.mpm_render.specs.Completions.{completion};
    ghost use Rattle.mpm_render.specs.Calls.{BeginsEmpty, TakesByte, RecordsCall, ClosesLines};

    /// Empty lines; `trace` says whether the records of completed calls are written.
    pub fn new(trace: bool) -> Render
        ensures { BeginsEmpty trace result }
    {
        Render {
            lines: Default::default(),
            trace,
        }
    }

    /// Whether the records of completed calls are written.
    pub fn is_tracing(&self) -> bool
        ensures { result ≡ self.now.trace }
    {
        self.trace
    }

    /// Gives a byte to a console (below 8) or printer (below 4). An LF, or the 200th byte since the last end of line,
    /// writes the line with one `put`; any other byte puts nothing. If the `put` fails, the lines stay as they were.
    pub fn put<S: Sink>(&mut self, stream: Unit, byte: u8, sink: &mut S) -> Result<(), Failed>
        requires { IsUnit stream }
        ensures { TakesByte S.Sink stream byte self.old self.new sink.old sink.new result }
    {
        let place = stream.place();
        let line = &mut self.lines[place as usize];
        line.put(place, byte, sink)
    }

    /// Writes the record of a completed call with one `put`, where the renderer was made to trace; else puts nothing. The
    /// record has the step in which the call completed, the process `p` that made it, its function's number, and the
    /// registers as the reply left them. The unfinished lines stay as they were.
    #[tactic(auto, using(crate::proofs::Laws::pending_completed, crate::proofs::Laws::rendered_unasked))]
    pub fn trace<S: Sink>(
        &mut self,
        step: u64,
        p: u8,
        function: u8,
        a: u8,
        bc: u16,
        de: u16,
        hl: u16,
        sink: &mut S,
    ) -> Result<(), Failed>
        ensures { RecordsCall S.Sink (completion step p function a bc de hl) self.old self.new sink.old sink.new result }
    {
        if !self.trace {
            return Ok(());
        }
        write_record(step, p, function, a, bc, de, hl, sink)
    }

    /// Writes each line that isn't empty, consoles first, by number, each with one `put`, up to the first that fails. Each line
    /// that was written is empty then; the one that failed and those after it stay.
    pub fn finish<S: Sink>(&mut self, sink: &mut S) -> Result<(), Failed>
        ensures { ClosesLines S.Sink self.old self.new sink.old sink.new result }
    {
        for place in 0..12 {
            let line = &mut self.lines[place as usize];
            line.close(place, sink)?;
        }
        Ok(())
    }
}

/// Writes the record of a completed call. It is code of its own, so that a call that isn't recorded takes little.
#[inline(never)]
#[tactic(auto, using(crate::proofs::Putting::puts_some))]
fn write_record<S: Sink>(
    step: u64,
    p: u8,
    function: u8,
    a: u8,
    bc: u16,
    de: u16,
    hl: u16,
    sink: &mut S,
) -> Result<(), Failed>
    ensures { WritesText S.Sink (trace_line (completion step p function a bc de hl)) sink.old sink.new result }
{
    let text = LineText::traced(step, p, function, a, bc, de, hl);
    sink.put(text.as_slice())
}
