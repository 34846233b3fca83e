ghost use Rattle.std.specs.Prelude.{◌≡◌};
ghost use Rattle.mpm_top.specs.Seeds.{report as report_said};
ghost use Rattle.mpm_top.specs.RunParts.{PutsReport};

use crate::seeds::Found;
use arrayvec::ArrayVec;
use mpm_lines::push_line;
use mpm_port::{Failed, Sink};

/// Writes what is reported of a run, by one put.
pub(crate) fn put_report<S: Sink>(found: &Found, sink: &mut S) -> Result<(), Failed>
    ensures { PutsReport S.Sink found.now sink.old sink.new result }
{
    let text = report(found);
    sink.put(text.as_slice())
}

/// The three lines of a report.
#[tactic(auto, unfolding(crate::specs::Seeds::report))]
fn report(found: &Found) -> ArrayVec<u8, 96>
    ensures { result.items ≡ report_said found.now }
{
    let mut text = ArrayVec::new();
    push_line(b"lines", found.lines, &mut text);
    push_line(b"calls", found.calls, &mut text);
    push_line(b"data", found.data, &mut text);
    text
}
