//! The lines that consoles, printers and records of calls make, and how often a sink is called for them.
ghost use Rattle.std.specs.Prelude.{◌≡◌, ◌+◌, ◌-◌, ◌^◌, min};
ghost use Rattle.mpm_base.specs.Units.{IsUnit};

use arrayvec::ArrayVec;
use mpm_port::{Failed, Sink};
use mpm_render::{Render, Unit};
use std::test::Fail;

const CONSOLE: Unit = Unit::Console { n: 0 };

const LAST_CONSOLE: Unit = Unit::Console { n: 7 };

const PRINTER: Unit = Unit::Printer { n: 1 };

/// Keeps what was written, and counts the calls; a call that asks for more than there is room for fails.
#[derive(Drop)]
struct Paper {
    bytes: ArrayVec<u8, 1024>,
    room: usize,
    puts: u64,
    faults: u64,
}

impl Sink for Paper {
    ghost written = { λ sink. sink.bytes.items };

    ghost faults = { λ sink. sink.faults };

    ghost took = { λ old _ new. new.puts ≡ min (old.puts + 1) (2 ^ 64 - 1) };

    ghost dropped = { λ old _ new. new.puts ≡ min (old.puts + 1) (2 ^ 64 - 1) };

    #[tactic(auto, using(mpm_render::proofs::Grows::appends_none, mpm_port::proofs::Faults::rose))]
    fn put(&mut self, bytes: &[u8]) -> Result<(), Failed> {
        self.puts = self.puts.saturating_add(1);
        if bytes.len() > self.room || self.bytes.try_extend_from_slice(bytes).is_err() {
            self.faults = self.faults.saturating_add(1);
            return Err(Failed);
        }
        Ok(())
    }
}

fn sink() -> Paper {
    Paper {
        bytes: ArrayVec::new(),
        room: 1024,
        puts: 0,
        faults: 0,
    }
}

fn say(render: &mut Render, unit: Unit, bytes: &[u8], sink: &mut Paper) -> Result<(), Failed>
    requires { IsUnit unit }
{
    for byte in bytes {
        render.put(unit, *byte, sink)?;
    }
    Ok(())
}

/// Whether a sink has so many calls and bytes.
fn has(sink: &Paper, puts: u64, bytes: &[u8]) -> bool {
    sink.puts == puts && sink.bytes.as_slice() == bytes
}

/// Whether a text of some units goes well.
fn says(render: &mut Render, unit: Unit, bytes: &[u8], sink: &mut Paper) -> bool
    requires { IsUnit unit }
{
    say(render, unit, bytes, sink).is_ok()
}

/// Whether each unit keeps its own line.
fn interleave(render: &mut Render, sink: &mut Paper) -> bool {
    says(render, CONSOLE, b"Hi", sink)
        && says(render, PRINTER, b"#~", sink)
        && says(render, LAST_CONSOLE, b"\t\\\x07", sink)
        && says(render, CONSOLE, b"\r\nA>", sink)
        && says(render, PRINTER, b"\x0c\x7f\n", sink)
        && has(sink, 2, b"c0 Hi\\r\nl1 #~\\x0C\\x7F\n")
        && render.finish(sink).is_ok()
        && has(
            sink,
            4,
            b"c0 Hi\\r\nl1 #~\\x0C\\x7F\nc0 A>\\\nc7 \\t\\\\\\x07\\\n",
        )
}

#[test]
fn units_interleave(rt: HostRuntime) -> Result<(), Fail> {
    let mut render = Render::new(false);
    let mut sink = sink();
    let interleaved = interleave(&mut render, &mut sink);
    assert!(rt; interleaved);
    Ok(())
}

/// Whether a line of 200 bytes is cut.
fn is_cut(render: &mut Render, sink: &mut Paper) -> bool {
    if !says(render, LAST_CONSOLE, &[b'\xff'; 199], sink) || sink.puts != 0 {
        return false;
    }
    says(render, LAST_CONSOLE, b"\xff\n", sink)
        && sink.puts == 2
        && sink.bytes.len() == 809
        && sink.bytes.as_slice().ends_with(b"\\xFF\\xFF\\\nc7 \n")
}

#[test]
fn a_full_line_is_cut(rt: HostRuntime) -> Result<(), Fail> {
    let mut render = Render::new(false);
    let mut sink = sink();
    let cut = is_cut(&mut render, &mut sink);
    assert!(rt; cut);
    Ok(())
}

/// Whether nothing is closed where nothing was said.
fn closes_nothing(render: &mut Render, sink: &mut Paper) -> bool {
    says(render, PRINTER, b"x\n", sink) && render.finish(sink).is_ok() && has(sink, 1, b"l1 x\n")
}

#[test]
fn nothing_is_closed_where_nothing_was_said(rt: HostRuntime) -> Result<(), Fail> {
    let mut render = Render::new(true);
    let mut sink = sink();
    let closed = closes_nothing(&mut render, &mut sink);
    assert!(rt; closed);
    Ok(())
}

/// Whether a line is kept that could not be written.
fn is_kept(render: &mut Render, sink: &mut Paper) -> bool {
    if !says(render, CONSOLE, b"A", sink) {
        return false;
    }
    sink.room = 3;
    let failed = render.put(CONSOLE, b'\n', sink) == Err(Failed)
        && render.finish(sink) == Err(Failed);
    sink.room = 1024;
    failed && render.finish(sink).is_ok() && sink.bytes.as_slice() == b"c0 A\\\n".as_slice()
}

#[test]
fn a_failed_line_is_kept(rt: HostRuntime) -> Result<(), Fail> {
    let mut render = Render::new(false);
    let mut sink = sink();
    let kept = is_kept(&mut render, &mut sink);
    assert!(rt; kept);
    Ok(())
}

/// Whether each completed call is a line.
fn are_lines(render: &mut Render, sink: &mut Paper) -> bool {
    render
        .trace(4, 0, 12, 0x30, 0x010c, 0x0000, 0x0130, sink)
        .is_ok()
        && render
            .trace(5, 0, 9, 0x00, 0x0009, 0x010d, 0x0000, sink)
            .is_ok()
        && has(
            sink,
            2,
            b"t 4 0 12 30 010C 0000 0130\nt 5 0 9 00 0009 010D 0000\n",
        )
}

/// Whether a record comes before the line that isn't finished.
fn comes_first(render: &mut Render, sink: &mut Paper) -> bool {
    says(render, CONSOLE, b"A", sink)
        && render
            .trace(4_000_000_000, 31, 255, 0xff, 0xffff, 0x00ab, 0xc0de, sink)
            .is_ok()
        && says(render, CONSOLE, b"B\n", sink)
        && has(sink, 2, b"t 4000000000 31 255 FF FFFF 00AB C0DE\nc0 AB\n")
}

/// Whether a record that could not be written leaves the lines.
fn leaves_lines(render: &mut Render, sink: &mut Paper) -> bool {
    if !says(render, CONSOLE, b"A", sink) {
        return false;
    }
    sink.room = 25;
    let failed = render.trace(5, 0, 9, 0x00, 0x0009, 0x010d, 0x0000, sink) == Err(Failed);
    let once = sink.puts == 1;
    sink.room = 1024;
    failed && once && render.finish(sink).is_ok() && has(sink, 2, b"c0 A\\\n")
}

#[test]
fn a_completed_call_is_a_line(rt: HostRuntime) -> Result<(), Fail> {
    let mut render = Render::new(true);
    let mut sink = sink();
    let lines = are_lines(&mut render, &mut sink);
    assert!(rt; lines);
    Ok(())
}

#[test]
fn a_record_leaves_the_unfinished_line(rt: HostRuntime) -> Result<(), Fail> {
    let mut render = Render::new(true);
    let mut sink = sink();
    let first = comes_first(&mut render, &mut sink);
    assert!(rt; first);
    Ok(())
}

#[test]
fn a_failed_record_leaves_the_lines(rt: HostRuntime) -> Result<(), Fail> {
    let mut render = Render::new(true);
    let mut sink = sink();
    let left = leaves_lines(&mut render, &mut sink);
    assert!(rt; left);
    Ok(())
}

/// Whether no record is put where none is asked for.
fn puts_no_record(render: &mut Render, sink: &mut Paper) -> bool {
    says(render, CONSOLE, b"A", sink)
        && render
            .trace(5, 0, 9, 0x00, 0x0009, 0x010d, 0x0000, sink)
            .is_ok()
        && sink.puts == 0
        && render.finish(sink).is_ok()
        && sink.bytes.as_slice() == b"c0 A\\\n".as_slice()
}

#[test]
fn nothing_is_put_without_trace(rt: HostRuntime) -> Result<(), Fail> {
    let mut render = Render::new(false);
    let mut sink = sink();
    let none = puts_no_record(&mut render, &mut sink);
    assert!(rt; none);
    Ok(())
}
