ghost use Rattle.std.specs.Prelude.{◌<◌};
ghost use Rattle.mpm_output.specs.Writing.{spoken, WritesAlone};

use mpm_port::{Failed, Sink};
use mpm_render::{Render, Unit};

/// Bytes come out at a console as they are.
pub fn put_bytes<S: Sink>(
    console: u8,
    bytes: &[u8],
    render: &mut Render,
    sink: &mut S,
) -> Result<(), Failed>
    requires { console < 8 }
    ensures wrote { WritesAlone S.written S.faults render.old sink.old render.new sink.new (spoken console bytes.now) result }
{
    for &byte in bytes {
        render.put(Unit::Console { n: console }, byte, sink)?;
    }
    Ok(())
}
