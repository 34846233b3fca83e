ghost use Rattle.std.specs.Prelude.{◌≡◌, ◌<◌};
ghost use Rattle.mpm_gate.specs.Texts.{text_from};
ghost use Rattle.mpm_gate.specs.declared.take.TextEnd.TheVariants.{Dollar};
ghost use Rattle.mpm_banks.specs.Memory.{byte_at};
ghost use Rattle.mpm_procs.specs.Table.{call_of};
ghost use Rattle.mpm_system.specs.Asking.{MayWriteKept};
ghost use Rattle.mpm_kernel.specs.Columns.{tab_text, spoke, column_of};
ghost use Rattle.mpm_system.specs.Saying.{MayShow, ShowsBytes};
ghost use Rattle.mpm_system.specs.Strings.{ShowsString};

use mpm_banks::Banks;
use mpm_base::{Pid, Seg};
use mpm_consoles::Unit;
use mpm_kernel::Kernel;
use mpm_output::put_bytes;
use mpm_port::{Failed, Sink};
use mpm_render::Render;

/// Writes bytes to a console as they are, and moves its column.
pub fn write_bytes<S: Sink>(
    kernel: &mut Kernel,
    console: u8,
    bytes: &[u8],
    render: &mut Render,
    sink: &mut S,
) -> Result<(), Failed>
    requires { MayShow console kernel.old }
    ensures { ShowsBytes S.written S.faults console bytes.now kernel.old kernel.new render.old sink.old render.new sink.new result }
{
    move_column(kernel, console, bytes);
    put_bytes(console, bytes, render, sink)
}

/// Moves a console's column after bytes that come to it as they are.
fn move_column(kernel: &mut Kernel, console: u8, bytes: &[u8])
    requires { MayShow console kernel.old }
    ensures { kernel.new ≡ spoke kernel.old console bytes.now }
{
    for &byte in bytes {
        let _itself = kernel.write(Unit::Console { n: console }, byte, false);
    }
}

/// Writes a byte to a console, a tab as spaces up to the next column divisible by eight.
pub(crate) fn write_tabbed<S: Sink>(
    kernel: &mut Kernel,
    console: u8,
    byte: u8,
    render: &mut Render,
    sink: &mut S,
) -> Result<(), Failed>
    requires { MayShow console kernel.old }
    ensures { ShowsBytes S.written S.faults console (tab_text (column_of kernel.old console) byte) kernel.old kernel.new render.old sink.old render.new sink.new result }
{
    let spaces = kernel.write(Unit::Console { n: console }, byte, true);
    if spaces > 0 {
        put_bytes(console, &[b' '; 8][..spaces as usize], render, sink)
    } else {
        put_bytes(console, &[byte], render, sink)
    }
}

/// Writes the string at an address of a process's memory to a console, up to a dollar sign or 65,536 bytes, with tabs
/// expanded.
pub(crate) fn write_string<S: Sink>(
    kernel: &mut Kernel,
    console: u8,
    banks: &Banks,
    seg: Seg,
    address: u16,
    render: &mut Render,
    sink: &mut S,
) -> Result<(), Failed>
    requires { MayShow console kernel.old }
    ensures { ShowsString S.written S.faults console (text_from Dollar (byte_at banks.now seg) address 65536) kernel.old kernel.new render.old sink.old render.new sink.new result }
{
    for offset in 0..65_536u32 {
        let byte = banks.byte(seg, address.wrapping_add(offset as u16));
        if byte == b'$' {
            break;
        }
        write_tabbed(kernel, console, byte, render, sink)?;
    }
    Ok(())
}

/// Writes the bytes that the call of a process has to a console, with tabs expanded.
pub(crate) fn write_kept<S: Sink>(
    kernel: &mut Kernel,
    p: Pid,
    console: u8,
    render: &mut Render,
    sink: &mut S,
) -> Result<(), Failed>
    requires { MayWriteKept p console kernel.old }
    ensures { ShowsString S.written S.faults console (call_of kernel.old.dispatcher.procs p).bytes kernel.old kernel.new render.old sink.old render.new sink.new result }
{
    for place in 0..kernel.kept_call(p).taken().len() {
        let byte = kernel.kept_call(p).byte(place);
        write_tabbed(kernel, console, byte, render, sink)?;
    }
    Ok(())
}
