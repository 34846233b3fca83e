ghost use Rattle.std.specs.Prelude.{◌≡◌, ◌≤◌, ◌<◌, length};
ghost use Rattle.mpm_names.specs.Readings.{IsNumber};
ghost use Rattle.mpm_residents.specs.Interpreters.{handing, queue_block as block_of_queue, file_block as block_of_file, read_only as name_read_only, code_address as address_of_code, message_in as message_of_bytes, size_in as size_of_block};

use mpm_base::{Call, SegmentSpec, in_width};
use mpm_command::Command;
use mpm_messages::ask;

/// Hands bytes over, at most 4,096, with no call.
pub(crate) fn hand(call: &mut Call, bytes: &[u8])
    requires { length bytes.now ≤ 4096 }
    ensures { call.new ≡ handing bytes.now }
{
    ask(call, 0, 0, bytes);
}

/// The user queue control block of the queue of a command's name.
pub(crate) fn queue_block(pointer: u16, command: &Command) -> [u8; 12]
    ensures { result ≡ block_of_queue pointer command.now }
{
    let mut block = [0; 12];
    block[4..].copy_from_slice(&command.name.0);
    block[..2].copy_from_slice(&pointer.to_le_bytes());
    block
}

/// The file control block with which a command's program of a type is opened, read-only.
#[tactic(auto, unfolding(mpm_base::specs::Lists::zeros))]
pub(crate) fn file_block(command: &Command, kind: &[u8; 3]) -> [u8; 36]
    requires { command.now.drive < 16 }
    ensures { result ≡ block_of_file command.now kind.now }
{
    let mut block = [0; 36];
    block[9..12].copy_from_slice(kind);
    block[1..9].copy_from_slice(&read_only(command.name.0));
    block[0] = command.drive + 1;
    block
}

/// A name of eight bytes with the attribute F6'.
fn read_only(name: [u8; 8]) -> [u8; 8]
    ensures { result ≡ name_read_only name }
{
    let mut marked = name;
    marked[5] |= 0x80;
    marked
}

/// The address of a byte of code in a segment that lies there.
pub(crate) fn code_address(spec: SegmentSpec, place: u32) -> u16
    requires { place < 4294901760 }
    ensures { result ≡ address_of_code spec place }
{
    ((256 * u32::from(spec.base) + 256 + place) % 65536) as u16
}

/// A message of the command queue, as many bytes as it has.
pub(crate) fn message_in(bytes: &[u8]) -> [u8; 130]
    ensures { result ≡ message_of_bytes bytes.now }
{
    in_width(bytes)
}

/// How many records a file has, as its control block says.
pub(crate) fn size_in(fcb: &[u8; 36]) -> u32
    ensures { IsNumber (size_of_block fcb.now) 16777215 result }
{
    u32::from(fcb[33]) + 256 * u32::from(fcb[34]) + 65536 * u32::from(fcb[35])
}
