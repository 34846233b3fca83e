ghost use Rattle.std.specs.Prelude.{◌≡◌, ◌≤◌, false};

use mpm_base::functions;

/// What a kernel call reads in its caller's memory.
#[derive(Clone, Copy, Debug, PartialEq, Eq)]
pub enum Reads {
    /// Nothing: its registers say it all.
    Registers,
    /// So many bytes at the parameter.
    Block(u16),
    /// So many bytes at the parameter, then some at the address that stands in them as the word at `offset`.
    Pointing { size: u16, offset: u16, count: u16 },
    /// Process descriptors of 16 bytes: the one at the parameter, and those that are chained to it by their links, up to a
    /// link 0, at most 32. After each comes the word at its stack pointer.
    Descriptors,
    /// The string at the parameter up to a dollar sign, at most 4,096 bytes.
    DollarString,
    /// The text at the DMA address up to 00h or CR, at most 128 bytes.
    TextAtDma,
    /// Two bytes at the parameter, then the text after them up to 00h or CR, at most 128 bytes.
    Command,
    /// The file control block at the parameter, then so many bytes at the DMA address.
    File(u16),
    /// The file control block at the parameter, then, at the DMA address, so many bytes for each record of the
    /// multi-sector count.
    Records(u16),
}

ghost use Rattle.mpm_gate.specs.Reads.{reads_of as reads_in_table, most_read};

/// What the call of a function reads. (MP/M II Programmer's Guide, "BDOS Function Calls", "XDOS Function Calls".)
#[inline(always)]
#[tactic(auto, unfolding(crate::specs::Reads::reads_of))]
pub fn reads_of(function: u8) -> Reads
    ensures table { result ≡ reads_in_table function }
    ensures most { most_read result 16 ≤ 4096 }
{
    match function {
        functions::PRINT_STRING => Reads::DollarString,
        functions::READ_CONSOLE_BUFFER => Reads::Block(1),
        functions::OPEN_FILE
        | functions::DELETE_FILE
        | functions::RENAME_FILE
        | functions::SET_FILE_ATTRIBUTES => Reads::File(8),
        functions::CLOSE_FILE
        | functions::SEARCH_FOR_FIRST
        | functions::READ_SEQUENTIAL
        | functions::READ_RANDOM
        | functions::COMPUTE_FILE_SIZE
        | functions::SET_RANDOM_RECORD
        | functions::READ_FILE_XFCB => Reads::File(0),
        functions::WRITE_SEQUENTIAL
        | functions::WRITE_RANDOM
        | functions::WRITE_RANDOM_WITH_ZERO_FILL => Reads::Records(128),
        functions::MAKE_FILE => Reads::File(9),
        functions::TEST_AND_WRITE_RECORD => Reads::Records(256),
        functions::LOCK_RECORD | functions::UNLOCK_RECORD => Reads::File(2),
        functions::CHAIN_TO_PROGRAM => Reads::TextAtDma,
        functions::SET_DIRECTORY_LABEL | functions::WRITE_FILE_XFCB => Reads::File(16),
        functions::SET_DATE_AND_TIME
        | functions::ABSOLUTE_MEMORY_REQUEST
        | functions::RELOCATABLE_MEMORY_REQUEST
        | functions::MEMORY_FREE => Reads::Block(4),
        functions::SET_DEFAULT_PASSWORD => Reads::Block(8),
        functions::MAKE_QUEUE | functions::DELETE_QUEUE => Reads::Block(14),
        functions::OPEN_QUEUE | functions::READ_QUEUE | functions::CONDITIONAL_READ_QUEUE =>
            Reads::Block(12),
        functions::WRITE_QUEUE | functions::CONDITIONAL_WRITE_QUEUE => Reads::Pointing {
            size: 12,
            offset: 2,
            count: 2048,
        },
        functions::CREATE_PROCESS => Reads::Descriptors,
        functions::ASSIGN_CONSOLE => Reads::Block(10),
        functions::SEND_CLI_COMMAND => Reads::Command,
        functions::CALL_RESIDENT_SYSTEM_PROCEDURE => Reads::Pointing {
            size: 4,
            offset: 0,
            count: 8,
        },
        functions::PARSE_FILENAME => Reads::Pointing {
            size: 4,
            offset: 0,
            count: 128,
        },
        functions::ABORT_SPECIFIED_PROCESS => Reads::Block(13),
        _ => Reads::Registers,
    }
}

/// Whether the call of a function reads something in its caller's memory. Of those below 15 two do.
#[inline(always)]
#[tactic(auto, unfolding(crate::specs::Reads::reads_of))]
pub(crate) fn reads_memory(function: u8) -> bool
    ensures { result ≡ false → reads_in_table function ≡ Reads.Registers }
{
    if function < functions::OPEN_FILE {
        return matches!(
            function,
            functions::PRINT_STRING | functions::READ_CONSOLE_BUFFER
        );
    }
    match reads_of(function) {
        Reads::Registers => false,
        Reads::Block(_)
        | Reads::Pointing { .. }
        | Reads::Descriptors
        | Reads::DollarString
        | Reads::TextAtDma
        | Reads::Command
        | Reads::File(_)
        | Reads::Records(_) => true,
    }
}
