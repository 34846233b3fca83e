ghost use Rattle.std.specs.Prelude.{◌≡◌, ◌==◌, if◌then◌else◌};
ghost use Rattle.mpm_names.specs.Readings.{IsBytes, IsSuch};
ghost use Rattle.mpm_residents.specs.Messages.{message_of};
ghost use Rattle.mpm_residents.specs.Interpreters.{row_for_memory as memory_row, row_for_piece as piece_row, row_behind_code as row_after_code, row_behind_marks as row_after_marks, IsInterpreterRow};
ghost use Rattle.mpm_residents.specs.declared.cli.table.Message.TheVariants.{QueueFull, NoProcess};
ghost use Rattle.mpm_residents.specs.declared.cli.table.Row.TheVariants.{Give, Tell, ReadCommand, Free};

use mpm_loader::Load;

/// What the interpreter tells of a command that it can't follow.
#[derive(Clone, Copy, Debug, PartialEq, Eq)]
pub(crate) enum Message {
    NotFound,
    BadLoad,
    NoMemory,
    NoProcess,
    QueueFull,
}

impl Message {
    /// Its text, a line of its own.
    pub(crate) fn text(self) -> &'static [u8]
        ensures { IsBytes (message_of self) 19 result.now }
    {
        match self {
            Message::NotFound => b"Command not found\r\n",
            Message::BadLoad => b"Bad load\r\n",
            Message::NoMemory => b"No memory\r\n",
            Message::NoProcess => b"No process\r\n",
            Message::QueueFull => b"Queue full\r\n",
        }
    }
}

/// What the interpreter does next.
#[derive(Clone, Copy, Debug, PartialEq, Eq)]
pub(crate) enum Row {
    /// It reads a command from the queue of commands.
    ReadCommand,
    /// It asks for a queue of the command's name.
    OpenQueue,
    /// It writes the tail to that queue.
    WriteQueue,
    /// It becomes the command's user.
    SetUser,
    /// It opens the page relocatable program of the command's name.
    OpenRelocatable,
    /// It opens the program for page 0 of that name.
    OpenAbsolute,
    /// It reads the first records of a page relocatable program, with its header.
    ReadHeader,
    /// It asks how many records a program for page 0 has.
    ComputeSize,
    /// It becomes user 0, whose file the program is.
    SetUserZero,
    /// It reserves a segment of so many pages.
    Reserve { relocatable: bool, pages: u8 },
    /// It places the code that it read last.
    Place,
    /// It moves the code that is marked by what it read last.
    Patch,
    /// It reads the next records.
    ReadOn,
    /// It frees the segment again.
    Free { message: Message },
    /// It closes the file of a program that doesn't begin.
    CloseAfter { message: Message },
    /// It closes the file of the program that it loaded.
    Close,
    /// It tells what can't be done.
    Tell { message: Message },
    /// It gives the console back.
    Give,
    /// It places the base page.
    PlaceBasePage,
    /// It begins the process.
    Begin,
}

/// By the answer of the call that writes the tail to a queue.
pub(crate) fn row_after_write(hl: u16) -> Row
    ensures { result ≡ (if hl == 0 then Give else Tell QueueFull) }
{
    if hl == 0 {
        Row::Give
    } else {
        Row::Tell {
            message: Message::QueueFull,
        }
    }
}

/// By whether the process could begin.
pub(crate) fn row_after_begin(hl: u16) -> Row
    ensures { result ≡ (if hl == 0 then ReadCommand else Free NoProcess) }
{
    if hl == 0 {
        Row::ReadCommand
    } else {
        Row::Free {
            message: Message::NoProcess,
        }
    }
}

/// A segment is reserved, where the program fits into one.
#[tactic(auto, unfolding(crate::specs::Interpreters::row_for_memory))]
pub(crate) fn row_for_memory(relocatable: bool, load: &Load) -> Row
    ensures { IsSuch (memory_row relocatable load.now) (λ row. IsInterpreterRow row load.now) result }
{
    match load.plan().pages() {
        Some(pages) => Row::Reserve { relocatable, pages },
        None => Row::CloseAfter {
            message: Message::NoMemory,
        },
    }
}

/// What becomes of a piece of the file: its code is placed first.
#[tactic(auto, unfolding(crate::specs::Interpreters::row_for_piece))]
pub(crate) fn row_for_piece(load: &Load) -> Row
    ensures { IsSuch (piece_row load.now) (λ row. IsInterpreterRow row load.now) result }
{
    if !load.code().is_empty() {
        return Row::Place;
    }
    row_behind_code(load)
}

/// After that, code is moved by what the piece has of the marks.
#[tactic(auto, unfolding(crate::specs::Interpreters::row_behind_code))]
pub(crate) fn row_behind_code(load: &Load) -> Row
    ensures { IsSuch (row_after_code load.now) (λ row. IsInterpreterRow row load.now) result }
{
    if !load.marks().is_empty() {
        return Row::Patch;
    }
    row_behind_marks(load)
}

/// After that, the next piece is read, if one is left.
#[tactic(auto, unfolding(crate::specs::Interpreters::row_behind_marks))]
pub(crate) fn row_behind_marks(load: &Load) -> Row
    ensures { IsSuch (row_after_marks load.now) (λ row. IsInterpreterRow row load.now) result }
{
    if load.has_all() {
        Row::Close
    } else {
        Row::ReadOn
    }
}
