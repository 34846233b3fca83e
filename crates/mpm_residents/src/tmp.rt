ghost use Rattle.std.specs.Prelude.{◌≡◌};

mod line;

use crate::tmp::line::{LineForm, command_text, form_of};
use itoa::Buffer;
use mpm_base::{Call, Reply, functions};
use std::marker::Model;

/// The most bytes that a line of a terminal may have.
const MOST: u8 = 127;

/// Which call a terminal message processor makes next.
#[derive(Clone, Copy)]
pub(crate) enum Row {
    /// It attaches its console.
    Attach,
    /// It writes its prompt.
    Prompt,
    /// It reads a line.
    ReadLine,
    /// It goes to a new line after it.
    NewLine,
    /// It makes a drive its current one.
    SelectDrive { drive: u8 },
    /// It becomes another user.
    SetUser { user: u8 },
    /// It sends the line to the command line interpreter.
    SendCommand,
    /// It tells that there is no such drive.
    NoDrive,
}

/// A terminal message processor: it reads the lines of a console, follows those that name a drive or a user, and sends all
/// others to the command line interpreter. (MP/M II User's Guide, "Terminal Message Processor"; Programmer's Guide,
/// "Function 150: Send CLI Command".)
#[derive(Drop)]
pub struct Tmp {
    /// The console that it was started for.
    console: u8,
    /// Its user, 0 to 15.
    user: u8,
    /// Its drive, 0 for A.
    drive: u8,
    row: Row,
    /// The line that it read last: the first `length` of these bytes.
    line: [u8; 255],
    length: u8,
}

impl Model for Tmp {
    ghost use Rattle.std.specs.Prelude.{◌≤◌, ◌<◌, take};
    ghost use Rattle.mpm_residents.specs.Terminals.{Terminal, IsTerminalRow};

    ghost Value = { Terminal };

    ghost view = { λ t. record { console = t.console; user = t.user; drive = t.drive; row = t.row; line = take t.length t.line } };

    ghost invariant = { λ t. (t.length ≤ 255) × (t.user < 16) × (t.drive < 26) × IsTerminalRow t.row };
}

impl Tmp {
    ghost use Rattle.std.specs.Prelude.{◌≡◌};
    ghost use Rattle.mpm_base.specs.declared.functions.TheConstants.{PRINT_STRING, SEND_CLI_COMMAND};
    ghost use Rattle.mpm_residents.specs.Lines.{form_of};
    ghost use Rattle.mpm_base.specs.Calls.{asking};
    ghost use Rattle.mpm_messages.specs.Asking.{Asks};
    ghost use Rattle.mpm_names.specs.Readings.{IsSuch};
    ghost use Rattle.mpm_residents.specs.Terminals.{opening, prompt, command_of, next_call, took as behind, line_in, row_after as row_of, IsTerminalRow};

    /// The processor of a console: user 0 on drive A, and no console attached yet.
    #[tactic(auto, unfolding(crate::specs::Terminals::opening))]
    pub fn new(console: u8) -> Tmp
        ensures { result ≡ opening console }
    {
        Tmp {
            console,
            user: 0,
            drive: 0,
            row: Row::Attach,
            line: [0; 255],
            length: 0,
        }
    }

    /// Fills in the call that it makes next. It stays the same until its answer is taken.
    #[tactic(auto, unfolding(crate::specs::Terminals::next_call))]
    pub fn next(&mut self, call: &mut Call)
        ensures { Asks next_call self.old self.new call.new }
    {
        match self.row {
            Row::Attach => call.begin(functions::ATTACH_CONSOLE, 0, 0),
            Row::Prompt => self.fill_prompt(call),
            Row::ReadLine => {
                call.begin(functions::READ_CONSOLE_BUFFER, 0, 0);
                call.push(MOST);
            }
            Row::NewLine => call.begin(functions::CONSOLE_OUTPUT, u16::from(b'\n'), 0),
            Row::SelectDrive { drive } => call.begin(functions::SELECT_DISK, u16::from(drive), 0),
            Row::SetUser { user } => call.begin(functions::SET_GET_USER_CODE, u16::from(user), 0),
            Row::SendCommand => self.fill_command(call),
            Row::NoDrive => {
                call.begin(functions::PRINT_STRING, 0, 0);
                call.append(b"No drive\r\n");
            }
        }
    }

    /// The number of the function that it calls next.
    #[tactic(auto, unfolding(crate::specs::Terminals::next_call))]
    pub fn function(&self) -> u8
        ensures { result ≡ (next_call self.now).function }
    {
        match self.row {
            Row::Attach => functions::ATTACH_CONSOLE,
            Row::Prompt | Row::NoDrive => functions::PRINT_STRING,
            Row::ReadLine => functions::READ_CONSOLE_BUFFER,
            Row::NewLine => functions::CONSOLE_OUTPUT,
            Row::SelectDrive { .. } => functions::SELECT_DISK,
            Row::SetUser { .. } => functions::SET_GET_USER_CODE,
            Row::SendCommand => functions::SEND_CLI_COMMAND,
        }
    }

    /// Takes the answer to that call.
    #[tactic(auto, unfolding(crate::specs::Terminals::took, crate::specs::Terminals::next_call))]
    pub fn took(&mut self, reply: &Reply)
        ensures { self.new ≡ behind self.old reply.now }
    {
        self.row = match self.row {
            Row::Attach => Row::Prompt,
            Row::Prompt => Row::ReadLine,
            Row::ReadLine => {
                self.keep(reply);
                Row::NewLine
            }
            Row::NewLine => self.row_after_line(),
            Row::SelectDrive { drive } if reply.hl == 0 => {
                self.drive = drive;
                Row::Attach
            }
            Row::SelectDrive { .. } => Row::NoDrive,
            Row::SetUser { user } => {
                self.user = user;
                Row::Attach
            }
            Row::SendCommand | Row::NoDrive => Row::Attach,
        };
    }

    /// The call that writes its prompt: the user's number, the drive's letter and `>`.
    fn fill_prompt(&self, call: &mut Call)
        ensures { call.new ≡ asking PRINT_STRING 0 (prompt self.now) }
    {
        call.begin(functions::PRINT_STRING, 0, 0);
        let mut user = Buffer::new();
        call.append(user.format(self.user).as_bytes());
        call.push(b'A' + self.drive);
        call.push(b'>');
    }

    /// The call that sends its line: the user and the drive in one byte, the console, and the command.
    fn fill_command(&self, call: &mut Call)
        ensures { call.new ≡ asking SEND_CLI_COMMAND 0 (command_of self.now) }
    {
        call.begin(functions::SEND_CLI_COMMAND, 0, 0);
        call.push(16 * self.user + self.drive % 16);
        call.push(self.console);
        call.append(command_text(&self.line[..usize::from(self.length)]));
    }

    /// It keeps the line that was answered: its length comes first, and then its bytes.
    fn keep(&mut self, reply: &Reply)
        ensures { self.new ≡ record self.old { line = line_in reply.now } }
    {
        let placed = reply.placed();
        let (length, bytes) = match placed {
            [length, bytes @ ..] => (*length, bytes),
            [] => (0, placed),
        };
        let size = usize::from(length).min(bytes.len());
        self.line[..size].copy_from_slice(&bytes[..size]);
        self.length = size as u8;
    }

    /// Where it goes by its line.
    fn row_after_line(&self) -> Row
        ensures { IsSuch (row_of (form_of self.now.line)) IsTerminalRow result }
    {
        match form_of(&self.line[..usize::from(self.length)]) {
            LineForm::Empty => Row::Attach,
            LineForm::Drive { drive } => Row::SelectDrive { drive },
            LineForm::User { user } => Row::SetUser { user },
            LineForm::Command => Row::SendCommand,
        }
    }
}
