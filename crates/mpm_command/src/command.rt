ghost use Rattle.std.specs.Prelude.{◌≡◌, ◌≤◌, ◌<◌, ◌-◌, IfOk, OnOk, length, drop};
ghost use Rattle.mpm_names.specs.Readings.{IsBytes, IsNumber, IsSuch, Reads};
ghost use Rattle.mpm_command.specs.Commands.{text_of as text_in, command_in, console_in, tail_in, command_named, program_drive, IsCommand};

use crate::text::{Run, front, rest};
use mpm_base::Name8;
use mpm_names::{BadName, Parsed, parse_filename};

/// What a command asks for: a program or a queue by its name.
#[derive(Clone, Copy, Debug, PartialEq, Eq)]
pub struct Command {
    /// The user of whoever sent it, 0 to 15.
    pub user: u8,
    /// The drive that it names or else that of whoever sent it, 0 for A to 15 for P.
    pub drive: u8,
    /// Whether it names a drive, so that no queue is meant.
    pub names_drive: bool,
    /// Its name in upper case, filled with spaces, or with `?` from a `*` on.
    pub name: Name8,
    /// Its password in upper case, filled with spaces, or zeros where there is none.
    pub password: [u8; 8],
}

/// What a message of the command queue asks for: user and drive in one byte, the console, and a text up to 00h or CR, which
/// begins with the command. It is a file name, whose type doesn't count.
///
/// # Errors
/// Where the text up to its first space doesn't begin with a file name.
#[tactic(auto, unfolding(crate::specs::Commands::command_in, crate::specs::Commands::tail_in), using(crate::proofs::Naming::spelled_drive, crate::proofs::Naming::is_no_name))]
pub fn command_of(message: &[u8; 130]) -> Result<Command, BadName>
    ensures command { Reads (command_in message.now) result }
    ensures bounds { IfOk result IsCommand }
    ensures tail { OnOk result (length (tail_in message.now) ≤ 127) }
{
    let text = text_of(message);
    let word = front(Run::Word, text);
    if word.is_empty() {
        return Err(BadName);
    }
    match parse_filename(word) {
        Ok(parsed) => Ok(named(message, parsed)),
        Err(BadName) => Err(BadName),
    }
}

/// The console of whoever sent a command.
pub fn console_of(message: &[u8; 130]) -> u8
    ensures { result ≡ console_in message.now }
{
    message[1]
}

/// The tail of a command: its text from the first space on, at most 128 bytes.
#[tactic(auto, unfolding(crate::specs::Commands::tail_in))]
pub fn tail_of(message: &[u8; 130]) -> &[u8]
    ensures { IsBytes (tail_in message.now) 128 result.now }
{
    rest(Run::Word, text_of(message))
}

/// The text of a message.
#[tactic(auto, unfolding(crate::specs::Commands::text_of))]
fn text_of(message: &[u8; 130]) -> &[u8]
    ensures { IsBytes (text_in message.now) 128 result.now }
{
    front(Run::Text, behind_sender(message))
}

/// What follows user, drive and console.
fn behind_sender(message: &[u8]) -> &[u8]
    requires { 2 ≤ length message.now }
    ensures { IsBytes (drop 2 message.now) (length message.now - 2) result.now }
{
    &message[2..]
}

/// The command of a name.
fn named(message: &[u8; 130], parsed: Parsed) -> Command
    requires { parsed.drive ≤ 16 }
    ensures { IsSuch (command_named message.now parsed) IsCommand result }
{
    let mut name = [0; 8];
    name.copy_from_slice(&parsed.name[..8]);
    Command {
        user: message[0] / 16,
        drive: drive_of(message[0] % 16, parsed.drive),
        names_drive: parsed.drive != 0,
        name: Name8(name),
        password: parsed.password,
    }
}

/// The drive of a command, by that of whoever sent it and the one that it names, 1 to 16 or 0.
fn drive_of(current: u8, drive: u8) -> u8
    requires current { current < 16 }
    requires named { drive ≤ 16 }
    ensures { IsNumber (program_drive current drive) 15 result }
{
    if drive == 0 { current } else { drive - 1 }
}
