ghost use Rattle.std.specs.Prelude.{◌≡◌, ◌<◌, true, drop};
ghost use Rattle.mpm_names.specs.Readings.{IsBytes, Reads, ReadsForm};
ghost use Rattle.mpm_sched.specs.Entries.{entry_of, entry_in, is_form as is_form_of, is_time as is_time_of_day, date_written, entry_of_parts, written, has_date as has_date_at, has_time as has_time_at, has_console as has_console_at, SpellsEntry, HasNoEntryForm};
ghost use Rattle.mpm_sched.specs.Forms.{IsEntryText, IsYearOf};

use crate::date::date_of;
use crate::digits::{byte_at, has_two, two_at};
use mpm_base::in_width;
use mpm_messages::{text_of, without_leading_spaces};

/// A command, and the moment at which it is sent.
#[derive(Clone, Copy, Debug, PartialEq, Eq)]
pub struct SchedEntry {
    /// The number of the day, of which 1 is 1 January 1978.
    pub date: u16,
    pub hour: u8,
    pub minute: u8,
    /// The console of the command, 0 to 7.
    pub console: u8,
    /// How many bytes the command has, 1 at least.
    pub length: u8,
    /// Those bytes come first, and zeros after them.
    pub command: [u8; 128],
}

impl SchedEntry {
    ghost use Rattle.std.specs.Prelude.{◌≡◌, take};
    ghost use Rattle.mpm_names.specs.Readings.{IsBytes};
    ghost use Rattle.mpm_sched.specs.Schedules.{time_of};

    /// Its moment in minutes.
    pub(crate) fn time(&self) -> u32
        ensures { result ≡ time_of self.now }
    {
        1440 * u32::from(self.date) + 60 * u32::from(self.hour) + u32::from(self.minute)
    }

    /// Its command.
    pub(crate) fn text(&self) -> &[u8]
        ensures { IsBytes (take self.now.length self.now.command) 128 result.now }
    {
        &self.command[..usize::from(self.length).min(128)]
    }
}

/// No entry, as it stands in a place that is free.
impl Default for SchedEntry {
    ghost use Rattle.std.specs.Prelude.{◌≡◌};
    ghost use Rattle.mpm_sched.specs.Schedules.{no_entry};

    ghost is_default = { λ entry. entry ≡ no_entry };

    #[tactic(auto, unfolding(mpm_base::specs::Lists::zeros))]
    fn default() -> SchedEntry {
        SchedEntry {
            date: 0,
            hour: 0,
            minute: 0,
            console: 0,
            length: 0,
            command: [0; 128],
        }
    }
}

/// A message that asks for no command.
#[derive(Clone, Copy, Debug, PartialEq, Eq)]
pub struct BadSchedEntry;

/// Reads an entry of the scheduler's queue, up to 00h, CR or its end: spaces or none, and `MM/DD/YY HH:MM C COMMAND`, parts parted by one
/// space, numbers of two digits each, and C one digit from 0 to 7. Years 78 to 99 are 1978 to 1999, and 00 to 77 are 2000 to 2077.
///
/// # Errors
/// Exactly where that form isn't met, the calendar has no such day, or the day no such time.
#[tactic(auto, using(crate::proofs::Formed::entry_spelled, crate::proofs::Formed::none_spelled), unfolding(crate::specs::Entries::entry_of))]
pub fn read_entry(text: &[u8; 128]) -> Result<SchedEntry, BadSchedEntry>
    ensures { ReadsForm (entry_of text.now) (SpellsEntry text.now) (HasNoEntryForm text.now) result }
{
    let text = without_leading_spaces(text_of(text));
    if !is_form(text) {
        return Err(BadSchedEntry);
    }
    read_moment(text)
}

/// The entry of a text in the form.
fn read_moment(text: &[u8]) -> Result<SchedEntry, BadSchedEntry>
    requires { IsEntryText text.now }
    ensures { Reads (entry_in text.now) result }
{
    let hour = two_at(text, 9);
    let minute = two_at(text, 12);
    if !is_time(hour, minute) {
        return Err(BadSchedEntry);
    }
    match date_in(text) {
        Some(date) => Ok(entry_at(text, date, hour, minute)),
        None => Err(BadSchedEntry),
    }
}

/// Whether there is such a time of day.
fn is_time(hour: u8, minute: u8) -> bool
    ensures { result ≡ is_time_of_day hour minute }
{
    hour < 24 && minute < 60
}

/// The date of a text in the form, if the calendar has it.
fn date_in(text: &[u8]) -> Option<u16>
    requires { is_form_of text.now ≡ true }
    ensures { result ≡ date_written (written text.now) }
{
    date_of(year(two_at(text, 6)), two_at(text, 0), two_at(text, 3))
}

/// The entry of a text in the form, of a date and a time.
fn entry_at(text: &[u8], date: u16, hour: u8, minute: u8) -> SchedEntry
    requires { IsEntryText text.now }
    ensures { result ≡ entry_of_parts date hour minute (written text.now) }
{
    let command = command_in(text);
    SchedEntry {
        date,
        hour,
        minute,
        console: byte_at(text, 15) - b'0',
        length: command.len() as u8,
        command: in_width(command),
    }
}

/// The command of a text in the form.
fn command_in(text: &[u8]) -> &[u8]
    requires { IsEntryText text.now }
    ensures { IsBytes (drop 17 text.now) 111 result.now }
{
    &text[17..]
}

/// The year of two digits, 1978 to 2077.
fn year(digits: u8) -> u16
    requires { digits < 100 }
    ensures { IsYearOf digits result }
{
    if digits >= 78 {
        1900 + u16::from(digits)
    } else {
        2000 + u16::from(digits)
    }
}

/// Whether all digits and marks are at their places, and a command stands after them.
fn is_form(text: &[u8]) -> bool
    ensures { result ≡ is_form_of text.now }
{
    has_date(text) && has_time(text) && has_console(text) && text.len() > 17
}

/// Whether a date stands at the text's front.
fn has_date(text: &[u8]) -> bool
    ensures { result ≡ has_date_at text.now }
{
    has_two(text, 0)
        && byte_at(text, 2) == b'/'
        && has_two(text, 3)
        && byte_at(text, 5) == b'/'
        && has_two(text, 6)
}

/// Whether a time stands after it.
fn has_time(text: &[u8]) -> bool
    ensures { result ≡ has_time_at text.now }
{
    byte_at(text, 8) == b' ' && has_two(text, 9) && byte_at(text, 11) == b':' && has_two(text, 12)
}

/// Whether a console stands after that.
fn has_console(text: &[u8]) -> bool
    ensures { result ≡ has_console_at text.now }
{
    byte_at(text, 14) == b' '
        && b'0' <= byte_at(text, 15)
        && byte_at(text, 15) <= b'7'
        && byte_at(text, 16) == b' '
}
