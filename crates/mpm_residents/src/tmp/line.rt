ghost use Rattle.std.specs.Prelude.{◌≡◌, ◌<◌, length, MatchOption, Some, None};
ghost use Rattle.mpm_names.specs.Readings.{IsBytes, IsSuch};
ghost use Rattle.mpm_residents.specs.Lines.{user_number as number_of_user, user_of, form_of as meaning_of, IsForm, command_text as text_of_command};

use itoa::Buffer;
use mpm_messages::{strip, text_of, without_leading_spaces};

/// What a line asks for.
#[derive(Clone, Copy, Debug, PartialEq, Eq)]
pub(crate) enum LineForm {
    /// It has nothing but spaces.
    Empty,
    /// It makes a drive the current one, 0 for A.
    Drive { drive: u8 },
    /// It changes the user, 0 to 15.
    User { user: u8 },
    /// It is a command for the command line interpreter.
    Command,
}

/// What a line asks for: nothing, a drive by its letter and `:`, a user by `USER` and its number, else a command. The spaces
/// around it don't count.
#[tactic(auto, unfolding(crate::specs::Lines::text_form))]
pub(crate) fn form_of(line: &[u8]) -> LineForm
    ensures { IsSuch (meaning_of line.now) IsForm result }
{
    let text = strip(line);
    if text.is_empty() {
        return LineForm::Empty;
    }
    if let [letter, b':'] = text {
        if letter.is_ascii_alphabetic() {
            let drive = letter.to_ascii_uppercase() - b'A';
            return LineForm::Drive { drive };
        }
    }
    match user_in(text) {
        Some(user) => LineForm::User { user },
        None => LineForm::Command,
    }
}

/// The text of a command: what stands between the spaces around it, up to 00h or CR.
#[tactic(auto, unfolding(crate::specs::Lines::command_text))]
pub(crate) fn command_text(line: &[u8]) -> &[u8]
    ensures { IsBytes (text_of_command line.now) (length line.now) result.now }
{
    text_of(strip(line))
}

/// The user that a text asks for: `USER` in either case, one space or more, and a number from 0 to 15.
#[tactic(auto, unfolding(crate::specs::Lines::user_of))]
fn user_in(text: &[u8]) -> Option<u8>
    ensures { MatchOption result (user_of text.now ≡ None) (λ user. (user_of text.now ≡ Some user) × (user < 16)) }
{
    if text.len() < 5 || !text[..5].eq_ignore_ascii_case(b"user ") {
        return None;
    }
    user_number(without_leading_spaces(&text[5..]))
}

/// The user whose number some digits are, from 0 to 15.
#[tactic(auto, unfolding(crate::specs::Lines::user_number))]
fn user_number(digits: &[u8]) -> Option<u8>
    ensures { MatchOption result (number_of_user digits.now ≡ None) (λ user. (number_of_user digits.now ≡ Some user) × (user < 16)) }
{
    for user in 0..16u8 {
        let mut written = Buffer::new();
        if written.format(user).as_bytes() == digits {
            return Some(user);
        }
    }
    None
}
