ghost use Rattle.std.specs.Prelude.{◌≡◌, ◌≤◌, ◌<◌, ◌-◌, length, slice_index};
ghost use Rattle.std.specs.List.{prefix_len};
ghost use Rattle.mpm_names.specs.Characters.{is_blank, is_character};
ghost use Rattle.mpm_names.specs.Readings.{IsBytes, IsNumber};
ghost use Rattle.mpm_names.specs.Splitting.{seen};
ghost use Rattle.mpm_names.specs.Spellings.{field_of, behind_blanks, behind_drive, behind_type, behind_password, drive_of, marked, spelling, is_form};

use crate::characters::{blank, character, ends_a_name, to_upper};

/// The parts of a text, and what follows them.
#[derive(Clone, Copy)]
pub struct Parts<'a> {
    pub drive: u8,
    pub name: &'a [u8],
    pub kind: &'a [u8],
    pub password: &'a [u8],
    pub rest: &'a [u8],
}

/// Takes a text apart, each part as long as it goes.
#[tactic(auto, unfolding(crate::specs::Spellings::spelling))]
pub fn split(text: &[u8]) -> Parts<'_>
    ensures parts { seen result ≡ spelling text.now }
    ensures size { length result.rest.now ≤ length text.now }
{
    let start = skip_blanks(text);
    let drive = drive_at(start);
    let named = skip_drive(start);
    let name = characters(named);
    let typed = &named[name.len()..];
    let kind = characters_behind(typed, b'.');
    let locked = skip_type(typed);
    let password = characters_behind(locked, b';');
    let rest = skip_password(locked);
    Parts {
        drive,
        name,
        kind,
        password,
        rest,
    }
}

/// Whether the parts are a file name.
pub fn is_name(parts: &Parts<'_>) -> bool
    ensures { result ≡ is_form (seen parts.now) }
{
    let name = parts.name.len();
    1 <= name
        && name <= 8
        && parts.kind.len() <= 3
        && parts.password.len() <= 8
        && ends_a_name(byte_at(parts.rest, 0))
}

/// The byte at a place; 00h after the text's end.
pub fn byte_at(text: &[u8], place: usize) -> u8
    ensures { result ≡ slice_index text.now place }
{
    if place < text.len() { text[place] } else { 0 }
}

/// What follows the blanks.
fn skip_blanks(text: &[u8]) -> &[u8]
    ensures { IsBytes (behind_blanks text.now) (length text.now) result.now }
{
    &text[blank_count(text)..]
}

/// How many blanks a text begins with.
fn blank_count(text: &[u8]) -> usize
    ensures { IsNumber (prefix_len is_blank text.now) (length text.now) result }
{
    for (place, byte) in text.iter().enumerate() {
        if !blank(*byte) {
            return place;
        }
    }
    text.len()
}

/// The characters at the front of a text.
fn characters(text: &[u8]) -> &[u8]
    ensures { IsBytes (field_of text.now) (length text.now) result.now }
{
    &text[..character_count(text)]
}

/// How many characters a text begins with.
fn character_count(text: &[u8]) -> usize
    ensures { IsNumber (prefix_len is_character text.now) (length text.now) result }
{
    for (place, byte) in text.iter().enumerate() {
        if !character(*byte) {
            return place;
        }
    }
    text.len()
}

/// The drive that a text begins with, 1 to 16, or 0.
#[tactic(auto, unfolding(crate::specs::Spellings::drive_of))]
fn drive_at(text: &[u8]) -> u8
    ensures drive { result ≡ drive_of text.now }
    ensures two { 0 < result → 2 ≤ length text.now }
{
    let letter = to_upper(byte_at(text, 0));
    if byte_at(text, 1) == b':' && b'A' <= letter && letter <= b'P' {
        letter - 64
    } else {
        0
    }
}

/// What follows the drive.
fn skip_drive(text: &[u8]) -> &[u8]
    ensures { IsBytes (behind_drive text.now) (length text.now) result.now }
{
    if drive_at(text) == 0 {
        text
    } else {
        &text[2..]
    }
}

/// The characters after a mark, where the text begins with it.
#[tactic(auto, unfolding(crate::specs::Spellings::marked))]
fn characters_behind(text: &[u8], mark: u8) -> &[u8]
    requires { 0 < mark }
    ensures { IsBytes (marked mark text.now) (length text.now - 1) result.now }
{
    if byte_at(text, 0) == mark {
        characters(&text[1..])
    } else {
        &[]
    }
}

/// What follows `.` and a type.
fn skip_type(text: &[u8]) -> &[u8]
    ensures { IsBytes (behind_type text.now) (length text.now) result.now }
{
    if byte_at(text, 0) == b'.' {
        &text[1 + characters_behind(text, b'.').len()..]
    } else {
        text
    }
}

/// What follows `;` and a password.
fn skip_password(text: &[u8]) -> &[u8]
    ensures { IsBytes (behind_password text.now) (length text.now) result.now }
{
    let count = characters_behind(text, b';').len();
    if count == 0 { text } else { &text[1 + count..] }
}
