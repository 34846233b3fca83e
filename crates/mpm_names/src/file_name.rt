ghost use Rattle.std.specs.Prelude.{◌≡◌, ◌≤◌, length};
ghost use Rattle.mpm_names.specs.Forms.{Spells, IsFormless};
ghost use Rattle.mpm_names.specs.Readings.{ReadsForm};
ghost use Rattle.mpm_names.specs.Spellings.{parsed, next_of};

use crate::fields::{name_bytes, password_bytes};
use crate::spelling::{byte_at, is_name, split};

/// A file name as a file control block keeps it.
#[derive(Clone, Copy, Debug, PartialEq, Eq)]
pub struct Parsed {
    /// The drive, 1 to 16 for A to P, or 0 where none is given.
    pub drive: u8,
    /// The name, eight bytes, and the type, three: in upper case, filled with spaces, or with `?` from a `*` on.
    pub name: [u8; 11],
    /// The password in upper case, filled with spaces, or zeros where there is none.
    pub password: [u8; 8],
    /// The password's length, 0 to 8.
    pub password_length: u8,
    /// The place of the delimiter after the name, from the text's start; none where that is 00h, CR or the text's end.
    pub next: Option<u16>,
}

/// A text that is no file name.
#[derive(Clone, Copy, Debug, PartialEq, Eq)]
pub struct BadName;

/// Reads a file name at the start of a text of at most 128 bytes, after blanks. It has an optional drive A to P and
/// `:`, a name of 1 to 8 characters, an optional `.` and type of at most 3, an optional `;` and password of 1 to 8.
/// Each is taken as long as it goes. It is bad exactly where that isn't met, or where what follows is `.`, `:`, `;` or
/// no delimiter.
#[tactic(auto, using(crate::proofs::Taken::form_found, crate::proofs::Taken::no_form), unfolding(crate::specs::Spellings::parsed))]
pub fn parse_filename(text: &[u8]) -> Result<Parsed, BadName>
    requires { length text.now ≤ 128 }
    ensures { ReadsForm (parsed text.now) (Spells text.now) (IsFormless text.now) result }
{
    let parts = split(text);
    if !is_name(&parts) {
        return Err(BadName);
    }
    Ok(Parsed {
        drive: parts.drive,
        name: name_bytes(parts.name, parts.kind),
        password: password_bytes(parts.password),
        password_length: parts.password.len() as u8,
        next: next_place(text.len(), parts.rest),
    })
}

/// The place of what follows a name, of a text's size and the rest of the text.
#[tactic(auto, unfolding(crate::specs::Spellings::next_of))]
fn next_place(size: usize, rest: &[u8]) -> Option<u16>
    requires within { length rest.now ≤ size }
    requires few { size ≤ 128 }
    ensures { result ≡ next_of size rest.now }
{
    match byte_at(rest, 0) {
        0 | b'\r' => None,
        _ => Some((size - rest.len()) as u16),
    }
}
