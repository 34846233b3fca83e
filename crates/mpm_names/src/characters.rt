ghost use Rattle.std.specs.Prelude.{◌≡◌};
ghost use Rattle.mpm_names.specs.Characters.{is_blank, is_delimiter, is_character, upper};
ghost use Rattle.mpm_names.specs.Spellings.{is_end};

/// Whether a byte is a space or a tab.
pub fn blank(byte: u8) -> bool
    ensures { result ≡ is_blank byte }
{
    byte == b' ' || byte == b'\t'
}

/// Whether a byte ends a name.
#[tactic(auto, unfolding(crate::specs::Characters::is_delimiter))]
pub fn delimiter(byte: u8) -> bool
    ensures { result ≡ is_delimiter byte }
{
    match byte {
        0
        | b'\t'
        | b'\r'
        | b' '
        | b','
        | b'.'
        | b':'
        | b';'
        | b'<'
        | b'='
        | b'>'
        | b'['
        | b']'
        | b'|' => true,
        _ => false,
    }
}

/// Whether a byte may stand in a name.
#[tactic(auto, unfolding(crate::specs::Characters::is_character))]
pub fn character(byte: u8) -> bool
    ensures { result ≡ is_character byte }
{
    b'!' <= byte && byte <= b'~' && !delimiter(byte)
}

/// A letter in upper case; every other byte is itself.
pub fn to_upper(byte: u8) -> u8
    ensures { result ≡ upper byte }
{
    if b'a' <= byte && byte <= b'z' {
        byte - 32
    } else {
        byte
    }
}

/// Whether a byte may follow a name: a delimiter but `.`, `:` and `;`.
pub fn ends_a_name(byte: u8) -> bool
    ensures { result ≡ is_end byte }
{
    delimiter(byte) && byte != b'.' && byte != b':' && byte != b';'
}
