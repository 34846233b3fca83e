ghost use Rattle.std.specs.Prelude.{◌≡◌, ◌≤◌, true, slice_index};
ghost use Rattle.mpm_names.specs.Readings.{IsNumber};
ghost use Rattle.mpm_sched.specs.Entries.{is_digit as is_digit_byte, has_two as has_two_at, two_at as two_digits_at};

/// The byte at a place; 00h after the text's end.
pub(crate) fn byte_at(text: &[u8], place: usize) -> u8
    ensures { result ≡ slice_index text.now place }
{
    if place < text.len() { text[place] } else { 0 }
}

/// Whether a byte is a decimal digit.
fn is_digit(byte: u8) -> bool
    ensures { result ≡ is_digit_byte byte }
{
    b'0' <= byte && byte <= b'9'
}

/// Whether two digits stand at a place, which is at most 128.
pub(crate) fn has_two(text: &[u8], place: usize) -> bool
    requires { place ≤ 128 }
    ensures { result ≡ has_two_at text.now place }
{
    is_digit(byte_at(text, place)) && is_digit(byte_at(text, place + 1))
}

/// The number of the two digits at a place.
pub(crate) fn two_at(text: &[u8], place: usize) -> u8
    requires place { place ≤ 128 }
    requires digits { has_two_at text.now place ≡ true }
    ensures { IsNumber (two_digits_at text.now place) 99 result }
{
    10 * (byte_at(text, place) - b'0') + (byte_at(text, place + 1) - b'0')
}
