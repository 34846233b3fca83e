ghost use Rattle.std.specs.Prelude.{length};
ghost use Rattle.std.specs.List.{prefix_len, suffix_len};
ghost use Rattle.mpm_names.specs.Readings.{IsBytes, IsNumber};
ghost use Rattle.mpm_messages.specs.Texts.{is_text, text_in, is_space, without_front, without_end, stripped};

use mpm_base::ends_text;

/// The text of a message: the bytes before its first 00h or CR.
pub fn text_of(message: &[u8]) -> &[u8]
    ensures { IsBytes (text_in message.now) (length message.now) result.now }
{
    &message[..text_length(message)]
}

/// A text without the spaces around it. No other byte is a space here, a tab neither.
#[tactic(auto, unfolding(crate::specs::Texts::stripped))]
pub fn strip(text: &[u8]) -> &[u8]
    ensures { IsBytes (stripped text.now) (length text.now) result.now }
{
    without_trailing_spaces(without_leading_spaces(text))
}

/// A text without the spaces at its front.
pub fn without_leading_spaces(text: &[u8]) -> &[u8]
    ensures { IsBytes (without_front text.now) (length text.now) result.now }
{
    &text[leading_spaces(text)..]
}

/// A text without the spaces at its end.
fn without_trailing_spaces(text: &[u8]) -> &[u8]
    ensures { IsBytes (without_end text.now) (length text.now) result.now }
{
    &text[..text.len() - trailing_spaces(text)]
}

/// How many bytes a message has before 00h or CR.
fn text_length(message: &[u8]) -> usize
    ensures { IsNumber (prefix_len is_text message.now) (length message.now) result }
{
    for (place, byte) in message.iter().enumerate() {
        if ends_text(*byte) {
            return place;
        }
    }
    message.len()
}

/// How many spaces a text begins with.
fn leading_spaces(text: &[u8]) -> usize
    ensures { IsNumber (prefix_len is_space text.now) (length text.now) result }
{
    for (place, byte) in text.iter().enumerate() {
        if *byte != b' ' {
            return place;
        }
    }
    text.len()
}

/// How many spaces a text ends with.
fn trailing_spaces(text: &[u8]) -> usize
    ensures { IsNumber (suffix_len is_space text.now) (length text.now) result }
{
    let mut end = text.len();
    while 0 < end && text[end - 1] == b' ' {
        end -= 1;
    }
    text.len() - end
}
