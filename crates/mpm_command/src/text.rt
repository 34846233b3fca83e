ghost use Rattle.std.specs.Prelude.{◌≡◌, length};
ghost use Rattle.std.specs.List.{prefix_len};
ghost use Rattle.mpm_names.specs.Readings.{IsBytes, IsNumber};
ghost use Rattle.mpm_command.specs.Texts.{is_of, run_of, behind_run as behind_run_of, first_word as first_word_of, second_word as second_word_of, behind_first as behind_first_of};

use mpm_base::ends_text;

/// What a part of a text is made of.
#[derive(Clone, Copy, Debug, PartialEq, Eq)]
pub(crate) enum Run {
    /// All but 00h and CR.
    Text,
    /// All but spaces.
    Word,
    /// Spaces.
    Spaces,
}

/// The part of a text up to where a run stops.
pub(crate) fn front(kind: Run, text: &[u8]) -> &[u8]
    ensures { IsBytes (run_of kind text.now) (length text.now) result.now }
{
    &text[..run_length(kind, text)]
}

/// What follows the run with which a text begins.
pub(crate) fn rest(kind: Run, text: &[u8]) -> &[u8]
    ensures { IsBytes (behind_run_of kind text.now) (length text.now) result.now }
{
    &text[run_length(kind, text)..]
}

/// The first word of a text, parted from the others by spaces.
#[tactic(auto, unfolding(crate::specs::Texts::first_word))]
pub(crate) fn first_word(text: &[u8]) -> &[u8]
    ensures { IsBytes (first_word_of text.now) (length text.now) result.now }
{
    front(Run::Word, rest(Run::Spaces, text))
}

/// Its second word.
pub(crate) fn second_word(text: &[u8]) -> &[u8]
    ensures { IsBytes (second_word_of text.now) (length text.now) result.now }
{
    first_word(behind_first(text))
}

/// What follows the first word of a text.
#[tactic(auto, unfolding(crate::specs::Texts::behind_first))]
fn behind_first(text: &[u8]) -> &[u8]
    ensures { IsBytes (behind_first_of text.now) (length text.now) result.now }
{
    rest(Run::Word, rest(Run::Spaces, text))
}

/// How long the run is with which a text begins.
fn run_length(kind: Run, text: &[u8]) -> usize
    ensures { IsNumber (prefix_len (is_of kind) text.now) (length text.now) result }
{
    for (place, byte) in text.iter().enumerate() {
        if !goes_on(kind, *byte) {
            return place;
        }
    }
    text.len()
}

/// Whether a run goes on with a byte.
fn goes_on(kind: Run, byte: u8) -> bool
    ensures { result ≡ is_of kind byte }
{
    match kind {
        Run::Text => !ends_text(byte),
        Run::Word => byte != b' ',
        Run::Spaces => byte == b' ',
    }
}
