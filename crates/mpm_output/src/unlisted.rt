ghost use Rattle.std.specs.Prelude.{◌≡◌};
ghost use Rattle.mpm_output.specs.Texts.{illegal_text as text_of_illegal};

use mpm_render::hex_word;

/// The length of the text that is written where a process comes to an unlisted opcode.
pub const ILLEGAL_LENGTH: usize = 29;

/// `Illegal instruction at`, the address in four digits, CR, LF.
#[tactic(auto, unfolding(crate::specs::Texts::illegal_text, mpm_render::specs::Lines::hex_byte, mpm_render::specs::Lines::hex_word))]
pub fn illegal_text(address: u16) -> [u8; ILLEGAL_LENGTH]
    ensures { result ≡ text_of_illegal address }
{
    let mut text = *b"Illegal instruction at 0000\r\n";
    text[23..27].copy_from_slice(&hex_word(address));
    text
}
