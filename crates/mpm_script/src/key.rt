ghost use Rattle.std.specs.Prelude.{◌≡◌, ◌<◌, ◌≤◌, IfSome, length, option_map};
ghost use Rattle.mpm_script.specs.Keys as spec;

use crate::numbers::hex_byte;
use crate::word::byte_at;

/// The key that a text begins with, and what follows it.
#[tactic(auto, unfolding(crate::specs::Keys::key_of))]
pub fn key(text: &[u8]) -> Option<(u8, &[u8])>
    ensures key { option_map (λ k. (k.0, k.1.now)) result ≡ spec.key_of text.now }
    ensures shorter { IfSome result (λ k. length k.1.now < length text.now) }
{
    match byte_at(text, 0) {
        b'\\' => escaped(&text[1..]),
        byte @ b' '..=b'~' => Some((byte, &text[1..])),
        _ => None,
    }
}

/// The key that a text begins with after a backslash, and what follows it.
#[tactic(auto, using(crate::proofs::KeyLaws::hex_byte_short), unfolding(crate::specs::Keys::escaped))]
fn escaped(text: &[u8]) -> Option<(u8, &[u8])>
    ensures key { option_map (λ k. (k.0, k.1.now)) result ≡ spec.escaped text.now }
    ensures shorter { IfSome result (λ k. length k.1.now ≤ length text.now) }
{
    match byte_at(text, 0) {
        b'r' => Some((b'\r', &text[1..])),
        b'n' => Some((b'\n', &text[1..])),
        b't' => Some((b'\t', &text[1..])),
        b'\\' => Some((b'\\', &text[1..])),
        b'x' if text.len() > 2 => {
            let byte = hex_byte(byte_at(text, 1), byte_at(text, 2))?;
            Some((byte, &text[3..]))
        }
        _ => None,
    }
}
