ghost use Rattle.std.specs.Prelude.{◌≡◌};
ghost use Rattle.mpm_line_input.specs.Echoes.{is_echoed as is_key_echoed, key_echo as echo_of_key};

use mpm_base::tab_width;
use std::marker::Model;

/// What a key or a line input writes to its console, at most eight bytes. Contracts see the bytes that count.
#[derive(Drop)]
pub struct Echo {
    /// How many bytes were written.
    pub count: u8,
    /// Those bytes come first.
    pub bytes: [u8; 8],
}

impl Model for Echo {
    ghost use Rattle.std.specs.Prelude.{ℕ, ◌≤◌, List, take};

    ghost Value = { List ℕ };

    ghost view = { λ e. take e.count e.bytes };

    ghost invariant = { λ e. e.count ≤ 8 };
}

impl Echo {
    ghost use Rattle.std.specs.Prelude.{◌≡◌, ◌≤◌, ◌<◌, ◌++◌, ◌∷◌, [], length};

    /// Nothing is written.
    pub fn new() -> Echo
        ensures { result ≡ [] }
    {
        Echo {
            count: 0,
            bytes: [0; 8],
        }
    }

    /// These bytes are written, at most eight.
    pub fn of(bytes: &[u8]) -> Echo
        requires { length bytes.now ≤ 8 }
        ensures { result ≡ bytes.now }
    {
        let mut written = [0; 8];
        written[..bytes.len()].copy_from_slice(bytes);
        Echo {
            count: bytes.len() as u8,
            bytes: written,
        }
    }

    /// One more byte is written; at most eight are.
    pub fn push(&mut self, byte: u8)
        requires { length self.old < 8 }
        ensures { self.new ≡ self.old ++ byte ∷ [] }
    {
        self.bytes[usize::from(self.count)] = byte;
        self.count += 1;
    }

    /// The bytes that are written, in order.
    pub fn written(&self) -> &[u8]
        ensures value { result.now ≡ self.now }
        ensures few { length result.now ≤ 8 }
    {
        &self.bytes[..usize::from(self.count)]
    }
}

/// Whether a key that is read by itself is echoed: a printed character, CR, LF, BS and a tab are. (MP/M II Programmer's
/// Guide, "Function 1: Console Input".)
fn is_echoed(key: u8) -> bool
    ensures { result ≡ is_key_echoed key }
{
    matches!(key, 0x20..=0x7E | b'\r' | b'\n' | 0x08 | b'\t')
}

/// What is written for a key that is read by itself, at a column of its console: the key where it is echoed, a tab as
/// spaces up to the next column divisible by eight.
#[tactic(auto, unfolding(crate::specs::Echoes::key_echo))]
pub fn key_echo(key: u8, column: u16) -> Echo
    ensures { result ≡ echo_of_key key column }
{
    if key == b'\t' {
        Echo::of(&[b' '; 8][..usize::from(tab_width(column))])
    } else if is_echoed(key) {
        Echo::of(&[key])
    } else {
        Echo::new()
    }
}
