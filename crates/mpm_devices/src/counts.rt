ghost use Rattle.std.specs.Prelude.{◌≡◌, ◌+◌, ◌-◌, ◌^◌, ◌++◌, ◌∷◌, [], ℕ, min, if◌then◌else◌, List, IfOk, IsOk};
ghost use Rattle.mpm_port.specs.Puts.{AnswersPut};
ghost use Rattle.mpm_devices.specs.Kinds.{begins_with, counted};

use crate::passage::Passage;
use mpm_port::{Failed, OutOfMemory, Sink};
use std::alloc::Global;
use std::marker::Model;

/// With what the lines of consoles begin.
const CONSOLE: u8 = b'c';

/// With what the lines of completed calls begin.
const CALL: u8 = b't';

/// A sink that counts the lines of consoles and of completed calls, and keeps none. Contracts see the whole text. It never
/// fails.
#[derive(Drop)]
pub struct LineCounts {
    passage: Passage,
    /// The last byte, or LF where there is none.
    last: u8,
    of_consoles: u64,
    of_calls: u64,
}

impl Model for LineCounts {
    ghost use Rattle.std.specs.Prelude.{◌≡◌, ℕ, List};
    ghost use Rattle.mpm_devices.specs.Kinds.{counted, last_behind};

    ghost Value = { List ℕ };

    ghost view = { λ c. c.passage };

    ghost invariant = { λ c. (c.last ≡ last_behind 10 c.passage) × (c.of_consoles ≡ counted 99 c.passage) × (c.of_calls ≡ counted 116 c.passage) };
}

impl LineCounts {
    /// No line yet.
    ///
    /// # Errors
    /// Where no memory is found.
    pub fn new(alloc: Global) -> Result<LineCounts, OutOfMemory>
        ensures { IfOk result (λ counts. counts ≡ []) }
    {
        Ok(LineCounts {
            passage: Passage::new(alloc)?,
            last: b'\n',
            of_consoles: 0,
            of_calls: 0,
        })
    }

    /// How many lines of consoles there were, up to 2^64 - 1.
    pub fn of_consoles(&self) -> u64
        ensures { result ≡ counted 99 self.now }
    {
        self.of_consoles
    }

    /// How many lines of completed calls there were, up to 2^64 - 1.
    pub fn of_calls(&self) -> u64
        ensures { result ≡ counted 116 self.now }
    {
        self.of_calls
    }

    /// Counts one more byte.
    #[tactic(auto, using(crate::proofs::KindLaws::last_more, crate::proofs::KindLaws::counted_more))]
    fn count(&mut self, byte: u8)
        ensures { self.new ≡ self.old ++ byte ∷ [] }
    {
        let byte = self.passage.pass(byte);
        self.of_consoles = with_line(self.of_consoles, CONSOLE, self.last, byte);
        self.of_calls = with_line(self.of_calls, CALL, self.last, byte);
        self.last = byte;
    }

    /// Counts all these bytes.
    fn count_all(&mut self, bytes: &[u8])
        ensures { self.new ≡ self.old ++ bytes.now }
    {
        for &byte in bytes {
            self.count(byte);
        }
    }
}

/// A count with one more line, up to 2^64 - 1, where a byte after another begins one of a kind.
fn with_line(count: u64, first: u8, last: u8, byte: u8) -> u64
    ensures { result ≡ (if begins_with first (last, byte) then min (count + 1) (2 ^ 64 - 1) else count) }
{
    if last == b'\n' && byte == first {
        count.saturating_add(1)
    } else {
        count
    }
}

impl Sink for LineCounts {
    ghost written = { λ c. c };

    ghost faults = { λ _. 0 };

    ghost took = { λ old bytes new. new ≡ old ++ bytes };

    ghost dropped = { λ old bytes new. ⊥ };

    fn put(&mut self, bytes: &[u8]) -> Result<(), Failed>
        ensures text { self.new ≡ self.old ++ bytes.now }
        ensures well { IsOk result }
        ensures answers { AnswersPut (λ old put new. new ≡ old ++ put) (λ _ _ _. ⊥) (λ counts. counts) (λ _. 0) bytes.now self.old self.new result }
    {
        self.count_all(bytes);
        Ok(())
    }
}
