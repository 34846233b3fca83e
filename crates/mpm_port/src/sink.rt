ghost use Rattle.std.specs.Prelude.{ℕ, List};
ghost use Rattle.mpm_port.specs.Puts.{AnswersPut};

use crate::Failed;

/// Where the lines of consoles, printers and traces go.
pub trait Sink {
    /// All that was written.
    ghost written: { Self → List ℕ };

    /// The count of faults, at most 2^64 - 1.
    ghost faults: { Self → ℕ };

    /// What a put of these bytes leaves that went well.
    ghost took: { Self → List ℕ → Self → Type 0 };

    /// What a failed put of these bytes leaves.
    ghost dropped: { Self → List ℕ → Self → Type 0 };

    /// Writes the bytes after what was written before. A failed call has written some first part of them.
    fn put(&mut self, bytes: &[u8]) -> Result<(), Failed>
        ensures { AnswersPut took dropped written faults bytes.now self.old self.new result };
}
