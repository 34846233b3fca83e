ghost use Rattle.std.specs.Prelude.{ℕ, List, Option};
ghost use Rattle.mpm_port.specs.Fetches.{AnswersFetch};

/// How much of a file came.
#[derive(Clone, Copy, Debug, PartialEq, Eq)]
pub enum Fetched {
    /// All of it.
    Whole,
    /// As many bytes as the limit, and there are more.
    Longer,
}

/// Why a file did not come, or a drive was not attached.
#[derive(Clone, Copy, Debug, PartialEq, Eq)]
pub enum FetchError {
    /// The name is missing, or the device failed; the name joins the failed names.
    Failed,
    /// There was no memory for it.
    OutOfMemory,
}

/// Files by their names.
pub trait Files {
    /// What each file holds, where it is known; nothing is known of a missing file.
    ghost contents: { Self → List ℕ → Option (List ℕ) };

    /// The file is known to be missing.
    ghost missing: { Self → List ℕ → Type 0 };

    /// The names on which a call answered Failed, oldest first.
    ghost failed_names: { Self → List (List ℕ) };

    /// Appends the file's bytes to `out`, at most `limit` of them.
    fn fetch(&mut self, name: &str, limit: usize, out: &mut Vec<u8>) -> Result<Fetched, FetchError>
        ensures { AnswersFetch contents missing failed_names name.now limit out.old.items out.new.items self.old self.new result };
}
