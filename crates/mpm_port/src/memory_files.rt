ghost use Rattle.std.specs.Prelude.{◌≡◌, ◌≢◌, ◌+◌, ◌≤◌, ℕ, List, Some, None, OnOk, Err, is_ok, IsOk, IsTrue, false, if◌then◌else◌, vec_len, vec_capacity};
ghost use Rattle.mpm_port.specs.Causes.{FailsWhere};
ghost use Rattle.mpm_port.specs.Fetches.{Fetches, AnswersFetch};
ghost use Rattle.mpm_port.specs.MemoryTable.{empty_table, with_file, listing_fetch, fetch_fails, after_fetch};
ghost use Rattle.mpm_port.specs.Named.{contents_of};

use crate::calls::Schedule;
use crate::named::{FailedNames, Shelf};
use crate::{FetchError, Fetched, Files, OutOfMemory};
use std::alloc::Global;
use std::marker::Model;

/// Files that are kept in memory.
///
/// A call of `fetch` fails exactly where its number is listed or no file has the name. It may lack memory for the
/// bytes, or for the failed name.
#[derive(Drop)]
pub struct MemoryFiles {
    files: Shelf,
    failed: FailedNames,
    calls: Schedule,
}

impl Model for MemoryFiles {
    ghost use Rattle.mpm_port.specs.MemoryTable.{MemoryTable};

    ghost Value = { MemoryTable };

    ghost view = { λ f. record { files = f.files; failed = f.failed; calls = f.calls } };
}

impl MemoryFiles {
    /// No file is there, and no call is to fail.
    pub fn new(alloc: Global) -> MemoryFiles
        ensures { result ≡ empty_table }
    {
        MemoryFiles {
            files: Shelf::new(alloc),
            failed: FailedNames::new(alloc),
            calls: Schedule::new(alloc),
        }
    }

    /// Adds a file, or replaces the contents of one that is there.
    #[tactic(auto, using(crate::proofs::Shelves::contents_of_here, crate::proofs::Shelves::contents_of_other))]
    pub fn add(&mut self, name: &str, bytes: &[u8]) -> Result<(), OutOfMemory>
        ensures after { self.new ≡ (if is_ok result then with_file self.old name.now bytes.now else self.old) }
        ensures here { OnOk result (contents_of self.new.files name.now ≡ Some bytes.now) }
        ensures others { (other : List ℕ) → other ≢ name.now → contents_of self.new.files other ≡ contents_of self.old.files other }
    {
        self.files.set(name.as_bytes(), bytes)
    }

    /// Lists a call of `fetch` that is to fail, by its number, counted from 1.
    pub fn fail_at(&mut self, call: u64) -> Result<(), OutOfMemory>
        ensures { self.new ≡ (if is_ok result then listing_fetch self.old call else self.old) }
    {
        self.calls.fail_at(call)
    }
}

impl Files for MemoryFiles {
    ghost contents = { λ f. contents_of f.files };

    ghost missing = { λ f name. contents_of f.files name ≡ None };

    ghost failed_names = { λ f. f.failed };

    #[tactic(auto, unfolding(crate::specs::MemoryTable::after_fetch, crate::specs::MemoryTable::fetch_fails))]
    fn fetch(&mut self, name: &str, limit: usize, out: &mut Vec<u8>) -> Result<Fetched, FetchError>
        ensures after { self.new ≡ after_fetch self.old name.now result }
        ensures cause { FailsWhere (fetch_fails self.old name.now) result }
        ensures room { fetch_fails self.old name.now ≡ false → vec_len out.old + limit ≤ vec_capacity out.old → IsOk result }
        ensures refused { IsTrue (fetch_fails self.old name.now) → out.new.items ≡ out.old.items }
        ensures answers { AnswersFetch (λ f. contents_of f.files) (λ f missing. contents_of f.files missing ≡ None) (λ f. f.failed) name.now limit out.old.items out.new.items self.old self.new result }
    {
        let listed = self.calls.begin();
        match self.files.get(name.as_bytes()) {
            Some(file) if !listed => append_first(file, limit, out),
            _ => Err(self.failed.refuse(name)),
        }
    }
}

/// Appends the bytes of a file, at most `limit` of them.
fn append_first(file: &[u8], limit: usize, out: &mut Vec<u8>) -> Result<Fetched, FetchError>
    ensures bytes { Fetches (Some file.now) limit out.old.items out.new.items result }
    ensures cause { result ≢ Err FetchError.Failed }
    ensures room { vec_len out.old + limit ≤ vec_capacity out.old → IsOk result }
{
    let (first, answer) = if file.len() <= limit {
        (file, Fetched::Whole)
    } else {
        (&file[..limit], Fetched::Longer)
    };
    match out.extend_from_slice(first) {
        Ok(()) => Ok(answer),
        Err(_) => Err(FetchError::OutOfMemory),
    }
}
