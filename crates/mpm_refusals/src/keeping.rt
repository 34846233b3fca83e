ghost use Rattle.std.specs.Prelude.{◌≡◌, ℕ, None, IfSome, slice_index_or, slice_set, option_map};
ghost use Rattle.mpm_dirent.specs.Names.{plain};
ghost use Rattle.mpm_mount.specs.Drives.{FileName, Drive};
ghost use Rattle.mpm_refusals.specs.Asking.{found_as};
ghost use Rattle.mpm_refusals.specs.Looking.{at_place};
ghost use Rattle.mpm_refusals.specs.Searches.{searched, user_sought};
ghost use Rattle.mpm_refusals.specs.Subjects.{found_by};
ghost use Rattle.mpm_refusals.specs.Searches as spec;

use crate::asking::Asked;
use crate::caller::Caller;
use crate::finding::FoundEntry;
use crate::searches::{LastSearch, Searches};
use crate::searching::{EntryPlace, place_of};
use mpm_base::{Kind, Pid};
use mpm_dirent::plain_name;
use mpm_fcb::ControlBlock;
use mpm_file_functions::FileFunction;

/// A search after another entry.
fn behind(search: &LastSearch, place: EntryPlace) -> LastSearch
    ensures { result ≡ record search.now { found = place } }
{
    let pattern = search.pattern;
    LastSearch {
        drive: search.drive,
        user: search.user,
        pattern,
        extent: search.extent,
        found: place,
    }
}

/// A search that goes on, after the entry that it found.
fn going_on(search: Option<LastSearch>, place: EntryPlace) -> Option<LastSearch>
    ensures { (entry : FileName × ℕ) → IfSome search (λ search. entry ≡ at_place search.user place)
        → searched result ≡ option_map (spec.finding entry) (searched search) }
{
    match search {
        Some(search) => Some(behind(&search, place)),
        None => None,
    }
}

/// A new search for what a block names.
fn new_search(drive: u8, user: u8, block: &ControlBlock, place: EntryPlace) -> LastSearch
    ensures { result ≡ record { drive = drive; user = user; pattern = plain block.now.name; extent = block.now.ex; found = place } }
{
    let pattern = plain_name(&block.name);
    LastSearch {
        drive,
        user,
        pattern,
        extent: block.ex,
        found: place,
    }
}

/// The search of a call after the entry that it found: the process's last, where that goes on, or a new one.
fn search_behind(
    search: Option<LastSearch>,
    drive: u8,
    user: u8,
    block: &ControlBlock,
    place: EntryPlace,
    function: FileFunction,
) -> Option<LastSearch>
    ensures { (entry : FileName × ℕ) → entry ≡ at_place (user_sought search user function) place
        → searched result ≡ spec.search_by (searched search) drive user block.now entry function }
{
    match function {
        FileFunction::SearchNext => going_on(search, place),
        _ => Some(new_search(drive, user, block, place)),
    }
}

/// Keeps a process's search, or forgets it.
fn keep(searches: &mut Searches, p: Pid, search: Option<LastSearch>)
    ensures { searches.new ≡ slice_set searches.old p (searched search) }
{
    match search {
        Some(search) => searches.put(p, search),
        None => searches.forget(p),
    }
}

/// Keeps the search of a call, by what was looked up of it, on a drive of a kind, where it found an entry.
pub fn keep_found(searches: &mut Searches, asked: &Asked, kind: Kind, found: &Option<FoundEntry>)
    ensures { (files : Drive) → option_map (found_as kind) found.now ≡ found_by files asked.now.caller.user asked.now.block (slice_index_or searches.old asked.now.caller.process None) asked.now.function
        → searches.new ≡ spec.searches_by searches.old asked.now.caller.process
        (λ entry. spec.search_by (slice_index_or searches.old asked.now.caller.process None) asked.now.drive asked.now.caller.user asked.now.block entry asked.now.function)
        (found_by files asked.now.caller.user asked.now.block (slice_index_or searches.old asked.now.caller.process None) asked.now.function) }
{
    match found {
        Some(entry) => {
            let Caller { process, user, .. } = asked.caller;
            let search = searches.get(process);
            let place = place_of(kind, &entry.found);
            keep(
                searches,
                process,
                search_behind(
                    search,
                    asked.drive,
                    user,
                    &asked.block,
                    place,
                    asked.function,
                ),
            );
        }
        None => {}
    }
}
