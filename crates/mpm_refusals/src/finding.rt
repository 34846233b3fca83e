ghost use Rattle.std.specs.Prelude.{◌≡◌, option_map};
ghost use Rattle.mpm_base.specs.declared.kind.Kind.{Kind};
ghost use Rattle.mpm_dirent.specs.Names.{plain};
ghost use Rattle.mpm_mount.specs.Standing.{OnItsDrive};
ghost use Rattle.mpm_refusals.specs.Looking.{entry_found};
ghost use Rattle.mpm_refusals.specs.Searches.{searched, search_of};
ghost use Rattle.mpm_refusals.specs.Asking.{found_as};
ghost use Rattle.mpm_refusals.specs.Subjects as spec;

use crate::searches::LastSearch;
use crate::searching::found_in;
use mpm_dirent::plain_name;
use mpm_fcb::ControlBlock;
use mpm_file_functions::FileFunction;
use mpm_mount::{Found, Mounted};

/// A directory entry that a search found, with the user of its file.
#[derive(Clone, Copy, Debug, PartialEq, Eq)]
pub struct FoundEntry {
    /// The user.
    pub user: u8,
    /// The entry: its name, and an extent that it covers. No call goes by its slot.
    pub found: Found,
}

/// What was found, with its user.
fn with_user(user: u8, found: Option<Found>) -> Option<FoundEntry>
    ensures { (kind : Kind) → option_map (found_as kind) result ≡ option_map (entry_found kind user) found }
{
    match found {
        Some(found) => Some(FoundEntry { user, found }),
        None => None,
    }
}

/// The first entry of a user that a block seeks, by its name and its EX. (MP/M II Programmer's Guide, "Function 17: Search for
/// First".)
fn found_first(mounted: &Mounted, user: u8, block: &ControlBlock) -> Option<FoundEntry>
    ensures { OnItsDrive mounted.now (λ drive. option_map (found_as mounted.now.kind) result ≡ spec.found_in drive user (plain block.now.name) block.now.ex None) }
{
    let pattern = plain_name(&block.name);
    with_user(user, found_in(mounted, user, &pattern, block.ex, None))
}

/// The next entry that a search finds. (MP/M II Programmer's Guide, "Function 18: Search for Next".)
fn found_behind(mounted: &Mounted, search: &LastSearch) -> Option<FoundEntry>
    ensures { OnItsDrive mounted.now (λ drive. option_map (found_as mounted.now.kind) result ≡ spec.found_behind drive (search_of search.now)) }
{
    let found = found_in(
        mounted,
        search.user,
        &search.pattern,
        search.extent,
        Some(search.found),
    );
    with_user(search.user, found)
}

/// What the search of a call finds, by the process's last search where it goes on.
#[tactic(auto, unfolding(crate::specs::Subjects::found_by))]
pub fn found(
    mounted: &Mounted,
    user: u8,
    block: &ControlBlock,
    search: Option<LastSearch>,
    function: FileFunction,
) -> Option<FoundEntry>
    ensures { OnItsDrive mounted.now (λ drive. option_map (found_as mounted.now.kind) result ≡ spec.found_by drive user block.now (searched search) function) }
{
    match function {
        FileFunction::SearchFirst => found_first(mounted, user, block),
        FileFunction::SearchNext => match search {
            Some(search) => found_behind(mounted, &search),
            None => None,
        },
        _ => None,
    }
}
