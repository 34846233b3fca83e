ghost use Rattle.mpm_dirent.specs.Names.{plain};
ghost use Rattle.mpm_mount.specs.Lowest.{IsLowest};

use crate::directory::Mounted;
use crate::searching::Found;
use mpm_dirent::plain_name;

/// The lowest directory entry of a user's file by its entry number. The name is sought as it is, also bytes of it that fit each other
/// byte in a search.
pub fn lowest_entry(mounted: &Mounted, user: u8, name: &[u8; 11]) -> Option<Found>
    ensures { IsLowest mounted.now (record { user = user; name = plain name.now }) result }
{
    let sought = plain_name(name);
    let mut last = None;
    while let Some(found) = mounted.next(user, name, last) {
        if found.name == sought {
            return Some(found);
        }
        last = Some(found);
    }
    None
}
