ghost use Rattle.std.specs.Prelude.{◌≡◌, ◌≤◌, ◌*◌, ℕ, List, length, option_map};
ghost use Rattle.std.specs.List.{flat_map};
ghost use Rattle.mpm_mount.specs.Files.{where_there};
ghost use Rattle.mpm_file_entries.specs.Telling as telling;
ghost use Rattle.mpm_refusals.specs.Asking.{found_as};
ghost use Rattle.mpm_bdos.specs.Ending.{IsRead};
ghost use Rattle.mpm_mount.specs.Standing.{OnItsDrive};

use mpm_file_entries::found_bytes;
use mpm_files::Work;
use mpm_mount::Mounted;
use mpm_refusals::FoundEntry;

/// The entry that a search found, as it tells it.
pub(crate) fn told_found(mounted: &Mounted, found: &Option<FoundEntry>) -> Option<[u8; 128]>
    ensures { OnItsDrive mounted.now (λ drive. where_there result (λ bytes. bytes) ≡ telling.found_bytes drive (option_map (found_as mounted.now.kind) found.now)) }
{
    match found {
        Some(entry) => found_bytes(mounted, entry.user, &entry.found.name, entry.found.extent),
        None => None,
    }
}

/// The bytes of a job in service, all of them.
fn room_of(work: &Work) -> &[u8]
    ensures bytes { result.now ≡ work.now.job.bytes }
    ensures size { length result.now ≡ 4096 }
{
    work.bytes()
}

/// The bytes of so many records that a job has read, which are 16 at most.
pub(crate) fn read_bytes(work: &Work, count: u8) -> &[u8]
    requires { count ≤ 16 }
    ensures size { length result.now ≡ 128 * count }
    ensures bytes { (records : List (List ℕ)) → IsRead count work.now records → result.now ≡ flat_map (λ record_bytes. record_bytes) records }
{
    &room_of(work)[..128 * usize::from(count)]
}
