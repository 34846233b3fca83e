ghost use Rattle.std.specs.Prelude.{◌≡◌, ◌≤◌};
ghost use Rattle.mpm_dirent.specs.Names.{plain};
ghost use Rattle.mpm_dirent.specs.declared.limits.TheConstants.{LAST_NAMED};
ghost use Rattle.mpm_opens.specs.Opens.{process_of};
ghost use Rattle.mpm_bdos.specs.Jobs as jobs;
ghost use Rattle.mpm_bdos.specs.Records as spec;
ghost use Rattle.mpm_mount.specs.Standing.{OnItsDrive};
ghost use Rattle.mpm_bdos.specs.ReplyParts.{LocksByItem, MayTestRecords, CountsTested};

use mpm_base::Pid;
use mpm_file_functions::Ended;
use mpm_locks::{is_locked_off, lock_record};
use mpm_mount::{Mounted, read_error};
use mpm_opens::{FileKey, Opens};

/// Whether a record that is tested ends its call by a lock: another process has locked it, and it can be read.
#[tactic(auto, using(crate::proofs::Locking::plainly))]
fn is_tested_off(mounted: &Mounted, opens: &Opens, p: Pid, file: FileKey, n: u32) -> bool
    requires record { n ≤ LAST_NAMED }
    requires plain { plain file.name ≡ file.name }
    ensures { OnItsDrive mounted.now (λ drive. result ≡ jobs.is_tested_off drive opens.now p file n) }
{
    is_locked_off(opens, p, file, n) && read_error(mounted, file.user, &file.name, n).is_none()
}

/// How many of some records of a file that are tested come before the first that ends the call by a lock. The file's name has no
/// attributes.
#[tactic(auto, using(crate::proofs::Counting::none_tested))]
pub(crate) fn count_tested(
    mounted: &Mounted,
    opens: &Opens,
    p: Pid,
    file: FileKey,
    first: u32,
    count: u8,
) -> u8
    requires { MayTestRecords file first count }
    ensures { CountsTested mounted.now opens.now p file first count result }
{
    for k in 0..count {
        if is_tested_off(mounted, opens, p, file, first + u32::from(k)) {
            return k;
        }
    }
    count
}

/// Locks so many records from one on by way of an open file, up to one that can't be read or whose lock isn't granted. The file's
/// name has no attributes.
#[tactic(auto, using(crate::proofs::Locking::none_locked))]
pub(crate) fn lock_records(
    opens: &mut Opens,
    mounted: &Mounted,
    item: u8,
    file: FileKey,
    first: u32,
    count: u8,
) -> Ended
    requires { spec.MayLock opens.old item file first count }
    ensures { LocksByItem mounted.now opens.old opens.new (λ drive. spec.locking drive opens.old (process_of opens.old item) file first count) result }
{
    for k in 0..count {
        let n = first + u32::from(k);
        let error = read_error(mounted, file.user, &file.name, n);
        match lock_record(opens, item, n, error) {
            Some(end) => {
                return Ended {
                    moved: k,
                    end: Some(end),
                };
            }
            None => {}
        }
    }
    Ended {
        moved: count,
        end: None,
    }
}
