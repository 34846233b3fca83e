ghost use Rattle.std.specs.Prelude.{◌≡◌, ◌≤◌, None, IfSome};
ghost use Rattle.mpm_opens.specs.Locks.{lock_answer};
ghost use Rattle.mpm_opens.specs.Opens.{IsLive, process_of, file_of, locked};
ghost use Rattle.mpm_locks.specs.Locks as spec;

use mpm_base::Pid;
use mpm_file_functions::{RecordEnd, RecordError};
use mpm_opens::{FileKey, LockDone, Opens};

/// Whether another process has locked a record of a file.
#[tactic(auto, unfolding(crate::specs::Locks::is_locked_off))]
pub fn is_locked_off(opens: &Opens, p: Pid, file: FileKey, n: u32) -> bool
    ensures { result ≡ spec.is_locked_off opens.now p file n }
{
    match opens.owner(file, n) {
        Some(owner) => owner.0 != p.0,
        None => false,
    }
}

/// How many of some records of a file from one on come before the first that another process has locked.
#[tactic(auto, using(crate::proofs::Counting::none_counted, crate::proofs::Counting::all_counted))]
pub fn count_free(opens: &Opens, p: Pid, file: FileKey, first: u32, count: u8) -> u8
    requires { first ≤ 16777216 }
    ensures value { result ≡ spec.count_until (spec.is_locked_off opens.now p file) first count }
    ensures few { result ≤ count }
{
    for k in 0..count {
        if is_locked_off(opens, p, file, first + u32::from(k)) {
            return k;
        }
    }
    count
}

/// What the answer to a lock comes to.
fn refused_lock(done: LockDone) -> Option<RecordEnd>
    ensures { result ≡ spec.refused_lock done }
{
    match done {
        LockDone::Locked => None,
        LockDone::Other { .. } => Some(RecordEnd::LockedOff),
        LockDone::ProcessLimit => Some(RecordEnd::TooManyLocks),
        LockDone::NoRoom => Some(RecordEnd::NoLockRoom),
    }
}

/// Locks a record by way of an open file, unless something keeps it from being read. (MP/M II Programmer's Guide, "Function 42:
/// Lock Record".)
pub fn lock_record(
    opens: &mut Opens,
    item: u8,
    n: u32,
    error: Option<RecordError>,
) -> Option<RecordEnd>
    requires { IsLive opens.old item }
    ensures end { result ≡ spec.lock_end error (lock_answer opens.old.locks (process_of opens.old item) (file_of opens.old item) n) }
    ensures locked { result ≡ None → opens.new ≡ locked opens.old (process_of opens.old item) (file_of opens.old item) n }
    ensures kept { IfSome result (λ _. opens.new ≡ opens.old) }
    ensures live { IsLive opens.new item }
{
    match error {
        Some(error) => Some(RecordEnd::Failing(error)),
        None => refused_lock(opens.lock(item, n)),
    }
}

/// Frees so many records from one on by way of an open file. (MP/M II Programmer's Guide, "Function 43: Unlock Record".)
#[tactic(auto, using(crate::proofs::Unlocking::none_freed, crate::proofs::Unlocking::all_freed))]
pub fn unlock_records(opens: &mut Opens, item: u8, first: u32, count: u8)
    requires live { IsLive opens.old item }
    requires first { first ≤ 16777216 }
    ensures { opens.new ≡ spec.unlocking opens.old (process_of opens.old item) (file_of opens.old item) first count }
{
    for k in 0..count {
        opens.unlock(item, first + u32::from(k));
    }
}
