ghost use Rattle.std.specs.Prelude.{◌≡◌, ◌<◌, ◌≤◌, [], ◌∷◌, ◌++◌, length};
ghost use Rattle.mpm_opens.specs.Locks.{is_in_set};

use crate::kinds::{FileKey, LockDone, LockSet, RecordLock, is_process};
use crate::limits::{LOCKS, LOCKS_OF_PROCESS};
use mpm_base::Pid;
use std::marker::Model;

/// The locks, in the order in which they were made: the first `count` of `locks`.
#[derive(Drop)]
pub(crate) struct Locks {
    count: usize,
    locks: [RecordLock; LOCKS],
}

impl Model for Locks {
    ghost use Rattle.std.specs.Prelude.{◌≤◌, List, take};
    ghost use Rattle.mpm_opens.specs.declared.kinds.RecordLock.{RecordLock};
    ghost use Rattle.mpm_opens.specs.declared.limits.TheConstants.{LOCKS};

    ghost Value = { List RecordLock };

    ghost view = { λ l. take l.count l.locks };

    ghost invariant = { λ l. l.count ≤ LOCKS };
}

impl Locks {
    ghost use Rattle.mpm_opens.specs.declared.limits.TheConstants.{LOCKS};
    ghost use Rattle.mpm_opens.specs.Locks.{owner_of, locks_of, lock_answer, locks_locked, locks_without};

    /// No locks.
    pub(crate) fn new() -> Locks
        ensures { result ≡ [] }
    {
        let blank = RecordLock {
            owner: Pid(0),
            file: FileKey {
                drive: 0,
                user: 0,
                name: [0; 11],
            },
            number: 0,
        };
        Locks {
            count: 0,
            locks: [blank; LOCKS],
        }
    }

    /// How many there are.
    pub(crate) fn len(&self) -> usize
        ensures { result ≡ length self.now }
    {
        self.as_slice().len()
    }

    /// One more lock, after the others.
    fn push(&mut self, lock: RecordLock)
        requires { length self.old < LOCKS }
        ensures { self.new ≡ self.old ++ lock ∷ [] }
    {
        self.locks[self.count] = lock;
        self.count += 1;
    }

    /// The locks, in order.
    fn as_slice(&self) -> &[RecordLock]
        ensures value { result.now ≡ self.now }
        ensures few { length result.now ≤ LOCKS }
    {
        &self.locks[..self.count]
    }

    /// Who has a record's lock.
    #[tactic(auto, unfolding(crate::specs::Locks::owner_of))]
    pub(crate) fn owner(&self, file: &FileKey, number: u32) -> Option<Pid>
        ensures { result ≡ owner_of self.now file.now number }
    {
        let lock = self
            .as_slice()
            .iter()
            .find(|lock| lock.is_on(file, number))?;
        Some(lock.owner)
    }

    /// How many locks a process has.
    #[tactic(auto, unfolding(crate::specs::Locks::locks_of))]
    pub(crate) fn count_of(&self, p: Pid) -> usize
        ensures { result ≡ locks_of self.now p }
    {
        self.as_slice()
            .iter()
            .filter(|lock| is_process(lock.owner, p))
            .count()
    }

    /// A process asks for the lock of a record.
    #[tactic(auto, unfolding(crate::specs::Locks::lock_answer, crate::specs::Locks::locks_locked, crate::specs::Locks::with_lock))]
    pub(crate) fn lock(&mut self, p: Pid, file: FileKey, number: u32) -> LockDone
        ensures locks { self.new ≡ locks_locked self.old p file number }
        ensures answer { result ≡ lock_answer self.old p file number }
    {
        if let Some(owner) = self.owner(&file, number) {
            return if is_process(owner, p) {
                LockDone::Locked
            } else {
                LockDone::Other { owner }
            };
        }
        if LOCKS_OF_PROCESS <= self.count_of(p) {
            return LockDone::ProcessLimit;
        }
        if LOCKS <= self.len() {
            return LockDone::NoRoom;
        }
        self.push(RecordLock {
            owner: p,
            file,
            number,
        });
        LockDone::Locked
    }

    /// Gives back a process's locks of some.
    pub(crate) fn give_back(&mut self, p: Pid, locks: &LockSet)
        ensures { self.new ≡ locks_without self.old p (is_in_set locks.now) }
    {
        let mut left = Locks::new();
        for &lock in self.as_slice() {
            if !lock.is_given_back(p, locks) {
                left.push(lock);
            }
        }
        *self = left;
    }
}

impl LockSet {
    /// Whether a lock is one of them.
    fn has(&self, lock: &RecordLock) -> bool
        ensures { result ≡ is_in_set self.now lock.now }
    {
        match self {
            LockSet::OnFiles(files) => files.has(&lock.file),
            LockSet::OnRecord { file, number } => lock.is_on(file, *number),
        }
    }
}

impl RecordLock {
    ghost use Rattle.std.specs.Prelude.{◌≡◌};
    ghost use Rattle.mpm_opens.specs.Locks.{is_lock_on, is_lock_given_back, is_in_set};

    /// Whether it is on a record of a file.
    fn is_on(&self, file: &FileKey, number: u32) -> bool
        ensures { result ≡ is_lock_on file.now number self.now }
    {
        self.number == number && self.file.is_same(file)
    }

    /// Whether it goes where a process gives back some.
    fn is_given_back(&self, p: Pid, locks: &LockSet) -> bool
        ensures { result ≡ is_lock_given_back p (is_in_set locks.now) self.now }
    {
        is_process(self.owner, p) && locks.has(self)
    }
}
