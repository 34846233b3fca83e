ghost use Rattle.std.specs.Prelude.{◌≡◌, ◌+◌, ◌<◌, false, IfOk, replicate};
ghost use Rattle.mpm_queues.specs.Queue.{no_queue, is_drained, is_full};
ghost use Rattle.mpm_queues.specs.Handling.{place_for, MayServeFirst};
ghost use Rattle.mpm_queues.specs.Exchanges.{LetsWriterIn, ServesReader};

use crate::OutOfMemory;
use crate::store::{ROOM, Store};
use mpm_base::{Name8, Pid, Reply};
use mpm_procs::Procs;
use mpm_ready::Lists;
use std::alloc::Global;
use std::marker::Model;

/// How many queues there are at most.
const QUEUES: usize = 32;

/// The number of the list of those who wait to write to queue 0.
const WRITERS: u8 = 32;

/// Why a queue isn't made.
#[derive(Clone, Copy, Debug, PartialEq, Eq)]
pub enum MakeRefused {
    /// A queue has that name.
    Exists,
    /// There are 32 queues, or the messages have more than 2,048 bytes together.
    NoQueueRoom,
    /// It would have no message.
    BadCount,
}

/// What became of a message to be read or written.
#[derive(Clone, Copy, Debug, PartialEq, Eq)]
pub enum QueueOutcome {
    /// It was read or written; `other` is the process whose wait that ended, if any.
    Done { other: Option<Pid> },
    /// Nothing changed: there is no message to be read, or no room for one more.
    NotNow,
}

/// The queues, by their numbers 0 to 31, and the processes that wait at them.
#[derive(Drop)]
pub struct Queues {
    alive: Vec<bool>,
    queues: Vec<Store>,
    waiters: Lists,
}

impl Model for Queues {
    ghost use Rattle.mpm_queues.specs.Queues.{Queues, AreSoundQueues};

    ghost Value = { Queues };

    ghost view = { λ t. record { alive = t.alive.items; queues = t.queues.items; waiters = t.waiters } };

    ghost invariant = { λ t. AreSoundQueues (record { alive = t.alive.items; queues = t.queues.items; waiters = t.waiters }) };
}

impl Queues {
    ghost use Rattle.std.specs.Prelude.{is_some};
    ghost use Rattle.mpm_ready.specs.Tables.{list_of};
    ghost use Rattle.mpm_queues.specs.Queue.{is_drained, is_full};
    ghost use Rattle.mpm_queues.specs.Queues.{AreSoundQueues, no_queues, IsMade, FindsQueue, MakesQueue, found, is_named, is_free, holds, lowest_held, may_end};
    ghost use Rattle.mpm_queues.specs.Handling.{MayReadQueue, MayWriteQueue, MayEnlist, enlisted, queues_without_waiter, may_wait};
    ghost use Rattle.mpm_queues.specs.Exchanges.{FindsFree, TellsWidth, DeletesQueue, TakesMessage, ReadsMessage, PutsMessage, WritesMessage};

    /// No queues. All memory that they will need is taken here.
    #[tactic(auto, using(crate::proofs::SoundLaws::sound_blank), unfolding(crate::specs::Queues::no_queues))]
    pub fn new(alloc: Global) -> Result<Queues, OutOfMemory>
        ensures { IfOk result (λ queues. queues ≡ no_queues) }
    {
        let alive = none_made(alloc)?;
        let queues = empty_stores(alloc)?;
        Ok(Queues {
            alive,
            queues,
            waiters: Lists::new(),
        })
    }

    /// Makes a queue with the lowest free number, which has room for `count` messages of `message_length` bytes. (MP/M II
    /// Programmer's Guide, "Function 134: Make Queue".)
    ///
    /// # Errors
    /// `BadCount` where `count` is 0; else `Exists` where a queue has the name; else `NoQueueRoom` where there are 32 queues
    /// or the messages have more than 2,048 bytes together. Then nothing changes.
    #[tactic(auto, using(crate::proofs::SoundLaws::sound_made), unfolding(crate::specs::Queues::make_error, crate::specs::Queues::made))]
    pub fn make(&mut self, name: Name8, message_length: u16, count: u16) -> Result<u8, MakeRefused>
        ensures { MakesQueue name message_length count self.old self.new result }
    {
        if count == 0 {
            return Err(MakeRefused::BadCount);
        }
        if self.find(name).is_some() {
            return Err(MakeRefused::Exists);
        }
        let Some(q) = self.lowest_free() else {
            return Err(MakeRefused::NoQueueRoom);
        };
        if usize::from(message_length) * usize::from(count) > ROOM {
            return Err(MakeRefused::NoQueueRoom);
        }
        self.alive[q] = true;
        self.queues[q].begin(name, message_length, count);
        Ok(q as u8)
    }

    /// Says what is so of the queues at any time: they are proper and differ in their names, and who waits may wait.
    fn recall_sound(&self)
        ensures { AreSoundQueues self.now }
    {
        let _ = &self.alive;
    }

    /// The number of the queue of that name. (MP/M II Programmer's Guide, "Function 135: Open Queue".)
    #[tactic(auto, using(crate::proofs::Finding::failed_none, crate::proofs::Finding::failed_more, crate::proofs::Finding::found_lowest, crate::proofs::Finding::found_none, crate::proofs::WaitLaws::named_made))]
    pub fn find(&self, name: Name8) -> Option<u8>
        ensures { FindsQueue (found self.now name) self.now result }
    {
        self.recall_sound();
        for q in 0..QUEUES {
            if self.is_named(q, name) {
                return Some(q as u8);
            }
        }
        None
    }

    /// Whether a number names the queue of that name.
    fn is_named(&self, q: usize, name: Name8) -> bool
        requires { q < 32 }
        ensures { result ≡ is_named self.now name q }
    {
        self.alive[q] && self.queues[q].name() == name
    }

    /// The lowest number that names no queue.
    #[tactic(auto, using(crate::proofs::Finding::failed_none, crate::proofs::Finding::failed_more, crate::proofs::Finding::found_lowest, crate::proofs::Finding::found_none))]
    fn lowest_free(&self) -> Option<usize>
        ensures { FindsFree self.now result }
    {
        for q in 0..QUEUES {
            if self.is_free(q) {
                return Some(q);
            }
        }
        None
    }

    /// Whether a number names no queue.
    fn is_free(&self, q: usize) -> bool
        requires { q < 32 }
        ensures { result ≡ is_free self.now q }
    {
        !self.alive[q]
    }

    /// Deletes a queue; false exactly where a process waits at it or holds its message, and then nothing changes. (MP/M II
    /// Programmer's Guide, "Function 136: Delete Queue".)
    #[tactic(auto, using(crate::proofs::SoundLaws::sound_without), unfolding(crate::specs::Queues::without_queue, crate::specs::Queues::without))]
    pub fn delete(&mut self, q: u8) -> bool
        requires { IsMade self.old q }
        ensures { DeletesQueue self.old q self.new result }
    {
        if !self.may_end(q) {
            return false;
        }
        let place = usize::from(q);
        self.alive[place] = false;
        self.queues[place].end();
        true
    }

    /// Whether nobody waits at a queue, nor holds its message.
    #[tactic(auto, unfolding(crate::specs::Queues::may_end))]
    fn may_end(&self, q: u8) -> bool
        requires { IsMade self.now q }
        ensures { result ≡ may_end self.now q }
    {
        self.waiters.first(q).is_none()
            && self.waiters.first(WRITERS + q).is_none()
            && self.queues[usize::from(q)].holder().is_none()
    }

    /// A process reads the first message of a queue, into the start of the reply's bytes, and sets their number; all else of
    /// the reply stays, and so do the processes. Where a writer waits, its message goes in last, and it waits no more. NotNow
    /// comes exactly where there is no message. (MP/M II Programmer's Guide, "Function 137: Read Queue", "Function 138:
    /// Conditional Read Queue".)
    #[tactic(auto, using(crate::proofs::RunLaws::conserves_read))]
    pub fn read(&mut self, p: Pid, q: u8, procs: &mut Procs, reply: &mut Reply) -> QueueOutcome
        requires { MayReadQueue q procs.old self.old }
        ensures { ReadsMessage p q self.old procs.old reply.old self.new procs.new reply.new result }
    {
        self.take_message(p, q, procs, reply)
    }

    /// A process reads the first message of a queue, and the writer that waits first is let in.
    #[tactic(auto, unfolding(crate::specs::Handling::message_read, crate::specs::Handling::read_outcome, crate::specs::Handling::read_reply))]
    fn take_message(&mut self, p: Pid, q: u8, procs: &Procs, reply: &mut Reply) -> QueueOutcome
        requires { MayReadQueue q procs.now self.old }
        ensures { TakesMessage p q self.old procs.now reply.old self.new reply.new result }
    {
        let store = &mut self.queues[usize::from(q)];
        if store.is_drained() {
            return QueueOutcome::NotNow;
        }
        store.answer(p, reply);
        let other = let_in(store, &mut self.waiters, q, procs);
        QueueOutcome::Done { other }
    }

    /// A process writes the message of the call that it keeps, which begins after the call's first 12 bytes, to a queue. It goes to the
    /// reader that waits first, into the call that it keeps, or else becomes the last one of the queue. NotNow comes exactly where there is
    /// no room. (MP/M II Programmer's Guide, "Function 139: Write Queue", "Function 140: Conditional Write Queue".)
    #[tactic(auto, using(crate::proofs::RunLaws::conserves_write))]
    pub fn write(&mut self, p: Pid, q: u8, procs: &mut Procs) -> QueueOutcome
        requires { MayWriteQueue p q procs.old self.old }
        ensures { WritesMessage p q self.old procs.old self.new procs.new result }
    {
        self.put_message(p, q, procs)
    }

    /// A process writes a message to a queue, or to the reader that waits first.
    #[tactic(auto, unfolding(crate::specs::Handling::message_written, crate::specs::Handling::write_outcome, crate::specs::Handling::procs_after_write))]
    fn put_message(&mut self, p: Pid, q: u8, procs: &mut Procs) -> QueueOutcome
        requires { MayWriteQueue p q procs.old self.old }
        ensures { PutsMessage p q self.old procs.old self.new procs.new result }
    {
        let store = &mut self.queues[usize::from(q)];
        if store.is_full() {
            return QueueOutcome::NotNow;
        }
        store.add(procs.call(p));
        let other = hand_over(store, &mut self.waiters, q, procs);
        QueueOutcome::Done { other }
    }

    /// A process that waits at no queue waits at one from now on, after all of equal or better priority (0 is best, 255 worst). It waits to
    /// read where there is no message, or to write where there is no room.
    #[tactic(auto, using(crate::proofs::SoundLaws::sound_enlisted), unfolding(crate::specs::Handling::enlisted))]
    pub fn enlist(&mut self, p: Pid, priority: u8, q: u8, reader: bool)
        requires { MayEnlist p q reader self.old }
        ensures { self.new ≡ enlisted self.old p priority q reader }
    {
        self.waiters.insert(list_for(q, reader), p, priority);
    }

    /// Whether a process may wait at a queue: it is there, the process waits at none, and there is no message to be read, or no
    /// room for one to be written.
    pub fn may_wait(&self, p: Pid, q: u8, reader: bool) -> bool
        ensures { result ≡ may_wait self.now p q reader }
    {
        let place = usize::from(q);
        if place >= QUEUES || !self.alive[place] || self.waits(p) {
            return false;
        }
        if reader {
            self.queues[place].is_drained()
        } else {
            self.queues[place].is_full()
        }
    }

    /// A process waits at no queue any more.
    #[tactic(auto, using(crate::proofs::SoundLaws::sound_fewer), unfolding(crate::specs::Handling::queues_without_waiter))]
    pub fn leave(&mut self, p: Pid)
        ensures { self.new ≡ queues_without_waiter self.old p }
    {
        self.waiters.remove(p);
    }

    /// Whether the process waits at a queue.
    pub fn waits(&self, p: Pid) -> bool
        ensures { result ≡ is_some (list_of self.now.waiters p) }
    {
        self.waiters.list_of(p).is_some()
    }

    /// The length of a queue's messages, in bytes; None exactly where no queue has that number.
    pub fn length(&self, q: u8) -> Option<u16>
        ensures { TellsWidth self.now q result }
    {
        let place = usize::from(q);
        if place < QUEUES && self.alive[place] {
            Some(self.queues[place].width())
        } else {
            None
        }
    }

    /// The lowest queue whose message the process holds; None exactly where there is none. (MP/M II Programmer's Guide,
    /// "Mutual Exclusion Queues".)
    #[tactic(auto, using(crate::proofs::Finding::failed_none, crate::proofs::Finding::failed_more, crate::proofs::Finding::found_lowest, crate::proofs::Finding::found_none, crate::proofs::WaitLaws::holds_made))]
    pub fn held(&self, p: Pid) -> Option<u8>
        ensures { FindsQueue (lowest_held self.now p) self.now result }
    {
        self.recall_sound();
        for q in 0..QUEUES {
            if self.is_holder(p, q) {
                return Some(q as u8);
            }
        }
        None
    }

    /// Whether the process holds the message of the queue of that number. (MP/M II Programmer's Guide, "Mutual Exclusion
    /// Queues".)
    pub fn holds(&self, p: Pid, q: u8) -> bool
        requires { q < 32 }
        ensures { result ≡ holds self.now p q }
    {
        self.is_holder(p, usize::from(q))
    }

    /// Whether the process holds the queue's message.
    fn is_holder(&self, p: Pid, q: usize) -> bool
        requires { q < 32 }
        ensures { result ≡ holds self.now p q }
    {
        match self.queues[q].holder() {
            Some(holder) => holder.0 == p.0,
            None => false,
        }
    }
}

/// The list of those who wait to read from a queue, or to write to it.
fn list_for(q: u8, reader: bool) -> u8
    requires { q < 32 }
    ensures { result ≡ place_for q reader }
{
    if reader { q } else { WRITERS + q }
}

/// Where a process waits to write to a queue, the message of the first one goes in, and it waits no more.
fn let_in(store: &mut Store, waiters: &mut Lists, q: u8, procs: &Procs) -> Option<Pid>
    requires { MayServeFirst q (32 + q) (is_full store.old) waiters.old procs.now }
    ensures { LetsWriterIn q procs.now store.old store.new waiters.old waiters.new result }
{
    let other = waiters.first(WRITERS + q);
    if let Some(writer) = other {
        store.add(procs.call(writer));
        waiters.remove(writer);
    }
    other
}

/// Where a process waits to read from a queue, the first message goes to the first one, and it waits no more.
fn hand_over(store: &mut Store, waiters: &mut Lists, q: u8, procs: &mut Procs) -> Option<Pid>
    requires { MayServeFirst q q (is_drained store.old) waiters.old procs.old }
    ensures { ServesReader q store.old store.new waiters.old waiters.new procs.old procs.new result }
{
    let other = waiters.first(q);
    if let Some(reader) = other {
        store.give(reader, procs.call_mut(reader));
        waiters.remove(reader);
    }
    other
}

/// That no number names a queue.
fn none_made(alloc: Global) -> Result<Vec<bool>, OutOfMemory>
    ensures { IfOk result (λ alive. alive.items ≡ replicate 32 false) }
{
    let mut alive = Vec::with_capacity(alloc, QUEUES)?;
    alive.resize(QUEUES, false)?;
    Ok(alive)
}

/// What stands for no queue, for each number.
fn empty_stores(alloc: Global) -> Result<Vec<Store>, OutOfMemory>
    ensures { IfOk result (λ queues. queues.items ≡ replicate 32 no_queue) }
{
    let mut queues = Vec::with_capacity(alloc, QUEUES)?;
    for _number in 0..QUEUES {
        queues.push(Store::new(alloc)?)?;
    }
    Ok(queues)
}
