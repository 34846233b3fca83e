ghost use Rattle.std.specs.Prelude.{◌≡◌, length, nat_lt, is_some, IfOk};
ghost use Rattle.mpm_consoles.specs.Console.{new_console, is_owner, passed_to, with_raw, with_output_stopped, awaited_for, awaiting, is_for as is_one_for, woken, awakened, without_wait_of, resumed, has_room, with_key, typed, first_key, without_first, written, MakesAndAnswers};
ghost use Rattle.mpm_consoles.specs.declared.console.Awaited.TheVariants.{Output};
ghost use Rattle.mpm_consoles.specs.Handling.{typed_answer};
ghost use Rattle.mpm_consoles.specs.Columns.{spaces_for};

use crate::OutOfMemory;
use crate::columns::column_after;
use crate::keys::KeyDone;
use circular_buffer::HeapCircularBuffer;
use mpm_base::{Pid, tab_width};
use std::alloc::Global;
use std::marker::Model;

/// How many typed keys a console keeps.
pub const KEYS: usize = 64;

/// What the owner of a console waits for at its gate.
#[derive(Clone, Copy)]
pub enum Awaited {
    /// A key.
    Key,
    /// That stopped output goes on.
    Output,
}

/// A console, with a ring of typed keys. Contracts see them as a list.
#[derive(Drop)]
pub struct Console {
    owner: Option<Pid>,
    keys: HeapCircularBuffer<u8>,
    lost: u64,
    raw: bool,
    stopped: bool,
    column: u16,
    awaits: Option<Awaited>,
}

impl Model for Console {
    ghost use Rattle.std.specs.Prelude.{◌≡◌};
    ghost use Rattle.mpm_consoles.specs.Console.{Console};
    ghost use Rattle.mpm_consoles.specs.declared.console.TheConstants.{KEYS};

    ghost Value = { Console };

    ghost view = { λ c. record { owner = c.owner; keys = c.keys.items; lost = c.lost; raw = c.raw; stopped = c.stopped; column = c.column; awaits = c.awaits } };

    ghost invariant = { λ c. c.keys.capacity ≡ KEYS };
}

impl Console {
    /// A console that nobody owns, with a ring that takes all memory that it will need.
    #[tactic(auto, unfolding(crate::specs::Console::new_console))]
    pub fn new(alloc: Global) -> Result<Console, OutOfMemory>
        ensures { IfOk result (λ console. console ≡ new_console) }
    {
        Ok(Console {
            owner: None,
            keys: HeapCircularBuffer::with_capacity(alloc, KEYS)?,
            lost: 0,
            raw: false,
            stopped: false,
            column: 0,
            awaits: None,
        })
    }

    /// The process that owns it.
    pub fn owner(&self) -> Option<Pid>
        ensures { result ≡ self.now.owner }
    {
        self.owner
    }

    /// How many keys were lost.
    pub fn lost(&self) -> u64
        ensures { result ≡ self.now.lost }
    {
        self.lost
    }

    /// Whether it is raw.
    pub fn raw(&self) -> bool
        ensures { result ≡ self.now.raw }
    {
        self.raw
    }

    /// Whether its output is stopped.
    pub fn stopped(&self) -> bool
        ensures { result ≡ self.now.stopped }
    {
        self.stopped
    }

    /// Whether its owner waits at its gate.
    pub fn awaits(&self) -> bool
        ensures { result ≡ is_some self.now.awaits }
    {
        self.awaits.is_some()
    }

    /// Whether a key is there.
    pub fn has_key(&self) -> bool
        ensures { result ≡ nat_lt 0 (length self.now.keys) }
    {
        !self.keys.is_empty()
    }

    /// It passes to another owner, or to nobody.
    #[tactic(auto, unfolding(crate::specs::Console::passed_to))]
    pub fn pass_to(&mut self, owner: Option<Pid>)
        ensures { self.new ≡ passed_to owner self.old }
    {
        self.owner = owner;
        self.raw = false;
        self.stopped = false;
        self.awaits = None;
    }

    /// It is made raw, or not.
    #[tactic(auto, unfolding(crate::specs::Console::with_raw))]
    pub fn set_raw(&mut self, raw: bool)
        ensures { self.new ≡ with_raw raw self.old }
    {
        self.raw = raw;
        if raw {
            self.stopped = false;
        }
    }

    /// Its output is stopped.
    #[tactic(auto, unfolding(crate::specs::Console::with_output_stopped))]
    pub fn stop(&mut self)
        ensures { self.new ≡ with_output_stopped self.old }
    {
        self.stopped = true;
    }

    /// Its output goes on. Answers the owner that waited for that.
    #[tactic(auto, unfolding(crate::specs::Console::resumed, crate::specs::Console::woken, crate::specs::Console::awakened))]
    pub fn resume(&mut self) -> Option<Pid>
        ensures { MakesAndAnswers (resumed self.old) (woken Output self.old) self.new result }
    {
        self.stopped = false;
        self.wake(Awaited::Output)
    }

    /// Its owner waits at its gate, for a key or for output to go on.
    #[tactic(auto, unfolding(crate::specs::Console::awaiting))]
    pub fn wait(&mut self, key: bool)
        ensures { self.new ≡ awaiting (awaited_for key) self.old }
    {
        self.awaits = Some(if key { Awaited::Key } else { Awaited::Output });
    }

    /// Where its owner waits at its gate for something, it does no more. Answers the owner then.
    #[tactic(auto, unfolding(crate::specs::Console::woken, crate::specs::Console::awakened))]
    fn wake(&mut self, what: Awaited) -> Option<Pid>
        ensures { MakesAndAnswers (awakened what self.old) (woken what self.old) self.new result }
    {
        if is_for(self.awaits, what) {
            self.awaits = None;
            self.owner
        } else {
            None
        }
    }

    /// A process waits at its gate no more.
    #[tactic(auto, unfolding(crate::specs::Console::without_wait_of))]
    pub fn leave(&mut self, p: Pid)
        ensures { self.new ≡ without_wait_of p self.old }
    {
        if self.is_owned_by(p) {
            self.awaits = None;
        }
    }

    /// Whether a process owns it.
    fn is_owned_by(&self, p: Pid) -> bool
        ensures { result ≡ is_owner self.now.owner p }
    {
        match self.owner {
            Some(owner) => owner.0 == p.0,
            None => false,
        }
    }

    /// A key is typed that is no control character: it is stored, or lost where 64 are there. The owner that waits for a key
    /// waits no more.
    #[tactic(auto, using(crate::proofs::ConsoleLaws::woken_key), unfolding(crate::specs::Console::typed, crate::specs::Handling::typed_answer))]
    pub fn type_key(&mut self, byte: u8) -> KeyDone
        ensures { MakesAndAnswers (typed byte self.old) (typed_answer self.old) self.new result }
    {
        let done = if self.store(byte) {
            KeyDone::Stored
        } else {
            KeyDone::Dropped
        };
        match self.wake(Awaited::Key) {
            Some(p) => KeyDone::Wakes { p },
            None => done,
        }
    }

    /// Stores a key after the others; false where 64 are there, and then it is counted as lost.
    #[tactic(auto, unfolding(crate::specs::Console::with_key))]
    fn store(&mut self, byte: u8) -> bool
        ensures { MakesAndAnswers (with_key byte self.old) (has_room self.old) self.new result }
    {
        match self.keys.try_push_back(byte) {
            Ok(()) => true,
            Err(_byte) => {
                self.lost = self.lost.saturating_add(1);
                false
            }
        }
    }

    /// Takes the oldest key; None exactly where there is none.
    #[tactic(auto, unfolding(crate::specs::Console::without_first))]
    pub fn take(&mut self) -> Option<u8>
        ensures { MakesAndAnswers (without_first self.old) (first_key self.old) self.new result }
    {
        self.keys.pop_front()
    }

    /// The column at which the next byte is written.
    pub fn column(&self) -> u16
        ensures { result ≡ self.now.column }
    {
        self.column
    }

    /// A byte is written: its column moves. Answers how many spaces stand for a tab that is expanded, 0 where the byte stands
    /// for itself.
    #[tactic(auto, using(crate::proofs::ColumnLaws::columns_spaces, crate::proofs::ColumnLaws::columns_one), unfolding(crate::specs::Console::written, crate::specs::Console::spoken, crate::specs::Columns::spaces_for, crate::specs::Columns::tab_text))]
    pub fn write(&mut self, byte: u8, tabs: bool) -> u8
        ensures { MakesAndAnswers (written byte tabs self.old) (spaces_for self.old.column byte tabs) self.new result }
    {
        if tabs && byte == b'\t' {
            let spaces = tab_width(self.column);
            self.column = self.column.saturating_add(u16::from(spaces));
            spaces
        } else {
            self.column = column_after(self.column, byte);
            0
        }
    }
}

/// Whether it is this that is waited for.
fn is_for(awaits: Option<Awaited>, what: Awaited) -> bool
    ensures { result ≡ is_one_for awaits what }
{
    match (awaits, what) {
        (Some(Awaited::Key), Awaited::Key) => true,
        (Some(Awaited::Output), Awaited::Output) => true,
        _ => false,
    }
}
