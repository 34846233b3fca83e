ghost use Rattle.std.specs.Prelude.{◌≡◌, ◌↔◌, IfOk, IsErr, IsTrue, is_ok, if◌then◌else◌};
ghost use Rattle.mpm_port.specs.Puts.{AnswersPut};
ghost use Rattle.mpm_port.specs.MemoryText.{empty_text, put_fails, after_put, HasTaken, HasDropped, listing_put};

use crate::calls::Schedule;
use crate::{Failed, OutOfMemory, Sink};
use std::alloc::Global;
use std::marker::Model;

/// A sink that keeps its text in memory, in a room that is taken as it is made.
///
/// A call of `put` fails exactly where its number is listed or its bytes exceed what is left of the room, and then
/// it has written nothing.
#[derive(Drop)]
pub struct MemorySink {
    text: Vec<u8>,
    room: usize,
    calls: Schedule,
    faults: u64,
}

impl Model for MemorySink {
    ghost use Rattle.std.specs.Prelude.{◌≤◌, vec_len};
    ghost use Rattle.std.specs.Vec.{vec_capacity};
    ghost use Rattle.mpm_port.specs.MemoryText.{MemoryText};

    ghost Value = { MemoryText };

    ghost view = { λ s. record { text = s.text.items; room = s.room; calls = s.calls; faults = s.faults } };

    ghost invariant = { λ s. (vec_len s.text ≤ s.room) × (s.room ≤ vec_capacity s.text) };
}

impl MemorySink {
    /// An empty sink with room for that many bytes.
    pub fn new(alloc: Global, room: usize) -> Result<MemorySink, OutOfMemory>
        ensures { IfOk result (λ sink. sink ≡ empty_text room) }
    {
        Ok(MemorySink {
            text: Vec::with_capacity(alloc, room)?,
            room,
            calls: Schedule::new(alloc),
            faults: 0,
        })
    }

    /// Lists a call of `put` that is to fail, by its number, counted from 1.
    pub fn fail_at(&mut self, call: u64) -> Result<(), OutOfMemory>
        ensures { self.new ≡ (if is_ok result then listing_put self.old call else self.old) }
    {
        self.calls.fail_at(call)
    }

    /// All that was written.
    pub fn written(&self) -> &[u8]
        ensures { result.now ≡ self.now.text }
    {
        self.text.as_slice()
    }
}

impl Sink for MemorySink {
    ghost written = { λ s. s.text };

    ghost faults = { λ s. s.faults };

    ghost took = { HasTaken };

    ghost dropped = { HasDropped };

    #[tactic(auto, using(crate::proofs::Faults::rose), unfolding(crate::specs::MemoryText::after_put, crate::specs::MemoryText::put_fails))]
    fn put(&mut self, bytes: &[u8]) -> Result<(), Failed>
        ensures after { self.new ≡ after_put self.old bytes.now }
        ensures fails { IsErr result ↔ IsTrue (put_fails self.old bytes.now) }
        ensures answers { AnswersPut HasTaken HasDropped (λ s. s.text) (λ s. s.faults) bytes.now self.old self.new result }
    {
        let listed = self.calls.begin();
        if listed || self.room - self.text.len() < bytes.len() {
            self.faults = self.faults.saturating_add(1);
            return Err(Failed);
        }
        match self.text.extend_from_slice(bytes) {
            Ok(()) => Ok(()),
            Err(_) => Err(Failed),
        }
    }
}
