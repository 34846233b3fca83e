ghost use Rattle.std.specs.Prelude.{◌≡◌, ◌+◌, ◌++◌, ◌∷◌, [], length, IfOk};
ghost use Rattle.rtrb.specs.Ring.{sent, received, known_free, known_items, producer_capacity, IsPair, ProducerLooked, ConsumerLooked};

use mpm_port::{Failed, OutOfMemory, Sink};
use rtrb::{Consumer, Producer, RingBuffer};
use std::alloc::Global;
use std::marker::Model;

/// What passed, byte by byte, of which nothing is kept. Contracts see all of it: each byte goes through a ring of one place,
/// whose ends know what was sent.
#[derive(Drop)]
pub struct Passage {
    producer: Producer<u8>,
    consumer: Consumer<u8>,
}

impl Model for Passage {
    ghost use Rattle.std.specs.Prelude.{◌≡◌, ℕ, List};
    ghost use Rattle.rtrb.specs.Ring.{sent, received, producer_capacity, IsPair};

    ghost Value = { List ℕ };

    ghost view = { λ p. sent p.producer };

    ghost invariant = { λ p. IsPair p.producer p.consumer × (received p.consumer ≡ sent p.producer) × (producer_capacity p.producer ≡ 1) };
}

impl Passage {
    /// Nothing passed yet.
    ///
    /// # Errors
    /// Where no memory is found for the ring.
    pub fn new(alloc: Global) -> Result<Passage, OutOfMemory>
        ensures { IfOk result (λ passage. passage ≡ []) }
    {
        let (producer, consumer) = RingBuffer::new(alloc, 1)?;
        Ok(Passage { producer, consumer })
    }

    /// All these bytes pass.
    pub fn pass_all(&mut self, bytes: &[u8])
        ensures { self.new ≡ self.old ++ bytes.now }
    {
        for &byte in bytes {
            let _byte = self.pass(byte);
        }
    }

    /// One more byte passes.
    pub fn pass(&mut self, byte: u8) -> u8
        ensures passed { self.new ≡ self.old ++ byte ∷ [] }
        ensures same { result ≡ byte }
    {
        recall_free(&mut self.producer, &mut self.consumer);
        self.producer.push_reserved(byte);
        recall_waiting(&mut self.producer, &mut self.consumer);
        self.consumer.pop_known()
    }
}

/// Says how many places of a ring are free: all but those of the bytes that wait.
fn recall_free(producer: &mut Producer<u8>, consumer: &mut Consumer<u8>)
    requires { IsPair producer.old consumer.old }
    ensures producer { ProducerLooked producer.old producer.new }
    ensures consumer { ConsumerLooked consumer.old consumer.new }
    ensures free { known_free producer.new + length (sent producer.new) ≡ producer_capacity producer.new + length (received consumer.new) }
{
    let _ = producer.slots_beside(consumer);
}

/// Says which bytes wait in a ring: all that were sent and weren't received.
fn recall_waiting(producer: &mut Producer<u8>, consumer: &mut Consumer<u8>)
    requires { IsPair producer.old consumer.old }
    ensures producer { ProducerLooked producer.old producer.new }
    ensures consumer { ConsumerLooked consumer.old consumer.new }
    ensures waiting { received consumer.new ++ known_items consumer.new ≡ sent producer.new }
{
    let _ = consumer.slots_beside(producer);
}

/// A sink that keeps nothing. Contracts see the whole text. It never fails.
impl Sink for Passage {
    ghost written = { λ p. p };

    ghost faults = { λ _. 0 };

    ghost took = { λ old bytes new. new ≡ old ++ bytes };

    ghost dropped = { λ old bytes new. ⊥ };

    fn put(&mut self, bytes: &[u8]) -> Result<(), Failed> {
        self.pass_all(bytes);
        Ok(())
    }
}
