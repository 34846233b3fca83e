ghost use Rattle.std.specs.Prelude.{◌≡◌, ◌+◌, ◌*◌, ◌≤◌, ◌++◌, Some, None, false, length, drop, replicate, IfOk};
ghost use Rattle.circular_buffer.specs.Buffer.{buffer};
ghost use Rattle.mpm_base.specs.Lists.{in_width};
ghost use Rattle.mpm_queues.specs.Queue.{no_queue, new_queue, is_drained, is_full, is_exclusive, held_by, with_message, message_of, block_size};
ghost use Rattle.mpm_queues.specs.Exchanges.{MayTakeFirst, TakesOutFirst, IsFirstSize, AnswersMessage, GivesMessage};

use crate::OutOfMemory;
use crate::blocks::BLOCK_SIZE;
use circular_buffer::HeapCircularBuffer;
use mpm_base::{Call, Name8, Pid, Reply};
use std::alloc::Global;
use std::marker::Model;

/// How many bytes all messages of a queue may have together.
pub const ROOM: usize = 2048;

/// A queue, with its messages one after the other in a ring of bytes. Contracts see them as a list.
#[derive(Drop)]
pub struct Store {
    name: Name8,
    width: u16,
    count: u16,
    stored: u16,
    holder: Option<Pid>,
    bytes: HeapCircularBuffer<u8>,
}

impl Model for Store {
    ghost use Rattle.mpm_queues.specs.Queue.{Queue};

    ghost Value = { Queue };

    ghost use Rattle.mpm_queues.specs.Messages.{queue_of, IsStore};

    ghost view = { λ s. queue_of s.name s.width s.count s.stored s.holder s.bytes };

    ghost invariant = { λ s. IsStore s.width s.count s.stored s.bytes };
}

impl Store {
    /// What stands for no queue, with a ring that takes all memory that it will need.
    #[tactic(auto, unfolding(crate::specs::Queue::no_queue, crate::specs::Queue::new_queue, crate::specs::Messages::parted))]
    pub fn new(alloc: Global) -> Result<Store, OutOfMemory>
        ensures { IfOk result (λ store. store ≡ no_queue) }
    {
        Ok(Store {
            name: Name8([0; 8]),
            width: 0,
            count: 0,
            stored: 0,
            holder: None,
            bytes: HeapCircularBuffer::with_capacity(alloc, ROOM)?,
        })
    }

    /// Begins a queue without messages, which has room for `count` of them, of `width` bytes each.
    #[tactic(auto, unfolding(crate::specs::Queue::new_queue, crate::specs::Messages::parted))]
    pub fn begin(&mut self, name: Name8, width: u16, count: u16)
        requires { width * count ≤ 2048 }
        ensures { self.new ≡ new_queue name width count }
    {
        self.name = name;
        self.width = width;
        self.count = count;
        self.stored = 0;
        self.bytes.clear();
        self.release();
    }

    /// Ends the queue: nothing of it is left.
    #[tactic(auto, unfolding(crate::specs::Queue::no_queue))]
    pub fn end(&mut self)
        ensures { self.new ≡ no_queue }
    {
        self.begin(Name8([0; 8]), 0, 0);
    }

    /// Its name.
    pub fn name(&self) -> Name8
        ensures { result ≡ self.now.name }
    {
        self.name
    }

    /// The length of its messages, in bytes.
    pub fn width(&self) -> u16
        ensures { result ≡ self.now.width }
    {
        self.width
    }

    /// The process that holds its message.
    pub fn holder(&self) -> Option<Pid>
        ensures { result ≡ self.now.holder }
    {
        self.holder
    }

    /// Whether there is no message to be read.
    #[tactic(auto, using(crate::proofs::MessageLaws::length_parted))]
    pub fn is_drained(&self) -> bool
        ensures { result ≡ is_drained self.now }
    {
        self.stored == 0
    }

    /// Whether there is no room for one more message.
    #[tactic(auto, using(crate::proofs::MessageLaws::length_parted))]
    pub fn is_full(&self) -> bool
        ensures { result ≡ is_full self.now }
    {
        self.stored == self.count
    }

    /// Whether it is a mutual exclusion queue.
    #[tactic(auto, unfolding(crate::specs::Queue::is_exclusive))]
    fn is_exclusive(&self) -> bool
        ensures { result ≡ is_exclusive self.now }
    {
        let name = self.name.0;
        name[0] == b'M' && name[1] == b'X' && self.width == 0 && self.count == 1
    }

    /// A process has got a message: it holds that of a mutual exclusion queue.
    #[tactic(auto, unfolding(crate::specs::Queue::held_by))]
    fn hold(&mut self, p: Pid)
        ensures { self.new ≡ held_by p self.old }
    {
        self.holder = if self.is_exclusive() { Some(p) } else { None };
    }

    /// Nobody holds its message.
    fn release(&mut self)
        ensures { self.new ≡ record self.old { holder = None } }
    {
        self.holder = None;
    }

    /// Takes the first message out, into a slice of its length.
    #[tactic(auto, using(crate::proofs::MessageLaws::first_parted, crate::proofs::MessageLaws::rest_parted, crate::proofs::MessageLaws::length_parted), unfolding(crate::specs::Queue::shortened, crate::specs::Queue::first_message))]
    fn take_first(&mut self, into: &mut [u8])
        requires { MayTakeFirst self.old into.old }
        ensures { TakesOutFirst self.old self.new into.new }
    {
        self.bytes.read_into(into);
        self.stored -= 1;
    }

    /// The length of the first message, in bytes: at most 2,048, as it has room in the ring.
    #[tactic(auto, using(crate::proofs::MessageLaws::width_few, crate::proofs::MessageLaws::first_width, crate::proofs::MessageLaws::counted))]
    fn first_size(&self) -> usize
        requires { is_drained self.now ≡ false }
        ensures { IsFirstSize self.now result }
    {
        usize::from(self.width)
    }

    /// A process reads the first message into the bytes of a reply, whose other parts stay.
    pub fn answer(&mut self, p: Pid, reply: &mut Reply)
        requires some { is_drained self.old ≡ false }
        ensures { AnswersMessage p self.old self.new reply.old reply.new }
    {
        let size = self.first_size();
        reply.length = size as u16;
        self.take_first(&mut reply.bytes[..size]);
        self.hold(p);
    }

    /// A process reads the first message into the call that it keeps.
    pub fn give(&mut self, p: Pid, call: &mut Call)
        requires some { is_drained self.old ≡ false }
        ensures { GivesMessage p self.old self.new call.old call.new }
    {
        let size = self.first_size();
        keep_block(call);
        call.length = (BLOCK_SIZE + size) as u16;
        self.take_first(&mut call.bytes[BLOCK_SIZE..BLOCK_SIZE + size]);
        self.hold(p);
    }

    /// Puts in the message of a call that writes, last; nobody holds it.
    #[tactic(auto, unfolding(crate::specs::Queue::with_message, crate::specs::Queue::message_of))]
    pub fn add(&mut self, call: &Call)
        requires { is_full self.old ≡ false }
        ensures { self.new ≡ with_message (message_of self.old.width call.now) self.old }
    {
        append(&mut self.bytes, behind_block(call), usize::from(self.width));
        self.stored += 1;
        self.release();
    }
}

/// The bytes of a call after its user queue control block.
fn behind_block(call: &Call) -> &[u8]
    ensures { result.now ≡ drop block_size call.now.bytes }
{
    let taken = call.taken();
    &taken[BLOCK_SIZE.min(taken.len())..]
}

/// Keeps of a call's bytes the twelve of its user queue control block alone.
#[tactic(auto, unfolding(mpm_base::specs::Lists::in_width))]
fn keep_block(call: &mut Call)
    ensures { call.new ≡ record call.old { bytes = in_width block_size call.old.bytes } }
{
    call.length = call.length.min(BLOCK_SIZE as u16);
    let lacking = BLOCK_SIZE - usize::from(call.length);
    call.append(&[0; BLOCK_SIZE][..lacking]);
}

/// Puts a message of so many bytes after the others: what is there of it, and zeros for what lacks.
#[tactic(auto, unfolding(mpm_base::specs::Lists::in_width))]
fn append(bytes: &mut HeapCircularBuffer<u8>, message: &[u8], width: usize)
    requires { length bytes.old.items + width ≤ bytes.old.capacity }
    ensures { bytes.new ≡ buffer (bytes.old.items ++ in_width width message.now) bytes.old.capacity }
{
    let there = width.min(message.len());
    bytes.fill_from_slice(&message[..there]);
    append_zeros(bytes, width - there);
}

/// Puts so many zeros after the others.
fn append_zeros(bytes: &mut HeapCircularBuffer<u8>, count: usize)
    requires { length bytes.old.items + count ≤ bytes.old.capacity }
    ensures { bytes.new ≡ buffer (bytes.old.items ++ replicate count 0) bytes.old.capacity }
{
    for _zero in 0..count {
        bytes.push_back(0);
    }
}
