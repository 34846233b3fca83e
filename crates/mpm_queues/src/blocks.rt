ghost use Rattle.std.specs.Prelude.{◌≡◌};
ghost use Rattle.mpm_queues.specs.Blocks.{address_of as address_in, writing};

use crate::queues::Queues;
use mpm_base::{Call, functions};

/// The length of a user queue control block, in bytes; the message of a call that writes to a queue follows it.
pub const BLOCK_SIZE: usize = 12;

/// The greatest pointer to a queue.
const LAST_POINTER: u16 = 32;

impl Queues {
    ghost use Rattle.mpm_queues.specs.Blocks.{NamesQueue};

    /// The queue that a pointer names, None where there is none.
    #[tactic(auto, unfolding(crate::specs::Blocks::pointed))]
    pub fn pointed(&self, pointer: u16) -> Option<u8>
        ensures { NamesQueue self.now pointer result }
    {
        if pointer < 1 || LAST_POINTER < pointer {
            return None;
        }
        let q = (pointer - 1) as u8;
        match self.length(q) {
            Some(_) => Some(q),
            None => None,
        }
    }
}

/// The address that a message is, its low byte first.
pub fn address_of(message: &[u8]) -> u16
    ensures { result ≡ address_in message.now }
{
    match message {
        [low, high, ..] => u16::from_le_bytes([*low, *high]),
        _ => 0,
    }
}

/// Makes of a call that which writes a message of two bytes to a queue.
#[tactic(auto, unfolding(crate::specs::Blocks::writing, mpm_base::specs::Lists::zeros))]
pub fn write_call(call: &mut Call, message: u16)
    ensures { call.new ≡ writing message }
{
    call.begin(functions::WRITE_QUEUE, 0, 0);
    call.append(&[0; BLOCK_SIZE]);
    call.append(&message.to_le_bytes());
}
