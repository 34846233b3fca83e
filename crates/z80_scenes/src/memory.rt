//! A memory that instructions run in, and that has its last writes.
ghost use Rattle.std.specs.Prelude.{◌≡◌, ◌<◌, set, slice_index, nat_lt, if◌then◌else◌, vec_len};
ghost use Rattle.std.proofs.Common.{rules};
ghost use Rattle.std.proofs.lemmas.Grind.{common_steps};

use std::alloc::{AllocError, Global};
use z80_regs::Bus;

/// A memory of 65,536 bytes, which keeps what is written below a limit. A port reads its own number.
#[derive(Drop)]
pub struct Memory {
    bytes: Vec<u8>,
    limit: u32,
    /// The address and the byte of the write before the last, and of the last.
    pub writes: [u32; 4],
    ghost whole: { vec_len bytes ≡ 65536 },
}

impl Memory {
    /// A memory of zeros.
    ///
    /// # Errors
    /// There isn't enough memory for it.
    pub fn new(alloc: Global, limit: u32) -> Result<Memory, AllocError> {
        let bytes = vec![in alloc; 0; 65536]?;
        Ok(Memory {
            bytes,
            limit,
            writes: [0; 4],
        })
    }

    /// Places bytes from an address on, whether it keeps what is written or not.
    pub fn place(&mut self, address: u16, bytes: &[u8]) {
        let mut at = address;
        for byte in bytes {
            self.bytes[usize::from(at)] = *byte;
            at = at.wrapping_add(1);
        }
    }
}

impl Bus for Memory {
    ghost byte = { λ bus address. slice_index bus.bytes.items address };

    ghost port_byte = { λ bus port. port };

    ghost writable = { λ bus address. address < bus.limit };

    ghost wrote = { λ old address value new. (new.limit ≡ old.limit) ×
        (new.bytes.items ≡ (if nat_lt address old.limit then set old.bytes.items address value else old.bytes.items)) };

    ghost took = { λ old port new. new ≡ old };

    fn read(&self, address: u16) -> u8 {
        self.bytes[usize::from(address)]
    }

    fn write(&mut self, address: u16, value: u8) {
        self.writes = [
            self.writes[2],
            self.writes[3],
            u32::from(address),
            u32::from(value),
        ];
        if u32::from(address) < self.limit {
            self.bytes[usize::from(address)] = value;
        }
    }

    fn input(&mut self, port: u8) -> u8 {
        port
    }

    fn output(&mut self, _port: u8, _value: u8) {}

    ghost reads_back = { Prim.search (rules, common_steps) };

    ghost write_keeps_bytes = { Prim.search (rules, common_steps) };

    ghost write_keeps_ports = { Prim.search (rules, common_steps) };

    ghost write_keeps_writable = { Prim.search (rules, common_steps) };

    ghost input_keeps_bytes = { Prim.search (rules, common_steps) };

    ghost input_keeps_writable = { Prim.search (rules, common_steps) };
}
