use crate::banks::Banks;
use crate::ports::read_port;
use mpm_base::{Devices, Seg};
use z80_regs::Bus;

/// Memory and devices as the process of a segment reaches them.
#[derive(Drop)]
pub struct BankBus<'a, 'b> {
    /// All memory.
    pub banks: &'a mut Banks,
    /// The process's segment. Where it doesn't exist, addresses name common memory alone.
    pub seg: Seg,
    /// The polled devices.
    pub devices: &'b mut Devices,
}

impl Bus for BankBus<'_, '_> {
    ghost use Rattle.mpm_banks.specs.Memory.{byte_at, IsWritable};
    ghost use Rattle.mpm_banks.specs.Ports.{port_byte};
    ghost use Rattle.mpm_banks.specs.Bus.{WroteBank, TookInput};
    ghost use Rattle.mpm_banks.specs.BusLaws.{reads_back_law, write_keeps_bytes_law, write_keeps_ports_law, write_keeps_writable_law, input_keeps_bytes_law, input_keeps_writable_law};

    ghost byte = { λ bus. byte_at bus.banks.now bus.seg };

    ghost port_byte = { λ bus. port_byte bus.devices.now };

    ghost writable = { λ bus. IsWritable bus.banks.now bus.seg };

    ghost wrote = { WroteBank };

    ghost took = { TookInput };

    ghost reads_back = { reads_back_law };

    ghost write_keeps_bytes = { write_keeps_bytes_law };

    ghost write_keeps_ports = { write_keeps_ports_law };

    ghost write_keeps_writable = { write_keeps_writable_law };

    ghost input_keeps_bytes = { input_keeps_bytes_law };

    ghost input_keeps_writable = { input_keeps_writable_law };

    #[inline(always)]
    fn read(&self, address: u16) -> u8 {
        self.banks.byte(self.seg, address)
    }

    #[inline(always)]
    fn write(&mut self, address: u16, value: u8) {
        self.banks.put(self.seg, address, value);
    }

    fn input(&mut self, port: u8) -> u8 {
        read_port(self.devices, port)
    }

    fn output(&mut self, _port: u8, _value: u8) {}
}
