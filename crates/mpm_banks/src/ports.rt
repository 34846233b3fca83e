ghost use Rattle.std.specs.Prelude.{◌≡◌};
ghost use Rattle.mpm_banks.specs.Ports.{port_byte, port_read};

use mpm_base::Devices;

/// Reads a port: the last byte of its device, which is no longer ready then. A port without a device reads FFh.
#[tactic(auto, unfolding(crate::specs::Ports::port_byte, crate::specs::Ports::port_read))]
pub(crate) fn read_port(devices: &mut Devices, port: u8) -> u8
    ensures byte { result ≡ port_byte devices.old port }
    ensures devices { devices.new ≡ port_read devices.old port }
{
    match port {
        0x80..=0x8F => {
            let device = usize::from(port - 0x80);
            devices.ready[device] = false;
            devices.last[device]
        }
        _ => 0xFF,
    }
}
