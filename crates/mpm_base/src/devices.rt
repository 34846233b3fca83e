/// The sixteen polled devices.
#[derive(Clone, Copy, Debug, PartialEq, Eq)]
pub struct Devices {
    /// Whether each device has signalled, since its byte was read last, that it is ready.
    pub ready: [bool; 16],
    /// The last byte that each device sent.
    pub last: [u8; 16],
}

impl Devices {
    ghost use Rattle.std.specs.Prelude.{◌≡◌, false, replicate};

    /// Devices that have sent nothing yet: none is ready, and each port reads as 0.
    pub fn new() -> Devices
        ensures ready { result.ready ≡ replicate 16 false }
        ensures last { result.last ≡ replicate 16 0 }
    {
        Devices {
            ready: [false; 16],
            last: [0; 16],
        }
    }
}
