/// What happens outside of the machine.
#[derive(Clone, Copy, Debug, PartialEq, Eq)]
pub enum Event {
    /// The clock ticks.
    Tick,
    /// A byte is typed at a console, 0 to 7.
    Key { console: u8, byte: u8 },
    /// A polled device, 0 to 15, becomes ready with a byte.
    Ready { device: u8, byte: u8 },
    /// An interrupt sets a flag, 4 to 31: flags 0 to 3 are the system's.
    Int { flag: u8 },
}

/// An event, and when it is due.
#[derive(Clone, Copy, Debug, PartialEq, Eq)]
pub struct Timed {
    /// The number of the step from which on it is due, at most 4,000,000,000.
    pub step: u64,
    /// The event.
    pub event: Event,
}
