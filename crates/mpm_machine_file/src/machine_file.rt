use crate::lists::{DriveSpecs, Segments};
use crate::text::Text;

/// What a machine file says. `read_machine` gives it within the limits of the keys.
#[derive(Debug, Drop)]
pub struct MachineFile {
    /// The number of consoles, 1 to 8.
    pub consoles: u8,
    /// The number of printers, 0 to 4.
    pub printers: u8,
    /// The number of steps between two ticks of the clock, 100 to 1,000,000; 0 where it does not tick by itself.
    pub tick_every: u32,
    /// The number of steps that a disk takes for each turn of a call on files, at most 1,000; 0 where it takes none.
    pub disk_turn: u32,
    /// The day at boot, counted from 1 for 1 January 1978.
    pub date: u16,
    /// The time at boot: the hour, 0 to 23.
    pub hour: u8,
    /// The minute, 0 to 59.
    pub minute: u8,
    /// The second, 0 to 59.
    pub second: u8,
    /// The memory segments, 1 to 16, in the file's order.
    pub segments: Segments,
    /// The disk drives, at most 16, in the order of their letters.
    pub drives: DriveSpecs,
    /// The name of the script, where there is one.
    pub script: Option<Text>,
    /// Whether the print spooler is to run.
    pub spool: bool,
    /// Whether the scheduler of commands is to run.
    pub sched: bool,
}
