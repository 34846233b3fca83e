ghost use Rattle.std.specs.Prelude.{◌≡◌, ◌+◌, ◌*◌, ◌≤◌, ◌<◌};
ghost use Rattle.mpm_dirent.specs.declared.limits.TheConstants.{LAST_POSITION};
ghost use Rattle.mpm_fcb.specs.Positions as spec;

use crate::block::ControlBlock;
use mpm_dirent::{LAST_EXTENT, LAST_RECORD};

/// Whether some records from one on go beyond the last that a file can have. (MP/M II Programmer's Guide, "Function 33: Read
/// Random", error code 6.)
pub fn are_beyond(first: u32, count: u8) -> bool
    requires { first < 16777216 }
    ensures { result ≡ spec.are_beyond first count }
{
    LAST_RECORD + 1 < first + u32::from(count)
}

/// The three bytes of a number of records, the low one first.
pub fn three_bytes(n: u32) -> [u8; 3]
    ensures { result ≡ spec.three_bytes n }
{
    [
        (n % 256) as u8,
        (n / 256 % 256) as u8,
        (n / 65536 % 256) as u8,
    ]
}

impl ControlBlock {
    ghost use Rattle.mpm_fcb.specs.Positions.{sequential_record, random_record, at_position, with_random};

    /// The sequential position, at most 262,271.
    pub fn sequential_record(&self) -> u32
        ensures value { result ≡ sequential_record self.now }
        ensures small { result ≤ LAST_POSITION }
    {
        let extent = 32 * u32::from(self.s2 % 64) + u32::from(self.ex % 32);
        128 * extent + u32::from(self.cr)
    }

    /// The random record, below 2^24.
    pub fn random_record(&self) -> u32
        ensures value { result ≡ random_record self.now }
        ensures small { result < 16777216 }
    {
        u32::from(self.random[0])
            + 256 * u32::from(self.random[1])
            + 65536 * u32::from(self.random[2])
    }

    /// Sets the sequential position, at most 262,271, whose extent has so many records.
    #[tactic(auto, unfolding(crate::specs::Positions::at_position))]
    pub fn set_position(&mut self, position: u32, count: u8)
        requires { position ≤ LAST_POSITION }
        ensures block { self.new ≡ at_position self.old position count }
        ensures there { sequential_record self.new ≡ position }
    {
        let extent = (position / 128).min(u32::from(LAST_EXTENT));
        self.ex = (extent % 32) as u8;
        self.s2 = (extent / 32) as u8;
        self.rc = count;
        self.cr = (position - 128 * extent) as u8;
    }

    /// Sets the random record, below 2^24. (MP/M II Programmer's Guide, "Function 35: Compute File Size".)
    pub fn set_random(&mut self, n: u32)
        requires { n < 16777216 }
        ensures block { self.new ≡ with_random self.old n }
        ensures there { random_record self.new ≡ n }
    {
        self.random = three_bytes(n);
    }

    /// Makes the sequential position the random record. (MP/M II Programmer's Guide, "Function 36: Set Random Record".)
    pub fn set_random_record(&mut self)
        ensures block { self.new ≡ with_random self.old (sequential_record self.old) }
        ensures there { random_record self.new ≡ sequential_record self.old }
    {
        self.set_random(self.sequential_record());
    }
}
