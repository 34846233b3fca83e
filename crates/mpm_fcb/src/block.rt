ghost use Rattle.std.specs.Prelude.{◌≡◌, ◌+◌, ◌≤◌, length};
ghost use Rattle.mpm_dirent.specs.Entries.{part};

/// A file control block, as it stands in a process's memory. (MP/M II Programmer's Guide, "File Control Block Definition".)
#[derive(Clone, Copy, Debug, PartialEq, Eq)]
pub struct ControlBlock {
    /// 0 for the process's own drive, 1 to 16 for A to P.
    pub drive: u8,
    /// The name, eight bytes, and the type, three; bit 7 of each is an attribute, F1' to F8' and T1' to T3'.
    pub name: [u8; 11],
    /// The extent's number, its low five bits. (EX.)
    pub ex: u8,
    /// Kept by the system. (S1.)
    pub s1: u8,
    /// The extent's number, its high six bits. (S2.)
    pub s2: u8,
    /// How many records the extent has. (RC.)
    pub rc: u8,
    /// The handle of the open file; for a renaming the byte of a drive and the new name. (D0 to D15.)
    pub map: [u8; 16],
    /// The record of the extent that is next. (CR.)
    pub cr: u8,
    /// The random record, its low byte first. (R0 to R2.)
    pub random: [u8; 3],
}

impl ControlBlock {
    ghost use Rattle.mpm_fcb.specs.Blocks.{block_of, bytes_of};

    /// The block of 36 bytes.
    #[tactic(auto, using(crate::proofs::Back::bytes_back), unfolding(crate::specs::Blocks::block_of))]
    pub fn read(bytes: &[u8; 36]) -> ControlBlock
        ensures block { result ≡ block_of bytes.now }
        ensures back { bytes_of result ≡ bytes.now }
    {
        ControlBlock {
            drive: bytes[0],
            name: copied(bytes, 1),
            ex: bytes[12],
            s1: bytes[13],
            s2: bytes[14],
            rc: bytes[15],
            map: copied(bytes, 16),
            cr: bytes[32],
            random: copied(bytes, 33),
        }
    }

    /// The block's 36 bytes.
    #[tactic(auto, using(crate::proofs::Back::block_back))]
    pub fn write(&self) -> [u8; 36]
        ensures bytes { result ≡ bytes_of self.now }
        ensures back { block_of result ≡ self.now }
    {
        self.joined()
    }

    /// The block's bytes, written from the last on, so that each part's place is known as it is written.
    #[tactic(auto, unfolding(crate::specs::Blocks::bytes_of))]
    fn joined(&self) -> [u8; 36]
        ensures bytes { result ≡ bytes_of self.now }
        ensures name { length self.now.name ≡ 11 }
        ensures map { length self.now.map ≡ 16 }
        ensures random { length self.now.random ≡ 3 }
    {
        let mut bytes = [0; 36];
        bytes[33..].copy_from_slice(&self.random);
        bytes[32] = self.cr;
        bytes[16..32].copy_from_slice(&self.map);
        bytes[12..16].copy_from_slice(&[self.ex, self.s1, self.s2, self.rc]);
        bytes[1..12].copy_from_slice(&self.name);
        bytes[0] = self.drive;
        bytes
    }
}

/// Some bytes from a place on.
fn copied<const N: usize>(bytes: &[u8; 36], from: usize) -> [u8; N]
    requires { from + N ≤ 36 }
    ensures { result ≡ part from N bytes.now }
{
    let mut part = [0; N];
    part.copy_from_slice(&bytes[from..from + N]);
    part
}
