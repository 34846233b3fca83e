ghost use Rattle.std.specs.Prelude.{◌≡◌, ◌≢◌, OnOk, OnErr, IfOk};
ghost use Rattle.mpm_prl.specs.Relocation.{word_at};

/// The header of a page relocatable program, the first 128 bytes of its file, as far as it is used.
#[derive(Clone, Copy, Debug, PartialEq, Eq)]
pub struct PrlHeader {
    /// The bytes of code, 1 to 65,535. Their bits follow.
    pub length: u16,
    /// The bytes of memory that the program wants after its code.
    pub extra: u16,
}

/// The header of no program: it says that there is no code.
#[derive(Clone, Copy, Debug, PartialEq, Eq)]
pub struct BadHeader;

/// Reads a header: the length is the word at byte 1, what is wanted after the code the word at byte 4, each with its
/// low byte first. It is bad exactly where the length is 0.
pub fn header(bytes: &[u8; 128]) -> Result<PrlHeader, BadHeader>
    ensures ok { OnOk result (word_at bytes.now 1 ≢ 0) }
    ensures length { IfOk result (λ header. header.length ≡ word_at bytes.now 1) }
    ensures extra { IfOk result (λ header. header.extra ≡ word_at bytes.now 4) }
    ensures err { OnErr result (word_at bytes.now 1 ≡ 0) }
{
    let length = u16::from_le_bytes([bytes[1], bytes[2]]);
    let extra = u16::from_le_bytes([bytes[4], bytes[5]]);
    if length == 0 {
        return Err(BadHeader);
    }
    Ok(PrlHeader { length, extra })
}
