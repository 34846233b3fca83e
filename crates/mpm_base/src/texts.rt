ghost use Rattle.std.specs.Prelude.{◌≡◌};
ghost use Rattle.mpm_base.specs.Lists.{in_width as fitted};
ghost use Rattle.mpm_base.specs.Texts.{ends_text as is_end};

/// So many bytes: the first of those that are there, and zeros for those that are missing.
#[tactic(auto, using(crate::proofs::Widths::over_zeros))]
pub fn in_width<const N: usize>(bytes: &[u8]) -> [u8; N]
    ensures { result ≡ fitted N bytes.now }
{
    let mut all = [0; N];
    let size = bytes.len().min(N);
    all[..size].copy_from_slice(&bytes[..size]);
    all
}

/// Whether a byte ends the text of a command: 00h or CR does. (MP/M II Programmer's Guide, "Function 150: Send CLI Command".)
pub fn ends_text(byte: u8) -> bool
    ensures { result ≡ is_end byte }
{
    byte == 0 || byte == b'\r'
}
