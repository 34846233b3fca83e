ghost use Rattle.std.specs.Prelude.{◌≡◌};
ghost use Rattle.mpm_names.specs.Matching.{byte_fits, does_match};

/// Whether a pattern fits a name and type: each of its bytes is `?` or the name's, bit 7 of both left out.
#[tactic(auto, using(crate::proofs::Fitting::misfit, crate::proofs::Fitting::fits_everywhere))]
pub fn matches(pattern: &[u8; 11], name: &[u8; 11]) -> bool
    ensures { result ≡ does_match pattern.now name.now }
{
    for place in 0..11 {
        if !fits(pattern[place], name[place]) {
            return false;
        }
    }
    true
}

/// Whether a byte of a pattern fits a name's.
fn fits(wanted: u8, byte: u8) -> bool
    ensures { result ≡ byte_fits wanted byte }
{
    wanted % 128 == b'?' || wanted % 128 == byte % 128
}
