ghost use Rattle.std.specs.Prelude.{◌≡◌};
ghost use Rattle.mpm_dirent.specs.Names.{plain};

/// A name without the attributes in bit 7. (MP/M II Programmer's Guide, "File Attributes".)
#[tactic(auto, using(crate::proofs::PlainNames::plain_all))]
pub fn plain_name(name: &[u8; 11]) -> [u8; 11]
    ensures { result ≡ plain name.now }
{
    let mut plain = *name;
    for place in 0..11 {
        plain[place] = name[place] % 128;
    }
    plain
}
