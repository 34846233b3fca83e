ghost use Rattle.std.specs.Prelude.{◌≡◌};
ghost use Rattle.mpm_fcb.specs.Names as spec;

use crate::block::ControlBlock;

/// Whether a name or type has a `?`, which names more than one file. (MP/M II Programmer's Guide, "File Control Block
/// Definition".)
#[tactic(auto, unfolding(crate::specs::Names::is_ambiguous))]
pub fn is_ambiguous(name: &[u8; 11]) -> bool
    ensures { result ≡ spec.is_ambiguous name.now }
{
    name.iter().any(|byte| byte % 128 == b'?')
}

/// A byte of a name with or without its attribute.
fn with_attribute(byte: u8, attribute: bool) -> u8
    ensures { result ≡ spec.with_attribute byte attribute }
{
    byte % 128 + if attribute { 128 } else { 0 }
}

/// A name with these attributes in place of its own.
#[tactic(auto, using(crate::proofs::Attributes::attributed), unfolding(crate::specs::Names::with_attributes))]
pub fn with_attributes(name: &[u8; 11], attributes: &[bool; 11]) -> [u8; 11]
    ensures { result ≡ spec.with_attributes name.now attributes.now }
{
    let mut named = *name;
    for place in 0..11 {
        named[place] = with_attribute(name[place], attributes[place]);
    }
    named
}

impl ControlBlock {
    ghost use Rattle.mpm_fcb.specs.Names.{drive_of, new_name_of, has_f5, has_f6};

    /// The drive, 0 to 15 for A to P, or more where there is none of the block's number; `own` is the process's.
    pub fn drive_number(&self, own: u8) -> u8
        ensures { result ≡ drive_of own self.now }
    {
        if self.drive == 0 { own } else { self.drive - 1 }
    }

    /// The name that a renaming gives, with its bits 7. (MP/M II Programmer's Guide, "Function 23: Rename File".)
    pub fn new_name(&self) -> [u8; 11]
        ensures { result ≡ new_name_of self.now }
    {
        let mut name = [0; 11];
        name.copy_from_slice(&self.map[1..12]);
        name
    }

    /// Whether F5' is set: it asks an opening or a making for unlocked mode, and a closing to leave the file open.
    pub fn has_f5(&self) -> bool
        ensures { result ≡ has_f5 self.now }
    {
        self.name[4] >= 128
    }

    /// Whether F6' is set: it asks an opening for read-only mode, and a making for a password.
    pub fn has_f6(&self) -> bool
        ensures { result ≡ has_f6 self.now }
    {
        self.name[5] >= 128
    }
}
