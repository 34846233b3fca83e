ghost use Rattle.std.specs.Prelude.{◌≡◌, ◌<◌, slice_index_or, false};
ghost use Rattle.mpm_marks.specs.Protected.{none_protected, unprotected, with_protected};

use crate::marks::is_bit;
use std::marker::Model;

/// The drives that are protected from writing. (MP/M II Programmer's Guide, "Function 28: Write Protect Disk".)
#[derive(Drop)]
pub struct Protected {
    drives: [bool; 16],
}

impl Model for Protected {
    ghost use Rattle.std.specs.Prelude.{◌≡◌, Bool, List, length};

    ghost Value = { List Bool };

    ghost view = { λ p. p.drives };

    ghost invariant = { λ p. length p.drives ≡ 16 };
}

impl Protected {
    /// No drive is protected.
    #[tactic(auto, unfolding(crate::specs::Protected::none_protected))]
    pub fn new() -> Protected
        ensures { result ≡ none_protected }
    {
        Protected {
            drives: [false; 16],
        }
    }

    /// Whether a drive is protected; none above the sixteenth is.
    pub fn has(&self, drive: u8) -> bool
        ensures { result ≡ slice_index_or self.now drive false }
    {
        drive < 16 && self.drives[usize::from(drive)]
    }

    /// Protects a drive.
    pub fn protect(&mut self, drive: u8)
        requires { drive < 16 }
        ensures { self.new ≡ with_protected self.old drive }
    {
        self.drives[usize::from(drive)] = true;
    }

    /// Takes the protection off the drives of a mask.
    pub fn reset(&mut self, mask: u16)
        ensures { self.new ≡ unprotected self.old mask }
    {
        self.drives = still_protected(&self.drives, mask);
    }

    /// Takes the protection off all drives.
    #[tactic(auto, unfolding(crate::specs::Protected::none_protected))]
    pub fn reset_all(&mut self)
        ensures { self.new ≡ none_protected }
    {
        self.drives = [false; 16];
    }
}

/// The drives that stay protected.
#[tactic(auto, using(crate::proofs::StillProtected::protected_all))]
fn still_protected(drives: &[bool; 16], mask: u16) -> [bool; 16]
    ensures { result ≡ unprotected drives.now mask }
{
    let mut protected = *drives;
    for drive in 0..16 {
        protected[usize::from(drive)] = drives[usize::from(drive)] && !is_bit(mask, drive);
    }
    protected
}
