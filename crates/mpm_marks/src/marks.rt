ghost use Rattle.std.specs.Prelude.{◌≡◌, ◌<◌};
ghost use Rattle.mpm_marks.specs.Marks as spec;

use mpm_base::Pid;
use std::marker::Model;

/// Whether a drive's bit is set in a mask, in which drive A is bit 0.
pub(crate) fn is_bit(mask: u16, drive: u8) -> bool
    requires { drive < 16 }
    ensures { result ≡ spec.is_bit mask drive }
{
    mask / (1 << drive) % 2 != 0
}

/// The drives that processes have marked. (MP/M II Programmer's Guide, "Function 38: Access Drive".)
#[derive(Drop)]
pub struct Marks {
    words: [u16; 32],
}

impl Model for Marks {
    ghost use Rattle.std.specs.Prelude.{ℕ, List};

    ghost Value = { List ℕ };

    ghost view = { λ m. m.words };
}

impl Marks {
    ghost use Rattle.mpm_marks.specs.Marks.{no_marks, is_marked, with_marks, without_marks, left_marks};

    /// No drive is marked.
    #[tactic(auto, unfolding(crate::specs::Marks::no_marks))]
    pub fn new() -> Marks
        ensures { result ≡ no_marks }
    {
        Marks { words: [0; 32] }
    }

    /// Marks the drives of a mask for a process.
    pub fn mark(&mut self, p: Pid, mask: u16)
        ensures { self.new ≡ with_marks self.old p mask }
    {
        self.words[usize::from(p.0)] |= mask;
    }

    /// Gives back a process's marks of the drives of a mask.
    pub fn unmark(&mut self, p: Pid, mask: u16)
        ensures { self.new ≡ without_marks self.old p mask }
    {
        self.words[usize::from(p.0)] &= 65535 - mask;
    }

    /// Gives back all marks of a process.
    pub fn leave(&mut self, p: Pid)
        ensures { self.new ≡ left_marks self.old p }
    {
        self.words[usize::from(p.0)] = 0;
    }

    /// Whether another process has marked a drive.
    #[tactic(auto, using(crate::proofs::Walked::none_first, crate::proofs::Walked::none_yet, crate::proofs::Walked::marked_found))]
    pub fn is_marked(&self, p: Pid, drive: u8) -> bool
        requires { drive < 16 }
        ensures { result ≡ is_marked self.now p drive }
    {
        for other in 0..32 {
            if self.is_marked_by(p, drive, other) {
                return true;
            }
        }
        false
    }

    /// Whether a process is another one, and has marked a drive.
    fn is_marked_by(&self, p: Pid, drive: u8, other: u8) -> bool
        requires drive { drive < 16 }
        requires process { other < 32 }
        ensures { result ≡ spec.is_marked_by self.now p drive other }
    {
        other != p.0 && is_bit(self.words[usize::from(other)], drive)
    }
}
