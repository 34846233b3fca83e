ghost use Rattle.std.specs.Prelude.{◌≡◌, IfSome};

use crate::procs::Procs;
use mpm_base::{Name8, Pid};

/// The number of slots.
const SLOTS: u8 = 32;

impl Procs {
    ghost use Rattle.mpm_procs.specs.Table.{Lives};
    ghost use Rattle.mpm_procs.specs.Finding.{named, is_inside_of, is_entered};

    /// The process of that name in the lowest slot.
    #[tactic(auto, using(crate::proofs::Finding::failed_none, crate::proofs::Finding::failed_more, crate::proofs::Finding::found_lowest, crate::proofs::Finding::found_none))]
    pub fn named(&self, name: Name8) -> Option<Pid>
        ensures process { result ≡ named self.now name }
        ensures lives { IfSome result (λ p. Lives self.now p) }
    {
        for slot in 0..SLOTS {
            let p = Pid(slot);
            if self.lives(p) && self.get(p).name == name {
                return Some(p);
            }
        }
        None
    }

    /// Whether a process is in the resident procedure of a queue.
    #[tactic(auto, using(crate::proofs::Finding::failed_none, crate::proofs::Finding::failed_more, crate::proofs::Finding::found_lowest, crate::proofs::Finding::found_none), unfolding(crate::specs::Finding::is_entered))]
    pub fn is_entered(&self, q: u8) -> bool
        ensures { result ≡ is_entered self.now q }
    {
        for slot in 0..SLOTS {
            if self.is_inside_of(Pid(slot), q) {
                return true;
            }
        }
        false
    }

    /// Whether the process of that number lives, and is in the resident procedure of a queue.
    fn is_inside_of(&self, p: Pid, q: u8) -> bool
        ensures { result ≡ is_inside_of self.now q p }
    {
        self.lives(p) && self.get(p).procedure == Some(q)
    }
}
