ghost use Rattle.std.specs.Prelude.{◌≡◌, ◌<◌, [], ◌∷◌, ◌++◌, length};

use mpm_base::Pid;
use mpm_clock::Woken;
use std::marker::Model;

/// The processes whose held calls the last call or event completed, in order, which were not handed out yet: the first
/// `count` of `pids`, at most 64.
#[derive(Drop)]
pub struct Completed {
    count: u8,
    pids: [Pid; 64],
}

impl Model for Completed {
    ghost use Rattle.std.specs.Prelude.{ℕ, ◌≤◌, List, take};

    ghost Value = { List ℕ };

    ghost view = { λ c. take c.count c.pids };

    ghost invariant = { λ c. (c.count ≤ 64) };
}

impl Completed {
    ghost use Rattle.mpm_dispatcher.specs.Calling.{TellsWhetherSome, TakesFirstCompleted};

    /// Nobody.
    pub fn new() -> Completed
        ensures { result ≡ [] }
    {
        Completed {
            count: 0,
            pids: [Pid(0); 64],
        }
    }

    /// Forgets all.
    pub fn clear(&mut self)
        ensures { self.new ≡ [] }
    {
        self.count = 0;
    }

    /// These processes, in order.
    #[tactic(auto, using(crate::proofs::CompletedLaws::taken_front))]
    pub fn set(&mut self, woken: Woken)
        ensures { self.new ≡ woken }
    {
        let pids = woken.as_slice();
        let count = pids.len();
        self.pids[..count].copy_from_slice(pids);
        self.count = count as u8;
    }

    /// One more process, after the others. There is room for 64.
    pub fn push(&mut self, p: Pid)
        requires { length self.old < 64 }
        ensures { self.new ≡ self.old ++ p ∷ [] }
    {
        self.pids[self.count as usize] = p;
        self.count += 1;
    }

    /// Whether some are left: at most 64.
    #[inline]
    pub fn has_some(&self) -> bool
        ensures { TellsWhetherSome self.now result }
    {
        !self.pids[..self.count as usize].is_empty()
    }

    /// Takes the first, None where none is left.
    #[tactic(auto, using(crate::proofs::CompletedLaws::first_of_some, crate::proofs::CompletedLaws::rest_of_some))]
    pub fn take(&mut self) -> Option<Pid>
        ensures { TakesFirstCompleted self.old self.new result }
    {
        if self.count == 0 {
            return None;
        }
        let first = self.pids[0];
        self.pids.rotate_left(1);
        self.count -= 1;
        Some(first)
    }
}
