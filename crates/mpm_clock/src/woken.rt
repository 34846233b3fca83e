ghost use Rattle.std.specs.Prelude.{◌≡◌, ◌<◌, ◌≤◌, [], ◌∷◌, ◌++◌, length};

use mpm_base::Pid;
use std::marker::Model;

/// Processes that were woken, in order: the first `count` of `pids`. Contracts see these alone.
#[derive(Drop)]
pub struct Woken {
    /// How many, at most 32.
    pub count: u8,
    pub pids: [Pid; 32],
}

impl Model for Woken {
    ghost use Rattle.std.specs.Prelude.{ℕ, ◌≤◌, List, take};

    ghost Value = { List ℕ };

    ghost view = { λ w. take w.count w.pids };

    ghost invariant = { λ w. w.count ≤ 32 };
}

impl Woken {
    /// Nobody.
    pub fn new() -> Woken
        ensures { result ≡ [] }
    {
        Woken {
            count: 0,
            pids: [Pid(0); 32],
        }
    }

    /// One more process, after the others. At most 32 are woken.
    pub fn push(&mut self, p: Pid)
        requires { length self.old < 32 }
        ensures { self.new ≡ self.old ++ p ∷ [] }
    {
        self.pids[self.count as usize] = p;
        self.count += 1;
    }

    /// The processes, in order.
    pub fn as_slice(&self) -> &[Pid]
        ensures value { result.now ≡ self.now }
        ensures few { length result.now ≤ 32 }
    {
        &self.pids[..self.count as usize]
    }
}
