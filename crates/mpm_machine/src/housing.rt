ghost use Rattle.std.specs.Prelude.{◌≡◌, ◌<◌, option_map};

use crate::machine::Machine;
use mpm_base::{Pid, Seg};

/// Where a process lives, and whether it is in a resident procedure.
#[derive(Clone, Copy, Debug, PartialEq, Eq)]
pub struct Home {
    pub seg: Seg,
    /// The first page of its segment.
    pub base: u8,
    /// How many pages its segment has, 4 to 192.
    pub pages: u8,
    /// Whether it is in a resident procedure, so that the gate that ends one is there.
    pub procedure: bool,
}

impl Machine {
    ghost use Rattle.std.specs.Option.{option_copied};
    ghost use Rattle.mpm_banks.specs.Ranges.{range_of, range_bytes};
    ghost use Rattle.mpm_system.specs.Whole.{IsWhole};
    ghost use Rattle.mpm_machine.specs.PartCalls.{TellsHome};
    ghost use Rattle.mpm_machine.specs.Housing.{home_of};

    /// Where the process of that number lives. None comes exactly where it doesn't live, or is a resident, which has no segment.
    #[tactic(auto, using(mpm_system::proofs::WholeLaws::segment_is_there), unfolding(crate::specs::Housing::home_of))]
    pub fn home(&self, p: Pid) -> Option<Home>
        requires whole { IsWhole self.now.system }
        ensures { TellsHome p self.now.system result }
    {
        if !self.system.kernel.lives(p) {
            return None;
        }
        let process = self.system.kernel.living(p);
        match process.seg {
            None => None,
            Some(seg) => {
                let spec = self.system.memory.spec(seg);
                Some(Home {
                    seg,
                    base: spec.base,
                    pages: spec.pages,
                    procedure: process.procedure.is_some(),
                })
            }
        }
    }

    /// `size` bytes (at least 1) from an address on, as the process of a segment names them. None comes exactly where they don't
    /// lie wholly in the segment or wholly in common memory.
    pub fn view(&self, seg: Seg, address: u16, size: u16) -> Option<&[u8]>
        requires { 0 < size }
        ensures { option_copied result ≡ option_map (range_bytes self.now.system.memory) (range_of self.now.system.memory seg address size) }
    {
        self.system.memory.view(seg, address, size)
    }
}
