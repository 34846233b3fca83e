ghost use Rattle.std.specs.Prelude.{Some};
ghost use Rattle.mpm_procs.specs.Table.{Lives, call_of};

use crate::system::System;
use mpm_base::{FAILURE_CODE, Outcome, Pid, Reply, Seg};
use mpm_gate::segment_descriptor;

impl System {
    ghost use Rattle.mpm_banks.specs.Allocations.{released, is_reserved};
    ghost use Rattle.mpm_system.specs.Calling.{CallGives};
    ghost use Rattle.mpm_system.specs.Leaving.{LeavesSystem};
    ghost use Rattle.mpm_system.specs.Segments.{reserving, base_asked, releasing};

    /// Functions 128 and 129: reserves a segment, of the base page that the call gives or of any.
    #[inline(never)]
    #[tactic(auto, using(mpm_banks::proofs::SegmentLaws::reserved_is_there, mpm_banks::proofs::SegmentLaws::spec_of_reserved), unfolding(crate::specs::Segments::reserving))]
    pub fn reserve(&mut self, p: Pid, absolute: bool, reply: &mut Reply) -> Outcome
        requires lives { Lives self.old.kernel.dispatcher.procs p }
        ensures { CallGives (reserving (base_asked absolute (call_of self.old.kernel.dispatcher.procs p)) (call_of self.old.kernel.dispatcher.procs p) p self.old) self.new result reply.new }
    {
        let call = self.kernel.kept_call(p);
        let word = call.word;
        let base = if absolute { Some(call.byte(0)) } else { None };
        let pages = call.byte(1);
        match self.memory.reserve(p, base, pages) {
            Some(seg) => {
                reply.answer_with(0, word, &segment_descriptor(&self.memory, seg));
            }
            None => reply.answer(FAILURE_CODE),
        }
        Outcome::Done
    }

    /// Function 130: frees a segment that the process reserved.
    #[inline(never)]
    #[tactic(auto, unfolding(crate::specs::Segments::releasing))]
    pub fn release(&mut self, p: Pid, reply: &mut Reply) -> Outcome
        requires lives { Lives self.old.kernel.dispatcher.procs p }
        ensures { CallGives (releasing (call_of self.old.kernel.dispatcher.procs p) p self.old) self.new result reply.new }
    {
        let bank = self.kernel.kept_call(p).byte(3);
        let answer = if self.give_back(p, bank) {
            0
        } else {
            FAILURE_CODE
        };
        reply.answer(answer);
        Outcome::Done
    }

    /// Frees the segment of a number, where the process reserved it; answers whether it did.
    #[tactic(auto, using(mpm_banks::proofs::SegmentLaws::nobody_reserved, mpm_banks::proofs::SegmentLaws::released_by_another))]
    fn give_back(&mut self, p: Pid, bank: u8) -> bool
        ensures { LeavesSystem (record self.old { memory = released self.old.memory p bank }) (is_reserved self.old.memory p bank) self.new result }
    {
        if self.memory.segments() <= bank {
            return false;
        }
        self.memory.release(p, Seg(bank))
    }
}
