ghost use Rattle.std.specs.Prelude.{◌≡◌, ℕ};
ghost use Rattle.mpm_procs.specs.Table.{Lives};
ghost use Rattle.mpm_system.specs.Asking.{MayTakeOwn};
ghost use Rattle.mpm_base.specs.Calls.{answering, Taken};
ghost use Rattle.mpm_system.specs.OwnCalls.{is_own, KeepsOwnCall};

use crate::system::System;
use mpm_base::{Pid, functions};
use mpm_kernel::MPM_VERSION;

/// Whether the call of a function concerns its caller alone: it reads and changes nothing else, and answers at once.
#[inline(always)]
pub fn is_own(function: u8) -> bool
    ensures { result ≡ is_own function }
{
    matches!(
        function,
        functions::RETURN_VERSION_NUMBER
            | functions::RETURN_CURRENT_DISK
            | functions::SET_DMA_ADDRESS
            | functions::SET_GET_USER_CODE
            | functions::SET_MULTI_SECTOR_COUNT
            | functions::SET_BDOS_ERROR_MODE
            | functions::RETURN_MPM_VERSION_NUMBER
    )
}

impl System {
    ghost use Rattle.mpm_system.specs.Doing.{DoesOwnCall};
    ghost use Rattle.mpm_system.specs.Taking.{asked, keeping};
    ghost use Rattle.mpm_system.specs.Answering.{replied};

    /// Takes the call of a process that concerns it alone, of a function and with a parameter: it is kept, and an EI takes effect.
    #[inline(always)]
    #[tactic(auto, using(mpm_procs::proofs::MapLaws::lives_changed), unfolding(crate::specs::Taking::keeping))]
    pub fn take_own(&mut self, p: Pid, function: u8, word: u16)
        requires { MayTakeOwn p function word self.old }
        ensures { (seg : ℕ) → self.new ≡ keeping p (asked p seg self.old) self.old }
    {
        let process = self.kernel.process_mut(p);
        let dma = process.dma;
        process.regs.shadow = false;
        self.kernel.call_mut(p).begin(function, word, dma);
    }

    /// Does the call that a process keeps, which concerns it alone, by its function and its parameter. Answers the value of its
    /// reply.
    #[inline(always)]
    #[tactic(auto, using(crate::proofs::OwnCallLaws::version_row), unfolding(mpm_kernel::specs::Calls::call_done))]
    pub fn serve_own(&mut self, p: Pid, function: u8, word: u16) -> u16
        requires { KeepsOwnCall p function word self.old }
        ensures { DoesOwnCall p self.old self.new result }
    {
        let byte = (word % 256) as u8;
        match function {
            functions::RETURN_CURRENT_DISK => u16::from(self.kernel.living(p).drive),
            functions::SET_DMA_ADDRESS => {
                self.kernel.process_mut(p).set_dma(word);
                0
            }
            functions::SET_GET_USER_CODE => self.kernel.process_mut(p).ask_user(byte),
            functions::SET_MULTI_SECTOR_COUNT => self.kernel.process_mut(p).set_multi(byte),
            functions::SET_BDOS_ERROR_MODE => {
                self.kernel.process_mut(p).set_error_mode(byte);
                0
            }
            _ => MPM_VERSION,
        }
    }

    /// A value is placed in the registers of a process, as a reply that is nothing else.
    #[inline(always)]
    #[tactic(auto, using(crate::proofs::OwnCallLaws::placed_in_memory), unfolding(crate::specs::Answering::replied, mpm_gate::specs::Replies::answered))]
    pub fn place_value(&mut self, p: Pid, value: u16)
        requires lives { Lives self.old.kernel.dispatcher.procs p }
        ensures { (call : Taken) (seg : ℕ) → self.new ≡ replied (answering value) call p seg self.old }
    {
        let regs = self.kernel.regs_mut(p);
        regs.h = (value / 256) as u8;
        regs.l = (value % 256) as u8;
        regs.a = regs.l;
        regs.b = regs.h;
    }
}
