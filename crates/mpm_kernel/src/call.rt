ghost use Rattle.std.specs.Prelude.{◌≡◌};
ghost use Rattle.mpm_base.specs.Lists.{is_among};
ghost use Rattle.mpm_kernel.specs.Called.{functions_of};
ghost use Rattle.mpm_kernel.specs.Consoling.{unit_rows};

use crate::Kernel;
use mpm_base::{Outcome, Pid, Reply, functions};
use mpm_clock::{tell_date, tell_time};
use mpm_consoles::echoes;

/// The version of the system, which functions 12 and 163 answer: MP/M II, whose file system is that of CP/M 3.
pub const MPM_VERSION: u16 = 0x0130;

/// The answer of a function that isn't there.
pub(crate) const NO_FUNCTION: u16 = 0xFFFF;

impl Kernel {
    ghost use Rattle.mpm_procs.specs.Table.{call_of, process_in};
    ghost use Rattle.mpm_kernel.specs.Kernel.{MayCall};
    ghost use Rattle.mpm_kernel.specs.Parts.{BeginsCall};
    ghost use Rattle.mpm_kernel.specs.Called.{Yields};
    ghost use Rattle.mpm_kernel.specs.Calls.{call_done};
    ghost use Rattle.mpm_kernel.specs.Leaving.{ServesCall};

    /// Does the call that a ready process keeps. A function that isn't there answers FFFFh. So does one that a crate
    /// above does: mpm_system has functions 47, 128 to 130, 150 and 152, mpm_xdos 144, 154, 156 and 157, and mpm_bdos those on
    /// files.
    #[inline(always)]
    #[tactic(auto, using(crate::proofs::SoundLaws::sound_begun))]
    pub fn call(&mut self, p: Pid, reply: &mut Reply) -> Outcome
        requires { MayCall p self.old }
        ensures { ServesCall p self.old self.new result reply.new }
    {
        let call = self.dispatcher.procs.call(p);
        let function = call.function;
        let word = call.word;
        self.begin_call(function <= functions::READ_CONSOLE_BUFFER && echoes(function));
        reply.answer(0);
        self.serve_begun(p, function, word, reply)
    }

    /// A call that has begun, by its function.
    #[inline(always)]
    #[tactic(auto, unfolding(crate::specs::Calls::call_done, crate::specs::Dates::date_answered, crate::specs::Dates::time_answered))]
    fn serve_begun(&mut self, p: Pid, function: u8, word: u16, reply: &mut Reply) -> Outcome
        requires { BeginsCall p function word reply.old self.old }
        ensures { Yields (call_done (call_of self.old.dispatcher.procs p) p (process_in self.old.dispatcher.procs p) self.old) self.new result reply.new }
    {
        let byte = (word % 256) as u8;
        match function {
            functions::SYSTEM_RESET | functions::TERMINATE_PROCESS => return Outcome::Ended,
            functions::CONSOLE_INPUT
            | functions::CONSOLE_OUTPUT
            | functions::RAW_CONSOLE_INPUT
            | functions::RAW_CONSOLE_OUTPUT
            | functions::DIRECT_CONSOLE_IO
            | functions::PRINT_STRING
            | functions::READ_CONSOLE_BUFFER
            | functions::GET_CONSOLE_STATUS => return self.console_call(p, reply),
            functions::RETURN_VERSION_NUMBER | functions::RETURN_MPM_VERSION_NUMBER => reply.hl =
                MPM_VERSION,
            functions::RETURN_CURRENT_DISK => reply.hl = u16::from(
                self.dispatcher.procs.get(p).drive,
            ),
            functions::SET_DMA_ADDRESS => self.dispatcher.procs.get_mut(p).set_dma(word),
            functions::SET_GET_USER_CODE => reply.hl = self
                .dispatcher
                .procs
                .get_mut(p)
                .ask_user(byte),
            functions::SET_MULTI_SECTOR_COUNT => reply.hl = self
                .dispatcher
                .procs
                .get_mut(p)
                .set_multi(byte),
            functions::SET_BDOS_ERROR_MODE => self.dispatcher.procs.get_mut(p).set_error_mode(byte),
            functions::SET_DATE_AND_TIME => return self.set_date(p, reply),
            functions::GET_DATE_AND_TIME => tell_date(self.clock.now(), word, reply),
            functions::SET_DEFAULT_PASSWORD => {
                let password = self.dispatcher.procs.call(p).eight(0);
                self.dispatcher.procs.get_mut(p).set_password(password);
            }
            functions::POLL => return self.poll(p, byte, reply),
            functions::FLAG_WAIT => return self.wait_flag(p, byte, reply),
            functions::FLAG_SET => return self.set_flag(byte, reply),
            functions::MAKE_QUEUE => return self.make_queue(p, reply),
            functions::OPEN_QUEUE => return self.open_queue(p, reply),
            functions::DELETE_QUEUE => return self.delete_queue(p, reply),
            functions::READ_QUEUE => return self.read_queue(p, true, reply),
            functions::CONDITIONAL_READ_QUEUE => return self.read_queue(p, false, reply),
            functions::WRITE_QUEUE => return self.write_queue(p, true, reply),
            functions::CONDITIONAL_WRITE_QUEUE => return self.write_queue(p, false, reply),
            functions::DELAY => return self.delay(p, word, reply),
            functions::DISPATCH => self.dispatcher.rotate(p),
            functions::SET_PRIORITY => self.dispatcher.set_priority(p, byte),
            functions::CALL_RESIDENT_SYSTEM_PROCEDURE => return self.call_procedure(p, reply),
            functions::GET_DATE_TIME_AND_SECOND => tell_time(self.clock.now(), word, reply),
            _ if is_for_unit(function) => return self.unit_call(p, reply),
            _ => reply.hl = NO_FUNCTION,
        }
        Outcome::Done
    }
}

/// Whether a function attaches, detaches, changes, assigns or tells a console or a printer.
fn is_for_unit(function: u8) -> bool
    ensures { result ≡ is_among function (functions_of unit_rows) }
{
    matches!(
        function,
        functions::LIST_OUTPUT
            | functions::ATTACH_CONSOLE
            | functions::DETACH_CONSOLE
            | functions::SET_CONSOLE
            | functions::ASSIGN_CONSOLE
            | functions::GET_CONSOLE_NUMBER
            | functions::ATTACH_LIST
            | functions::DETACH_LIST
            | functions::SET_LIST
            | functions::CONDITIONAL_ATTACH_LIST
            | functions::CONDITIONAL_ATTACH_CONSOLE
            | functions::GET_LIST_NUMBER
    )
}
