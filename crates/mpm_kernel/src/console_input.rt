use crate::Kernel;
use mpm_base::{Outcome, Pid, Reply, functions};
use mpm_consoles::{AWAIT_KEY, POLL_KEY, TELL_STATUS, Unit, is_cooked, is_raw, writes};
use mpm_dispatcher::done;
use mpm_line_input::{answer_line, edited, full_line, is_full, key_echo};

impl Kernel {
    ghost use Rattle.std.specs.Prelude.{◌≡◌};
    ghost use Rattle.mpm_procs.specs.Table.{Lives, call_of};
    ghost use Rattle.mpm_kernel.specs.Kernel.{IsConsole, OwnsConsole, UsesConsole, MayCall};
    ghost use Rattle.mpm_kernel.specs.Called.{Yields};
    ghost use Rattle.mpm_kernel.specs.Consoling.{awaited};
    ghost use Rattle.mpm_kernel.specs.ConsoleInput.{raw_if, next_key, shown_key, read_key, polled_key, direct, line_done, line_with, line_read, console_served, unless_stopped, console_called, MayJoinLine};
    ghost use Rattle.mpm_kernel.specs.Leaving.{EditsLine, TakesKey};

    /// The calls that read from the caller's console or write to it: it is attached first, or waited for. (MP/M II Programmer's
    /// Guide, functions 1 to 4, 6 and 9 to 11.)
    #[cold]
    #[inline(never)]
    #[tactic(auto, using(crate::proofs::UnitLaws::has_own_console, crate::proofs::InputLaws::has_then_attached, crate::proofs::InputCalls::stays_console_called), unfolding(crate::specs::ConsoleInput::console_called, crate::specs::Consoling::retried))]
    pub(crate) fn console_call(&mut self, p: Pid, reply: &mut Reply) -> Outcome
        requires { MayCall p self.old }
        ensures { Yields (console_called (call_of self.old.dispatcher.procs p) p self.old) self.new result reply.new }
    {
        let console = self.dispatcher.procs.get(p).console;
        if !self.attach(p, Unit::Console { n: console }, true) {
            return self.dispatcher.retry(p, reply);
        }
        let cooks = is_cooked(self.dispatcher.procs.call(p).function);
        self.set_raw_if(cooks, console, false);
        self.unless_stopped(p, console, reply)
    }

    /// Output waits until it isn't stopped any more.
    #[tactic(auto, unfolding(crate::specs::ConsoleInput::unless_stopped))]
    fn unless_stopped(&mut self, p: Pid, console: u8, reply: &mut Reply) -> Outcome
        requires { UsesConsole p console self.old }
        ensures { Yields (unless_stopped (call_of self.old.dispatcher.procs p) p console self.old) self.new result reply.new }
    {
        if writes(self.dispatcher.procs.call(p)) && self.units.stopped(console) {
            return self.wait_at_gate(p, console, false, reply);
        }
        let raw = is_raw(self.dispatcher.procs.call(p).function);
        self.set_raw_if(raw, console, true);
        self.serve_console(p, console, reply)
    }

    /// The owner of a console is served, whose output isn't stopped where the call writes. What a call writes is put out after
    /// it.
    #[tactic(auto, unfolding(crate::specs::ConsoleInput::console_served))]
    fn serve_console(&mut self, p: Pid, console: u8, reply: &mut Reply) -> Outcome
        requires { UsesConsole p console self.old }
        ensures { Yields (console_served (call_of self.old.dispatcher.procs p) p console self.old) self.new result reply.new }
    {
        match self.dispatcher.procs.call(p).function {
            functions::CONSOLE_INPUT => self.read_shown(p, console, reply),
            functions::RAW_CONSOLE_INPUT => self.read_key(p, console, reply),
            functions::DIRECT_CONSOLE_IO => self.direct(p, console, reply),
            functions::READ_CONSOLE_BUFFER => self.read_line(p, console, reply),
            functions::GET_CONSOLE_STATUS => done(reply, u16::from(self.units.has_key(console))),
            _ => done(reply, 0),
        }
    }

    /// Function 1: a key is taken and shown. (MP/M II Programmer's Guide, "Function 1: Console Input".)
    #[tactic(auto, unfolding(crate::specs::ConsoleInput::shown_key))]
    fn read_shown(&mut self, p: Pid, console: u8, reply: &mut Reply) -> Outcome
        requires { OwnsConsole p console self.old }
        ensures { Yields (shown_key (next_key console self.old) p console self.old) self.new result reply.new }
    {
        match self.take_key(console) {
            Some(key) => {
                let column = self.units.column(console);
                self.show(console, key_echo(key, column));
                done(reply, u16::from(key))
            }
            None => self.wait_at_gate(p, console, true, reply),
        }
    }

    /// Function 3, and function 6 with FDh: a key is taken. (MP/M II Programmer's Guide, "Function 3: Raw Console Input".)
    #[tactic(auto, unfolding(crate::specs::ConsoleInput::read_key))]
    fn read_key(&mut self, p: Pid, console: u8, reply: &mut Reply) -> Outcome
        requires { OwnsConsole p console self.old }
        ensures { Yields (read_key (next_key console self.old) p console self.old) self.new result reply.new }
    {
        match self.take_key(console) {
            Some(key) => done(reply, u16::from(key)),
            None => self.wait_at_gate(p, console, true, reply),
        }
    }

    /// Function 6: FFh asks for a key if there is one, FEh whether there is one, FDh for a key; other bytes are written. (MP/M II
    /// Programmer's Guide, "Function 6: Direct Console I/O".)
    #[tactic(auto, unfolding(crate::specs::ConsoleInput::direct))]
    fn direct(&mut self, p: Pid, console: u8, reply: &mut Reply) -> Outcome
        requires { UsesConsole p console self.old }
        ensures { Yields (direct (call_of self.old.dispatcher.procs p) p console self.old) self.new result reply.new }
    {
        match (self.dispatcher.procs.call(p).word % 256) as u8 {
            POLL_KEY => self.poll_key(console, reply),
            TELL_STATUS => done(reply, if self.units.has_key(console) { 0xFF } else { 0 }),
            AWAIT_KEY => self.read_key(p, console, reply),
            _ => done(reply, 0),
        }
    }

    /// The next key, or 0 where there is none.
    #[tactic(auto, unfolding(crate::specs::ConsoleInput::polled_key))]
    fn poll_key(&mut self, console: u8, reply: &mut Reply) -> Outcome
        requires { IsConsole self.old console }
        ensures { Yields (polled_key (next_key console self.old) console self.old) self.new result reply.new }
    {
        match self.take_key(console) {
            Some(key) => done(reply, u16::from(key)),
            None => done(reply, 0),
        }
    }

    /// Function 10: a key of a line is taken, unless the line is full. (MP/M II Programmer's Guide, "Function 10: Read Console
    /// Buffer".)
    #[tactic(auto, using(crate::proofs::InputLaws::lives_echoed, crate::proofs::InputLaws::procs_echoed), unfolding(crate::specs::ConsoleInput::line_read))]
    fn read_line(&mut self, p: Pid, console: u8, reply: &mut Reply) -> Outcome
        requires { UsesConsole p console self.old }
        ensures { Yields (line_read (call_of self.old.dispatcher.procs p) p console self.old) self.new result reply.new }
    {
        let greatest = self.dispatcher.procs.call(p).byte(0);
        if is_full(self.dispatcher.procs.get(p).line_length, greatest) {
            self.show(console, full_line().written);
            return self.finish_line(p, reply);
        }
        match self.take_key(console) {
            Some(key) => self.join_key(p, console, key, reply),
            None => self.wait_at_gate(p, console, true, reply),
        }
    }

    /// A key that was taken joins the line, or changes it; the line may end.
    #[tactic(auto, using(crate::proofs::InputLaws::call_joined, crate::proofs::InputLaws::lives_joined), unfolding(crate::specs::ConsoleInput::line_with))]
    fn join_key(&mut self, p: Pid, console: u8, key: u8, reply: &mut Reply) -> Outcome
        requires { MayJoinLine p console self.old }
        ensures { Yields (line_with key (call_of self.old.dispatcher.procs p) p console self.old) self.new result reply.new }
    {
        if self.edit_line(p, console, key) {
            return self.finish_line(p, reply);
        }
        reply.answer(0);
        Outcome::Retry
    }

    /// What a key makes of the line that a process keeps; whether the line ends with it.
    #[tactic(auto, unfolding(crate::specs::ConsoleInput::key_joined))]
    fn edit_line(&mut self, p: Pid, console: u8, key: u8) -> bool
        requires { MayJoinLine p console self.old }
        ensures { EditsLine p console key self.old self.new result }
    {
        let greatest = self.dispatcher.procs.call(p).byte(0);
        let process = self.dispatcher.procs.get_mut(p);
        let mut line = process.line;
        let mut count = process.line_length;
        let edit = edited(&mut line, &mut count, greatest, key);
        process.line = line;
        process.line_length = count;
        self.show(console, edit.written);
        edit.ends
    }

    /// A line ends: it is answered, and the process keeps none any more.
    #[tactic(auto, unfolding(crate::specs::ConsoleInput::line_done))]
    fn finish_line(&mut self, p: Pid, reply: &mut Reply) -> Outcome
        requires { Lives self.old.dispatcher.procs p }
        ensures { Yields (line_done (call_of self.old.dispatcher.procs p) p self.old) self.new result reply.new }
    {
        let address = self.dispatcher.procs.call(p).word;
        let process = self.dispatcher.procs.get_mut(p);
        answer_line(&process.line, process.line_length, address, reply);
        process.line_length = 0;
        Outcome::Done
    }

    /// Takes the oldest key of a console, None where there is none.
    #[tactic(auto, using(crate::proofs::UnitLaws::nothing_taken, crate::proofs::InputLaws::has_after_take))]
    fn take_key(&mut self, console: u8) -> Option<u8>
        requires { IsConsole self.old console }
        ensures { TakesKey console self.old self.new result }
    {
        self.units.take(console)
    }

    /// A console is made raw, or not, if it is at all.
    fn set_raw_if(&mut self, changes: bool, console: u8, raw: bool)
        requires { IsConsole self.old console }
        ensures { self.new ≡ raw_if changes console raw self.old }
    {
        if changes {
            self.units.set_raw(console, raw);
        }
    }

    /// The owner of a console waits at its gate, for a key or until output goes on.
    #[tactic(auto, unfolding(crate::specs::Consoling::awaited, crate::specs::Consoling::retried))]
    fn wait_at_gate(&mut self, p: Pid, console: u8, key: bool, reply: &mut Reply) -> Outcome
        requires { OwnsConsole p console self.old }
        ensures { Yields (awaited p console key self.old) self.new result reply.new }
    {
        self.units.wait(p, console, key);
        self.dispatcher.retry(p, reply)
    }
}
