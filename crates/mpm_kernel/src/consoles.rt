ghost use Rattle.std.specs.Prelude.{◌≡◌, Some};
ghost use Rattle.mpm_consoles.specs.Consoles.{console_at, HasUnit};

use crate::Kernel;
use crate::call::NO_FUNCTION;
use mpm_base::{FAILURE_CODE, Outcome, Pid, Reply, functions};
use mpm_consoles::{KeyDone, Unit};
use mpm_dispatcher::{READY, done};
use mpm_line_input::Echo;

impl Kernel {
    ghost use Rattle.mpm_procs.specs.Table.{call_of};
    ghost use Rattle.mpm_consoles.specs.Consoles.{owner_of};
    ghost use Rattle.mpm_consoles.specs.Handling.{may_attach};
    ghost use Rattle.mpm_base.specs.declared.unit.Unit.TheVariants.{Console as ConsoleUnit, Printer as PrinterUnit};
    ghost use Rattle.mpm_consoles.specs.Console.{MakesAndAnswers};
    ghost use Rattle.mpm_kernel.specs.Kernel.{IsSoundKernel, IsConsole, LivesInKernel, MayCall, MayUseUnit, HasSoundUnit, BecomesSound};
    ghost use Rattle.mpm_kernel.specs.Called.{Yields, done};
    ghost use Rattle.mpm_kernel.specs.Parts.{MayHandOver};
    ghost use Rattle.mpm_kernel.specs.Asking.{MayGive, MayMakeOwner, MayFinishKey};
    ghost use Rattle.mpm_kernel.specs.Leaving.{WritesUnit, TakesAbort, TellsOwner};
    ghost use Rattle.mpm_kernel.specs.Columns.{spoke};
    ghost use Rattle.mpm_kernel.specs.Consoling.{unit_left, attaching, attached, attached_now, console_changed, printer_changed, console_set, printer_set, owner_made, assigned_to, assigned, printer_called, unit_called, given, handed_over, echoed, key_done, is_of_resident, key_came};

    /// A byte is written to a console or a printer: the column of a console moves. Answers the number of spaces that stand for a
    /// tab that is expanded, 0 where the byte stands for itself. (MP/M II Programmer's Guide, "Function 2: Console Output".)
    #[tactic(auto, unfolding(crate::specs::Columns::wrote))]
    pub fn write(&mut self, unit: Unit, byte: u8, tabs: bool) -> u8
        requires { HasUnit self.old.units unit }
        ensures { WritesUnit unit byte tabs self.old self.new result }
    {
        self.units.output(unit, byte, tabs)
    }

    /// The bytes that the last call of function 1 or 10, or the last event, wrote to its console by itself: the echo of a key,
    /// or `^C`, CR and LF of a key that aborts. Other calls leave them.
    pub fn echo(&self) -> Echo
        ensures { result ≡ self.now.echo }
    {
        Echo::of(self.echo.written())
    }

    /// Hands out the process that the last event aborts; None where it aborts nobody, or its process was handed out already.
    pub fn take_abort(&mut self) -> Option<Pid>
        ensures { TakesAbort self.old self.new result }
    {
        let aborted = self.aborted;
        self.aborted = None;
        aborted
    }

    /// How many keys of a console were lost, as 64 were stored.
    pub fn lost(&self, console: u8) -> u64
        requires { IsConsole self.now console }
        ensures { result ≡ (console_at self.now.units console).lost }
    {
        self.units.lost(console)
    }

    /// A console that `from` owns, or nobody where that is None, comes to `to`, or where that is None to the process that waits
    /// for it first. Nothing changes where `from` isn't its owner.
    #[tactic(auto, unfolding(crate::specs::Consoling::given))]
    pub fn give(&mut self, console: u8, from: Option<Pid>, to: Option<Pid>)
        requires { MayGive console from to self.old }
        ensures { BecomesSound (given console from to self.old) self.new }
    {
        let owner = self.console_owner(console);
        match from {
            Some(p) => {
                if owner == Some(p) {
                    self.hand_over(console, Some(p), to);
                }
            }
            None => {
                if owner.is_none() {
                    self.hand_over(console, None, to);
                }
            }
        }
    }

    /// A console comes to a process, or passes on.
    fn hand_over(&mut self, console: u8, from: Option<Pid>, to: Option<Pid>)
        requires { MayHandOver console to self.old }
        ensures { self.new ≡ handed_over console from to self.old }
    {
        match to {
            Some(to) => self.make_owner(console, to),
            None => {
                if let Some(p) = from {
                    self.leave_unit(p, Unit::Console { n: console });
                }
            }
        }
    }

    /// The calls on consoles and printers: they are attached, detached, changed or assigned, or their numbers are answered.
    #[cold]
    #[inline(never)]
    #[tactic(auto, using(crate::proofs::UnitLaws::has_own_console, crate::proofs::UnitCalls::stays_unit_called), unfolding(crate::specs::Consoling::unit_called))]
    pub(crate) fn unit_call(&mut self, p: Pid, reply: &mut Reply) -> Outcome
        requires { MayCall p self.old }
        ensures { Yields (unit_called (call_of self.old.dispatcher.procs p) p self.old) self.new result reply.new }
    {
        let function = self.dispatcher.procs.call(p).function;
        let process = self.dispatcher.procs.get(p);
        let console = process.console;
        let printer = process.printer;
        let own = Unit::Console { n: console };
        match function {
            functions::ATTACH_CONSOLE => self.attach_unit(p, own, reply),
            functions::DETACH_CONSOLE => self.detach_unit(p, own, reply),
            functions::SET_CONSOLE => self.set_console(p, reply),
            functions::ASSIGN_CONSOLE => self.assign(p, reply),
            functions::GET_CONSOLE_NUMBER => done(reply, u16::from(console)),
            functions::CONDITIONAL_ATTACH_CONSOLE => self.attach_now(p, own, reply),
            functions::GET_LIST_NUMBER => done(reply, u16::from(printer)),
            functions::LIST_OUTPUT
            | functions::ATTACH_LIST
            | functions::DETACH_LIST
            | functions::SET_LIST
            | functions::CONDITIONAL_ATTACH_LIST => self.printer_call(p, reply),
            _ => done(reply, NO_FUNCTION),
        }
    }

    /// The calls on printers, which a machine without printers refuses.
    #[tactic(auto, using(crate::proofs::UnitLaws::has_own_printer), unfolding(crate::specs::Consoling::printer_called))]
    fn printer_call(&mut self, p: Pid, reply: &mut Reply) -> Outcome
        requires { MayCall p self.old }
        ensures { Yields (printer_called (call_of self.old.dispatcher.procs p) p self.old) self.new result reply.new }
    {
        if self.printers() == 0 {
            return done(reply, FAILURE_CODE);
        }
        let own = Unit::Printer {
            n: self.dispatcher.procs.get(p).printer,
        };
        match self.dispatcher.procs.call(p).function {
            functions::DETACH_LIST => self.detach_unit(p, own, reply),
            functions::SET_LIST => self.set_printer(p, reply),
            functions::CONDITIONAL_ATTACH_LIST => self.attach_now(p, own, reply),
            functions::LIST_OUTPUT | functions::ATTACH_LIST => self.attach_unit(p, own, reply),
            _ => done(reply, NO_FUNCTION),
        }
    }

    /// A process attaches a unit, or waits for it.
    #[tactic(auto, unfolding(crate::specs::Consoling::attached, crate::specs::Consoling::retried))]
    fn attach_unit(&mut self, p: Pid, unit: Unit, reply: &mut Reply) -> Outcome
        requires { MayUseUnit p unit self.old }
        ensures { Yields (attached p unit self.old) self.new result reply.new }
    {
        if self.attach(p, unit, true) {
            done(reply, 0)
        } else {
            self.dispatcher.retry(p, reply)
        }
    }

    /// A process attaches a unit, unless another owns it.
    #[tactic(auto, using(crate::proofs::UnitLaws::attach_refused), unfolding(crate::specs::Consoling::attached_now))]
    fn attach_now(&mut self, p: Pid, unit: Unit, reply: &mut Reply) -> Outcome
        requires { MayUseUnit p unit self.old }
        ensures { Yields (attached_now p unit self.old) self.new result reply.new }
    {
        if self.attach(p, unit, false) {
            done(reply, 0)
        } else {
            done(reply, FAILURE_CODE)
        }
    }

    /// A process detaches a unit.
    fn detach_unit(&mut self, p: Pid, unit: Unit, reply: &mut Reply) -> Outcome
        requires { HasSoundUnit unit self.old }
        ensures { Yields (done (unit_left p unit self.old)) self.new result reply.new }
    {
        self.leave_unit(p, unit);
        done(reply, 0)
    }

    /// A process attaches a unit; false where another owns it, and then the process waits for it if `wait` says so.
    #[tactic(auto, using(crate::proofs::UnitLaws::waits_at_none))]
    pub(crate) fn attach(&mut self, p: Pid, unit: Unit, wait: bool) -> bool
        requires { MayUseUnit p unit self.old }
        ensures { MakesAndAnswers (attaching p unit wait self.old) (may_attach self.old.units p unit) self.new result }
    {
        let priority = self.dispatcher.procs.get(p).priority;
        self.units.attach(p, priority, unit, wait)
    }

    /// A unit that a process owns passes to the process that waits for it first, who becomes ready.
    #[tactic(auto, using(crate::proofs::UnitLaws::heir_lives), unfolding(crate::specs::Consoling::unit_left))]
    pub(crate) fn leave_unit(&mut self, p: Pid, unit: Unit)
        requires { HasSoundUnit unit self.old }
        ensures { self.new ≡ unit_left p unit self.old }
    {
        let heir = self.units.detach(p, unit);
        self.dispatcher.make_one_ready(heir);
    }

    /// A process has another console from now on, and attaches it.
    #[tactic(auto, using(crate::proofs::ChangeLaws::uses_console_changed), unfolding(crate::specs::Consoling::console_set))]
    fn set_console(&mut self, p: Pid, reply: &mut Reply) -> Outcome
        requires { MayCall p self.old }
        ensures { Yields (console_set (call_of self.old.dispatcher.procs p) p self.old) self.new result reply.new }
    {
        let console = (self.dispatcher.procs.call(p).word % 256) as u8;
        if self.consoles() <= console {
            return done(reply, FAILURE_CODE);
        }
        self.change_console(p, console);
        self.attach_unit(p, Unit::Console { n: console }, reply)
    }

    /// A process has another printer from now on, and attaches it.
    #[tactic(auto, using(crate::proofs::ChangeLaws::uses_printer_changed), unfolding(crate::specs::Consoling::printer_set))]
    fn set_printer(&mut self, p: Pid, reply: &mut Reply) -> Outcome
        requires { MayCall p self.old }
        ensures { Yields (printer_set (call_of self.old.dispatcher.procs p) p self.old) self.new result reply.new }
    {
        let printer = (self.dispatcher.procs.call(p).word % 256) as u8;
        if self.printers() <= printer {
            return done(reply, FAILURE_CODE);
        }
        self.change_printer(p, printer);
        self.attach_unit(p, Unit::Printer { n: printer }, reply)
    }

    /// A process leaves its console for another one, unless it has that one already.
    #[tactic(auto, using(crate::proofs::UnitLaws::has_own_console), unfolding(crate::specs::Consoling::console_changed, crate::specs::Consoling::unit_left))]
    fn change_console(&mut self, p: Pid, console: u8)
        requires { MayUseUnit p (ConsoleUnit console) self.old }
        ensures { self.new ≡ console_changed p console self.old }
    {
        let own = self.dispatcher.procs.get(p).console;
        if own == console {
            return;
        }
        self.leave_unit(p, Unit::Console { n: own });
        let process = self.dispatcher.procs.get_mut(p);
        process.console = console;
    }

    /// A process leaves its printer for another one, unless it has that one already.
    #[tactic(auto, using(crate::proofs::UnitLaws::has_own_printer), unfolding(crate::specs::Consoling::printer_changed, crate::specs::Consoling::unit_left))]
    fn change_printer(&mut self, p: Pid, printer: u8)
        requires { MayUseUnit p (PrinterUnit printer) self.old }
        ensures { self.new ≡ printer_changed p printer self.old }
    {
        let own = self.dispatcher.procs.get(p).printer;
        if own == printer {
            return;
        }
        self.leave_unit(p, Unit::Printer { n: own });
        let process = self.dispatcher.procs.get_mut(p);
        process.printer = printer;
    }

    /// A process assigns a console to a process that it names. (MP/M II Programmer's Guide, "Function 149: Assign Console".)
    #[tactic(auto, unfolding(crate::specs::Consoling::assigned, crate::specs::Consoling::assigned_to))]
    fn assign(&mut self, p: Pid, reply: &mut Reply) -> Outcome
        requires { LivesInKernel p self.old }
        ensures { Yields (assigned (call_of self.old.dispatcher.procs p) p self.old) self.new result reply.new }
    {
        let call = self.dispatcher.procs.call(p);
        let console = call.byte(0);
        let name = call.name(1);
        let own_only = call.byte(9) == 0xFF;
        if self.consoles() <= console || !self.units.may_attach(p, Unit::Console { n: console }) {
            return done(reply, FAILURE_CODE);
        }
        match self.dispatcher.procs.named(name) {
            Some(to) => self.assign_to(to, console, own_only, reply),
            None => done(reply, FAILURE_CODE),
        }
    }

    /// A console is assigned to a process, if its number may be changed.
    #[tactic(auto, unfolding(crate::specs::Consoling::assigned_to, crate::specs::Consoling::owner_made))]
    fn assign_to(&mut self, to: Pid, console: u8, own_only: bool, reply: &mut Reply) -> Outcome
        requires { MayMakeOwner to console self.old }
        ensures { Yields (assigned_to (Some to) console own_only self.old) self.new result reply.new }
    {
        if own_only && self.dispatcher.procs.get(to).console != console {
            return done(reply, FAILURE_CODE);
        }
        self.make_owner(console, to);
        let process = self.dispatcher.procs.get_mut(to);
        process.console = console;
        done(reply, 0)
    }

    /// A process becomes the owner of a console; where it waited for that one, it becomes ready.
    #[tactic(auto, unfolding(crate::specs::Consoling::owner_made, mpm_dispatcher::specs::Dispatch::lists_ready))]
    fn make_owner(&mut self, console: u8, to: Pid)
        requires { MayMakeOwner to console self.old }
        ensures { self.new ≡ owner_made console to self.old }
    {
        if self.units.assign(console, to) {
            self.dispatcher.move_to(to, READY);
        }
    }

    /// A key comes to a console; one of a console that isn't there is dropped. (MP/M II User's Guide, control characters of a
    /// console.)
    #[tactic(auto, using(crate::proofs::UnitLaws::key_names, crate::proofs::KeyLaws::has_after_key), unfolding(crate::specs::Consoling::key_came))]
    pub(crate) fn key(&mut self, console: u8, byte: u8)
        requires { IsSoundKernel self.old }
        ensures { self.new ≡ key_came console byte self.old }
    {
        if self.consoles() <= console {
            return;
        }
        let resident = self.is_resident(console);
        let waited = self.units.awaits(console);
        let done = self.units.key(console, byte, resident);
        self.finish_key(done, console, waited);
    }

    /// The process that owns a console.
    #[tactic(auto, using(crate::proofs::UnitLaws::owner_fits))]
    fn console_owner(&self, console: u8) -> Option<Pid>
        requires { HasSoundUnit (ConsoleUnit console) self.now }
        ensures { TellsOwner console self.now result }
    {
        self.units.owner(Unit::Console { n: console })
    }

    /// Whether the owner of a console is a resident process, which lives in no memory segment.
    fn is_resident(&self, console: u8) -> bool
        requires { HasSoundUnit (ConsoleUnit console) self.now }
        ensures { result ≡ is_of_resident self.now.dispatcher.procs (owner_of self.now.units (ConsoleUnit console)) }
    {
        match self.console_owner(console) {
            Some(p) => self.dispatcher.procs.get(p).seg.is_none(),
            None => false,
        }
    }

    /// What becomes of the processes by a key; `waited` tells that the owner of its console waited at its gate before.
    #[tactic(auto, unfolding(crate::specs::Consoling::key_done, mpm_dispatcher::specs::Dispatch::lists_ready))]
    fn finish_key(&mut self, key: KeyDone, console: u8, waited: bool)
        requires { MayFinishKey key console self.old }
        ensures { self.new ≡ key_done key console waited self.old }
    {
        match key {
            KeyDone::Stored | KeyDone::Dropped | KeyDone::Nothing => {}
            KeyDone::Wakes { p } => self.dispatcher.move_to(p, READY),
            KeyDone::Aborts { p } => {
                self.show(console, Echo::of(b"^C\r\n"));
                self.aborted = Some(p);
            }
            KeyDone::Passes { from, to } => {
                self.dispatcher.make_one_ready(to);
                if waited {
                    self.dispatcher.move_to(from, READY);
                }
            }
        }
    }

    /// The kernel itself writes bytes to a console.
    #[tactic(auto, unfolding(crate::specs::Consoling::echoed))]
    pub(crate) fn show(&mut self, console: u8, shown: Echo)
        requires { IsConsole self.old console }
        ensures { self.new ≡ echoed console shown self.old }
    {
        self.speak(console, shown.written());
        self.echo = shown;
    }

    /// Bytes come to a console as they are: its column moves.
    fn speak(&mut self, console: u8, bytes: &[u8])
        requires { IsConsole self.old console }
        ensures { self.new ≡ spoke self.old console bytes.now }
    {
        for &byte in bytes {
            let _itself = self.write(Unit::Console { n: console }, byte, false);
        }
    }
}
