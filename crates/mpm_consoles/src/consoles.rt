ghost use Rattle.std.specs.Prelude.{◌≡◌, ◌≤◌, None, map, replicate, IfOk};
ghost use Rattle.mpm_consoles.specs.Console.{new_console, without_wait_of};

use crate::OutOfMemory;
use crate::console::Console;
use crate::keys::{Control, KeyDone, control_of};
use mpm_base::{Pid, Unit};
use mpm_ready::Lists;
use std::alloc::Global;
use std::marker::Model;

/// The consoles and printers, and the processes that wait for them.
#[derive(Drop)]
pub struct Consoles {
    consoles: Vec<Console>,
    printers: Vec<Option<Pid>>,
    waiters: Lists,
}

impl Model for Consoles {
    ghost use Rattle.mpm_consoles.specs.Consoles.{Consoles, AreSoundConsoles};

    ghost Value = { Consoles };

    ghost view = { λ t. record { consoles = t.consoles.items; printers = t.printers.items; waiters = t.waiters } };

    ghost invariant = { λ t. AreSoundConsoles (record { consoles = t.consoles.items; printers = t.printers.items; waiters = t.waiters }) };
}

impl Consoles {
    ghost use Rattle.std.specs.Prelude.{◌≡◌, ◌≢◌, ◌++◌, None, true, false, ◌<◌, Some, length, nat_lt, is_some};
    ghost use Rattle.std.specs.Bool.{OnTrue};
    ghost use Rattle.mpm_ready.specs.Tables.{list_of};
    ghost use Rattle.mpm_consoles.specs.Console.{first_key, typed, with_output_stopped, resumed, woken, MakesAndAnswers};
    ghost use Rattle.mpm_consoles.specs.Consoles.{no_owners, console_at, with_console, HasConsole, HasUnit, has_unit, owner_of, owns, waits_for, waiters_of, first_waiter, WaitsForNoUnit, MayWait, AreFewUnits, MayBeListed, AreSoundConsoles};
    ghost use Rattle.mpm_consoles.specs.Handling.{given, unlisted, listed, called_off, may_attach, unit_attached, passed, unit_detached, heir_of, console_assigned, keyed, key_answer, first_taken, raw_set, gate_wait_begun, put_out, output_spaces, units_without_waiter, typed_answer, wake_answer, abort_answer, pass_answer, passed_by_key, subject as subject_of};
    ghost use Rattle.mpm_consoles.specs.declared.keys.KeyDone.TheVariants.{Nothing};
    ghost use Rattle.mpm_consoles.specs.declared.console.Awaited.TheVariants.{Output};
    ghost use Rattle.mpm_consoles.specs.Fates.{FateOf};
    ghost use Rattle.mpm_consoles.specs.Runs.{as_list};
    ghost use Rattle.mpm_base.specs.declared.unit.Unit.TheVariants.{Console as ConsoleUnit};

    /// So many consoles, 1 to 8, and printers, at most 4, which nobody owns. All memory that they will need is taken here.
    ///
    /// # Errors
    /// Where no memory is found.
    #[tactic(auto, using(crate::proofs::SoundLaws::sound_new), unfolding(crate::specs::Consoles::no_owners))]
    pub fn new(alloc: Global, consoles: u8, printers: u8) -> Result<Consoles, OutOfMemory>
        requires { AreFewUnits consoles printers }
        ensures { IfOk result (λ units. units ≡ no_owners consoles printers) }
    {
        let consoles = new_consoles(alloc, consoles)?;
        let printers = new_printers(alloc, printers)?;
        Ok(Consoles {
            consoles,
            printers,
            waiters: Lists::new(),
        })
    }

    /// How many consoles there are, 1 to 8.
    pub fn consoles(&self) -> u8
        ensures { result ≡ length self.now.consoles }
    {
        self.consoles.len() as u8
    }

    /// How many printers there are, at most 4.
    pub fn printers(&self) -> u8
        ensures { result ≡ length self.now.printers }
    {
        self.printers.len() as u8
    }

    /// Whether there is such a unit.
    pub fn has(&self, unit: Unit) -> bool
        ensures value { result ≡ has_unit self.now unit }
        ensures there { OnTrue result (HasUnit self.now unit) }
    {
        match unit {
            Unit::Console { n } => n < self.consoles(),
            Unit::Printer { n } => n < self.printers(),
        }
    }

    /// A process attaches a unit; false exactly where another owns it. Then the process waits for it where `wait` is true,
    /// after all of equal or better priority (0 is best, 255 worst), and nothing changes where it isn't. (MP/M II Programmer's
    /// Guide, "Function 146: Attach Console", "Function 158: Attach List", "Function 162: Conditional Attach Console",
    /// "Function 161: Conditional Attach List".)
    #[tactic(auto, using(crate::proofs::SoundLaws::for_free), unfolding(crate::specs::Handling::unit_attached, crate::specs::Handling::may_attach))]
    pub fn attach(&mut self, p: Pid, priority: u8, unit: Unit, wait: bool) -> bool
        requires unit { HasUnit self.old unit }
        requires nowhere { OnTrue wait (WaitsForNoUnit self.old p) }
        ensures { MakesAndAnswers (unit_attached self.old p priority unit wait) (may_attach self.old p unit) self.new result }
    {
        match self.owner(unit) {
            None => {
                self.give(unit, Some(p));
                true
            }
            Some(owner) => {
                let own = owner.0 == p.0;
                if !own && wait {
                    self.enlist(p, priority, unit);
                }
                own
            }
        }
    }

    /// A process detaches a unit: where it owns it, the unit passes to the process that waits for it first, which waits no
    /// more. Answers that one; None also where the process doesn't own the unit, and then nothing changes. (MP/M II Programmer's
    /// Guide, "Function 147: Detach Console", "Function 159: Detach List".)
    #[tactic(auto, unfolding(crate::specs::Handling::unit_detached, crate::specs::Handling::heir_of))]
    pub fn detach(&mut self, p: Pid, unit: Unit) -> Option<Pid>
        requires { HasUnit self.old unit }
        ensures { MakesAndAnswers (unit_detached self.old p unit) (heir_of self.old p unit) self.new result }
    {
        if self.is_owner(p, unit) {
            self.pass(unit)
        } else {
            None
        }
    }

    /// A console is assigned to a process, which becomes its owner; true exactly where it waited for that console, which it does
    /// no more. (MP/M II Programmer's Guide, "Function 149: Assign Console".)
    #[tactic(auto, unfolding(crate::specs::Handling::console_assigned))]
    pub fn assign(&mut self, console: u8, to: Pid) -> bool
        requires { HasConsole self.old console }
        ensures { MakesAndAnswers (console_assigned self.old console to) (waits_for self.old to (ConsoleUnit console)) self.new result }
    {
        let unit = Unit::Console { n: console };
        let waited = self.waits_for(to, unit);
        if !self.is_owner(to, unit) {
            self.call_off(to, unit);
            self.give(unit, Some(to));
        }
        waited
    }

    /// A key comes to a console; `resident` tells that its owner is a resident process. Where the console isn't raw, ^S (13h) stops its
    /// output, ^Q (11h) lets it go on, ^C (03h) aborts the owner and ^D (04h) passes the console to the process that waits for it first.
    /// The last two do nothing where the owner is a resident or there is none. Any other key is stored, or lost where 64 are there. (MP/M
    /// II User's Guide, control characters of a console.)
    #[tactic(auto, using(crate::proofs::FateLaws::fate_key))]
    pub fn key(&mut self, console: u8, byte: u8, resident: bool) -> KeyDone
        requires { HasConsole self.old console }
        ensures yields { MakesAndAnswers (keyed self.old console byte resident) (key_answer self.old console byte resident) self.new result }
        ensures fate { FateOf (console_at self.old console) (console_at self.new console) byte }
    {
        self.act_on(console, byte, resident)
    }

    /// A key comes to a console, as a control character or as a key like others.
    #[tactic(auto, using(crate::proofs::FateLaws::cooked), unfolding(crate::specs::Handling::keyed, crate::specs::Handling::key_answer))]
    fn act_on(&mut self, console: u8, byte: u8, resident: bool) -> KeyDone
        requires { HasConsole self.old console }
        ensures yields { MakesAndAnswers (keyed self.old console byte resident) (key_answer self.old console byte resident) self.new result }
        ensures sound { AreSoundConsoles self.old }
    {
        match control_of(self.raw(console), byte) {
            None => self.type_key(console, byte),
            Some(Control::Stop) => self.stop(console),
            Some(Control::Resume) => self.resume(console),
            Some(Control::Abort) => self.abort(console, resident),
            Some(Control::Detach) => self.pass_on(console, resident),
        }
    }

    /// Takes the oldest key of a console; None exactly where there is none.
    #[tactic(auto, using(crate::proofs::RunLaws::in_order))]
    pub fn take(&mut self, console: u8) -> Option<u8>
        requires { HasConsole self.old console }
        ensures yields { MakesAndAnswers (first_taken self.old console) (first_key (console_at self.old console)) self.new result }
        ensures order { as_list result ++ (console_at self.new console).keys ≡ (console_at self.old console).keys }
    {
        self.take_first(console)
    }

    /// Takes the oldest key of a console.
    #[tactic(auto, using(crate::proofs::SoundLaws::sound_take), unfolding(crate::specs::Handling::first_taken))]
    fn take_first(&mut self, console: u8) -> Option<u8>
        requires { HasConsole self.old console }
        ensures { MakesAndAnswers (first_taken self.old console) (first_key (console_at self.old console)) self.new result }
    {
        self.consoles[usize::from(console)].take()
    }

    /// How many keys of a console were lost; the count stays at 2^64 - 1 once it is there.
    pub fn lost(&self, console: u8) -> u64
        requires { HasConsole self.now console }
        ensures { result ≡ (console_at self.now console).lost }
    {
        self.consoles[usize::from(console)].lost()
    }

    /// The process that owns a unit; None exactly where nobody does.
    pub fn owner(&self, unit: Unit) -> Option<Pid>
        requires { HasUnit self.now unit }
        ensures owner { result ≡ owner_of self.now unit }
        ensures sound { AreSoundConsoles self.now }
    {
        match unit {
            Unit::Console { n } => self.consoles[usize::from(n)].owner(),
            Unit::Printer { n } => self.printers[usize::from(n)],
        }
    }

    /// Makes a console raw, so that control characters are keys like others, or not. A console that is made raw isn't stopped
    /// any more. (MP/M II Programmer's Guide, "Function 6: Direct Console I/O".)
    #[tactic(auto, using(crate::proofs::SoundLaws::sound_raw), unfolding(crate::specs::Handling::raw_set))]
    pub fn set_raw(&mut self, console: u8, raw: bool)
        requires { HasConsole self.old console }
        ensures { self.new ≡ raw_set self.old console raw }
    {
        self.consoles[usize::from(console)].set_raw(raw);
    }

    /// Whether a console is raw.
    pub fn raw(&self, console: u8) -> bool
        requires { HasConsole self.now console }
        ensures raw { result ≡ (console_at self.now console).raw }
        ensures sound { AreSoundConsoles self.now }
    {
        self.consoles[usize::from(console)].raw()
    }

    /// The column of a console, at which the next byte is written.
    pub fn column(&self, console: u8) -> u16
        requires { HasConsole self.now console }
        ensures { result ≡ (console_at self.now console).column }
    {
        self.consoles[usize::from(console)].column()
    }

    /// Whether the output of a console is stopped.
    pub fn stopped(&self, console: u8) -> bool
        requires { HasConsole self.now console }
        ensures { result ≡ (console_at self.now console).stopped }
    {
        self.consoles[usize::from(console)].stopped()
    }

    /// Whether a key of a console is there. (MP/M II Programmer's Guide, "Function 11: Get Console Status".)
    pub fn has_key(&self, console: u8) -> bool
        requires { HasConsole self.now console }
        ensures { result ≡ nat_lt 0 (length (console_at self.now console).keys) }
    {
        self.consoles[usize::from(console)].has_key()
    }

    /// The owner of a console waits at its gate from now on: for a key where `key` is true, else for ^Q.
    #[tactic(auto, using(crate::proofs::SoundLaws::sound_wait), unfolding(crate::specs::Handling::gate_wait_begun))]
    pub fn wait(&mut self, p: Pid, console: u8, key: bool)
        requires console { HasConsole self.old console }
        requires owner { owns self.old p (ConsoleUnit console) ≡ true }
        ensures { self.new ≡ gate_wait_begun self.old console key }
    {
        self.consoles[usize::from(console)].wait(key);
    }

    /// A byte is written to a unit, and the column of a console moves: 20h to 7Eh one on, up to 65,535, CR (0Dh) to 0, BS (08h)
    /// one back. A tab (09h) with `tabs` is written to a console as spaces up to the next column divisible by 8: answers their
    /// number, 1 to 8, and 0 where the byte stands for itself. (MP/M II Programmer's Guide, "Function 2: Console Output".)
    #[tactic(auto, using(crate::proofs::ColumnLaws::output_most))]
    pub fn output(&mut self, unit: Unit, byte: u8, tabs: bool) -> u8
        requires { HasUnit self.old unit }
        ensures yields { MakesAndAnswers (put_out self.old unit byte tabs) (output_spaces self.old unit byte tabs) self.new result }
        ensures most { result ≤ 8 }
    {
        self.write(unit, byte, tabs)
    }

    /// A byte is written to a unit.
    #[tactic(auto, using(crate::proofs::SoundLaws::sound_output), unfolding(crate::specs::Handling::put_out, crate::specs::Handling::output_spaces))]
    fn write(&mut self, unit: Unit, byte: u8, tabs: bool) -> u8
        requires { HasUnit self.old unit }
        ensures { MakesAndAnswers (put_out self.old unit byte tabs) (output_spaces self.old unit byte tabs) self.new result }
    {
        match unit {
            Unit::Console { n } => self.consoles[usize::from(n)].write(byte, tabs),
            Unit::Printer { n: _ } => 0,
        }
    }

    /// A process waits for no unit any more, nor at its gate.
    #[tactic(auto, using(crate::proofs::SoundLaws::sound_units_without), unfolding(crate::specs::Handling::units_without_waiter, crate::specs::Handling::unlisted))]
    pub fn leave(&mut self, p: Pid)
        ensures { self.new ≡ units_without_waiter self.old p }
    {
        self.waiters.remove(p);
        leave_each(self.consoles.as_mut_slice(), p);
    }

    /// Whether a process waits for a unit.
    pub fn waits(&self, p: Pid) -> bool
        ensures { result ≡ is_some (list_of self.now.waiters p) }
    {
        self.waiters.list_of(p).is_some()
    }

    /// Whether a process waits for that unit.
    #[tactic(auto, using(crate::proofs::WaitLaws::listed_there, crate::proofs::WaitLaws::not_there))]
    fn waits_for(&self, p: Pid, unit: Unit) -> bool
        requires { HasUnit self.now unit }
        ensures { result ≡ waits_for self.now p unit }
    {
        match self.waiters.list_of(p) {
            Some(list) => list == unit.place(),
            None => false,
        }
    }

    /// Whether a process owns a unit.
    pub fn is_owner(&self, p: Pid, unit: Unit) -> bool
        requires { HasUnit self.now unit }
        ensures { result ≡ owns self.now p unit }
    {
        match self.owner(unit) {
            Some(owner) => owner.0 == p.0,
            None => false,
        }
    }

    /// Whether a process may attach a unit: nobody owns it, or that process does.
    #[tactic(auto, unfolding(crate::specs::Handling::may_attach))]
    pub fn may_attach(&self, p: Pid, unit: Unit) -> bool
        requires { HasUnit self.now unit }
        ensures { result ≡ may_attach self.now p unit }
    {
        match self.owner(unit) {
            Some(owner) => owner.0 == p.0,
            None => true,
        }
    }

    /// A unit comes to an owner that doesn't wait for it, or to nobody where nobody waits for it.
    #[tactic(auto, using(crate::proofs::SoundLaws::sound_given), unfolding(crate::specs::Handling::given))]
    fn give(&mut self, unit: Unit, owner: Option<Pid>)
        requires unit { HasUnit self.old unit }
        requires waiters { MayWait owner (waiters_of self.old unit) }
        ensures { self.new ≡ given self.old unit owner }
    {
        match unit {
            Unit::Console { n } => self.consoles[usize::from(n)].pass_to(owner),
            Unit::Printer { n } => self.printers[usize::from(n)] = owner,
        }
    }

    /// A process waits for a unit that another owns.
    #[tactic(auto, using(crate::proofs::SoundLaws::sound_listed), unfolding(crate::specs::Handling::listed))]
    fn enlist(&mut self, p: Pid, priority: u8, unit: Unit)
        requires { MayBeListed p unit self.old }
        ensures { self.new ≡ listed self.old p priority unit }
    {
        self.waiters.insert(unit.place(), p, priority);
    }

    /// A process waits for no unit any more.
    #[tactic(auto, using(crate::proofs::SoundLaws::sound_unlisted), unfolding(crate::specs::Handling::unlisted))]
    fn end_wait(&mut self, p: Pid)
        ensures { self.new ≡ unlisted self.old p }
    {
        self.waiters.remove(p);
    }

    /// A process waits for a unit no more.
    fn call_off(&mut self, p: Pid, unit: Unit)
        requires { HasUnit self.old unit }
        ensures { self.new ≡ called_off self.old p unit }
    {
        if self.waits_for(p, unit) {
            self.end_wait(p);
        }
    }

    /// The process that waits for a unit first.
    fn first_waiter(&self, unit: Unit) -> Option<Pid>
        requires { HasUnit self.now unit }
        ensures { result ≡ first_waiter self.now unit }
    {
        self.waiters.first(unit.place())
    }

    /// A unit passes to the process that waits for it first, which waits no more, or to nobody.
    #[tactic(auto, using(crate::proofs::SoundLaws::nobody_first, crate::proofs::SoundLaws::for_unlisted, crate::proofs::WaitLaws::has_unlisted), unfolding(crate::specs::Handling::passed))]
    fn pass(&mut self, unit: Unit) -> Option<Pid>
        requires { HasUnit self.old unit }
        ensures { MakesAndAnswers (passed self.old unit) (first_waiter self.old unit) self.new result }
    {
        match self.first_waiter(unit) {
            None => {
                self.give(unit, None);
                None
            }
            Some(p) => {
                self.end_wait(p);
                self.give(unit, Some(p));
                Some(p)
            }
        }
    }

    /// A key like others comes to a console.
    #[tactic(auto, using(crate::proofs::SoundLaws::sound_typed))]
    fn type_key(&mut self, console: u8, byte: u8) -> KeyDone
        requires { HasConsole self.old console }
        ensures { MakesAndAnswers (with_console self.old console (typed byte (console_at self.old console))) (typed_answer (console_at self.old console)) self.new result }
    {
        self.consoles[usize::from(console)].type_key(byte)
    }

    /// ^S on a console that isn't raw stops its output.
    #[tactic(auto, using(crate::proofs::SoundLaws::sound_stop))]
    fn stop(&mut self, console: u8) -> KeyDone
        requires console { HasConsole self.old console }
        requires cooked { (console_at self.old console).raw ≡ false }
        ensures { MakesAndAnswers (with_console self.old console (with_output_stopped (console_at self.old console))) Nothing self.new result }
    {
        self.consoles[usize::from(console)].stop();
        KeyDone::Nothing
    }

    /// ^Q lets the output of a console go on, and wakes the owner that waits for that.
    #[tactic(auto, using(crate::proofs::SoundLaws::sound_resumed))]
    fn resume(&mut self, console: u8) -> KeyDone
        requires { HasConsole self.old console }
        ensures { MakesAndAnswers (with_console self.old console (resumed (console_at self.old console))) (wake_answer Nothing (woken Output (console_at self.old console))) self.new result }
    {
        match self.consoles[usize::from(console)].resume() {
            Some(p) => KeyDone::Wakes { p },
            None => KeyDone::Nothing,
        }
    }

    /// The process on which ^C and ^D act: the owner of a console, unless it is a resident.
    fn subject(&self, console: u8, resident: bool) -> Option<Pid>
        requires { HasConsole self.now console }
        ensures { result ≡ subject_of resident (console_at self.now console).owner }
    {
        if resident {
            None
        } else {
            self.owner(Unit::Console { n: console })
        }
    }

    /// ^C aborts the owner of a console.
    fn abort(&self, console: u8, resident: bool) -> KeyDone
        requires { HasConsole self.now console }
        ensures { result ≡ abort_answer (subject_of resident (console_at self.now console).owner) }
    {
        match self.subject(console, resident) {
            Some(p) => KeyDone::Aborts { p },
            None => KeyDone::Nothing,
        }
    }

    /// ^D passes a console on.
    fn pass_on(&mut self, console: u8, resident: bool) -> KeyDone
        requires { HasConsole self.old console }
        ensures { MakesAndAnswers (passed_by_key (subject_of resident (console_at self.old console).owner) self.old console) (pass_answer (subject_of resident (console_at self.old console).owner) self.old console) self.new result }
    {
        let Some(from) = self.subject(console, resident) else {
            return KeyDone::Nothing;
        };
        let to = self.pass(Unit::Console { n: console });
        KeyDone::Passes { from, to }
    }

    /// Whether the owner of a console waits at its gate. A key that passes the console on ends that.
    pub fn awaits(&self, console: u8) -> bool
        requires { HasConsole self.now console }
        ensures { result ≡ is_some (console_at self.now console).awaits }
    {
        self.consoles[usize::from(console)].awaits()
    }
}

/// A process waits no more at its gate, for each of some consoles.
fn leave_each(consoles: &mut [Console], p: Pid)
    ensures { consoles.new ≡ map (without_wait_of p) consoles.old }
{
    for console in consoles.iter_mut() {
        console.leave(p);
    }
}

/// So many consoles that nobody owns.
fn new_consoles(alloc: Global, count: u8) -> Result<Vec<Console>, OutOfMemory>
    ensures { IfOk result (λ consoles. consoles.items ≡ replicate count new_console) }
{
    let mut consoles = Vec::with_capacity(alloc, usize::from(count))?;
    for _number in 0..count {
        consoles.push(Console::new(alloc)?)?;
    }
    Ok(consoles)
}

/// So many printers that nobody owns.
fn new_printers(alloc: Global, count: u8) -> Result<Vec<Option<Pid>>, OutOfMemory>
    ensures { IfOk result (λ printers. printers.items ≡ replicate count None) }
{
    let mut printers = Vec::with_capacity(alloc, usize::from(count))?;
    printers.resize(usize::from(count), None)?;
    Ok(printers)
}
