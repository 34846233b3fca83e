ghost use Rattle.std.specs.Prelude.{◌≡◌, ◌+◌, ◌<◌, IfOk, false, None, ◌-◌, length, Some};
ghost use Rattle.mpm_procs.specs.Table.{lowest_free};
ghost use Rattle.mpm_machine_file.specs.MachineFiles.{IsMachine};
ghost use Rattle.mpm_system.specs.Opening.{terminal_name as name_of_terminal, resident_process as process_of_resident, moment_of as moment_said, program_file as program_said, laid_out, placed_process as process_placed, MayPlace, MayBegin, StandsBare, AwaitsResidents, AwaitsTerminals, AwaitsTerminal, BeginsTerminals, AwaitsOneMore, BeginsResidents, with_placed, command_queues, spooling_queues, begun_residents, begun_by_interpreter, with_interpreting, with_terminal, with_spooler, with_scheduler, with_spool_queues, schedule_number as number_of_schedule};
ghost use Rattle.mpm_residents.specs.Interpreters.{IsProgramSegment};
ghost use Rattle.mpm_system.specs.Processes.{IsProcessAt, BeginsWhereFree, BeginsInSlot, PlacesProgram};
ghost use Rattle.mpm_system.specs.Asking.{MayBeginAll, MayQueueCommands, IsScheduleNumber, MayQueueSpooling, MayLayOut, MayBeginInSlot};

use crate::owed::Owed;
use crate::records::Records;
use crate::system::System;
use mpm_banks::{Banks, last_page};
use mpm_base::{Name8, Pid, Seg, SegmentSpec};
use mpm_clock::Moment;
use mpm_command::base_page;
use mpm_gate::put_bytes;
use mpm_interrupts::Schedule;
use mpm_kernel::Kernel;
use mpm_machine_file::{DriveSpecs, MachineFile, Segments};
use mpm_procs::{NewProcess, NoSlot};
use mpm_residents::Residents;
use mpm_script::Script;
use std::alloc::{AllocError, Global};

/// The queue of the command line interpreter, the length of its messages and how many it has room for.
const COMMAND_QUEUE: Name8 = Name8(*b"CliQ    ");

const COMMAND_LENGTH: u16 = 130;

const COMMANDS: u16 = 15;

/// The length of the messages of the spooler's queue and of the scheduler's, and how many each has room for.
const LIST_LENGTH: u16 = 128;

const LISTS: u16 = 8;

/// The priorities of the command line interpreter, of the terminal message processors, of the spooler and of the scheduler.
const INTERPRETER_PRIORITY: u8 = 190;

const TERMINAL_PRIORITY: u8 = 198;

const SPOOLER_PRIORITY: u8 = 200;

const SCHEDULER_PRIORITY: u8 = 195;

/// The error mode of a process that takes extended errors as answers.
const ANSWERS_ERRORS: u8 = 0xFF;

impl System {
    /// What the machine of a machine file, and of its script's events, keeps from step to step, without processes.
    ///
    /// # Errors
    /// Where no memory is found.
    #[tactic(auto, unfolding(crate::specs::Opening::booted))]
    pub fn bare(alloc: Global, file: &MachineFile, script: Script) -> Result<System, AllocError>
        requires { IsMachine file.now }
        ensures { IfOk result (StandsBare file.now script) }
    {
        let memory = Banks::new(alloc, file.segments.as_slice())?;
        let mut kernel = Kernel::new(alloc, file.consoles, file.printers, moment_of(file))?;
        kernel.set_disk_turn(file.disk_turn);
        let residents = Residents::none(alloc)?;
        Ok(System {
            steps: 0,
            interrupts: Schedule::new(file.tick_every, script),
            kernel,
            memory,
            abort_deferred: false,
            residents,
            records: Records::new(),
            owed: Owed::new(),
        })
    }

    /// Puts a program into a segment and adds its process.
    #[tactic(auto, using(crate::proofs::PlacedLaws::laid_out_is_there), unfolding(crate::specs::Opening::with_placed))]
    pub fn place(&mut self, seg: Seg, name: Name8, priority: u8, console: u8, program: &[u8]) -> Pid
        requires { MayPlace self.old seg console (length program.now) }
        ensures { PlacesProgram seg name priority console program.now self.old self.new result }
    {
        let spec = self.memory.spec(seg);
        lay_out(&mut self.memory, seg, program);
        self.memory.occupy(seg);
        let new = placed_process(spec, seg, name, priority, console);
        begin(&mut self.kernel, new)
    }

    /// What a machine has as it is run, beside what its file says: the command queue, the process of the command line interpreter, and a
    /// terminal message processor for each console. Where they are asked for, it has the spooler and the scheduler, with their queues. The
    /// first of the ready list runs.
    pub fn begin_residents(&mut self, consoles: u8, spool: bool, sched: bool)
        requires { MayBeginAll consoles self.old }
        ensures { BeginsResidents consoles spool sched self.old self.new }
    {
        self.begin_all(consoles, spool, sched);
        self.kernel.pick(false);
    }

    /// The residents begin, each in the lowest free slot.
    fn begin_all(&mut self, consoles: u8, spool: bool, sched: bool)
        requires { AwaitsResidents consoles self.old }
        ensures { self.new ≡ begun_residents consoles spool sched self.old }
    {
        self.begin_interpreting(consoles);
        self.begin_terminals(consoles);
        self.begin_spooler(spool);
        self.begin_scheduler(sched, spool);
    }

    /// The command line interpreter begins, for so many consoles: its process, and what acts in it.
    fn begin_interpreting(&mut self, consoles: u8)
        requires { AwaitsResidents consoles self.old }
        ensures { self.new ≡ with_interpreting consoles (begun_by_interpreter self.old) }
    {
        self.begin_interpreter();
        self.residents.add_interpreter(consoles);
    }

    /// The command queue is made, and the process of the command line interpreter begins.
    fn begin_interpreter(&mut self)
        requires { MayQueueCommands self.old }
        ensures { self.new ≡ begun_by_interpreter self.old }
    {
        self.kernel
            .system_queue(COMMAND_QUEUE, COMMAND_LENGTH, COMMANDS);
        let new = resident_process(Name8(*b"cli     "), INTERPRETER_PRIORITY, 0);
        if let Ok(p) = self.kernel.admit(new) {
            let process = self.kernel.process_mut(p);
            process.error_mode = ANSWERS_ERRORS;
            process.multi = 16;
        }
    }

    /// The terminal message processors of the consoles begin.
    fn begin_terminals(&mut self, consoles: u8)
        requires { AwaitsTerminals consoles self.old }
        ensures { BeginsTerminals consoles self.old self.new }
    {
        for console in 0..consoles {
            self.begin_terminal(console);
        }
    }

    /// The terminal message processor of a console begins.
    fn begin_terminal(&mut self, console: u8)
        requires { AwaitsTerminal console self.old }
        ensures { self.new ≡ with_terminal (lowest_free self.old.kernel.dispatcher.procs) console self.old }
    {
        let new = resident_process(terminal_name(console), TERMINAL_PRIORITY, console);
        if begin_process(&mut self.kernel, new) {
            self.residents.add_terminal(console);
        }
    }

    /// The spooler begins, where there is one: its queues are made, and then its process.
    fn begin_spooler(&mut self, spool: bool)
        requires { AwaitsOneMore command_queues self.old }
        ensures { self.new ≡ with_spooler spool self.old }
    {
        if !spool {
            return;
        }
        make_spool_queues(&mut self.kernel);
        let new = resident_process(Name8(*b"Spool   "), SPOOLER_PRIORITY, 0);
        if begin_process(&mut self.kernel, new) {
            self.residents.add_spooler();
        }
    }

    /// The scheduler begins, where there is one, beside a spooler or not: its queue is made, and then its process.
    fn begin_scheduler(&mut self, sched: bool, spool: bool)
        requires { AwaitsOneMore (spooling_queues spool) self.old }
        ensures { self.new ≡ with_scheduler sched (number_of_schedule spool) self.old }
    {
        if !sched {
            return;
        }
        self.kernel
            .system_queue(Name8(*b"SCHED   "), LIST_LENGTH, LISTS);
        let new = resident_process(Name8(*b"Sched   "), SCHEDULER_PRIORITY, 0);
        if begin_process(&mut self.kernel, new) {
            self.residents.add_scheduler(schedule_number(spool));
        }
    }
}

/// The number of the scheduler's queue: it is made after the command queue and the spooler's two.
fn schedule_number(spool: bool) -> u8
    ensures { IsScheduleNumber spool result }
{
    if spool { 3 } else { 1 }
}

/// The spooler's queues are made.
fn make_spool_queues(kernel: &mut Kernel)
    requires { MayQueueSpooling kernel.old }
    ensures { kernel.new ≡ with_spool_queues kernel.old }
{
    kernel.system_queue(Name8(*b"SPOOL   "), LIST_LENGTH, LISTS);
    kernel.system_queue(Name8(*b"STOPSPLR"), 1, 1);
}

/// The process of a resident begins, where a slot is free, and takes extended errors as answers.
fn begin_process(kernel: &mut Kernel, new: NewProcess) -> bool
    requires { MayBegin new kernel.old }
    ensures { BeginsWhereFree new kernel.old kernel.new result }
{
    match kernel.admit(new) {
        Ok(p) => {
            kernel.process_mut(p).error_mode = ANSWERS_ERRORS;
            true
        }
        Err(NoSlot) => false,
    }
}

/// The name of the terminal message processor of a console.
fn terminal_name(console: u8) -> Name8
    requires { console < 8 }
    ensures { result ≡ name_of_terminal console }
{
    Name8([b'T', b'm', b'p', b'0' + console, b' ', b' ', b' ', b' '])
}

/// The process of a resident: it has no memory segment.
#[tactic(auto, unfolding(crate::specs::Opening::resident_process))]
fn resident_process(name: Name8, priority: u8, console: u8) -> NewProcess
    ensures { IsProcessAt (process_of_resident name priority console) console result }
{
    NewProcess {
        name,
        priority,
        console,
        ..NewProcess::default()
    }
}

/// The moment at which the machine of a machine file begins.
fn moment_of(file: &MachineFile) -> Moment
    ensures { result ≡ moment_said file.now }
{
    Moment {
        date: file.date,
        hour: file.hour,
        minute: file.minute,
        second: file.second,
    }
}

/// The machine file of a program's machine.
///
/// # Errors
/// Where no memory is found.
pub fn program_file(alloc: Global) -> Result<MachineFile, AllocError>
    ensures { IfOk result (λ file. file ≡ program_said) }
{
    let mut segments = Vec::new(alloc);
    segments.push(SegmentSpec {
        base: 0,
        pages: 192,
    })?;
    Ok(MachineFile {
        consoles: 1,
        printers: 0,
        tick_every: 0,
        disk_turn: 0,
        date: 1,
        hour: 0,
        minute: 0,
        second: 0,
        segments: Segments::of(segments),
        drives: DriveSpecs::of(Vec::new(alloc)),
        script: None,
        spool: false,
        sched: false,
    })
}

/// Lays out a program in its segment: the base page, the program after it, and the word on which the stack begins.
#[tactic(auto, unfolding(crate::specs::Opening::laid_out))]
fn lay_out(banks: &mut Banks, seg: Seg, program: &[u8])
    requires { MayLayOut seg program.now banks.old }
    ensures { banks.new ≡ laid_out banks.old seg program.now }
{
    let spec = banks.spec(seg);
    let page = last_page(spec);
    let first = u16::from_le_bytes([0, spec.base]);
    put_bytes(&base_page(page, b""), banks, seg, first);
    put_bytes(program, banks, seg, first + 0x0100);
    let stack = u16::from_le_bytes([0, page]) - 2;
    put_bytes(&[0, spec.base], banks, seg, stack);
}

/// The process of a program that is laid out in a segment.
#[tactic(auto, unfolding(crate::specs::Opening::placed_process))]
fn placed_process(spec: SegmentSpec, seg: Seg, name: Name8, priority: u8, console: u8) -> NewProcess
    requires { IsProgramSegment spec }
    ensures { IsProcessAt (process_placed spec seg name priority console) console result }
{
    let page = last_page(spec);
    NewProcess {
        name,
        priority,
        console,
        seg: Some(seg),
        pc: u16::from_le_bytes([0, spec.base]) + 0x0100,
        sp: u16::from_le_bytes([0, page]) - 2,
        dma: u16::from_le_bytes([0, spec.base]) + 0x0080,
        user: 0,
        drive: 0,
    }
}

/// A process begins, for which there is a slot: it owns its console where nobody does, and the first of the ready list runs.
#[tactic(auto, using(mpm_kernel::proofs::SoundLaws::sound_in_slot))]
fn begin(kernel: &mut Kernel, new: NewProcess) -> Pid
    requires { MayBeginInSlot new kernel.old }
    ensures { BeginsInSlot new kernel.old kernel.new result }
{
    let console = new.console;
    match kernel.admit(new) {
        Ok(p) => {
            kernel.give(console, None, Some(p));
            kernel.pick(false);
            p
        }
        Err(NoSlot) => unreachable!(),
    }
}
