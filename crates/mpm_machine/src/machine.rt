ghost use Rattle.std.specs.Prelude.{◌≡◌, ℕ, ◌+◌, ◌-◌, ◌*◌, ◌<◌, ◌≤◌, true, false, [], Option, Some, None, IfOk, OnOk, IfErr, MatchOption, length, option_map};
ghost use Rattle.mpm_script.specs.declared.line.TheConstants.{GREATEST_STEP};

use crate::filing::{bdos_of, work};
use mpm_base::{Name8, Pid, Reply, Seg, Steps};
use mpm_bdos::Bdos;
use mpm_drives::{BootError, MountedDrives};
use mpm_machine_file::MachineFile;
use mpm_mount::Mounted;
use mpm_port::{Drives, Failed, Sink};
use mpm_render::Render;
use mpm_script::Script;
use mpm_system::{System, program_file};
use std::alloc::{AllocError, Global};
use std::sync::ledger::Ledger;
use z80_regs::Regs;

/// Why a step stopped.
#[derive(Clone, Copy, Debug, PartialEq, Eq)]
pub enum StepFault {
    /// A drive failed.
    DiskFault,
    /// The sink failed.
    WriteFault,
}

/// The step in which a run stopped, counted from 1, and why.
#[derive(Clone, Copy, Debug, PartialEq, Eq)]
pub struct RunFault {
    pub step: u64,
    pub fault: StepFault,
}

/// A machine: its processes, their memory segments and consoles, the kernel behind the gates, and what is kept of files and
/// drives. It is large: as it is booted it stays on the heap.
#[derive(Drop)]
pub struct Machine {
    pub(crate) system: System,
    pub(crate) bdos: Bdos,
    pub(crate) reply: Reply,
}

impl Machine {
    ghost use Rattle.std.specs.Option.{option_copied};
    ghost use Rattle.mpm_banks.specs.Memory.{byte_at};
    ghost use Rattle.mpm_procs.specs.Table.{process_at};
    ghost use Rattle.mpm_kernel.specs.Kernel.{IsConsole};
    ghost use Rattle.mpm_consoles.specs.Consoles.{console_at};
    ghost use Rattle.mpm_machine_file.specs.MachineFiles.{IsMachine};
    ghost use Rattle.mpm_directories.specs.Places.{directory_at};
    ghost use Rattle.mpm_system.specs.Whole.{IsWhole, NoCompletions};
    ghost use Rattle.mpm_machine.specs.State.{State, IsAt, StandsWithDrives};
    ghost use Rattle.mpm_machine.specs.Holding.{HoldsDrives};
    ghost use Rattle.mpm_service.specs.Disk.{no_service};
    ghost use Rattle.mpm_machine.specs.Faults.{counts, EndsByCause, itself, of_run};
    ghost use Rattle.mpm_machine.specs.Slots.{HasResidents};
    ghost use Rattle.mpm_machine.specs.Interpreting.{Interprets};
    ghost use Rattle.mpm_opens.specs.Opens.{AreOpen, HasNone};
    ghost use Rattle.mpm_refusals.specs.Filing.{Filing};
    ghost use Rattle.mpm_machine.specs.Printing.{at_beginning, IsPrinting};
    ghost use Rattle.mpm_machine.specs.Spooling.{IsSpooling};
    ghost use Rattle.mpm_system.specs.Opening.{booted, opened, MayPlace, opening_system};
    ghost use Rattle.mpm_machine.specs.OneStep.{StepsLeave, StopsStep, StopsRun, LeavesDrives, turns_in};
    ghost use Rattle.mpm_machine.specs.Standing.{StandingFor, StandingAt};
    ghost use Rattle.mpm_machine.specs.Parts.{IsBetweenSteps};
    ghost use Rattle.mpm_machine.specs.After.{next, after, IsStepOf};
    ghost use Rattle.mpm_machine.specs.Booting.{IsBootedOn, LeavesUnlisted, MayBeginResidents, HasBegunResidents};
    ghost use Rattle.mpm_machine.specs.BootCalls.{BootsBare, MakesBare, MakesOf, BootsProgram, PutsProgram};
    ghost use Rattle.mpm_machine.specs.Mounting.{HasNoDrive};
    ghost use Rattle.mpm_machine.specs.Failing.{leaving, does_work, turns_done, working_in};
    ghost use Rattle.mpm_machine.specs.Setup.{set_up};
    ghost use Rattle.mpm_machine.specs.PartCalls.{MayAdvance};
    ghost use Rattle.mpm_machine.specs.StepParts.{TakesStep, Advances};
    ghost use Rattle.mpm_machine.specs.Scheduling.{IsScheduling};
    ghost use Rattle.mpm_base.specs.Counts.{one_if};

    /// The machine of a machine file, and of its script's events, as it is run. It has the command queue, the command line interpreter, a
    /// terminal message processor for each console, and the spooler and the scheduler with their queues, where the file asks for them. Its
    /// drives are attached to their images and mounted, one after another in order of their letters, and synced then; no image changes, and
    /// no other drive.
    ///
    /// # Errors
    /// `BootError::Image` comes exactly where that drive is the first whose image has a fault, `BootError::DiskFault` only
    /// where the drives' count rose or the drive's image name joined their failed names.
    pub fn boot<D: Drives>(
        alloc: Global,
        file: &MachineFile,
        script: Script,
        drives: &mut D,
    ) -> Result<Box<Machine>, BootError>
        requires { IsMachine file.now }
        // The system is that of the file and of the script, with its residents begun.
        ensures opening { IfOk result (λ machine. machine.value.system ≡ opened file.now script) }
        // These are the command line interpreter, a terminal message processor for each console, and what the file asks for, each in its
        // slot.
        ensures residents { IfOk result (λ machine. HasResidents file.now.consoles file.now.spool file.now.sched machine.value.system) }
        // The interpreter awaits its first command, and has no segment.
        ensures interprets { IfOk result (λ machine. Interprets machine.value.system) }
        // Where the file asks for the spooler, it acts in its slot, has read and printed nothing, and so prints its file from the first step on.
        ensures spools { IfOk result (λ machine. file.now.spool ≡ true → IsSpooling (file.now.consoles + 1) machine.value.system []) }
        ensures prints { IfOk result (λ machine. file.now.spool ≡ true → (filing : Filing) → AreOpen filing.opens → HasNone (file.now.consoles + 1) filing.opens → IsPrinting (file.now.consoles + 1) (at_beginning filing machine.value.system)) }
        // Where the file asks for the scheduler, it acts in its slot, and has accepted nothing.
        ensures schedules { IfOk result (λ machine. file.now.sched ≡ true → IsScheduling (file.now.consoles + 1 + one_if file.now.spool) [] machine.value.system.residents) }
        // No step was done.
        ensures start { IfOk result (λ machine. machine.value.system.steps ≡ 0) }
        // The system is whole: its processes, lists and memory fit together.
        ensures whole { IfOk result (λ machine. IsWhole machine.value.system) }
        // Nobody is left to be answered.
        ensures no_completions { IfOk result (λ machine. NoCompletions machine.value.system) }
        // No call is at the disk, whose turns have as many steps as the file says.
        ensures disk { IfOk result (λ machine. machine.value.system.kernel.disk ≡ no_service file.now.disk_turn) }
        // The drives of the file are mounted and synced, with what their images stand for, and nothing is open, locked, marked or sought.
        ensures stands { IfOk result (λ machine. IsBootedOn D.disks (D.told drives.old) (D.unsynced drives.new) file.now.drives machine.value drives.new) }
        // Booted or not, no image changes, and other drives stay as they were. An error names the first drive that couldn't be mounted, or
        // want of memory; a drive fails only then.
        ensures leaves { LeavesUnlisted D.Drives file.now.drives drives.old drives.new result }
    {
        let mut machine = match Machine::boot_bare(alloc, file, script, drives) {
            Ok(machine) => machine,
            Err(error) => return Err(error),
        };
        machine.begin_residents(file.consoles, file.spool, file.sched);
        Ok(machine)
    }

    /// What a machine has as it is run, beside what its file says.
    fn begin_residents(&mut self, consoles: u8, spool: bool, sched: bool)
        requires { MayBeginResidents consoles self.old.system }
        ensures { HasBegunResidents consoles spool sched self.old self.new }
    {
        self.system.begin_residents(consoles, spool, sched);
    }

    /// The machine of a machine file, and of its script's events, without processes: `place` puts programs into it. Its drives
    /// are mounted as `boot` does.
    ///
    /// # Errors
    /// As those of `boot`.
    pub fn boot_bare<D: Drives>(
        alloc: Global,
        file: &MachineFile,
        script: Script,
        drives: &mut D,
    ) -> Result<Box<Machine>, BootError>
        requires { IsMachine file.now }
        ensures { BootsBare D.Drives file.now script drives.old drives.new result }
    {
        let mounted = match MountedDrives::mount(alloc, file.drives.as_slice(), drives) {
            Ok(mounted) => mounted,
            Err(error) => return Err(error),
        };
        Machine::bare(alloc, file, script, mounted.into_mounted())
    }

    /// The machine of a machine file, and of its script's events, without processes, and with these drives. Nothing is open,
    /// locked, marked, sought or protected.
    ///
    /// # Errors
    /// `BootError::OutOfMemory` alone.
    fn bare(
        alloc: Global,
        file: &MachineFile,
        script: Script,
        mounted: Vec<Mounted>,
    ) -> Result<Box<Machine>, BootError>
        requires { IsMachine file.now }
        ensures { MakesBare file.now script mounted.items result }
    {
        let bdos = match bdos_of(alloc, mounted) {
            Ok(bdos) => bdos,
            Err(AllocError) => return Err(BootError::OutOfMemory),
        };
        let system = match System::bare(alloc, file, script) {
            Ok(system) => system,
            Err(AllocError) => return Err(BootError::OutOfMemory),
        };
        Machine::boxed(alloc, system, bdos)
    }

    /// The machine that has this system and keeps this of files.
    ///
    /// # Errors
    /// `BootError::OutOfMemory` alone.
    #[inline(always)]
    fn boxed(alloc: Global, system: System, bdos: Bdos) -> Result<Box<Machine>, BootError>
        ensures { MakesOf system bdos result }
    {
        let machine = Machine {
            system,
            bdos,
            reply: Reply::new(),
        };
        match Box::new(alloc, machine) {
            Ok(machine) => Ok(machine),
            Err(_) => Err(BootError::OutOfMemory),
        }
    }

    /// The machine of a program, of at most 48,512 bytes: one console, no printer, no drive, one segment of 192 pages from
    /// address 0 on, and in it the process `PROGRAM ` of priority 200.
    ///
    /// # Errors
    /// `BootError::OutOfMemory` alone.
    #[tactic(auto, unfolding(mpm_system::specs::Opening::opening_system))]
    pub fn boot_program(alloc: Global, program: &[u8]) -> Result<Box<Machine>, BootError>
        requires { length program.now ≤ 48512 }
        ensures { BootsProgram program.now result }
    {
        let file = match program_file(alloc) {
            Ok(file) => file,
            Err(AllocError) => return Err(BootError::OutOfMemory),
        };
        let bare = Machine::bare(alloc, &file, Script::empty(alloc), Vec::new(alloc));
        let mut machine = match bare {
            Ok(machine) => machine,
            Err(error) => return Err(error),
        };
        let _p = machine.place(Seg(0), Name8(*b"PROGRAM "), 200, 0, program);
        Ok(machine)
    }

    /// Puts a program into a segment in which no process lives, with its base page, and adds its process, with that name,
    /// priority and console. No step was done. The program has room after the base page, 128 bytes for its stack, and the
    /// gates' page.
    pub fn place(&mut self, seg: Seg, name: Name8, priority: u8, console: u8, program: &[u8]) -> Pid
        requires { MayPlace self.old.system seg console (length program.now) }
        ensures { PutsProgram seg name priority console program.now self.old self.new result }
    {
        self.system.place(seg, name, priority, console, program)
    }

    /// How many steps are done.
    pub fn steps_done(&self) -> u64
        ensures { result ≡ self.now.system.steps }
    {
        self.system.steps
    }

    /// The directory in memory of a drive, 0 for A, where it is mounted.
    pub fn directory(&self, drive: u8) -> Option<&Mounted>
        ensures { option_copied result ≡ directory_at self.now.bdos.mounted drive }
    {
        self.bdos.directory(drive)
    }

    /// The registers of the process of that number, None where it doesn't live.
    pub fn regs(&self, p: Pid) -> Option<&Regs>
        ensures { MatchOption result (process_at self.now.system.kernel.dispatcher.procs p ≡ None)
            (λ regs. option_map (λ process. process.regs) (process_at self.now.system.kernel.dispatcher.procs p) ≡ Some regs.now) }
    {
        let process = self.system.kernel.process(p)?;
        Some(&process.regs)
    }

    /// The byte that an address names for a process of that segment.
    pub fn byte(&self, seg: Seg, address: u16) -> u8
        ensures { result ≡ byte_at self.now.system.memory seg address }
    {
        self.system.memory.byte(seg, address)
    }

    /// How many keys of a console were lost, as 64 were stored.
    pub fn lost(&self, console: u8) -> u64
        requires { IsConsole self.now.system.kernel console }
        ensures { result ≡ (console_at self.now.system.kernel.units console).lost }
    {
        self.system.kernel.lost(console)
    }

    /// One step. After an error it isn't promised that the machine may be stepped again. A function on files which the disk serves is done in
    /// the step in which it is called, where turns have no steps. Else it waits for the disk, which serves one at a time, and is done after its
    /// last turn. A turn is the disk's work on one call: it lasts `turn_steps` steps, and calls the drive in the last of them.
    #[inline(always)]
    pub fn step<D: Drives, S: Sink, L: Ledger>(
        &mut self,
        drives: &mut D,
        render: &mut Render,
        sink: &mut S,
        calls: &mut Steps<L>,
    ) -> Result<(), StepFault>
        // A step may be called while fewer than GREATEST_STEP are done.
        requires most { self.old.system.steps < GREATEST_STEP }
        // The system is whole: its processes, lists and memory fit together. Nobody is left to be answered. What is kept of file calls and
        // the images stand for some files.
        requires between { IsBetweenSteps D.disks self.old drives.old }
        // A state has a machine, all outputs so far and the files. After a success machine, output and images stand for `next` of whatever
        // state they stood for, where the sink had some text before that state's outputs (`first`).
        ensures ok { StandingAt self.old render.old (S.written sink.old) (D.disks drives.old) (λ s first. OnOk result (StandsWithDrives self.new render.new (S.written sink.new) (D.disks drives.new) (next s) first)) }
        // After a success machine and images stand for `next` too where nothing is known of the text.
        ensures model { (s : State) → IsAt self.old (D.disks drives.old) s → OnOk result (IsAt self.new (D.disks drives.new) (next s)) }
        // Where a drive failed nothing of this step is written. The image of the call's drive stands for what that is within the turn, and
        // each other one for what the call found. Where the sink failed all before this step is written, and then a first part of this step's
        // text. The images stand for what is on the drives after the step.
        ensures stops { StandingAt self.old render.old (S.written sink.old) (D.disks drives.old) (λ s first. IfErr result (λ fault. StopsStep fault render.old.trace (leaving S.written D.disks render.new sink.new drives.new self.new.bdos.mounted) s first)) }
        // Of `next`, which is what a success does: each byte that changes is one that the step writes, or that an answer brings to its caller.
        // An interpreter that acts hands bytes only to a segment that it has reserved, in which nobody lives. An instruction leaves all but its
        // own. Calls, also those on files and of residents, are served by what was taken as they were made, whatever else memory has. What a
        // spooler printed came to its printer, stands last there while that is its own, and is a first part of its file's text. It asks for a
        // file's deletion only after it closed it, and all of its text had come to the printer. What a scheduler sent is what it accepted, each
        // command the first of those that then waited.
        ensures law { (s : State) → s.system ≡ self.old.system → IsStepOf s }
        // A success counts one step. The machine is whole again, nobody is left to be answered, no end of a process is due, and no two
        // locks are of one record. An interpreter that could act can do so still, and the disk's turns have as many steps as before.
        ensures leaves { OnOk result (StepsLeave 1 self.old self.new) }
        // Then what is kept of file calls and the images stand for files again, so that the machine may be stepped on (`between`).
        ensures holds { OnOk result (HoldsDrives D.disks self.new.system.kernel self.new.bdos drives.new) }
        // In any case each drive keeps its name, kind and size, and an image that is no mounted drive's stays. The names that couldn't be
        // attached stay the same. A drive with writes that weren't synced has such after it too.
        ensures drives { LeavesDrives D.Drives self.old.bdos.mounted self.new.bdos.mounted drives.old drives.new }
        // A success leaves the counts of faults. An error comes only where the count of the device that it names rose; the other count
        // stays. Whether calls are traced stays too.
        ensures ends { EndsByCause itself render.old.trace render.new.trace (counts S.faults D.faults sink.old drives.old) (counts S.faults D.faults sink.new drives.new) result }
        // Where the machine has no work on a drive to do in this step none is called, the drives are as before, and only the sink can fail.
        ensures rests { does_work self.old.system ≡ false → IfErr result (λ fault. fault ≡ StepFault.WriteFault) × (drives.new ≡ drives.old) × (calls.new ≡ calls.old) }
        // Where no drive is mounted the drives are as before, only the sink can fail, and none is mounted after it.
        ensures none { HasNoDrive self.old.bdos.mounted → IfErr result (λ fault. fault ≡ StepFault.WriteFault) × (drives.new ≡ drives.old) × HasNoDrive self.new.bdos.mounted }
        // Done or not, a step calls drives at most 20 times for each turn that it does.
        ensures calls { StandingFor self.old (D.disks drives.old) (λ files. calls.new ≤ calls.old + 20 * turns_done (working_in self.old.system files)) }
        // Where turns have steps, that is at most 20 times, as it does at most one turn.
        ensures few { 0 < self.old.system.kernel.disk.turn_steps → calls.new ≤ calls.old + 20 }
    {
        match self.take_step(drives, render, sink, calls) {
            Ok(()) => {
                self.bdos.recall_sound();
                Ok(())
            }
            Err(fault) => Err(fault),
        }
    }

    /// One step: first what it does on drives, then all else, in which alone something is written.
    #[inline(always)]
    fn take_step<D: Drives, S: Sink, L: Ledger>(
        &mut self,
        drives: &mut D,
        render: &mut Render,
        sink: &mut S,
        calls: &mut Steps<L>,
    ) -> Result<(), StepFault>
        requires most { self.old.system.steps < GREATEST_STEP }
        requires between { IsBetweenSteps D.disks self.old drives.old }
        ensures { TakesStep D.Drives (set_up S.Sink self.old drives.old render.old sink.old calls.old) (set_up S.Sink self.new drives.new render.new sink.new calls.new) result }
    {
        if let Err(Failed) = work(&self.system, &mut self.bdos, drives, calls) {
            return Err(StepFault::DiskFault);
        }
        let instruction = match self.begin_step(drives, render, sink, calls) {
            Ok(instruction) => instruction,
            Err(fault) => return Err(fault),
        };
        match self.end_step(instruction, render, sink) {
            Ok(()) => Ok(()),
            Err(Failed) => Err(StepFault::WriteFault),
        }
    }

    /// Does `n` steps; no step is done past the 4,000,000,000th. What `step` says of memory, of an instruction and of a call
    /// is so of each of them (`each`).
    pub fn run<D: Drives, S: Sink, L: Ledger>(
        &mut self,
        n: u64,
        drives: &mut D,
        render: &mut Render,
        sink: &mut S,
        calls: &mut Steps<L>,
    ) -> Result<(), RunFault>
        // After `n` steps at most GREATEST_STEP are done.
        requires most { self.old.system.steps + n ≤ GREATEST_STEP }
        // The system is whole: its processes, lists and memory fit together. Nobody is left to be answered. What is kept of file calls and
        // the images stand for some files.
        requires between { IsBetweenSteps D.disks self.old drives.old }
        // After a success machine, output and images stand for what comes `n` steps after whatever state they stood for, where the sink had
        // some text before that state's outputs (`first`).
        ensures ok { StandingAt self.old render.old (S.written sink.old) (D.disks drives.old) (λ s first. OnOk result (StandsWithDrives self.new render.new (S.written sink.new) (D.disks drives.new) (after n s) first)) }
        // After a success machine and images stand for that too where nothing is known of the text.
        ensures model { (s : State) → IsAt self.old (D.disks drives.old) s → OnOk result (IsAt self.new (D.disks drives.new) (after n s)) }
        // After an error all text of the steps before the one that the error names is written. What `stops` of `step` says is so of that one.
        ensures stops { StandingAt self.old render.old (S.written sink.old) (D.disks drives.old) (λ s first. IfErr result (λ error. StopsRun error render.old.trace (leaving S.written D.disks render.new sink.new drives.new self.new.bdos.mounted) n s first)) }
        // Each of the steps keeps to what `law` of `step` says.
        ensures each { (s : State) → s.system ≡ self.old.system → (k : ℕ) → k < n → IsStepOf (after k s) }
        // A success counts `n` steps. The machine is whole again, nobody is left to be answered, no end of a process is due after a step,
        // and no two locks are of one record. An interpreter that could act can do so still, and the disk's turns have as many steps.
        ensures leaves { OnOk result (StepsLeave n self.old self.new) }
        // Then what is kept of file calls and the images stand for files again, so that the machine may be run on (`between`).
        ensures holds { OnOk result (HoldsDrives D.disks self.new.system.kernel self.new.bdos drives.new) }
        // In any case each drive keeps its name, kind and size, and an image that is no mounted drive's stays. The names that couldn't be
        // attached stay the same. A drive with writes that weren't synced has such after it too.
        ensures drives { LeavesDrives D.Drives self.old.bdos.mounted self.new.bdos.mounted drives.old drives.new }
        // A success leaves the counts of faults. An error comes only where the count of the device that it names rose; the other count
        // stays. Whether calls are traced stays too.
        ensures ends { EndsByCause of_run render.old.trace render.new.trace (counts S.faults D.faults sink.old drives.old) (counts S.faults D.faults sink.new drives.new) result }
        // Without a step no drive is called.
        ensures still { n ≡ 0 → drives.new ≡ drives.old }
        // Where no drive is mounted the drives are as before, only the sink can fail, and none is mounted after it.
        ensures none { HasNoDrive self.old.bdos.mounted → IfErr result (λ error. error.fault ≡ StepFault.WriteFault) × (drives.new ≡ drives.old) × HasNoDrive self.new.bdos.mounted }
        // Drives are called at most 20 times for each turn that these steps do.
        ensures calls { (s : State) → IsAt self.old (D.disks drives.old) s → calls.new ≤ calls.old + 20 * turns_in n s }
        // Where turns have steps, a step calls drives at most 20 times.
        ensures few { 0 < self.old.system.kernel.disk.turn_steps → calls.new ≤ calls.old + 20 * n }
    {
        let mut left = n;
        while 0 < left {
            match self.advance(left, drives, render, sink, calls) {
                Ok(more) => left -= more,
                Err(error) => return Err(error),
            }
        }
        self.bdos.recall_sound();
        Ok(())
    }

    /// At least one step and at most so many: instructions of the running process and its calls that concern it alone, or steps in which
    /// nothing is done, and the step of another sort that comes after them.
    #[inline(always)]
    fn advance<D: Drives, S: Sink, L: Ledger>(
        &mut self,
        most: u64,
        drives: &mut D,
        render: &mut Render,
        sink: &mut S,
        calls: &mut Steps<L>,
    ) -> Result<u64, RunFault>
        requires { MayAdvance D.disks most self.old drives.old }
        ensures { Advances D.Drives most (set_up S.Sink self.old drives.old render.old sink.old calls.old) (set_up S.Sink self.new drives.new render.new sink.new calls.new) result }
    {
        let done = self.run_on(most, drives, render, sink);
        if done == most {
            self.bdos.recall_sound();
            return Ok(done);
        }
        let step = self.steps_done() + 1;
        if let Err(fault) = self.step(drives, render, sink, calls) {
            return Err(RunFault { step, fault });
        }
        Ok(done + 1)
    }
}
