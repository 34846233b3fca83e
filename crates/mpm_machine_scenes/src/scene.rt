//! Scenes: runs of one or two programs, and what is seen of the machine after so many steps.
ghost use Rattle.std.specs.Prelude.{ℕ, ◌≡◌, ◌<◌, ◌≤◌, ◌+◌, ◌*◌, OnOk, length, get_or};
ghost use Rattle.std.specs.Bool.{OnTrue};
ghost use Rattle.mpm_machine_file.specs.MachineFiles.{IsMachine};
ghost use Rattle.mpm_port.specs.MemoryDisks.{disks_of};
ghost use Rattle.mpm_system.specs.Whole.{IsWhole};
ghost use Rattle.mpm_system.specs.Opening.{IsBare, MayPlace};
ghost use Rattle.mpm_machine.specs.Parts.{IsBetweenSteps};

use mpm_base::{Kind, Name8, Pid, Seg, Steps};
use mpm_images::{EntryBytes, UNUSED, entry_in, image, read_record, record_at};
use mpm_machine::Machine;
use mpm_machine_file::{MachineFile, read_machine};
use mpm_port::{MemoryDrives, MemorySink};
use mpm_render::Render;
use mpm_script::read_script;
use std::alloc::Global;
use std::marker::Brand;
use std::sync::ledger::{Blank, Ledger};
use std::test::Fail;
use z80_regs::Regs;

/// A machine file of one console and two segments of 16 pages, in banks of their own, without ticks.
pub const TWO_SEGMENTS: &[u8] = b"version = 1
consoles = 1
[[segment]]
base = 64
pages = 16
[[segment]]
base = 64
pages = 16
";

/// What a run is made of.
#[derive(Clone, Copy)]
pub struct Scene<'a> {
    /// The machine file; an empty one stands for the machine of one program.
    pub machine: &'a [u8],
    /// What happens in which step; nothing where it is empty.
    pub script: &'a [u8],
    /// The program of process 0, in the first segment.
    pub first: &'a [u8],
    /// The program of process 1, in the last segment and of equal priority; there is none where it is empty.
    pub second: &'a [u8],
    /// Whether its calls are written, as they are completed.
    pub trace: bool,
    /// The directory entries of the floppy disk whose image is `a.img`, if there is one.
    pub disk: Option<&'a [EntryBytes]>,
}

/// What is looked at of the registers of a process.
#[derive(Clone, Copy)]
pub enum Register {
    A,
    B,
    C,
    De,
    Hl,
    Pc,
    Sp,
    /// 1 where the process stands in a HALT.
    Halted,
}

/// What is seen of a machine.
#[derive(Clone, Copy)]
pub enum Sight {
    /// Whether a process lives.
    Lives(u8, bool),
    /// A register of a process that lives.
    Has(u8, Register, u16),
    /// The byte that an address names in a segment.
    Byte(u8, u16, u8),
    /// The word that an address and the next one name in a segment.
    Word(u8, u16, u16),
    /// How many keys of console 0 were lost.
    Lost(u64),
    /// With which byte a record begins, below 128, of the file whose entry stands in a slot of the disk's directory; none where the
    /// slot is free, or the file hasn't that record.
    Record(u8, u8, Option<u8>),
    /// With which byte a slot's entry begins, below 128.
    Entry(u8, u8),
}

/// What is seen after so many steps, in which just that text was written.
#[derive(Clone, Copy)]
pub struct Behind<'a>(pub u64, pub &'a [u8], pub &'a [Sight]);

/// Two programs without a script, whose calls are traced.
pub fn traced<'a>(first: &'a [u8], second: &'a [u8]) -> Scene<'a> {
    Scene {
        machine: TWO_SEGMENTS,
        script: b"",
        first,
        second,
        trace: true,
        disk: None,
    }
}

/// A program alone, in the machine of one program.
pub fn alone(first: &[u8], trace: bool) -> Scene<'_> {
    Scene {
        machine: b"",
        script: b"",
        first,
        second: b"",
        trace,
        disk: None,
    }
}

impl Scene<'_> {
    /// A run shows what is said of it, in one go and with its last step apart.
    ///
    /// # Errors
    /// The number of the first of the looks at which it doesn't.
    pub fn shows(&self, alloc: Global, looks: &[Behind]) -> Result<(), Fail> {
        for (number, look) in looks.iter().enumerate() {
            if !self.is_so(alloc, look, false)? || !self.is_so(alloc, look, true)? {
                return Err(Fail::new(format_args!("look {number} of the scene, from 0")));
            }
        }
        Ok(())
    }

    /// Whether a new run shows what is said of it.
    fn is_so(&self, alloc: Global, look: &Behind, apart: bool) -> Result<bool, Fail> {
        if self.machine.is_empty() {
            return self.is_so_alone(alloc, look, apart);
        }
        let file = read_machine(alloc, self.machine)?;
        self.is_so_in(alloc, &file, look, apart)
    }

    /// Whether a new run of the machine of one program shows what is said of it.
    fn is_so_alone(&self, alloc: Global, look: &Behind, apart: bool) -> Result<bool, Fail> {
        if 48512 < self.first.len() {
            return Err(Fail::from("the program is too long"));
        }
        let mut drives = MemoryDrives::new(alloc);
        match Machine::boot_program(alloc, self.first) {
            Ok(mut machine) => {
                let blank = Blank::new(1);
                self.is_seen::<Brand>(alloc, &mut machine, &mut drives, blank, true, look, apart)
            }
            Err(error) => Err(Fail::from(error)),
        }
    }

    /// Whether a new run of the machine of a machine file shows what is said of it.
    fn is_so_in(
        &self,
        alloc: Global,
        file: &MachineFile,
        look: &Behind,
        apart: bool,
    ) -> Result<bool, Fail>
        requires { IsMachine file.now }
    {
        if 1048576 < self.script.len() {
            return Err(Fail::from("the script is too long"));
        }
        let script = read_script(alloc, self.script)?;
        let mut drives = self.drives(alloc)?;
        match Machine::boot_bare(alloc, file, script, &mut drives) {
            Ok(mut machine) => {
                let placed = place_both(&mut machine, file, self.first, self.second);
                let blank = Blank::new(1);
                self.is_seen::<Brand>(alloc, &mut machine, &mut drives, blank, placed, look, apart)
            }
            Err(error) => Err(Fail::from(error)),
        }
    }

    /// The drives with the scene's disk, if it has one.
    fn drives(&self, alloc: Global) -> Result<MemoryDrives, Fail> {
        let mut drives = MemoryDrives::new(alloc);
        if let Some(entries) = self.disk {
            let image = image(alloc, Kind::Ibm3740, entries)?;
            drives.add("a.img", image.as_slice())?;
        }
        Ok(drives)
    }

    /// Whether a machine that has done no step, with its programs placed or not, shows what is said of its run.
    fn is_seen<L: Ledger>(
        &self,
        alloc: Global,
        machine: &mut Machine,
        drives: &mut MemoryDrives,
        blank: Blank,
        placed: bool,
        look: &Behind,
        apart: bool,
    ) -> Result<bool, Fail>
        requires between { IsBetweenSteps disks_of machine.old drives.old }
        requires start { machine.old.system.steps ≡ 0 }
        requires name { blank.name ≡ L.name }
        requires parts { blank.parts ≡ L.parts }
        requires some { 0 < L.parts }
    {
        let Behind(steps, text, sights) = *look;
        let mut calls = Steps::<L>::new(blank);
        let mut render = Render::new(self.trace);
        let mut sink = MemorySink::new(alloc, 512)?;
        go(
            machine,
            steps,
            apart,
            drives,
            &mut render,
            &mut sink,
            &mut calls,
        )?;
        let is_so = has_all(machine, sights);
        machine.settle(drives, &mut render, &mut sink, &mut calls)?;
        let is_left = leaves_all(machine, drives, sights);
        Ok(placed && is_so && is_left && machine.steps_done() == steps && sink.written() == text)
    }
}

/// Whether all that is seen of a machine is so.
fn has_all(machine: &Machine, sights: &[Sight]) -> bool
    requires { IsWhole machine.now.system }
{
    for sight in sights {
        if !sees(machine, *sight) {
            return false;
        }
    }
    true
}

/// Whether all that is seen at the end of the run is so.
fn leaves_all(machine: &Machine, drives: &mut MemoryDrives, sights: &[Sight]) -> bool {
    for sight in sights {
        if !leaves(machine, drives, *sight) {
            return false;
        }
    }
    true
}

/// Whether a segment is there with room for a program.
fn has_room(file: &MachineFile, seg: u8, program: &[u8]) -> bool
    ensures there { OnTrue result (seg < length file.now.segments) }
    ensures room { OnTrue result (length program.now + 640 ≤ 256 * (get_or file.now.segments seg (record { base = 0; pages = 0 })).pages) }
{
    let segments = file.segments.as_slice();
    let place = usize::from(seg);
    if segments.len() <= place || 48512 < program.len() {
        return false;
    }
    program.len() + 640 <= 256 * usize::from(segments[place].pages)
}

/// Places a program in the first segment, and another one in the last: whether they are processes 0 and 1. There is none where
/// it is empty.
fn place_both(machine: &mut Machine, file: &MachineFile, first: &[u8], second: &[u8]) -> bool
    requires file { IsMachine file.now }
    requires bare { IsBare machine.old.system }
    requires free { (seg size : ℕ) → seg < length file.now.segments → size + 640 ≤ 256 * (get_or file.now.segments seg (record { base = 0; pages = 0 })).pages
        → MayPlace machine.old.system seg 0 size }
    ensures bare { IsBare machine.new.system }
    ensures disk { machine.new.system.kernel.disk ≡ machine.old.system.kernel.disk }
    ensures bdos { machine.new.bdos ≡ machine.old.bdos }
{
    if first.is_empty() {
        return true;
    }
    if !has_room(file, 0, first) {
        return false;
    }
    let p = machine.place(Seg(0), Name8(*b"FIRST   "), 200, 0, first);
    if second.is_empty() {
        return p.0 == 0;
    }
    let last = (file.segments.as_slice().len() - 1) as u8;
    if last == 0 || !has_room(file, last, second) {
        return false;
    }
    let q = machine.place(Seg(last), Name8(*b"SECOND  "), 200, 0, second);
    p.0 == 0 && q.0 == 1
}

/// Does so many steps, at most 10,000, the last of them apart or not.
fn go<L: Ledger>(
    machine: &mut Machine,
    steps: u64,
    apart: bool,
    drives: &mut MemoryDrives,
    render: &mut Render,
    sink: &mut MemorySink,
    calls: &mut Steps<L>,
) -> Result<(), Fail>
    requires between { IsBetweenSteps disks_of machine.old drives.old }
    requires start { machine.old.system.steps ≡ 0 }
    ensures { OnOk result (IsBetweenSteps disks_of machine.new drives.new) }
{
    if 10000 < steps {
        return Err(Fail::from("there are too many steps"));
    }
    if apart && 0 < steps {
        machine.run(steps - 1, drives, render, sink, calls)?;
        machine.step(drives, render, sink, calls)?;
    } else {
        machine.run(steps, drives, render, sink, calls)?;
    }
    Ok(())
}

/// Whether that is seen of a machine, as its steps are done.
#[tactic(auto, using(mpm_kernel::proofs::UnitLaws::has_first_console))]
fn sees(machine: &Machine, sight: Sight) -> bool
    requires { IsWhole machine.now.system }
{
    match sight {
        Sight::Has(p, register, value) => {
            if 32 <= p {
                return false;
            }
            match machine.regs(Pid(p)) {
                Some(regs) => value_of(regs, register) == value,
                None => false,
            }
        }
        Sight::Byte(seg, address, byte) => seg < 16 && machine.byte(Seg(seg), address) == byte,
        Sight::Word(seg, address, word) => seg < 16 && word_at(machine, Seg(seg), address) == word,
        Sight::Lost(count) => machine.lost(0) == count,
        Sight::Lives(_, _) | Sight::Record(_, _, _) | Sight::Entry(_, _) => true,
    }
}

/// Whether that is seen at the end of the run, to which the call in service was carried out: who lives, and what is on the disk.
fn leaves(machine: &Machine, drives: &mut MemoryDrives, sight: Sight) -> bool {
    match sight {
        Sight::Lives(p, lives) => p < 32 && machine.regs(Pid(p)).is_some() == lives,
        Sight::Record(slot, record, byte) => first_byte(drives, slot, record) == byte,
        Sight::Entry(slot, byte) => entry_of(drives, slot)[0] == byte,
        _ => true,
    }
}

/// The entry of a slot of the floppy disk.
fn entry_of(drives: &mut MemoryDrives, slot: u8) -> EntryBytes {
    match read_record(drives, Kind::Ibm3740, u32::from(slot / 4)) {
        Some(entries) => entry_in(&entries, usize::from(slot)),
        None => UNUSED,
    }
}

/// With which byte a record begins of the file of a slot, if it has that record.
fn first_byte(drives: &mut MemoryDrives, slot: u8, number: u8) -> Option<u8> {
    let entry = entry_of(drives, slot);
    if entry[0] == 0xE5 || entry[15] <= number {
        return None;
    }
    let at = record_at(Kind::Ibm3740, &entry, u32::from(number))?;
    let bytes = read_record(drives, Kind::Ibm3740, at)?;
    Some(bytes[0])
}

/// The word that an address and the next one name in a segment.
fn word_at(machine: &Machine, seg: Seg, address: u16) -> u16 {
    let low = machine.byte(seg, address);
    let high = machine.byte(seg, address.wrapping_add(1));
    u16::from_le_bytes([low, high])
}

/// The value of a register.
fn value_of(regs: &Regs, register: Register) -> u16 {
    match register {
        Register::A => u16::from(regs.a),
        Register::B => u16::from(regs.b),
        Register::C => u16::from(regs.c),
        Register::De => u16::from_be_bytes([regs.d, regs.e]),
        Register::Hl => u16::from_be_bytes([regs.h, regs.l]),
        Register::Pc => regs.pc,
        Register::Sp => regs.sp,
        Register::Halted => u16::from(regs.halted),
    }
}
