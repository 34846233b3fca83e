ghost use Rattle.std.specs.Prelude.{◌≡◌};
ghost use Rattle.mpm_banks.specs.Memory.{segment_of};
ghost use Rattle.mpm_procs.specs.Table.{Lives};
ghost use Rattle.mpm_system.specs.Whole.{IsWhole};
ghost use Rattle.mpm_core.specs.Taking.{IsHomeOf, Takes, core_at};
ghost use Rattle.mpm_core.specs.Parts.{AreRegisters, CountsSteps, HasHome, IsHeadAt, IsCoreIn};

use crate::saved::{Core, recall_mode};
use mpm_base::{Pid, Seg, SegmentSpec};
use mpm_core_file::Head;
use mpm_machine::{Home, Machine};
use z80_regs::Regs;

/// The registers of a process that lives.
#[tactic(auto, using(crate::proofs::TakeLaws::regs_there))]
fn regs_of(machine: &Machine, p: Pid) -> Regs
    requires { Lives machine.now.system.kernel.dispatcher.procs p }
    ensures { AreRegisters p machine.now.system result }
{
    match machine.regs(p) {
        Some(regs) => {
            recall_mode(regs);
            *regs
        }
        None => unreachable!(),
    }
}

/// How many steps are done, a number of 64 bits.
fn steps_of(machine: &Machine) -> u64
    ensures { CountsSteps machine.now.system result }
{
    machine.steps_done()
}

/// The head of the core of a process that lives in a segment.
fn head_at(machine: &Machine, p: Pid, base: u8, pages: u8, inside: bool) -> Head
    requires { Lives machine.now.system.kernel.dispatcher.procs p }
    ensures { IsHeadAt p base pages inside machine.now.system result }
{
    Head {
        step: steps_of(machine),
        process: p,
        spec: SegmentSpec { base, pages },
        inside,
        regs: regs_of(machine, p),
    }
}

/// The bytes of the segment of a home.
#[tactic(auto, using(crate::proofs::TakeLaws::home_viewed))]
fn segment_at(machine: &Machine, home: Home) -> &[u8]
    requires { HasHome machine.now.system home }
    ensures { result.now ≡ (segment_of machine.now.system.memory home.seg).bytes }
{
    match machine.view(
        home.seg,
        256 * u16::from(home.base),
        256 * u16::from(home.pages),
    ) {
        Some(bytes) => bytes,
        None => unreachable!(),
    }
}

/// The bytes of common memory, as the process of a segment reaches them.
#[tactic(auto, using(crate::proofs::TakeLaws::common_viewed))]
fn common_at(machine: &Machine, seg: Seg) -> &[u8]
    requires { IsWhole machine.now.system }
    ensures { result.now ≡ machine.now.system.memory.common }
{
    match machine.view(seg, 0xC000, 0x4000) {
        Some(bytes) => bytes,
        None => unreachable!(),
    }
}

impl Core {
    /// Takes the core of a process that lives in a segment.
    fn take_from(&mut self, machine: &Machine, p: Pid, home: Home)
        requires { IsHomeOf p machine.now.system home }
        ensures { IsCoreIn p home.seg machine.now.system self.new }
    {
        let seg = home.seg;
        let head = head_at(machine, p, home.base, home.pages, home.procedure);
        let segment = segment_at(machine, home);
        self.fill(head, segment, common_at(machine, seg));
    }

    /// Takes the core of a process of a machine, as the process is now. False comes exactly where it doesn't live, or is a resident, which
    /// has no segment; the core is then as it was.
    #[tactic(auto, using(crate::proofs::TakeLaws::nobody_taken, crate::proofs::TakeLaws::somebody_taken, crate::proofs::TakeLaws::core_taken))]
    pub fn take(&mut self, machine: &Machine, p: Pid) -> bool
        requires { IsWhole machine.now.system }
        ensures { Takes (core_at p machine.now.system) self.old self.new result }
    {
        match machine.home(p) {
            None => false,
            Some(home) => {
                self.take_from(machine, p, home);
                true
            }
        }
    }
}
