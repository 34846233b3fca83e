ghost use Rattle.std.specs.Prelude.{◌≡◌};
ghost use Rattle.mpm_procs.specs.Opening.{opening_registers as registers_at_opening};

use mpm_base::{Name8, Seg};
use z80_regs::Regs;

/// A process. (MP/M II Programmer's Guide, "Process Descriptor".)
#[derive(Clone, Copy)]
pub struct Process {
    /// Its name.
    pub name: Name8,
    /// 0 is best, 255 worst.
    pub priority: u8,
    /// The number of its console.
    pub console: u8,
    /// The memory segment that it lives in; a resident process has none.
    pub seg: Option<Seg>,
    /// The user, 0 to 15.
    pub user: u8,
    /// The current drive, 0 for A to 15 for P.
    pub drive: u8,
    /// The registers of the processor, as they are while it doesn't run too.
    pub regs: Regs,
    /// The number of its printer.
    pub printer: u8,
    /// The DMA address.
    pub dma: u16,
    /// The multi-sector count, 1 to 16.
    pub multi: u8,
    /// What becomes of an extended error: FFh and FEh answer it, FEh also writes it; others write it and end the process.
    pub error_mode: u8,
    /// The default password.
    pub password: [u8; 8],
    /// It ends as soon as nothing holds that off any more.
    pub abort_due: bool,
    /// The queue of the resident procedure that it is in.
    pub procedure: Option<u8>,
    /// The message of that queue.
    pub kept: u16,
    /// The address to which that procedure returns.
    pub back: u16,
    /// The line of an unfinished console line input.
    pub line: [u8; 255],
    /// How many bytes that line has.
    pub line_length: u8,
}

/// What a new process begins with.
#[derive(Clone, Copy, Default)]
pub struct NewProcess {
    /// Its name.
    pub name: Name8,
    /// 0 is best, 255 worst.
    pub priority: u8,
    /// The number of its console.
    pub console: u8,
    /// The memory segment that it lives in; a resident process has none.
    pub seg: Option<Seg>,
    /// The address at which it begins.
    pub pc: u16,
    /// The stack pointer with which it begins.
    pub sp: u16,
    /// The DMA address.
    pub dma: u16,
    /// The user, 0 to 15.
    pub user: u8,
    /// The current drive, 0 for A to 15 for P.
    pub drive: u8,
}

impl Process {
    ghost use Rattle.mpm_procs.specs.Opening.{opening, blank};

    /// A process as it begins.
    #[tactic(auto, unfolding(crate::specs::Opening::opening, mpm_base::specs::Lists::zeros))]
    pub(crate) fn begin(new: &NewProcess) -> Process
        ensures { result ≡ opening new.now }
    {
        Process {
            name: new.name,
            priority: new.priority,
            console: new.console,
            seg: new.seg,
            user: new.user,
            drive: new.drive,
            regs: opening_registers(new.pc, new.sp),
            printer: 0,
            dma: new.dma,
            multi: 1,
            error_mode: 0,
            password: [0; 8],
            abort_due: false,
            procedure: None,
            kept: 0,
            back: 0,
            line: [0; 255],
            line_length: 0,
        }
    }

    /// What stands in a slot where no process lives.
    #[tactic(auto, unfolding(crate::specs::Opening::blank, mpm_base::specs::Lists::zeros))]
    pub(crate) fn none() -> Process
        ensures { result ≡ blank }
    {
        Process::begin(&NewProcess {
            name: Name8([0; 8]),
            priority: 0,
            console: 0,
            seg: None,
            pc: 0,
            sp: 0,
            dma: 0,
            user: 0,
            drive: 0,
        })
    }
}

/// The registers as a process begins: all 0 but PC and SP, interrupts on.
#[tactic(auto, unfolding(crate::specs::Opening::opening_registers))]
fn opening_registers(pc: u16, sp: u16) -> Regs
    ensures { result ≡ registers_at_opening pc sp }
{
    Regs {
        sp,
        pc,
        iff1: true,
        iff2: true,
        ..Regs::default()
    }
}
