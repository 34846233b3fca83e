ghost use Rattle.std.specs.Prelude.{◌≡◌, ℕ, Some};
ghost use Rattle.mpm_banks.specs.Memory.{HasSegment};
ghost use Rattle.mpm_kernel.specs.Kernel.{BecomesSound};
ghost use Rattle.mpm_xdos.specs.Ending.{LivesWithSegment};
ghost use Rattle.mpm_xdos.specs.Procedures.{IsInside, returned_from_procedure, page_of_home as page_of};
ghost use Rattle.mpm_xdos.specs.Calling.{EntersWithReply, EntersProcedure};

use mpm_banks::{Banks, RETURN_GATE, last_page};
use mpm_base::{Pid, Reply, Seg};
use mpm_kernel::Kernel;

/// A process enters the resident procedure whose message its call 151 has just got: it goes on at the address that is the
/// message, with the call's parameter in DE. Its return address is kept; in its place the gate is pushed that ends the
/// procedure, which the reply places. (MP/M II Programmer's Guide, "Function 151: Call Resident System Procedure".)
pub fn enter_procedure(kernel: &mut Kernel, banks: &Banks, p: Pid, reply: &mut Reply)
    requires { LivesWithSegment p kernel.old banks.now }
    ensures { EntersProcedure p kernel.old kernel.new banks.now reply.new }
{
    enter(kernel, banks, p, reply);
}

/// A process goes on in its procedure.
#[tactic(auto, unfolding(crate::specs::Procedures::entered, crate::specs::Procedures::entering, crate::specs::Procedures::entry_reply))]
fn enter(kernel: &mut Kernel, banks: &Banks, p: Pid, reply: &mut Reply)
    requires { LivesWithSegment p kernel.old banks.now }
    ensures { EntersWithReply p kernel.old kernel.new banks.now reply.new }
{
    let page = page_of_home(banks, kernel.segment(p));
    let call = kernel.kept_call(p);
    let low = call.byte(2);
    let high = call.byte(3);
    let process = kernel.process_mut(p);
    let at = process.regs.sp.wrapping_sub(2);
    process.back = process.regs.pc;
    process.regs.d = high;
    process.regs.e = low;
    process.regs.pc = process.kept;
    process.regs.sp = at;
    reply.answer_with(0, at, &[RETURN_GATE, page]);
}

/// The last page of the segment that a process has.
fn page_of_home(banks: &Banks, home: Option<Seg>) -> u8
    requires { (seg : ℕ) → home ≡ Some seg → HasSegment banks.now seg }
    ensures { result ≡ page_of banks.now home }
{
    let Some(seg) = home else {
        return 0;
    };
    last_page(banks.spec(seg))
}

/// A process leaves the resident procedure that it is in: its message is written back, and the process goes on where it
/// called the procedure, with HL as it is and the same in A and B.
pub fn leave_procedure(kernel: &mut Kernel, p: Pid)
    requires { IsInside p kernel.old }
    ensures { BecomesSound (returned_from_procedure p kernel.old) kernel.new }
{
    leave(kernel, p);
}

/// A process goes on after its procedure.
#[tactic(auto, using(mpm_kernel::proofs::ProcedureLaws::lives_given_back), unfolding(crate::specs::Procedures::returned_from_procedure, crate::specs::Procedures::leaving))]
fn leave(kernel: &mut Kernel, p: Pid)
    requires { IsInside p kernel.old }
    ensures { kernel.new ≡ returned_from_procedure p kernel.old }
{
    kernel.put_back(p);
    let process = kernel.process_mut(p);
    process.regs.pc = process.back;
    process.regs.a = process.regs.l;
    process.regs.b = process.regs.h;
    process.regs.shadow = false;
}
