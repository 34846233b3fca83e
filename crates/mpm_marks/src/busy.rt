ghost use Rattle.std.specs.Prelude.{◌≡◌, ◌<◌};
ghost use Rattle.mpm_marks.specs.Busy as subjects;

use crate::marks::{Marks, is_bit};
use mpm_base::Pid;
use mpm_file_functions::FileFunction;
use mpm_opens::Opens;

/// Whether a call on drives names a drive: of the process's `own` drive and the mask in DE.
#[tactic(auto, unfolding(crate::specs::Busy::names))]
pub(crate) fn names(function: FileFunction, own: u8, mask: u16, drive: u8) -> bool
    requires { drive < 16 }
    ensures { result ≡ subjects.names function own mask drive }
{
    match function {
        FileFunction::ResetDisks => true,
        FileFunction::ProtectDisk => drive == own,
        _ => is_bit(mask, drive),
    }
}

/// Whether another process has a file open on a drive, or has marked it where marks count.
#[tactic(auto, unfolding(crate::specs::Busy::is_drive_busy))]
fn is_drive_busy(opens: &Opens, marks: &Marks, p: Pid, function: FileFunction, drive: u8) -> bool
    requires { drive < 16 }
    ensures { result ≡ subjects.is_drive_busy opens.now marks.now p function drive }
{
    match function {
        FileFunction::ProtectDisk => opens.on_drive(p, drive),
        _ => opens.on_drive(p, drive) || marks.is_marked(p, drive),
    }
}

/// Whether a call names a drive that is busy.
fn is_named_busy(
    opens: &Opens,
    marks: &Marks,
    p: Pid,
    function: FileFunction,
    own: u8,
    mask: u16,
    drive: u8,
) -> bool
    requires { drive < 16 }
    ensures { result ≡ subjects.is_named_busy opens.now marks.now p function own mask drive }
{
    names(function, own, mask, drive) && is_drive_busy(opens, marks, p, function, drive)
}

/// Whether one of the drives that a call names is busy. (MP/M II Programmer's Guide, "Function 37: Reset Drive".)
#[tactic(auto, using(crate::proofs::Walked::none_first, crate::proofs::Walked::none_yet, crate::proofs::Walked::busy_found))]
pub fn are_busy(
    opens: &Opens,
    marks: &Marks,
    p: Pid,
    function: FileFunction,
    own: u8,
    mask: u16,
) -> bool
    ensures { result ≡ subjects.are_busy opens.now marks.now p function own mask }
{
    for drive in 0..16 {
        if is_named_busy(opens, marks, p, function, own, mask, drive) {
            return true;
        }
    }
    false
}
