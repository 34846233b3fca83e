ghost use Rattle.std.specs.Prelude.{◌≡◌, ◌<◌, true, if◌then◌else◌};
ghost use Rattle.mpm_opens.specs.Kinds.{is_on_drive};
ghost use Rattle.mpm_opens.specs.Opens.{given_back};
ghost use Rattle.mpm_marks.specs.Marks as masks;
ghost use Rattle.mpm_marks.specs.Driving as spec;
ghost use Rattle.mpm_marks.specs.Driving.{marks_by, protected_by};
ghost use Rattle.mpm_marks.specs.Protected.{with_protected};

use crate::marks::{Marks, is_bit};
use crate::protected::Protected;
use mpm_base::Pid;
use mpm_file_functions::FileFunction;
use mpm_opens::Opens;

/// What a call leaves of the drives that a process has marked, by a mask. (MP/M II Programmer's Guide, "Function 38: Access
/// Drive", "Function 39: Free Drive".)
#[tactic(auto, unfolding(crate::specs::Driving::marks_by))]
pub fn mark_drives(marks: &mut Marks, p: Pid, mask: u16, function: FileFunction)
    ensures { marks.new ≡ marks_by marks.old p mask function }
{
    match function {
        FileFunction::AccessDrives => marks.mark(p, mask),
        FileFunction::FreeDrives => marks.unmark(p, mask),
        _ => {}
    }
}

/// Protects a drive, if it is mounted.
fn protect_where(protected: &mut Protected, drive: u8, is_mounted: bool)
    requires { is_mounted ≡ true → drive < 16 }
    ensures { protected.new ≡ (if is_mounted then with_protected protected.old drive else protected.old) }
{
    if is_mounted {
        protected.protect(drive);
    }
}

/// What a call leaves of the drives that are protected from writing, by the process's own drive, which may be mounted, and by a
/// mask. (MP/M II Programmer's Guide, "Function 13: Reset Disk System", "Function 28: Write Protect Disk", "Function 37: Reset
/// Drive".)
pub fn protect_drives(
    protected: &mut Protected,
    own: u8,
    is_mounted: bool,
    mask: u16,
    function: FileFunction,
)
    requires { is_mounted ≡ true → own < 16 }
    ensures { protected.new ≡ protected_by protected.old is_mounted own mask function }
{
    match function {
        FileFunction::ResetDisks => protected.reset_all(),
        FileFunction::ResetDrives => protected.reset(mask),
        FileFunction::ProtectDisk => protect_where(protected, own, is_mounted),
        _ => {}
    }
}

/// What a call leaves of a process's open files on the drives of a mask.
pub fn leave_drives(opens: &mut Opens, p: Pid, mask: u16, function: FileFunction)
    ensures { opens.new ≡ spec.freed_by opens.old p mask function }
{
    match function {
        FileFunction::FreeDrives => free_drives(opens, p, mask),
        _ => {}
    }
}

/// Gives back a process's open files on a drive, if it is one of a mask.
fn free_drive(opens: &mut Opens, p: Pid, mask: u16, drive: u8)
    requires { drive < 16 }
    ensures { opens.new ≡ (if masks.is_bit mask drive then given_back opens.old p (is_on_drive drive) else opens.old) }
{
    if is_bit(mask, drive) {
        opens.leave_drive(p, drive);
    }
}

/// Gives back a process's open files on the drives of a mask, with its locks there. (MP/M II Programmer's Guide, "Function 39:
/// Free Drive".)
#[tactic(auto, using(crate::proofs::Freed::no_drive_freed, crate::proofs::Freed::one_drive_freed))]
fn free_drives(opens: &mut Opens, p: Pid, mask: u16)
    ensures { opens.new ≡ given_back opens.old p (λ key. masks.is_bit mask key.drive) }
{
    for drive in 0..16 {
        free_drive(opens, p, mask, drive);
    }
}
