ghost use Rattle.std.specs.Prelude.{◌≡◌, ◌==◌, if◌then◌else◌};
ghost use Rattle.mpm_opens.specs.Opens.{closed, written};

use mpm_base::Pid;
use mpm_opens::{FileKey, Opens};

/// Closes a process's file once, if it has it open. (MP/M II Programmer's Guide, "Function 16: Close File".)
#[tactic(auto, using(crate::proofs::Items::closed_of_item, crate::proofs::Items::closed_nowhere))]
pub fn close_file(opens: &mut Opens, p: Pid, file: FileKey)
    ensures { opens.new ≡ closed opens.old p file }
{
    match opens.item(p, file) {
        Some(item) => opens.close(item),
        None => {}
    }
}

/// Notes that a record was written by way of a process's open file.
#[tactic(auto, using(crate::proofs::Items::written_of_item, crate::proofs::Items::written_nowhere))]
fn note_one(opens: &mut Opens, p: Pid, file: FileKey)
    ensures { opens.new ≡ written opens.old p file }
{
    match opens.item(p, file) {
        Some(item) => {
            opens.wrote(item);
        }
        None => {}
    }
}

/// Notes that so many records were written by way of a process's open file.
pub fn note_written(opens: &mut Opens, p: Pid, file: FileKey, moved: u8)
    ensures { opens.new ≡ (if moved == 0 then opens.old else (written opens.old p file)) }
{
    if moved != 0 {
        note_one(opens, p, file);
    }
}
