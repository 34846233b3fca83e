ghost use Rattle.std.specs.Prelude.{◌≡◌, false};
ghost use Rattle.mpm_top.specs.Words.{steps_of as steps_said, form_of as form_said, command_with};
ghost use Rattle.mpm_snapshot.specs.Requests as spec;

use mpm_base::Pid;
use mpm_top::{Asked, asked_by, steps_of};

/// The greatest number of a process.
const GREATEST_PROCESS: u32 = 31;

/// What is to be saved: a process, and the command after whose steps.
#[derive(Clone, Copy)]
pub(crate) struct ToSave {
    pub asked: Asked,
    pub process: Pid,
}

/// The process that a word says.
fn process_of(word: &str) -> Option<Pid>
    ensures { result ≡ spec.process_of word.now }
{
    let process = mpm_script::number(word.as_bytes(), GREATEST_PROCESS)?;
    Some(Pid(process as u8))
}

/// What five words ask to be saved.
pub(crate) fn asked_to_save(
    word: &str,
    form: &str,
    name: &str,
    steps: &str,
    process: &str,
) -> Option<ToSave>
    ensures { spec.AsksToSave (spec.save_by word.now (command_with (form_said form.now) name.now (steps_said steps.now) false) (spec.process_of process.now)) name.now result }
{
    if word != "save" {
        return None;
    }
    save_of(form, name, steps, process)
}

/// What the four words after `save` ask.
#[tactic(auto, using(crate::proofs::RequestLaws::no_command, crate::proofs::RequestLaws::no_process, crate::proofs::RequestLaws::saves))]
fn save_of(form: &str, name: &str, steps: &str, process: &str) -> Option<ToSave>
    ensures { spec.AsksToSave (spec.save_of (command_with (form_said form.now) name.now (steps_said steps.now) false) (spec.process_of process.now)) name.now result }
{
    let Some(asked) = asked_by(form, name, steps, false) else {
        return None;
    };
    let Some(process) = process_of(process) else {
        return None;
    };
    Some(ToSave { asked, process })
}

/// The most instructions that are to be done, where three words ask to run a core on.
pub(crate) fn asked_to_resume(word: &str, name: &str, most: &str) -> Option<u64>
    ensures { spec.AsksToResume (spec.resume_by word.now name.now (steps_said most.now)) name.now result }
{
    if word != "resume" {
        return None;
    }
    most_of_named(name, most)
}

/// The number of instructions that a word says, of a core whose file has a name.
#[tactic(auto, using(crate::proofs::RequestLaws::unnamed, crate::proofs::RequestLaws::no_most, crate::proofs::RequestLaws::resumes))]
fn most_of_named(name: &str, most: &str) -> Option<u64>
    ensures { spec.AsksToResume (spec.resume_of name.now (steps_said most.now)) name.now result }
{
    if name.is_empty() {
        return None;
    }
    steps_of(most)
}
