ghost use Rattle.std.specs.Prelude.{◌≡◌, Option, Some, None, MatchOption, true, false};
ghost use Rattle.mpm_top.specs.Words.{texts, steps_of as number_of, form_of as form_said, command_with, command_of, IsAsked, AreAsking};
ghost use Rattle.mpm_top.specs.RunParts.{SaysSteps};

use mpm_script::GREATEST_STEP;

/// The forms of commands, by their first word.
#[derive(Clone, Copy)]
pub enum Form {
    /// `program FILE STEPS`: one process runs the bytes of FILE.
    Program,
    /// `run MACHINE STEPS`: boots the machine of the machine file MACHINE.
    Run,
}

/// What a command asks of the file that its second word names.
#[derive(Clone, Copy)]
pub struct Asked {
    pub form: Form,
    /// How many steps are to be done, at most 4,000,000,000.
    pub steps: u64,
    /// Whether a record is written of each completed call.
    pub trace: bool,
}

/// The number of steps that a word says.
#[tactic(auto, unfolding(crate::specs::Words::steps_of))]
pub fn steps_of(word: &str) -> Option<u64>
    ensures { SaysSteps word.now result }
{
    let steps = mpm_script::number(word.as_bytes(), GREATEST_STEP)?;
    Some(u64::from(steps))
}

/// The form that the first word says.
#[tactic(auto, unfolding(crate::specs::Words::form_of))]
fn form_of(word: &str) -> Option<Form>
    ensures { result ≡ form_said word.now }
{
    if word == "program" {
        Some(Form::Program)
    } else if word == "run" {
        Some(Form::Run)
    } else {
        None
    }
}

/// What three words ask, `program FILE STEPS` or `run MACHINE STEPS`, with or without a trace.
#[tactic(auto, using(crate::proofs::CommandLaws::no_form, crate::proofs::CommandLaws::no_name, crate::proofs::CommandLaws::no_steps))]
pub fn asked_by(word: &str, file: &str, steps: &str, trace: bool) -> Option<Asked>
    ensures { MatchOption result (command_with (form_said word.now) file.now (number_of steps.now) trace ≡ None)
        (λ asked. IsAsked (command_with (form_said word.now) file.now (number_of steps.now) trace) file.now asked) }
{
    let Some(form) = form_of(word) else {
        return None;
    };
    if file.is_empty() {
        return None;
    }
    let Some(steps) = steps_of(steps) else {
        return None;
    };
    Some(Asked { form, steps, trace })
}

/// What words ask of the file that the second of them names; None where they have no form of a command.
#[tactic(auto, unfolding(crate::specs::Words::command_of))]
pub(crate) fn read_words(words: &[String]) -> Option<Asked>
    ensures { MatchOption result (command_of (texts words.now) ≡ None) (λ asked. AreAsking (texts words.now) asked) }
{
    match words {
        [word, file, steps] => asked_by(word.as_str(), file.as_str(), steps.as_str(), false),
        [word, file, steps, last] => {
            if last.as_str() == "--trace" {
                asked_by(word.as_str(), file.as_str(), steps.as_str(), true)
            } else {
                None
            }
        }
        _ => None,
    }
}
