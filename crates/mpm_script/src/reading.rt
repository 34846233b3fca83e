ghost use Rattle.std.specs.Prelude.{◌≡◌, ◌<◌, IfOk, IfErr, Ok, Err, length, MatchResult};
ghost use Rattle.mpm_script.specs.Reading.{FaultsScript};
ghost use Rattle.mpm_script.specs.Scripts as spec;

use crate::error::{LineRefusal, ScriptError};
use crate::event::Timed;
use crate::line::add_line;
use crate::script::Script;
use crate::word::{after, place_of};
use std::alloc::Global;

/// Reads a script, a text of fewer than 4,294,967,295 bytes, so that its lines can be counted. It is a fault exactly where a line is none of a script.
///
/// A line ends with LF, before which one CR is dropped; the last line may end with the text, and keeps its CR then. A
/// line that is empty or begins with `#` says nothing. The others have one of these forms, with one space between the
/// parts:
///
/// - `STEP tick`: the clock ticks.
/// - `STEP key C TEXT`: 1 to 128 keys are typed at console C, 0 to 7. Each is a byte 20h to 7Eh but `\`, or `\r`, `\n`,
///   `\t`, `\\`, or `\xHH`, and an event of its own.
/// - `STEP ready D HH`: device D, 0 to 15, becomes ready with the byte HH.
/// - `STEP int F`: an interrupt sets flag F, 4 to 31.
///
/// STEP is 0 to 4,000,000,000, and no less than in the lines before. Numbers are decimal digits without a needless zero,
/// HH is two hexadecimal digits of either case.
pub fn read_script(alloc: Global, text: &[u8]) -> Result<Script, ScriptError>
    requires { length text.now < 4294967295 }
    ensures ok { IfOk result (λ script. spec.script_of text.now ≡ Ok script) }
    ensures fault { IfErr result (λ error. FaultsScript error (spec.script_of text.now)) }
{
    let events = events(alloc, text)?;
    Ok(Script::of(events))
}

/// The events of a text.
#[tactic(auto, unfolding(crate::specs::Scripts::script_of))]
fn events(alloc: Global, text: &[u8]) -> Result<Vec<Timed>, ScriptError>
    requires { length text.now < 4294967295 }
    ensures { MatchResult result (λ events. spec.script_of text.now ≡ Ok events.items) (λ error. FaultsScript error (spec.script_of text.now)) }
{
    let mut events = Vec::new(alloc);
    let mut rest = text;
    let mut line = 1;
    while !rest.is_empty() {
        match add_line(&mut events, first_line(rest)) {
            Ok(()) => {}
            Err(LineRefusal::Bad) => return Err(ScriptError::Fault { line }),
            Err(LineRefusal::OutOfMemory) => return Err(ScriptError::OutOfMemory),
        }
        rest = after(rest, b'\n');
        line += 1;
    }
    Ok(events)
}

/// The first line of a text, without its LF and one CR before that.
fn first_line(text: &[u8]) -> &[u8]
    ensures { result.now ≡ spec.first_line text.now }
{
    let end = place_of(text, b'\n');
    if end < text.len() && 0 < end && text[end - 1] == b'\r' {
        &text[..end - 1]
    } else {
        &text[..end]
    }
}
