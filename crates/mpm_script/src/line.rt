ghost use Rattle.std.specs.Prelude.{◌≡◌, ◌==◌, option_map};
ghost use Rattle.mpm_script.specs.Reading.{AddsEvent};
ghost use Rattle.mpm_script.specs.Keys.{keys_of};
ghost use Rattle.mpm_script.specs.Events as spec;
ghost use Rattle.mpm_script.specs.Scripts as script;

use crate::error::LineRefusal;
use crate::event::{Event, Timed};
use crate::key::key;
use crate::numbers::{hex_byte, number};
use crate::word::{after, before, byte_at};

/// The greatest number of a step, and so of the steps of a run.
pub const GREATEST_STEP: u32 = 4_000_000_000;

/// The most keys of a line.
const MOST_KEYS: usize = 128;

/// The greatest numbers of a console, a device and a flag.
const GREATEST_CONSOLE: u32 = 7;

const GREATEST_DEVICE: u32 = 15;

const GREATEST_FLAG: u32 = 31;

/// The first flag that isn't the system's.
const LEAST_FLAG: u8 = 4;

/// Adds the events of a line.
#[tactic(auto, unfolding(crate::specs::Events::line_of))]
pub fn add_line(events: &mut Vec<Timed>, line: &[u8]) -> Result<(), LineRefusal>
    ensures { AddsEvent events.old.items events.new.items result (spec.line_of (script.last_step events.old.items) line.now) }
{
    if line.is_empty() || byte_at(line, 0) == b'#' {
        return Ok(());
    }
    let step = number(before(line, b' '), GREATEST_STEP).ok_or(LineRefusal::Bad)?;
    if u64::from(step) < last_step(events.as_slice()) {
        return Err(LineRefusal::Bad);
    }
    add_events(events, u64::from(step), after(line, b' '))
}

/// The step of the last event, 0 where there is none.
fn last_step(events: &[Timed]) -> u64
    ensures { result ≡ script.last_step events.now }
{
    match events.last() {
        Some(timed) => timed.step,
        None => 0,
    }
}

/// Adds the events of a text at a step.
#[tactic(auto, unfolding(crate::specs::Events::events_of))]
fn add_events(events: &mut Vec<Timed>, step: u64, text: &[u8]) -> Result<(), LineRefusal>
    ensures { AddsEvent events.old.items events.new.items result (option_map (spec.at_step step) (spec.events_of text.now)) }
{
    if before(text, b' ') == b"key".as_slice() {
        return add_typed(events, step, after(text, b' '));
    }
    let event = event(text).ok_or(LineRefusal::Bad)?;
    events.push(Timed { step, event })?;
    Ok(())
}

/// An event that is no key.
#[tactic(auto, unfolding(crate::specs::Events::event_of))]
fn event(text: &[u8]) -> Option<Event>
    ensures { result ≡ spec.event_of text.now }
{
    if text == b"tick".as_slice() {
        Some(Event::Tick)
    } else if before(text, b' ') == b"ready".as_slice() {
        ready(after(text, b' '))
    } else if before(text, b' ') == b"int".as_slice() {
        flag(after(text, b' '))
    } else {
        None
    }
}

/// A device that becomes ready with a byte.
#[tactic(auto, unfolding(crate::specs::Events::ready_event))]
fn ready(text: &[u8]) -> Option<Event>
    ensures { result ≡ spec.ready_event text.now }
{
    let device = number(before(text, b' '), GREATEST_DEVICE)? as u8;
    let byte = byte(after(text, b' '))?;
    Some(Event::Ready { device, byte })
}

/// The byte of two hexadecimal digits.
fn byte(text: &[u8]) -> Option<u8>
    ensures { result ≡ spec.byte_of text.now }
{
    match text {
        [high, low] => hex_byte(*high, *low),
        _ => None,
    }
}

/// A flag that an interrupt sets.
#[tactic(auto, unfolding(crate::specs::Events::flag_event))]
fn flag(text: &[u8]) -> Option<Event>
    ensures { result ≡ spec.flag_event text.now }
{
    let flag = number(text, GREATEST_FLAG)? as u8;
    if flag < LEAST_FLAG {
        return None;
    }
    Some(Event::Int { flag })
}

/// Adds the keys that are typed at a console.
#[tactic(auto, unfolding(crate::specs::Events::typed_events, crate::specs::Keys::typed_of))]
fn add_typed(events: &mut Vec<Timed>, step: u64, text: &[u8]) -> Result<(), LineRefusal>
    ensures { AddsEvent events.old.items events.new.items result (option_map (spec.at_step step) (spec.typed_events text.now)) }
{
    let console = number(before(text, b' '), GREATEST_CONSOLE).ok_or(LineRefusal::Bad)?;
    let keys = after(text, b' ');
    if keys.is_empty() {
        return Err(LineRefusal::Bad);
    }
    add_keys(events, step, console as u8, keys)
}

/// Adds the keys of a text, at most 128.
fn add_keys(events: &mut Vec<Timed>, step: u64, console: u8, text: &[u8]) -> Result<(), LineRefusal>
    ensures { AddsEvent events.old.items events.new.items result (option_map (spec.keys_at step console) (keys_of 128 text.now)) }
{
    let mut rest = text;
    let mut most = MOST_KEYS;
    while !rest.is_empty() {
        if most == 0 {
            return Err(LineRefusal::Bad);
        }
        let Some((byte, others)) = key(rest) else {
            return Err(LineRefusal::Bad);
        };
        events.push(Timed {
            step,
            event: Event::Key { console, byte },
        })?;
        rest = others;
        most -= 1;
    }
    Ok(())
}
