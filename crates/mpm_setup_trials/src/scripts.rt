//! Which events a script has. Which texts are scripts, and the line of the first fault in others, is shown by the cases of the built program.
use mpm_script::{Event, Script, Timed, read_script};
use std::alloc::Global;
use std::test::Fail;

/// Whether a script has just these events.
fn has(script: &Script, events: &[Timed]) -> bool {
    if script.len() != events.len() {
        return false;
    }
    for i in 0..script.len() {
        if script.at(i) != events[i] {
            return false;
        }
    }
    true
}

/// Whether a text of a few bytes is a script of just these events.
fn gives(alloc: Global, text: &[u8], events: &[Timed]) -> Result<bool, Fail> {
    if text.len() > 1_000 {
        return Err("a long text")?;
    }
    match read_script(alloc, text) {
        Ok(script) => Ok(has(&script, events)),
        Err(error) => Err(error)?,
    }
}

/// A key at a step.
fn key(step: u64, console: u8, byte: u8) -> Timed {
    Timed {
        step,
        event: Event::Key { console, byte },
    }
}

#[test]
fn each_form_is_an_event(rt: HostRuntime) -> Result<(), Fail> {
    let text = b"# a script\n0 tick\n\n7 key 0 a\\r\r\n7 ready 15 5A\r\n9 int 31";
    let events = [
        Timed {
            step: 0,
            event: Event::Tick,
        },
        key(7, 0, b'a'),
        key(7, 0, b'\r'),
        Timed {
            step: 7,
            event: Event::Ready {
                device: 15,
                byte: 0x5A,
            },
        },
        Timed {
            step: 9,
            event: Event::Int { flag: 31 },
        },
    ];
    assert!(rt; gives(rt.alloc(), text, &events)?);
    Ok(())
}

#[test]
fn keys_stand_as_they_are_or_behind_a_backslash(rt: HostRuntime) -> Result<(), Fail> {
    let text = b"3 key 7  ~#\\r\\n\\t\\\\\\x00\\xFf\\x41 x";
    let events = [
        key(3, 7, b' '),
        key(3, 7, b'~'),
        key(3, 7, b'#'),
        key(3, 7, b'\r'),
        key(3, 7, b'\n'),
        key(3, 7, b'\t'),
        key(3, 7, b'\\'),
        key(3, 7, 0),
        key(3, 7, 0xFF),
        key(3, 7, b'A'),
        key(3, 7, b' '),
        key(3, 7, b'x'),
    ];
    assert!(rt; gives(rt.alloc(), text, &events)?);
    Ok(())
}

#[test]
fn an_empty_script_has_no_events(rt: HostRuntime) -> Result<(), Fail> {
    assert_eq!(rt; Script::empty(rt.alloc()).len(), 0);
    assert!(rt; gives(rt.alloc(), b"", &[])?);
    Ok(())
}
