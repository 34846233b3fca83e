ghost use Rattle.std.specs.Prelude.{◌≡◌};
ghost use Rattle.mpm_consoles.specs.Keys.{control_of as meaning_of};

use mpm_base::Pid;

/// What a control character does on a console that isn't raw.
#[derive(Clone, Copy)]
pub enum Control {
    /// ^S stops the output of the owner.
    Stop,
    /// ^Q lets it go on.
    Resume,
    /// ^C aborts the owner.
    Abort,
    /// ^D passes the console to the process that waits for it first.
    Detach,
}

/// What became of a key.
#[derive(Clone, Copy, Debug, PartialEq, Eq)]
pub enum KeyDone {
    /// It is stored after the others.
    Stored,
    /// It is lost, as 64 are stored.
    Dropped,
    /// The owner `p`, which waited at its gate, waits there no more: it is to become ready. A key that was typed is stored,
    /// or lost where 64 are stored.
    Wakes { p: Pid },
    /// The owner `p` is to be aborted; nothing changed.
    Aborts { p: Pid },
    /// The console passed from its owner `from` to the process `to` that waited for it first, or to nobody. Where `from`
    /// waited at its gate, it does no more: it is to become ready.
    Passes { from: Pid, to: Option<Pid> },
    /// It was a control character that wakes, aborts and passes nothing.
    Nothing,
}

/// What a key does as a control character; None for a key like others.
#[tactic(auto, unfolding(crate::specs::Keys::control_of))]
pub fn control_of(raw: bool, byte: u8) -> Option<Control>
    ensures { result ≡ meaning_of raw byte }
{
    if raw {
        return None;
    }
    match byte {
        0x13 => Some(Control::Stop),
        0x11 => Some(Control::Resume),
        0x03 => Some(Control::Abort),
        0x04 => Some(Control::Detach),
        _ => None,
    }
}
