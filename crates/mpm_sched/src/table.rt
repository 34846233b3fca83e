/// What the scheduler does next.
#[derive(Clone, Copy, Debug, PartialEq, Eq)]
pub(crate) enum Row {
    /// It reads a message from its queue, if one is there.
    Receive,
    /// It asks for the date and the time.
    AskTime,
    /// It sends the command that is due.
    Send,
    /// It waits for a tick of the clock.
    Wait,
}
