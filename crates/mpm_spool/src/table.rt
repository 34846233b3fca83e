/// What the spooler does next.
#[derive(Clone, Copy, Debug, PartialEq, Eq)]
pub(crate) enum Row {
    /// It reads a message from its queue.
    ReadList,
    /// It opens the next file.
    Open,
    /// It attaches its printer.
    Attach,
    /// It looks whether it is to stop.
    AskStop,
    /// It reads the next record.
    Read,
    /// It prints the next byte.
    Print,
    /// It detaches its printer.
    Detach,
    /// It closes the file.
    Close,
    /// It deletes the file.
    Delete,
}
