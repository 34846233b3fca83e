use mpm_base::Seg;
use mpm_procs::NewProcess;

/// What the interpreter does in its step. The bytes to place, and those that mark the code to move, are those of the call that
/// it filled in.
#[derive(Clone, Copy)]
pub enum Act {
    /// It makes the call that it filled in.
    Ask,
    /// So many bytes come into a segment, from an address on.
    PlaceBytes {
        seg: Seg,
        address: u16,
        length: u16,
    },
    /// So many bytes of code in a segment, from an address on, are moved to a page.
    MoveCode {
        seg: Seg,
        address: u16,
        length: u16,
        page: u8,
    },
    /// A process begins in a segment.
    BeginProcess {
        seg: Seg,
        new: NewProcess,
    },
    /// It gives a console back, if it owns it.
    GiveConsole {
        console: u8,
    },
}
