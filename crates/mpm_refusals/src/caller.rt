use mpm_base::{Call, Pid};
use mpm_file_functions::FileFunction;

/// Who makes a file call, with what such a call takes of its process.
#[derive(Clone, Copy, Debug, PartialEq, Eq)]
pub struct Caller {
    /// The process.
    pub process: Pid,
    /// Its user, 0 to 15.
    pub user: u8,
    /// Its current drive, from 0.
    pub drive: u8,
    /// Its multi-sector count, 1 to 16.
    pub multi: u8,
    /// Its default password.
    pub password: [u8; 8],
}

/// A call on files or drives as it enters service.
#[derive(Clone, Copy)]
pub struct FileCall<'a> {
    /// Who calls.
    pub caller: Caller,
    /// What is called.
    pub function: FileFunction,
    /// What is taken of the caller's registers and memory.
    pub call: &'a Call,
    /// The stamp of the moment when it enters.
    pub moment: [u8; 4],
}
