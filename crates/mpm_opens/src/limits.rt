/// How many open files there are room for in all.
pub(crate) const ITEMS: usize = 64;

/// How many files a process has open at most.
pub(crate) const ITEMS_OF_PROCESS: usize = 16;

/// How often a process opens a file at most, before it closes it.
pub(crate) const OPENINGS: u8 = 255;

/// How many record locks there are room for in all.
pub(crate) const LOCKS: usize = 128;

/// How many record locks a process has at most.
pub(crate) const LOCKS_OF_PROCESS: usize = 32;
