//! How far a file goes. (MP/M II Programmer's Guide, "File Control Block Definition", "Function 33: Read Random".)

/// The last extent that a file can have: there are 2,048, as EX counts 32 of them and S2 64 times as many.
pub const LAST_EXTENT: u16 = 2_047;

/// The last record that a file can have: there are 262,144, 128 in each extent. Function 33 refuses a number above it by error
/// code 6.
pub const LAST_RECORD: u32 = 262_143;

/// The last position that a file control block can have: record 255 of the last extent, as CR is a byte. A position after the
/// last record is one.
pub const LAST_POSITION: u32 = 262_271;

/// The last record that a call can name: the last of sixteen, which one call moves at most, from the last position on. (MP/M II
/// Programmer's Guide, "Function 44: Set Multi-Sector Count".)
pub const LAST_NAMED: u32 = 262_286;
