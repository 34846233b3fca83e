ghost use Rattle.std.specs.Prelude.{◌+◌, ◌*◌, bytes_eq, if◌then◌else◌};
ghost use Rattle.mpm_dirent.specs.Names.{plain};
ghost use Rattle.mpm_mount.specs.Faults.{extent_of};
ghost use Rattle.mpm_mount.specs.Directories.{entry_in};
ghost use Rattle.mpm_file_entries.specs.Sizes as spec;
ghost use Rattle.mpm_file_entries.specs.Limits.{IsSize, IsSizeOf, MaySizeAfter};

use mpm_dirent::{Entry, FileEntry, plain_name};
use mpm_mount::{Found, Mounted};

/// The record after the last of an entry of a file: at most 128 x (32 x 255 + 255) + 255, where each byte is 255.
fn end_of(file: &FileEntry) -> u32
    ensures { IsSize (128 * extent_of file.now + file.now.rc) result }
{
    128 * (32 * u32::from(file.s2) + u32::from(file.ex)) + u32::from(file.rc)
}

/// The record after the last of a directory entry, if it is one of a file.
fn size_at(entry: &Entry) -> u32
    ensures { IsSize (spec.size_at entry.now) result }
{
    match entry {
        Entry::File { file } => end_of(file),
        _ => 0,
    }
}

/// The size of a file after an entry that was found: by that one, where it is the file's.
fn size_after(mounted: &Mounted, sought: &[u8; 11], found: &Found, size: u32) -> u32
    requires { MaySizeAfter mounted.now found.now size }
    ensures { IsSize (if bytes_eq found.now.name sought.now then spec.size_at (entry_in mounted.now found.now.slot) else size) result }
{
    if found.name == *sought {
        size_at(mounted.entry(found.slot))
    } else {
        size
    }
}

/// The size of a user's file, in records: one more than its last. (MP/M II Programmer's Guide, "Function 35: Compute File
/// Size".)
pub fn size(mounted: &Mounted, user: u8, name: &[u8; 11]) -> u32
    ensures { IsSizeOf mounted.now (record { user = user; name = plain name.now }) result }
{
    mounted.recall_directory();
    let sought = plain_name(name);
    let mut size = 0;
    let mut last = None;
    while let Some(found) = mounted.next(user, name, last) {
        size = size_after(mounted, &sought, &found, size);
        last = Some(found);
    }
    size
}
