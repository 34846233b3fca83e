ghost use Rattle.std.specs.Prelude.{◌≡◌, ◌≤◌, ℕ, List};
ghost use Rattle.mpm_dirent.specs.Names.{plain};
ghost use Rattle.mpm_dirent.specs.declared.limits.TheConstants.{LAST_NAMED};
ghost use Rattle.mpm_blocks.specs.Geometries as geometries;
ghost use Rattle.mpm_mount.specs.Drives as drives;
ghost use Rattle.mpm_mount.specs.Drives.{Drive};
ghost use Rattle.mpm_mount.specs.Directories.{Stands};
ghost use Rattle.mpm_mount.specs.Records as spec;

use crate::directory::Mounted;
use crate::slots::last_extent;
use mpm_base::Kind;
use mpm_blocks::geometry;
use mpm_dirent::{Entry, FileEntry};
use mpm_file_functions::RecordError;

/// How many records a block has.
pub fn block_records(kind: Kind) -> u32
    ensures { result ≡ geometries.block_records kind }
{
    u32::from(geometry(kind).block) / 128
}

/// The place of a record's block among those of its directory entry.
pub fn block_place(kind: Kind, n: u32) -> usize
    ensures place { result ≡ drives.block_place kind n }
    ensures few { result ≤ 15 }
{
    let places = if geometry(kind).wide { 8 } else { 16 };
    (n / block_records(kind) % places) as usize
}

/// The record count of an extent of a directory entry, which isn't above its last.
fn count_there(file: &FileEntry, extent: u32) -> u32
    ensures { result ≡ spec.count_there file.now extent }
{
    if extent == u32::from(last_extent(file)) {
        u32::from(file.rc)
    } else {
        128
    }
}

/// What keeps a record of a directory entry from being read.
fn file_error(kind: Kind, file: &FileEntry, n: u32) -> Option<RecordError>
    ensures { result ≡ spec.file_error kind n file.now }
{
    if u32::from(last_extent(file)) < n / 128 {
        Some(RecordError::UnwrittenExtent)
    } else if count_there(file, n / 128) <= n % 128 || file.blocks[block_place(kind, n)] == 0 {
        Some(RecordError::UnwrittenData)
    } else {
        None
    }
}

/// What keeps a record from being read, by its directory entry.
fn entry_error(kind: Kind, entry: &Entry, n: u32) -> Option<RecordError>
    ensures { result ≡ spec.error_in kind n entry.now }
{
    match entry {
        Entry::File { file } => file_error(kind, file, n),
        _ => Some(RecordError::UnwrittenExtent),
    }
}

/// What keeps a record of a user's file from being read, by the directory.
#[tactic(auto, using(crate::proofs::Positions::slot_within))]
pub fn record_error(mounted: &Mounted, user: u8, name: &[u8; 11], n: u32) -> Option<RecordError>
    requires { n ≤ LAST_NAMED }
    ensures { result ≡ spec.record_error mounted.now (record { user = user; name = plain name.now }) n }
{
    let kind = mounted.kind();
    match mounted.extent(user, name, (n / 128) as u16) {
        Some(slot) => entry_error(kind, mounted.entry(slot), n),
        None => Some(RecordError::UnwrittenExtent),
    }
}

/// What keeps a record of a user's file from being read, if anything does. (MP/M II Programmer's Guide, "Function 33: Read
/// Random".)
#[tactic(auto, using(crate::proofs::ReadErrors::read_error_same))]
pub fn read_error(mounted: &Mounted, user: u8, name: &[u8; 11], n: u32) -> Option<RecordError>
    requires { n ≤ LAST_NAMED }
    ensures { (image : List ℕ) (drive : Drive) → Stands image mounted.now drive
        → result ≡ spec.read_error drive (record { user = user; name = plain name.now }) n }
{
    record_error(mounted, user, name, n)
}
