ghost use Rattle.std.specs.Prelude.{◌≡◌, ◌<◌, ◌≤◌, ◌/◌, ◌%◌, Some, replicate, unwrap_or};
ghost use Rattle.mpm_mount.specs.Faults.{extent_of};
ghost use Rattle.mpm_mount.specs.Drives.{extents_of, entry_number, free_records};
ghost use Rattle.mpm_mount.specs.Standing.{OnItsDrive};
ghost use Rattle.mpm_fcb.specs.Positions.{three_bytes};
ghost use Rattle.std.specs.FinMap.{get};
ghost use Rattle.mpm_dirent.specs.Names.{plain};
ghost use Rattle.mpm_dirent.specs.declared.limits.TheConstants.{LAST_EXTENT, LAST_POSITION};
ghost use Rattle.mpm_mount.specs.Attributes.{attributes_of as attributes_there};
ghost use Rattle.mpm_mount.specs.Files.{where_there};
ghost use Rattle.mpm_file_entries.specs.Protections.{no_protection};
ghost use Rattle.mpm_file_entries.specs.Protections as protections;
ghost use Rattle.mpm_file_entries.specs.Telling as spec;
ghost use Rattle.mpm_file_entries.specs.Limits.{MayTellFile};

use crate::keeping::xfcb_there;
use mpm_dirent::{Entry, FileEntry, LAST_EXTENT, plain_name, write_entry};
use mpm_fcb::{ControlBlock, three_bytes, with_attributes};
use mpm_mount::{Mounted, attributes, attributes_of, extent_count, last_extent};
use mpm_opens::Mode;

/// A directory entry as a search tells it, by its last extent, at most 2,047, and that one's record count.
fn told_entry(user: u8, name: &[u8; 11], last: u16, count: u8) -> FileEntry
    requires { last ≤ LAST_EXTENT }
    ensures { result ≡ record { user = user; name = name.now; ex = last % 32; s1 = 0; s2 = last / 32; rc = count; blocks = replicate 16 0 } }
{
    FileEntry {
        user,
        name: *name,
        ex: (last % 32) as u8,
        s1: 0,
        s2: (last / 32) as u8,
        rc: count,
        blocks: [0; 16],
    }
}

/// The 128 bytes that a search tells of a directory entry: that one, and three free ones. (MP/M II Programmer's Guide, "Function
/// 17: Search for First".)
#[tactic(auto, unfolding(crate::specs::Telling::told_bytes))]
fn told_bytes(user: u8, name: &[u8; 11], last: u16, count: u8) -> [u8; 128]
    requires { MayTellFile user last }
    ensures { result ≡ spec.told_bytes user name.now last count }
{
    let mut bytes = [0xE5; 128];
    let file = told_entry(user, name, last, count);
    let entry = write_entry(&Entry::File { file }, false);
    bytes[..32].copy_from_slice(&entry);
    bytes
}

/// An entry of a file, as a search tells it.
fn told_file(file: &FileEntry) -> [u8; 128]
    requires { MayTellFile file.now.user (extent_of file.now) }
    ensures { result ≡ spec.told_file file.now }
{
    let name = with_attributes(&plain_name(&file.name), &attributes_of(&file.name));
    told_bytes(file.user, &name, last_extent(file), file.rc)
}

/// A directory entry, as a search tells it, if it is one of a file.
fn told_at(entry: &Entry) -> Option<[u8; 128]>
    requires { spec.CanTell entry.now }
    ensures { result ≡ spec.told_at entry.now }
{
    match entry {
        Entry::File { file } => Some(told_file(file)),
        _ => None,
    }
}

/// The entry that covers an extent of a user's file, as a search tells it, in a drive's directory.
#[tactic(auto, using(mpm_mount::proofs::Positions::slot_within, crate::proofs::Told::can_tell), unfolding(crate::specs::Telling::told_in))]
fn told_in(mounted: &Mounted, user: u8, name: &[u8; 11], extent: u16) -> Option<[u8; 128]>
    ensures { result ≡ spec.told_in mounted.now (record { user = user; name = plain name.now }) extent }
{
    mounted.recall_directory();
    match mounted.extent(user, name, extent) {
        Some(slot) => told_at(mounted.entry(slot)),
        None => None,
    }
}

/// The entry that covers an extent of a user's file, as a search tells it, if it is there.
pub fn found_bytes(mounted: &Mounted, user: u8, name: &[u8; 11], extent: u16) -> Option<[u8; 128]>
    ensures { OnItsDrive mounted.now (λ drive. where_there result (λ bytes. bytes) ≡ spec.found_bytes drive (Some (record { user = user; name = plain name.now }, entry_number mounted.now.kind extent))) }
{
    told_in(mounted, user, name, extent)
}

/// The record count of an extent of a user's file, 0 where it isn't there.
#[tactic(auto, using(crate::proofs::Told::counted))]
pub fn record_count(mounted: &Mounted, user: u8, name: &[u8; 11], extent: u16) -> u8
    ensures { OnItsDrive mounted.now (λ drive. result ≡ spec.record_count drive (record { user = user; name = plain name.now }) extent) }
{
    extent_count(mounted, user, name, extent).unwrap_or(0)
}

/// The attributes of a user's file, none where it isn't there.
#[tactic(auto, using(crate::proofs::Told::attributes_same))]
fn attributes_or_none(mounted: &Mounted, user: u8, name: &[u8; 11]) -> [bool; 11]
    ensures { OnItsDrive mounted.now (λ drive. result ≡ attributes_there (extents_of drive (record { user = user; name = plain name.now }))) }
{
    match attributes(mounted, user, name) {
        Some(attributes) => attributes,
        None => [false; 11],
    }
}

/// Puts into a block what an opening or a making of a file of the user `owner` answers.
pub fn open_block(block: &mut ControlBlock, mounted: &Mounted, owner: u8, mode: Mode, item: u8)
    requires { item < 64 }
    ensures { OnItsDrive mounted.now (λ drive. block.new ≡ spec.opened_by drive owner block.old mode item) }
{
    let attributes = attributes_or_none(mounted, owner, &block.name);
    let records = record_count(mounted, owner, &block.name, u16::from(block.ex % 32));
    block.open(&attributes, records, mode, item);
}

/// Puts into a block a position, at most 262,271, in a file of the user `owner`.
pub fn position_block(block: &mut ControlBlock, mounted: &Mounted, owner: u8, position: u32)
    requires { position ≤ LAST_POSITION }
    ensures { OnItsDrive mounted.now (λ drive. block.new ≡ spec.moved_to drive owner block.old position) }
{
    let extent = (position / 128).min(u32::from(LAST_EXTENT)) as u16;
    let records = record_count(mounted, owner, &block.name, extent);
    block.set_position(position, records);
}

/// Puts into a block the mode and the stamps of the XFCB of a user's file. (MP/M II Programmer's Guide, "Function 102: Read File
/// XFCB".)
pub fn xfcb_block(block: &mut ControlBlock, mounted: &Mounted, user: u8)
    ensures { OnItsDrive mounted.now (λ drive. block.new ≡ protections.told_xfcb (unwrap_or (get drive.xfcbs (record { user = user; name = plain block.old.name })) no_protection) block.old) }
{
    let xfcb = xfcb_there(mounted, user, &block.name);
    xfcb.tell(block);
}

/// How many records there is room for on a drive, in three bytes. (MP/M II Programmer's Guide, "Function 46: Get Disk Free
/// Space".)
#[tactic(auto, using(mpm_mount::proofs::FreeRecords::free_records_same))]
pub fn free_bytes(mounted: &Mounted) -> [u8; 3]
    ensures { OnItsDrive mounted.now (λ drive. result ≡ three_bytes (free_records drive)) }
{
    three_bytes(mounted.free_records())
}
