ghost use Rattle.std.specs.Prelude.{◌≡◌, ℕ, List, option_map};
ghost use Rattle.std.specs.FinMap.{get};
ghost use Rattle.mpm_dirent.specs.Names.{plain};
ghost use Rattle.mpm_mount.specs.Drives.{Drive};
ghost use Rattle.mpm_mount.specs.Directories.{Stands};
ghost use Rattle.mpm_mount.specs.Images.{protection_of};
ghost use Rattle.mpm_mount.specs.Attributes.{attributes_in};
ghost use Rattle.mpm_mount.specs.Looking.{data_byte, file_attributes};
ghost use Rattle.mpm_mount.specs.Attributes as bits;
ghost use Rattle.mpm_mount.specs.Looking as spec;

use crate::directory::Mounted;
use crate::lookups::lowest_entry;
use crate::slots::last_extent;
use mpm_dirent::{Entry, FileEntry, LabelEntry, XfcbEntry};

/// The label in an entry.
fn label_at(entry: &Entry) -> Option<LabelEntry>
    ensures { result ≡ spec.label_at entry.now }
{
    match entry {
        Entry::Label { label } => Some(*label),
        _ => None,
    }
}

/// The label in a drive's directory.
#[tactic(auto, using(crate::proofs::Looked::label_within), unfolding(crate::specs::Looking::label_in))]
fn label_in(mounted: &Mounted) -> Option<LabelEntry>
    ensures { result ≡ spec.label_in mounted.now }
{
    mounted.recall_directory();
    match mounted.label() {
        Some(slot) => label_at(mounted.entry(slot)),
        None => None,
    }
}

/// The label of a drive.
#[tactic(auto, using(crate::proofs::Looked::label_stands))]
pub fn label(mounted: &Mounted) -> Option<LabelEntry>
    ensures { (image : List ℕ) (drive : Drive) → Stands image mounted.now drive → drive.label ≡ option_map spec.label_of result }
{
    label_in(mounted)
}

/// The label's data byte, 0 where there is no label.
#[tactic(auto, using(crate::proofs::Looked::byte_stands))]
pub fn label_byte(mounted: &Mounted) -> u8
    ensures { (image : List ℕ) (drive : Drive) → Stands image mounted.now drive → result ≡ data_byte drive }
{
    match label(mounted) {
        Some(label) => label.mode,
        None => 0,
    }
}

/// The XFCB in an entry.
fn xfcb_at(entry: &Entry) -> Option<XfcbEntry>
    ensures { result ≡ spec.xfcb_at entry.now }
{
    match entry {
        Entry::Xfcb { xfcb } => Some(*xfcb),
        _ => None,
    }
}

/// The XFCB of a user's file in a drive's directory.
#[tactic(auto, using(crate::proofs::Looked::xfcb_within), unfolding(crate::specs::Looking::xfcb_in))]
fn xfcb_in(mounted: &Mounted, user: u8, name: &[u8; 11]) -> Option<XfcbEntry>
    ensures { result ≡ spec.xfcb_in mounted.now (record { user = user; name = plain name.now }) }
{
    mounted.recall_directory();
    match mounted.xfcb(user, name) {
        Some(slot) => xfcb_at(mounted.entry(slot)),
        None => None,
    }
}

/// The XFCB of a user's file.
#[tactic(auto, using(crate::proofs::Looked::xfcb_stands))]
pub fn xfcb(mounted: &Mounted, user: u8, name: &[u8; 11]) -> Option<XfcbEntry>
    ensures entry { result ≡ spec.xfcb_in mounted.now (record { user = user; name = plain name.now }) }
    ensures stands { (image : List ℕ) (drive : Drive) → Stands image mounted.now drive
        → get drive.xfcbs (record { user = user; name = plain name.now }) ≡ option_map protection_of result }
{
    xfcb_in(mounted, user, name)
}

/// The record count of an extent of a file's entry, if it is there.
fn count_in_file(file: &FileEntry, extent: u16) -> Option<u8>
    ensures { result ≡ spec.count_in_file extent file.now }
{
    let last = last_extent(file);
    if extent > last {
        None
    } else if extent == last {
        Some(file.rc)
    } else {
        Some(128)
    }
}

/// The record count of an extent of an entry, if it is there.
fn count_at(entry: &Entry, extent: u16) -> Option<u8>
    ensures { result ≡ spec.count_at extent entry.now }
{
    match entry {
        Entry::File { file } => count_in_file(file, extent),
        _ => None,
    }
}

/// The record count of an extent of a user's file in a drive's directory, if it is there.
#[tactic(auto, using(crate::proofs::Positions::slot_within), unfolding(crate::specs::Looking::count_of))]
fn count_of(mounted: &Mounted, user: u8, name: &[u8; 11], extent: u16) -> Option<u8>
    ensures { result ≡ spec.count_of mounted.now (record { user = user; name = plain name.now }) extent }
{
    mounted.recall_directory();
    match mounted.extent(user, name, extent) {
        Some(slot) => count_at(mounted.entry(slot), extent),
        None => None,
    }
}

/// The record count of an extent of a user's file, if it is there.
#[tactic(auto, using(crate::proofs::Looked::count_stands))]
pub fn extent_count(mounted: &Mounted, user: u8, name: &[u8; 11], extent: u16) -> Option<u8>
    ensures { (image : List ℕ) (drive : Drive) → Stands image mounted.now drive
        → spec.extent_count drive (record { user = user; name = plain name.now }) extent ≡ result }
{
    count_of(mounted, user, name, extent)
}

/// The attributes of a name: bit 7 of its bytes.
#[tactic(auto, using(crate::proofs::Looked::attributes_all))]
pub fn attributes_of(name: &[u8; 11]) -> [bool; 11]
    ensures { result ≡ attributes_in name.now }
{
    let mut attributes = [false; 11];
    for place in 0..11 {
        attributes[place] = name[place] >= 128;
    }
    attributes
}

/// The attributes of an entry of a file.
fn attributes_at(entry: &Entry) -> Option<[bool; 11]>
    ensures { result ≡ bits.attributes_at entry.now }
{
    match entry {
        Entry::File { file } => Some(attributes_of(&file.name)),
        _ => None,
    }
}

/// The attributes of a user's file, if it is there.
#[tactic(auto, unfolding(crate::specs::Looking::file_attributes))]
pub fn attributes(mounted: &Mounted, user: u8, name: &[u8; 11]) -> Option<[bool; 11]>
    ensures { (image : List ℕ) (drive : Drive) → Stands image mounted.now drive
        → file_attributes drive (record { user = user; name = plain name.now }) ≡ result }
{
    mounted.recall_directory();
    match lowest_entry(mounted, user, name) {
        Some(found) => attributes_at(mounted.entry(found.slot)),
        None => None,
    }
}
