ghost use Rattle.std.specs.Prelude.{◌≡◌, ◌<◌, ℕ, List, option_map, option_and_then, IfSome};
ghost use Rattle.mpm_dirent.specs.Names.{plain};
ghost use Rattle.mpm_mount.specs.Standing.{OnItsDrive};
ghost use Rattle.mpm_opens.specs.Items.{file_named};
ghost use Rattle.mpm_refusals.specs.Searches.{searched};
ghost use Rattle.mpm_refusals.specs.Asking.{opened_as, key_of_item};
ghost use Rattle.mpm_refusals.specs.Subjects as spec;
ghost use Rattle.mpm_refusals.specs.Lookups.{FindsItem, IsFirstRecord};

use crate::searches::LastSearch;
use crate::sharing::is_shared;
use mpm_base::Pid;
use mpm_dirent::plain_name;
use mpm_fcb::{ControlBlock, item_numbered};
use mpm_file_functions::FileFunction;
use mpm_mount::Mounted;
use mpm_opens::{FileKey, Mode, Opens};

/// An open file that a call names: its number, its file and its mode.
#[derive(Clone, Copy, Debug, PartialEq, Eq)]
pub struct OpenItem {
    /// 0 to 63.
    pub number: u8,
    /// Its drive, user and name.
    pub file: FileKey,
    /// The mode in which it is open.
    pub mode: Mode,
}

/// The drive of a search, if there is one.
fn drive_of(search: Option<LastSearch>) -> Option<u8>
    ensures { result ≡ option_map (λ search. search.drive) (searched search) }
{
    match search {
        Some(search) => Some(search.drive),
        None => None,
    }
}

/// The drive that a call names, from 0, if it names one: by the process's last search, its own drive and the word in DE.
#[tactic(auto, unfolding(crate::specs::Subjects::drive_by))]
pub(crate) fn drive_named(
    search: Option<LastSearch>,
    own: u8,
    word: u16,
    block: &ControlBlock,
    function: FileFunction,
) -> Option<u8>
    ensures { result ≡ spec.drive_by (searched search) own word block.now function }
{
    match function {
        FileFunction::SearchNext => drive_of(search),
        FileFunction::FreeSpace | FileFunction::LabelData => Some((word % 256) as u8),
        FileFunction::ResetDisks
        | FileFunction::ProtectDisk
        | FileFunction::ResetDrives
        | FileFunction::AccessDrives
        | FileFunction::FreeDrives
        | FileFunction::FlushBuffers => None,
        _ => Some(block.drive_number(own)),
    }
}

/// The number of the open file that a call names: by the word at the DMA address, or by the block's handle.
#[tactic(auto, unfolding(crate::specs::Subjects::number_by))]
pub fn item_number(word: u16, block: &ControlBlock, function: FileFunction) -> Option<u8>
    ensures { result ≡ spec.number_by word block.now function }
{
    match function {
        FileFunction::LockRecord | FileFunction::UnlockRecord => item_numbered(word),
        _ => block.item(),
    }
}

/// The open file that a process names by a number, on a drive and by a name, if it has that open.
#[tactic(auto, using(mpm_dirent::proofs::PlainNames::plain_twice))]
pub(crate) fn open_item(
    opens: &Opens,
    p: Pid,
    number: Option<u8>,
    drive: u8,
    name: &[u8; 11],
) -> Option<OpenItem>
    ensures { FindsItem opens.now p (option_and_then (λ n. option_map (opened_as opens.now n) (file_named opens.now.items p n drive (plain name.now))) number) result }
{
    match number {
        Some(number) => named_item(opens, p, number, drive, &plain_name(name)),
        None => None,
    }
}

/// The open file of a number, if that is the process's, on a drive and of a name.
fn named_item(opens: &Opens, p: Pid, number: u8, drive: u8, name: &[u8; 11]) -> Option<OpenItem>
    requires { plain name.now ≡ name.now }
    ensures { FindsItem opens.now p (option_map (opened_as opens.now number) (file_named opens.now.items p number drive name.now)) result }
{
    match opens.named(p, number, drive, name) {
        Some(file) => Some(OpenItem {
            number,
            file,
            mode: opens.mode(number),
        }),
        None => None,
    }
}

/// The user of an open file; the caller where there is none.
fn user_of(item: Option<OpenItem>, user: u8) -> u8
    ensures user { (name : List ℕ) → result ≡ (spec.open_file (record { user = user; name = name }) (option_map key_of_item item)).user }
    ensures low { user < 16 → IfSome item (λ item. item.file.user < 16) → result < 16 }
{
    match item {
        Some(item) => item.file.user,
        None => user,
    }
}

/// The user whose file is opened: the caller, or user 0 where it is shared.
#[tactic(auto, unfolding(crate::specs::Subjects::opened_in))]
fn user_opened(mounted: &Mounted, user: u8, name: &[u8; 11]) -> u8
    ensures user { OnItsDrive mounted.now (λ drive. result ≡ (spec.opened_in drive (record { user = user; name = plain name.now })).user) }
    ensures low { user < 16 → result < 16 }
{
    if is_shared(mounted, user, name) {
        0
    } else {
        user
    }
}

/// The user whose file a call is about; its name is always the block's.
#[tactic(auto, unfolding(crate::specs::Subjects::subject_by))]
pub(crate) fn owner(
    mounted: &Mounted,
    user: u8,
    name: &[u8; 11],
    item: Option<OpenItem>,
    function: FileFunction,
) -> u8
    ensures user { OnItsDrive mounted.now (λ drive. result ≡ (spec.subject_by drive (record { user = user; name = plain name.now }) (option_map key_of_item item) function).user) }
    ensures low { user < 16 → IfSome item (λ item. item.file.user < 16) → result < 16 }
{
    match function {
        FileFunction::OpenFile => user_opened(mounted, user, name),
        FileFunction::CloseFile
        | FileFunction::ReadSequential
        | FileFunction::WriteSequential
        | FileFunction::ReadRandom
        | FileFunction::WriteRandom
        | FileFunction::TestAndWrite
        | FileFunction::LockRecord
        | FileFunction::UnlockRecord => user_of(item, user),
        _ => user,
    }
}

/// The first of the records that a call names, below 2^24.
pub fn first_record(block: &ControlBlock, function: FileFunction) -> u32
    ensures { IsFirstRecord block.now function result }
{
    match function {
        FileFunction::ReadSequential | FileFunction::WriteSequential => block.sequential_record(),
        _ => block.random_record(),
    }
}
