ghost use Rattle.std.specs.Prelude.{◌≡◌, ◌≤◌, true, IfSome, unwrap_or};
ghost use Rattle.std.specs.FinMap.{get};
ghost use Rattle.mpm_dirent.specs.declared.limits.TheConstants.{LAST_POSITION};
ghost use Rattle.mpm_mount.specs.Drives.{extents_of};
ghost use Rattle.mpm_mount.specs.Standing.{OnItsDrive};
ghost use Rattle.mpm_fcb.specs.Positions.{with_random};
ghost use Rattle.mpm_file_entries.specs.Protections.{no_protection};
ghost use Rattle.mpm_file_functions.specs.Ends as records;
ghost use Rattle.mpm_file_entries.specs.Granting as spec;
ghost use Rattle.mpm_file_entries.specs.Protections as protections;
ghost use Rattle.mpm_file_entries.specs.Sizes as sizes;
ghost use Rattle.mpm_file_entries.specs.Telling as telling;
ghost use Rattle.mpm_file_entries.specs.Limits.{IsMultiCount};

use crate::sizes::size;
use crate::telling::{open_block, position_block, xfcb_block};
use mpm_dirent::LAST_POSITION;
use mpm_fcb::ControlBlock;
use mpm_file_functions::{Ended, FileFunction, coded, does_stay};
use mpm_mount::{Mounted, label_byte};
use mpm_opens::Mode;

/// How a call opened a file, or made it.
#[derive(Clone, Copy, Debug, PartialEq, Eq)]
pub struct OpenedAs {
    /// The mode in which it is open.
    pub mode: Mode,
    /// Its number among the files that are open, 0 to 63.
    pub number: u8,
}

/// A call that isn't refused, after its turns: what its reply goes by, besides what its drive then has.
#[derive(Clone, Copy)]
pub struct Granted {
    /// The call's function.
    pub function: FileFunction,
    /// The file control block that it gave.
    pub block: ControlBlock,
    /// The user whose file it is about; the file's name is the block's.
    pub owner: u8,
    /// The first of its records.
    pub first: u32,
    /// How many of them are done, and what ended them.
    pub ended: Ended,
    /// The file that it opened or made.
    pub opened: Option<OpenedAs>,
}

/// How many of a call's records are done, fewer than all where something ended them, and the code of that.
#[tactic(auto, using(crate::proofs::CodedLaws::told_whole))]
fn told_code(function: FileFunction, ended: &Ended, multi: u8) -> u16
    requires { IsMultiCount multi }
    ensures { spec.FewDone multi ended.now → result ≡ records.coded function ended.now.moved ended.now.end }
{
    coded(function, ended.moved.min(multi - 1), ended.end)
}

/// The value of its reply, by the caller's multi-sector count.
#[tactic(auto, unfolding(crate::specs::Granting::value_by))]
pub fn reply_value(granted: &Granted, multi: u8, mounted: &Mounted) -> u16
    requires { IsMultiCount multi }
    ensures { OnItsDrive mounted.now (λ drive. spec.FewDone multi granted.now.ended → result ≡ spec.value_by drive granted.now granted.now.function) }
{
    match granted.function {
        FileFunction::ReadSequential
        | FileFunction::WriteSequential
        | FileFunction::ReadRandom
        | FileFunction::WriteRandom
        | FileFunction::TestAndWrite
        | FileFunction::LockRecord => told_code(granted.function, &granted.ended, multi),
        FileFunction::LabelData => u16::from(label_byte(mounted)),
        _ => 0,
    }
}

/// The block of a file that was opened or made.
fn opened_block(granted: &Granted, mounted: &Mounted) -> ControlBlock
    requires { IfSome granted.now.opened (λ made. made.number ≤ 63) }
    ensures { OnItsDrive mounted.now (λ drive. result ≡ spec.opened_block drive granted.now granted.now.opened) }
{
    match granted.opened {
        Some(opened) => block_as(granted, mounted, opened),
        None => granted.block,
    }
}

/// The block of one that was opened or made so.
fn block_as(granted: &Granted, mounted: &Mounted, made: OpenedAs) -> ControlBlock
    requires { made.number ≤ 63 }
    ensures { OnItsDrive mounted.now (λ drive. result ≡ telling.opened_by drive granted.now.owner granted.now.block made.mode made.number) }
{
    let mut block = granted.block;
    open_block(&mut block, mounted, granted.owner, made.mode, made.number);
    block
}

/// The block after a call on records, which stays or moves on.
fn moved_block(granted: &Granted, mounted: &Mounted) -> ControlBlock
    ensures { OnItsDrive mounted.now (λ drive. spec.IsPlaced granted.now → result ≡ spec.moved_block drive granted.now) }
{
    if does_stay(granted.ended.moved, granted.ended.end) {
        granted.block
    } else {
        placed_block(granted, mounted)
    }
}

/// The block that moves on.
fn placed_block(granted: &Granted, mounted: &Mounted) -> ControlBlock
    ensures { OnItsDrive mounted.now (λ drive. spec.position_of granted.now ≤ LAST_POSITION → result ≡ telling.moved_to drive granted.now.owner granted.now.block (spec.position_of granted.now)) }
{
    let mut block = granted.block;
    position_block(&mut block, mounted, granted.owner, position_of(granted));
    block
}

/// The position after a call on records from one on, of which so many were moved.
fn position_behind(function: FileFunction, first: u32, moved: u8) -> u32
    requires { first ≤ 16777216 }
    ensures { result ≡ spec.position_by function first moved }
{
    match function {
        FileFunction::ReadSequential | FileFunction::WriteSequential => first + u32::from(moved),
        _ => first,
    }
}

/// The position after a call on records, at most 262,271.
fn position_of(granted: &Granted) -> u32
    ensures low { result ≤ LAST_POSITION }
    ensures position { spec.position_of granted.now ≤ LAST_POSITION → result ≡ spec.position_of granted.now }
{
    let first = granted.first.min(LAST_POSITION);
    position_behind(granted.function, first, granted.ended.moved).min(LAST_POSITION)
}

/// The file control block of its reply.
#[tactic(auto, unfolding(crate::specs::Granting::block_by))]
pub fn reply_block(granted: &Granted, mounted: &Mounted) -> ControlBlock
    requires number { IfSome granted.now.opened (λ made. made.number ≤ 63) }
    ensures { OnItsDrive mounted.now (λ drive. (spec.is_moving granted.now.function ≡ true → spec.IsPlaced granted.now) → result ≡ spec.block_by drive granted.now granted.now.function) }
{
    match granted.function {
        FileFunction::OpenFile | FileFunction::MakeFile => opened_block(granted, mounted),
        FileFunction::ReadSequential
        | FileFunction::WriteSequential
        | FileFunction::ReadRandom
        | FileFunction::WriteRandom
        | FileFunction::TestAndWrite => moved_block(granted, mounted),
        FileFunction::FileSize => sized_block(granted, mounted),
        FileFunction::ReadXfcb => guarded_block(granted, mounted),
        _ => granted.block,
    }
}

/// The block that tells a file's size.
fn sized_block(granted: &Granted, mounted: &Mounted) -> ControlBlock
    ensures { OnItsDrive mounted.now (λ drive. result ≡ with_random granted.now.block (sizes.size_of (extents_of drive (spec.file_in granted.now)))) }
{
    let mut block = granted.block;
    block.set_random(size(mounted, granted.owner, &granted.block.name));
    block
}

/// The block that tells of a file's XFCB.
fn guarded_block(granted: &Granted, mounted: &Mounted) -> ControlBlock
    ensures { OnItsDrive mounted.now (λ drive. result ≡ protections.told_xfcb (unwrap_or (get drive.xfcbs (spec.file_in granted.now)) no_protection) granted.now.block) }
{
    let mut block = granted.block;
    xfcb_block(&mut block, mounted, granted.owner);
    block
}
