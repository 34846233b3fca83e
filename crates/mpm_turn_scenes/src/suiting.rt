//! Whether a job suits a drive, tested as its caller would have to.
ghost use Rattle.std.specs.Prelude.{◌≡◌, ◌≤◌, ◌+◌, ◌==◌, ◌&&◌, not, suc, false, is_some, length, bytes_eq};
ghost use Rattle.std.specs.Bool.{OnTrue};
ghost use Rattle.std.specs.FinMap.{get};
ghost use Rattle.mpm_base.specs.Counts.{one_if};
ghost use Rattle.mpm_blocks.specs.Geometries.{geometry_of};
ghost use Rattle.mpm_dirent.specs.Names.{plain};
ghost use Rattle.mpm_mount.specs.Drives.{free_entries};
ghost use Rattle.mpm_mount.specs.Files.{file_in, has_file, is_part_of};
ghost use Rattle.mpm_mount.specs.Searching.{IsUnambiguous};
ghost use Rattle.mpm_mount.specs.Standing.{OnItsDrive};
ghost use Rattle.mpm_files.specs.Plans.{file_of_job};
ghost use Rattle.mpm_files.specs.Turning.{MayMake, MayRename, SuitsKind, Suits};

use mpm_blocks::geometry;
use mpm_dirent::{Entry, LAST_POSITION, LAST_RECORD, plain_name};
use mpm_files::{Job, JobKind};
use mpm_mount::{Mounted, label, xfcb};

/// Whether a name fits one file alone.
#[tactic(auto, using(crate::proofs::SuitLaws::one_name))]
fn is_unambiguous(name: &[u8; 11]) -> bool
    ensures { OnTrue result (IsUnambiguous name.now) }
{
    !name.iter().any(|byte| byte % 128 == b'?')
}

/// Whether two names are one, whatever their attributes.
fn is_same(a: &[u8; 11], b: &[u8; 11]) -> bool
    ensures { result ≡ bytes_eq (plain a.now) (plain b.now) }
{
    plain_name(a) == plain_name(b)
}

/// Whether an entry is one of a user's file of a name.
fn is_part(entry: &Entry, user: u8, name: &[u8; 11]) -> bool
    ensures { result ≡ is_part_of (file_in user name.now) entry.now }
{
    match entry {
        Entry::File { file } => user == file.user && is_same(name, &file.name),
        _ => false,
    }
}

/// How many slots a directory has.
fn slots(mounted: &Mounted) -> u16
    ensures size { result ≡ length mounted.now.entries }
    ensures last { result ≡ (geometry_of mounted.now.kind).drm + 1 }
{
    geometry(mounted.kind()).drm + 1
}

/// Whether a user has no file of a name.
fn is_missing(mounted: &Mounted, user: u8, name: &[u8; 11]) -> bool
    ensures { OnTrue result (OnItsDrive mounted.now (λ drive. has_file drive (file_in user name.now) ≡ false)) }
{
    for slot in 0..slots(mounted) {
        if is_part(mounted.entry(slot), user, name) {
            return false;
        }
    }
    true
}

/// Whether so many directory entries are free.
#[tactic(auto, using(crate::proofs::SuitLaws::room_there))]
fn has_room(mounted: &Mounted, entries: u16) -> bool
    ensures { OnTrue result (OnItsDrive mounted.now (λ drive. entries ≤ free_entries drive)) }
{
    entries <= mounted.free_entries()
}

/// How many directory entries the XFCB of a user's file is going to take.
fn xfcb_entries(mounted: &Mounted, user: u8, name: &[u8; 11]) -> u16
    ensures entries { OnItsDrive mounted.now (λ drive. result ≡ one_if (not (is_some (get drive.xfcbs (file_in user name.now))))) }
    ensures few { result ≤ 1 }
{
    u16::from(xfcb(mounted, user, name).is_none())
}

/// How many the label is going to take.
fn label_entries(mounted: &Mounted) -> u16
    ensures { OnItsDrive mounted.now (λ drive. result ≡ one_if (not (is_some drive.label))) }
{
    u16::from(label(mounted).is_none())
}

/// How many a file that is made takes.
fn made_entries(mounted: &Mounted, job: &Job) -> u16
    ensures { OnItsDrive mounted.now (λ drive. result ≡ suc (one_if (not (job.now.count == 0) && not (is_some (get drive.xfcbs (file_of_job job.now)))))) }
{
    if job.count == 0 {
        1
    } else {
        1 + xfcb_entries(mounted, job.user, &job.name)
    }
}

/// Whether a file may be made.
fn may_make(mounted: &Mounted, job: &Job) -> bool
    ensures { OnTrue result (OnItsDrive mounted.now (λ drive. MayMake drive job.now)) }
{
    is_missing(mounted, job.user, &job.name) && has_room(mounted, made_entries(mounted, job))
}

/// Whether a file may be renamed.
fn may_rename(mounted: &Mounted, job: &Job) -> bool
    ensures { OnTrue result (OnItsDrive mounted.now (λ drive. MayRename drive job.now)) }
{
    is_unambiguous(&job.name)
        && !is_same(&job.new_name, &job.name)
        && is_missing(mounted, job.user, &job.new_name)
}

/// Whether a job of its kind suits a drive.
fn suits_kind(mounted: &Mounted, job: &Job) -> bool
    ensures { OnTrue result (OnItsDrive mounted.now (λ drive. SuitsKind drive job.now job.now.kind)) }
{
    match job.kind {
        JobKind::Read | JobKind::TestWrite | JobKind::Delete | JobKind::Nothing => true,
        JobKind::Write => job.first.saturating_add(u32::from(job.count)) <= LAST_RECORD + 1,
        JobKind::Make => may_make(mounted, job),
        JobKind::Rename => may_rename(mounted, job),
        JobKind::Attributes => is_unambiguous(&job.name),
        JobKind::Label => has_room(mounted, label_entries(mounted)),
        JobKind::Xfcb => has_room(mounted, xfcb_entries(mounted, job.user, &job.name)),
    }
}

/// Says how many bytes a job has.
fn recall_size(bytes: &[u8; 4096])
    ensures { length bytes.now ≡ 4096 }
{}

/// Whether a drive may be asked for a job.
pub(crate) fn suits(mounted: &Mounted, job: &Job) -> bool
    ensures { OnTrue result (OnItsDrive mounted.now (λ drive. Suits drive job.now)) }
{
    recall_size(&job.bytes);
    job.user < 16 && job.first <= LAST_POSITION && job.count <= 16 && suits_kind(mounted, job)
}
