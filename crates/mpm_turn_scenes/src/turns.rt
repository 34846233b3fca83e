//! Jobs by their turns on drive 0 in memory, where a call of the drive fails, and what is then seen of the disk.
ghost use Rattle.std.specs.Prelude.{◌≡◌, ◌<◌, Some, IsSome, IfOk, is_some};
ghost use Rattle.std.specs.Bool.{OnTrue};
ghost use Rattle.mpm_port.specs.Disks.{size_of};
ghost use Rattle.mpm_port.specs.MemoryDisks.{disks_of};
ghost use Rattle.mpm_blocks.specs.Geometries.{geometry_of};
ghost use Rattle.mpm_files.specs.Serving.{turns_in};
ghost use Rattle.mpm_files.specs.Standing.{SameDisk};
ghost use Rattle.mpm_turn_scenes.specs.Standing.{IsDiskOfFiles, IsInTurns};

use crate::disks::{attached, entries, has_size, one_byte, record, restore};
use crate::scene::{FREE, Scene, Seen, call_count, seen_after, slot_of};
use crate::suiting::suits;
use mpm_base::{Kind, Steps};
use mpm_blocks::geometry;
use mpm_cache::Cache;
use mpm_files::{Job, JobKind, Progress, RecordError, Work, plan, turn, turns};
use mpm_images::image;
use mpm_mount::{Mounted, mount};
use mpm_port::MemoryDrives;
use std::alloc::Global;
use std::marker::Brand;
use std::sync::ledger::{Blank, Ledger};
use std::test::Fail;

/// The kinds of disks.
pub const KINDS: [Kind; 3] = [Kind::Ibm3740, Kind::Hd4, Kind::Hd8];

/// A call that doesn't come.
const NONE: u64 = 100_000;

/// A job on the file `A.TXT` of user 0, whose new name is `N.TXT`, without a stamp: record 0 of its bytes is of ones, and so on.
pub fn job(kind: JobKind, first: u32, count: u8) -> Job {
    let mut bytes = [0; 4096];
    for (place, byte) in bytes.iter_mut().enumerate() {
        *byte = (place / 128 % 32 + 1) as u8;
    }
    Job {
        kind,
        user: 0,
        name: *b"A       TXT",
        new_name: *b"N       TXT",
        first,
        count,
        stamp: None,
        bytes,
    }
}

/// What the last of some jobs came to.
#[derive(Clone, Copy, Debug, PartialEq, Eq)]
pub struct Came {
    /// How many turns it was to take.
    pub turns: u32,
    /// How many records it moved.
    pub moved: u8,
    /// Why it ended with these.
    pub error: Option<RecordError>,
    /// The byte that the first records of its bytes have, each throughout.
    pub bytes: [u8; 4],
}

/// What a job came to that ended.
fn came_of(work: &Work) -> Came {
    let mut bytes = [0; 4];
    for (record, byte) in bytes.iter_mut().enumerate() {
        *byte = match work.bytes().get(record % 4 * 128..record % 4 * 128 + 128) {
            Some(bytes) => one_byte(bytes),
            None => 255,
        };
    }
    Came {
        turns: turns(work),
        moved: work.moved(),
        error: work.error(),
        bytes,
    }
}

/// Does the turns of a job up to its last one, or up to a call of the drives that fails, and says whether it came to its end.
fn ends<L: Ledger>(
    mounted: &mut Mounted,
    cache: &mut Cache,
    work: &mut Work,
    drives: &mut MemoryDrives,
    steps: &mut Steps<L>,
) -> bool
    requires { IsInTurns (disks_of drives.old) mounted.old cache.old work.old 0 (turns_in work.old) }
    ensures size { size_of (disks_of drives.new) mounted.old.drive ≡ Some (geometry_of mounted.old.kind).bytes }
    ensures same { SameDisk mounted.old mounted.new }
    ensures stands { OnTrue result (IsDiskOfFiles (disks_of drives.new) mounted.new cache.new) }
{
    for _turn in 0..turns(work) {
        match turn(mounted, cache, work, drives, steps) {
            Ok(Progress::Again) => {}
            Ok(Progress::Done) => return true,
            Err(_) => return false,
        }
    }
    false
}

/// Begins a job that suits the drive, and does its turns.
fn does<L: Ledger>(
    mounted: &mut Mounted,
    cache: &mut Cache,
    drives: &mut MemoryDrives,
    steps: &mut Steps<L>,
    job: &Job,
) -> Option<Came>
    requires { IsDiskOfFiles (disks_of drives.old) mounted.old cache.old }
    ensures size { size_of (disks_of drives.new) mounted.old.drive ≡ Some (geometry_of mounted.old.kind).bytes }
    ensures same { SameDisk mounted.old mounted.new }
    ensures stands { OnTrue (is_some result) (IsDiskOfFiles (disks_of drives.new) mounted.new cache.new) }
{
    if !suits(mounted, job) {
        return None;
    }
    let mut work = plan(mounted, job);
    if ends(mounted, cache, &mut work, drives, steps) {
        Some(came_of(&work))
    } else {
        None
    }
}

/// Does jobs one after the other, and says what the last came to, if each ended.
fn all_done<L: Ledger>(
    mounted: &mut Mounted,
    cache: &mut Cache,
    drives: &mut MemoryDrives,
    steps: &mut Steps<L>,
    jobs: &[Job],
) -> Option<Came>
    requires { IsDiskOfFiles (disks_of drives.old) mounted.old cache.old }
    ensures size { size_of (disks_of drives.new) mounted.old.drive ≡ Some (geometry_of mounted.old.kind).bytes }
    ensures same { SameDisk mounted.old mounted.new }
    ensures stands { OnTrue (is_some result) (IsDiskOfFiles (disks_of drives.new) mounted.new cache.new) }
{
    let mut last = None;
    for job in jobs {
        last = does(mounted, cache, drives, steps, job);
        if last.is_none() {
            return None;
        }
    }
    last
}

/// What is seen of drive 0.
fn look(drives: &mut MemoryDrives, kind: Kind, first: u32) -> Seen
    requires { size_of (disks_of drives.old) 0 ≡ Some (geometry_of kind).bytes }
    ensures { size_of (disks_of drives.new) 0 ≡ Some (geometry_of kind).bytes }
{
    let found = entries(drives, kind);
    let mut slots = [FREE; 8];
    for (slot, seen) in slots.iter_mut().enumerate() {
        if let Some(entry) = found.get(slot) {
            *seen = slot_of(entry);
        }
    }
    let mut records = [0; 16];
    for place in 0..16 {
        records[place] = record(
            drives,
            kind,
            &found,
            b'A',
            first.saturating_add(place as u32),
        );
    }
    Seen {
        slots,
        records,
        other: record(drives, kind, &found, b'B', 0),
    }
}

/// What jobs left of a disk: what the last came to, where none failed; how many records and entries are free; and what is seen.
#[derive(Clone, Copy, Debug, PartialEq, Eq)]
pub struct Left {
    /// What the last job came to.
    pub came: Option<Came>,
    /// Whether the next call of the drive failed.
    pub is_next: bool,
    /// How many records the free blocks have, where the image is mounted again.
    pub free: u32,
    /// What is seen.
    pub seen: Seen,
}

/// Mounts the image again, and looks at it.
fn left_now(
    alloc: Global,
    drives: &mut MemoryDrives,
    scene: &Scene<'_>,
    came: Option<Came>,
) -> Result<Left, Fail>
    requires attached { IsSome (size_of (disks_of drives.old) 0) }
    ensures attached { IsSome (size_of (disks_of drives.new) 0) }
{
    let is_next = !has_size(drives, scene.kind);
    if !has_size(drives, scene.kind) {
        return Err(Fail::from("the image has another size now"));
    }
    let seen = look(drives, scene.kind, scene.first);
    if !has_size(drives, scene.kind) {
        return Err(Fail::from("the image has another size now"));
    }
    match mount(alloc, drives, 0, scene.kind) {
        Ok(mounted) => Ok(Left {
            came,
            is_next,
            free: mounted.free_records(),
            seen,
        }),
        Err(_) => Err(Fail::from("the image doesn't mount any more")),
    }
}

/// Mounts drive 0 and does the jobs of a scene.
fn done<L: Ledger>(
    alloc: Global,
    blank: Blank,
    drives: &mut MemoryDrives,
    scene: &Scene<'_>,
) -> Result<Option<Came>, Fail>
    requires name { blank.name ≡ L.name }
    requires parts { blank.parts ≡ L.parts }
    requires some { 0 < L.parts }
    requires attached { IsSome (size_of (disks_of drives.old) 0) }
    ensures { IsSome (size_of (disks_of drives.new) 0) }
{
    let mut steps = Steps::<L>::new(blank);
    let mut cache = Cache::new(alloc)?;
    if !has_size(drives, scene.kind) {
        return Err(Fail::from("the image has another size"));
    }
    match mount(alloc, drives, 0, scene.kind) {
        Ok(mut mounted) => Ok(all_done(&mut mounted, &mut cache, drives, &mut steps, scene.jobs)),
        Err(_) => Err(Fail::from("the image doesn't mount")),
    }
}

/// The number of a call by its number after those that mount a drive: one for its size before that and one by mounting, and one for
/// each sector of its directory.
fn behind_mounting(kind: Kind, call: u64) -> u64 {
    let mounting = 2 + (u64::from(geometry(kind).drm) + 1) / 4;
    mounting.saturating_add(call)
}

/// Calls the drive up to the call of a number, which fails.
fn call_up_to(drives: &mut MemoryDrives, kind: Kind, number: u64) -> Result<(), Fail>
    requires attached { IsSome (size_of (disks_of drives.old) 0) }
    ensures attached { IsSome (size_of (disks_of drives.new) 0) }
{
    drives.fail_at(number)?;
    for _ in 0..ROUND {
        if !has_size(drives, kind) {
            return Ok(());
        }
    }
    Err(Fail::from("more calls were made than a round has"))
}

/// How many calls there is room for in a round: more than the jobs make, and all that is done around them.
const ROUND: u64 = 1_000;

/// What the jobs of a scene leave in a round where the call of this number fails, counted from 1 after those that mount the drive.
fn left_in(
    alloc: Global,
    drives: &mut MemoryDrives,
    scene: &Scene<'_>,
    round: u64,
    call: u64,
) -> Result<Left, Fail>
    requires attached { IsSome (size_of (disks_of drives.old) 0) }
    ensures attached { IsSome (size_of (disks_of drives.new) 0) }
{
    if !has_size(drives, scene.kind) {
        return Err(Fail::from("the image has another size"));
    }
    restore(drives, scene.kind, scene.entries);
    let begun = round.saturating_mul(ROUND);
    call_up_to(drives, scene.kind, begun)?;
    drives.fail_at(begun.saturating_add(behind_mounting(scene.kind, call)))?;
    let came = done::<Brand>(alloc, Blank::new(1), drives, scene)?;
    left_now(alloc, drives, scene, came)
}

/// The drive of a scene.
fn drive(alloc: Global, scene: &Scene<'_>) -> Result<MemoryDrives, Fail>
    ensures { IfOk result (λ drives. IsSome (size_of (disks_of drives) 0)) }
{
    let image = image(alloc, scene.kind, scene.entries)?;
    attached(alloc, image.as_slice())
}

/// What the jobs of a scene leave where no call fails.
///
/// # Errors
/// The image of the scene can't be made or mounted.
pub fn left_of(alloc: Global, scene: &Scene<'_>) -> Result<Left, Fail> {
    match drive(alloc, scene) {
        Ok(mut drives) => left_in(alloc, &mut drives, scene, 1, NONE),
        Err(fail) => Err(fail),
    }
}

/// The first call whose failing leaves something else than those before it make, and what it leaves; the call after the last is none
/// of the jobs', and they come to `came`.
///
/// # Errors
/// The image of the scene can't be made or mounted, or a call made more calls of the drive than there is room for.
pub fn first_other(
    alloc: Global,
    scene: &Scene<'_>,
    came: Came,
) -> Result<Option<(u64, Left)>, Fail> {
    match drive(alloc, scene) {
        Ok(mut drives) => first_in(alloc, &mut drives, scene, came),
        Err(fail) => Err(fail),
    }
}

/// The first call on a drive that is there whose failing leaves something else than those before it make, and what it leaves.
fn first_in(
    alloc: Global,
    drives: &mut MemoryDrives,
    scene: &Scene<'_>,
    came: Came,
) -> Result<Option<(u64, Left)>, Fail>
    requires attached { IsSome (size_of (disks_of drives.old) 0) }
{
    let count = call_count(scene);
    for call in 1..count.saturating_add(2) {
        let left = left_in(alloc, drives, scene, call, call)?;
        if left != expected(scene, count, call, came, left.free) {
            return Ok(Some((call, left)));
        }
    }
    Ok(None)
}

/// What is to be left where the call of this number fails.
fn expected(scene: &Scene<'_>, count: u64, call: u64, came: Came, free: u32) -> Left {
    let is_whole = call > count;
    Left {
        came: if is_whole { Some(came) } else { None },
        is_next: is_whole,
        free,
        seen: seen_after(scene, call.saturating_sub(1)),
    }
}
