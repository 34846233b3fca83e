ghost use Rattle.std.specs.Prelude.{◌≡◌, ◌+◌, ◌≤◌, slice_range};
ghost use Rattle.mpm_files.specs.Units.{PutsXfcb, PutsLabel};
ghost use Rattle.mpm_files.specs.Plans.{file_of_job, protection_in};
ghost use Rattle.mpm_files.specs.Turning.{xfcb_of_job, label_of_job};
ghost use Rattle.mpm_files.specs.DiskParts.{MayPutXfcb, MayPutLabel, DoesByDisk};

use crate::entries::put_entry;
use mpm_base::Steps;
use mpm_cache::Cache;
use mpm_dirent::{Entry, LabelEntry, XfcbEntry, plain_name};
use mpm_jobs::Job;
use mpm_mount::Mounted;
use mpm_port::{Drives, Failed};
use std::sync::ledger::Ledger;

/// Some bytes of a job, from a place on.
fn bytes_at<const N: usize>(job: &Job, from: usize) -> [u8; N]
    requires { from + N ≤ 4096 }
    ensures { result ≡ slice_range job.now.bytes from (from + N) }
{
    let mut bytes = [0; N];
    bytes.copy_from_slice(&job.bytes[from..from + N]);
    bytes
}

/// The XFCB of a job.
fn xfcb_of(job: &Job) -> XfcbEntry
    ensures { result ≡ xfcb_of_job job.now }
{
    XfcbEntry {
        user: job.user,
        name: plain_name(&job.name),
        mode: job.bytes[0],
        decode: job.bytes[1],
        password: bytes_at(job, 2),
        first: bytes_at(job, 10),
        second: bytes_at(job, 14),
    }
}

/// The directory label of a job.
fn label_of(job: &Job) -> LabelEntry
    ensures { result ≡ label_of_job job.now }
{
    LabelEntry {
        name: job.new_name,
        mode: job.bytes[0],
        decode: job.bytes[1],
        password: bytes_at(job, 2),
        first: bytes_at(job, 10),
        second: bytes_at(job, 14),
    }
}

/// Puts the XFCB of a job: in the place of the one that its file has, or into a free slot.
pub(crate) fn put_xfcb<D: Drives, L: Ledger>(
    mounted: &mut Mounted,
    cache: &mut Cache,
    drives: &mut D,
    job: &Job,
    steps: &mut Steps<L>,
) -> Result<(), Failed>
    requires { MayPutXfcb (D.disks drives.old) mounted.old cache.old job.now }
    ensures { DoesByDisk D.Drives 2 mounted.old mounted.new cache.old cache.new drives.old drives.new steps.old steps.new (λ image files does. does (PutsXfcb (file_of_job job.now) (protection_in job.now))) result }
{
    mounted.recall_directory();
    let entry = Entry::Xfcb { xfcb: xfcb_of(job) };
    match mounted.xfcb(job.user, &job.name) {
        Some(slot) => put_entry(mounted, cache, drives, slot, &entry, steps),
        None => match mounted.free_slot() {
            Some(slot) => put_entry(mounted, cache, drives, slot, &entry, steps),
            None => unreachable!(),
        },
    }
}

/// Puts the directory label of a job: in the place of the one that there is, or into a free slot.
pub(crate) fn put_label<D: Drives, L: Ledger>(
    mounted: &mut Mounted,
    cache: &mut Cache,
    drives: &mut D,
    job: &Job,
    steps: &mut Steps<L>,
) -> Result<(), Failed>
    requires { MayPutLabel (D.disks drives.old) mounted.old cache.old }
    ensures { DoesByDisk D.Drives 2 mounted.old mounted.new cache.old cache.new drives.old drives.new steps.old steps.new (λ image files does. does (PutsLabel (record { name = job.now.new_name; protection = protection_in job.now }))) result }
{
    mounted.recall_directory();
    let entry = Entry::Label {
        label: label_of(job),
    };
    match mounted.label() {
        Some(slot) => put_entry(mounted, cache, drives, slot, &entry, steps),
        None => match mounted.free_slot() {
            Some(slot) => put_entry(mounted, cache, drives, slot, &entry, steps),
            None => unreachable!(),
        },
    }
}
