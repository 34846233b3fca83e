ghost use Rattle.std.specs.Prelude.{◌≡◌, ◌≤◌, ◌+◌, ◌*◌, ◌++◌, length, take};
ghost use Rattle.mpm_base.specs.Lists.{zeros};
ghost use Rattle.mpm_jobs.specs.declared.jobs.JobKind.TheVariants as kinds;
ghost use Rattle.mpm_jobs.specs.Jobs as spec;

/// What a file call does on its drive.
#[derive(Clone, Copy, Debug, PartialEq, Eq)]
pub enum JobKind {
    /// Reads records.
    Read,
    /// Writes records.
    Write,
    /// Writes records in the place of those that have the bytes that are named.
    TestWrite,
    /// Makes a file, with an XFCB where the job has one.
    Make,
    /// Deletes the files whose names fit, with their XFCBs.
    Delete,
    /// Renames a file with its XFCB; an XFCB of the new name goes.
    Rename,
    /// Sets the attributes F1' to F4' and T1' to T3' of a file.
    Attributes,
    /// Puts the directory label.
    Label,
    /// Puts an XFCB.
    Xfcb,
    /// Changes nothing but the first stamp of an XFCB.
    Nothing,
}

/// What a file call asks of its drive, as it was taken.
#[derive(Clone, Copy)]
pub struct Job {
    /// What is done.
    pub kind: JobKind,
    /// The user of the files, 0 to 15.
    pub user: u8,
    /// The name, eight bytes, and the type, three; bit 7 of each is an attribute, which counts for `Attributes` alone. For
    /// `Delete` a `?` fits each byte.
    pub name: [u8; 11],
    /// For `Rename` the new name; for `Label` the label's.
    pub new_name: [u8; 11],
    /// The first record, from 0.
    pub first: u32,
    /// How many records; for `Make` 0 where no XFCB is made.
    pub count: u8,
    /// The date and the time that the file's XFCB gets: the first stamp for `Nothing`, the second one with the first record
    /// that is written.
    pub stamp: Option<[u8; 4]>,
    /// Of `Write` the records. Of `TestWrite` the bytes that they must have, and after them those that they get. Of `Make`,
    /// `Label` and `Xfcb` the mode or data byte, the decode byte, the password as it is stored, eight bytes, and two stamps of
    /// four.
    pub bytes: [u8; 4096],
}

/// The room of a job's bytes: zeros after those that count, at most 4,096.
pub fn filled(bytes: &[u8]) -> [u8; 4096]
    requires { length bytes.now ≤ 4096 }
    ensures { result ≡ spec.filled bytes.now }
{
    let mut room = [0; 4096];
    room[..bytes.len()].copy_from_slice(bytes);
    room
}

/// The room of a job's bytes of two parts: zeros after those that count, at most 4,096.
fn filled_with(first: &[u8], second: &[u8]) -> [u8; 4096]
    requires { length first.now + length second.now ≤ 4096 }
    ensures { result ≡ spec.filled (first.now ++ second.now) }
{
    let mut room = [0; 4096];
    let (front, back) = room.split_at_mut(first.len());
    front.copy_from_slice(first);
    back[..second.len()].copy_from_slice(second);
    room
}

/// A job on a user's file of a name.
pub fn job_on(kind: JobKind, user: u8, name: &[u8; 11]) -> Job
    ensures { result ≡ spec.job_for kind user name.now }
{
    Job {
        kind,
        user,
        name: *name,
        new_name: zero_name(),
        first: 0,
        count: 0,
        stamp: None,
        bytes: filled(&[]),
    }
}

/// A name of zeros.
#[tactic(auto, unfolding(mpm_base::specs::Lists::zeros))]
fn zero_name() -> [u8; 11]
    ensures { result ≡ zeros 11 }
{
    [0; 11]
}

/// A stamp, where it is asked for.
pub fn stamp_where(asks: bool, moment: [u8; 4]) -> Option<[u8; 4]>
    ensures { result ≡ spec.stamp_where asks moment }
{
    if asks { Some(moment) } else { None }
}

/// The job that reads so many records from one on.
pub fn reading_job(user: u8, name: &[u8; 11], first: u32, count: u8) -> Job
    ensures { result ≡ spec.with_records first count (spec.job_for kinds.Read user name.now) }
{
    Job {
        first,
        count,
        ..job_on(JobKind::Read, user, name)
    }
}

/// The bytes of the first records among some; all where there are fewer.
fn bytes_of(bytes: &[u8], count: u8) -> &[u8]
    ensures value { result.now ≡ take (128 * count) bytes.now }
    ensures few { length result.now ≤ 128 * count }
{
    let end = 128 * usize::from(count);
    &bytes[..end.min(bytes.len())]
}

/// The job that writes records from one on, 16 at most.
fn writing_job(
    user: u8,
    name: &[u8; 11],
    first: u32,
    count: u8,
    stamp: Option<[u8; 4]>,
    bytes: &[u8],
) -> Job
    requires { count ≤ 16 }
    ensures { result ≡ spec.with_bytes (take (128 * count) bytes.now) (spec.with_stamp stamp (spec.with_records first count (spec.job_for kinds.Write user name.now))) }
{
    Job {
        first,
        count,
        stamp,
        bytes: filled(bytes_of(bytes, count)),
        ..job_on(JobKind::Write, user, name)
    }
}

/// The job that writes so many records, 16 at most; none where there are none.
#[tactic(auto, using(crate::proofs::Choosing::none_of, crate::proofs::Choosing::some_of))]
pub fn writing(
    user: u8,
    name: &[u8; 11],
    first: u32,
    count: u8,
    stamp: Option<[u8; 4]>,
    bytes: &[u8],
) -> Option<Job>
    requires { count ≤ 16 }
    ensures { result ≡ spec.where_some count (spec.with_bytes (take (128 * count) bytes.now) (spec.with_stamp stamp (spec.with_records first count (spec.job_for kinds.Write user name.now)))) }
{
    if count == 0 {
        return None;
    }
    Some(writing_job(user, name, first, count, stamp, bytes))
}

/// The bytes of a job that tests records: of the bytes of a call on so many records, those that the first of them must have, and
/// after them those that these get.
#[tactic(auto, unfolding(crate::specs::Jobs::testing_bytes))]
fn testing_bytes(bytes: &[u8], records: u8, count: u8) -> [u8; 4096]
    requires { count ≤ 16 }
    ensures { result ≡ spec.filled (spec.testing_bytes bytes.now records count) }
{
    let expected = 128 * usize::from(records);
    let written = &bytes[expected.min(bytes.len())..];
    filled_with(bytes_of(bytes, count), bytes_of(written, count))
}

/// The job that tests and writes the first of a call's records, from one on, 16 at most.
fn testing_job(
    user: u8,
    name: &[u8; 11],
    first: u32,
    count: u8,
    records: u8,
    stamp: Option<[u8; 4]>,
    bytes: &[u8],
) -> Job
    requires { count ≤ 16 }
    ensures { result ≡ spec.with_bytes (spec.testing_bytes bytes.now records count) (spec.with_stamp stamp (spec.with_records first count (spec.job_for kinds.TestWrite user name.now))) }
{
    Job {
        first,
        count,
        stamp,
        bytes: testing_bytes(bytes, records, count),
        ..job_on(JobKind::TestWrite, user, name)
    }
}

/// The job that tests and writes so many of a call's records, 16 at most; none where there are none.
#[tactic(auto, using(crate::proofs::Choosing::none_of, crate::proofs::Choosing::some_of))]
pub fn testing(
    user: u8,
    name: &[u8; 11],
    first: u32,
    count: u8,
    records: u8,
    stamp: Option<[u8; 4]>,
    bytes: &[u8],
) -> Option<Job>
    requires { count ≤ 16 }
    ensures { result ≡ spec.where_some count (spec.with_bytes (spec.testing_bytes bytes.now records count) (spec.with_stamp stamp (spec.with_records first count (spec.job_for kinds.TestWrite user name.now)))) }
{
    if count == 0 {
        return None;
    }
    Some(testing_job(user, name, first, count, records, stamp, bytes))
}

/// The job that renames a file.
pub fn renaming_job(user: u8, name: &[u8; 11], new_name: &[u8; 11]) -> Job
    ensures { result ≡ spec.with_new_name new_name.now (spec.job_for kinds.Rename user name.now) }
{
    Job {
        new_name: *new_name,
        ..job_on(JobKind::Rename, user, name)
    }
}
