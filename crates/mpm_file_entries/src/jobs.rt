ghost use Rattle.std.specs.Prelude.{◌≡◌, ◌&&◌, not, option_map, unwrap_or, if◌then◌else◌};
ghost use Rattle.std.specs.FinMap.{get};
ghost use Rattle.mpm_base.specs.Calls.{byte_in, eight_at};
ghost use Rattle.mpm_dirent.specs.Names.{plain};
ghost use Rattle.mpm_mount.specs.Standing.{OnItsDrive};
ghost use Rattle.mpm_mount.specs.Looking.{data_byte};
ghost use Rattle.mpm_guard.specs.Passwords.{has_bit};
ghost use Rattle.mpm_fcb.specs.Names.{has_f6};
ghost use Rattle.mpm_jobs.specs.declared.jobs.JobKind.TheVariants as kinds;
ghost use Rattle.mpm_jobs.specs.Jobs as jobs;
ghost use Rattle.mpm_file_entries.specs.Protections as protections;

use crate::keeping::{label_there, xfcb_there};
use crate::protection::StoredProtection;
use mpm_base::Call;
use mpm_fcb::ControlBlock;
use mpm_jobs::{Job, JobKind, filled, job_on, stamp_where};
use mpm_mount::{Mounted, label_byte};

/// In the label's data byte: files are stamped as they are made.
const MAKING: u8 = 0x10;

/// In the label's data byte: files are stamped as they are written.
const WRITING: u8 = 0x20;

/// The job of an opening: the first stamp, where the label's data byte has 40h. (MP/M II Programmer's Guide, "Function 100: Set
/// Directory Label".)
fn opening_job(user: u8, name: &[u8; 11], label: u8, moment: [u8; 4]) -> Job
    ensures { result ≡ jobs.with_stamp (jobs.stamp_where (has_bit 0x40 label) moment) (jobs.job_for kinds.Nothing user name.now) }
{
    Job {
        stamp: stamp_where(label & 0x40 != 0, moment),
        ..job_on(JobKind::Nothing, user, name)
    }
}

/// The job of an opening on a drive.
pub fn opening(mounted: &Mounted, user: u8, name: &[u8; 11], moment: [u8; 4]) -> Job
    ensures { OnItsDrive mounted.now (λ drive. result ≡ jobs.with_stamp (jobs.stamp_where (has_bit 0x40 (data_byte drive)) moment) (jobs.job_for kinds.Nothing user name.now)) }
{
    opening_job(user, name, label_byte(mounted), moment)
}

/// The second stamp, which comes with the first record that is written by way of an open file. (MP/M II Programmer's Guide,
/// "Function 100: Set Directory Label".)
pub fn writing_stamp(mounted: &Mounted, has_written: bool, moment: [u8; 4]) -> Option<[u8; 4]>
    ensures { OnItsDrive mounted.now (λ drive. result ≡ jobs.stamp_where (has_bit 0x20 (data_byte drive) && not has_written) moment) }
{
    stamp_where(does_stamp(label_byte(mounted), has_written), moment)
}

/// Whether a file gets its second stamp, by the label's data byte and by whether its open file was written by.
fn does_stamp(label: u8, has_written: bool) -> bool
    ensures { result ≡ (has_bit 0x20 label && not has_written) }
{
    label & WRITING != 0 && !has_written
}

/// The XFCB of a file that is made, by the label's data byte.
pub fn made_xfcb(label: u8, block: &ControlBlock, call: &Call, moment: [u8; 4]) -> StoredProtection
    ensures { result ≡ protections.with_first_stamp (has_bit 0x10 label) moment (protections.given_xfcb (has_f6 block.now) (byte_in call.now 8) (eight_at call.now 0)) }
{
    let mut xfcb = StoredProtection::given(block.has_f6(), call.byte(8), &call.eight(0));
    xfcb.stamp_where(label & MAKING != 0, moment);
    xfcb
}

/// The job that makes a file, with an XFCB where one is made.
pub fn making_job(user: u8, name: &[u8; 11], makes_xfcb: bool, xfcb: &StoredProtection) -> Job
    ensures { result ≡ (if makes_xfcb then jobs.with_one (protections.with_protection xfcb.now (jobs.job_for kinds.Make user name.now)) else (jobs.job_for kinds.Make user name.now)) }
{
    let job = job_on(JobKind::Make, user, name);
    if !makes_xfcb {
        return job;
    }
    Job {
        count: 1,
        bytes: filled(&xfcb.bytes()),
        ..job
    }
}

/// The job that puts the label of a name.
fn labelling_job(user: u8, name: &[u8; 11], label: &StoredProtection) -> Job
    ensures { result ≡ protections.with_protection label.now (jobs.with_new_name name.now (jobs.job_for kinds.Label user name.now)) }
{
    Job {
        new_name: *name,
        bytes: filled(&label.bytes()),
        ..job_on(JobKind::Label, user, name)
    }
}

/// The job of a labelling on a drive.
pub fn labelling(mounted: &Mounted, user: u8, block: &ControlBlock, call: &Call) -> Job
    ensures { OnItsDrive mounted.now (λ drive. result
        ≡ protections.with_protection (protections.label_put block.now.ex (eight_at call.now 8) (unwrap_or (option_map (λ label. label.protection) drive.label) protections.no_protection)) (jobs.with_new_name block.now.name (jobs.job_for kinds.Label user block.now.name))) }
{
    let mut label = label_there(mounted);
    label.change_label(block.ex, &call.eight(8));
    labelling_job(user, &block.name, &label)
}

/// The job that puts an XFCB of a file.
fn guarding_job(user: u8, name: &[u8; 11], xfcb: &StoredProtection) -> Job
    ensures { result ≡ protections.with_protection xfcb.now (jobs.job_for kinds.Xfcb user name.now) }
{
    Job {
        bytes: filled(&xfcb.bytes()),
        ..job_on(JobKind::Xfcb, user, name)
    }
}

/// The job that makes or changes the XFCB of a user's file on a drive.
pub fn guarding(mounted: &Mounted, user: u8, block: &ControlBlock, call: &Call) -> Job
    ensures { OnItsDrive mounted.now (λ drive. result
        ≡ protections.with_protection (protections.xfcb_put block.now.ex (eight_at call.now 8) (unwrap_or (get drive.xfcbs (record { user = user; name = plain block.now.name })) protections.no_protection)) (jobs.job_for kinds.Xfcb user block.now.name)) }
{
    let mut xfcb = xfcb_there(mounted, user, &block.name);
    xfcb.change_xfcb(block.ex, &call.eight(8));
    guarding_job(user, &block.name, &xfcb)
}
