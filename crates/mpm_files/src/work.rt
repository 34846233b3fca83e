ghost use Rattle.std.specs.Prelude.{◌≡◌};
ghost use Rattle.mpm_files.specs.Serving.{turns_in, told_error, error_code};

use mpm_file_functions::RecordError;
use mpm_jobs::Job;
use mpm_mount::Found;

/// A job that is in service on a drive, and how far it is: a unit a turn.
///
/// Which unit is next shows by these fields and by the drive's directory as it then is.
#[derive(Drop)]
pub struct Work {
    /// The job; of one that reads, the bytes begin with the records that were read.
    pub job: Job,
    /// How many units it has. Each takes a turn, and a job that has none takes one too.
    pub units: u32,
    /// How many of them have ended.
    pub ended: u32,
    /// How many records were read, or written.
    pub moved: u8,
    /// Why the job ends after its turns, if each record that is tested has the bytes that are named.
    pub error: Option<RecordError>,
    /// Whether a record that was tested had other bytes.
    pub has_missed: bool,
    /// Of a job on several directory entries the last that was changed.
    pub last: Option<Found>,
    /// The block that was cleared for the record that is next.
    pub cleared: Option<u16>,
}

impl Work {
    /// How many turns it takes.
    pub(crate) fn turns(&self) -> u32
        ensures { result ≡ turns_in self.now }
    {
        self.units.max(1)
    }

    /// Why the job ended with the records that were moved, once its last turn has ended.
    pub fn error(&self) -> Option<RecordError>
        ensures { result ≡ told_error self.now }
    {
        if self.ended < self.turns() {
            None
        } else if self.has_missed {
            Some(RecordError::Mismatch)
        } else {
            self.error
        }
    }

    /// The error as a code, as functions 33 and 41 answer it; 0 where turns are left, or all records were moved. A full directory is 1, as
    /// function 21 has it; 34 and 40 answer 5.
    pub fn code(&self) -> u8
        ensures { result ≡ error_code (told_error self.now) }
    {
        match self.error() {
            None => 0,
            Some(RecordError::UnwrittenData | RecordError::NoDirectorySpace) => 1,
            Some(RecordError::NoDataBlock) => 2,
            Some(RecordError::UnwrittenExtent) => 4,
            Some(RecordError::Mismatch) => 7,
        }
    }

    /// How many records were read, or written.
    pub fn moved(&self) -> u8
        ensures { result ≡ self.now.moved }
    {
        self.moved
    }

    /// The bytes of the job, which begin with the records that were read.
    pub fn bytes(&self) -> &[u8; 4096]
        ensures { result.now ≡ self.now.job.bytes }
    {
        &self.job.bytes
    }
}
