//! What a file call asks of a drive: its job, as it is made of a user, a name, records, bytes and a stamp. (MP/M II Programmer's Guide,
//! "BDOS Function Calls".)
#![tactic(auto)]

mod jobs;

pub use jobs::{
    Job, JobKind, filled, job_on, reading_job, renaming_job, stamp_where, testing, writing,
};
