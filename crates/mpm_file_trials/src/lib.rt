//! Tests of calls on files and drives, as scenes of mpm_file_scenes: what each function answers, what refuses it, and what processes
//! leave to one another. They stand above the crate that plays them, so that it isn't proved once more for its tests.
#![tactic(auto)]

#[cfg(test)]
mod records;
#[cfg(test)]
mod refusals;
#[cfg(test)]
mod sharing;
#[cfg(test)]
mod turns;
