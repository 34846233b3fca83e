//! Tests of machines whose programs call on files, at once or in turns beside another program. They stand above the crate that plays
//! them, so that it isn't proved once more for its tests.
#![tactic(auto)]

#[cfg(test)]
mod examples;
#[cfg(test)]
mod file_calls;
#[cfg(test)]
mod turns;
