//! Tests of what the opening of a file takes: names, directory entries, passwords, file control blocks, and the files that are open
//! with their locked records. They stand above the crates that they try, so that none of these is proved once more for its tests;
//! each sees what any caller of them does.
#![tactic(auto)]

#[cfg(test)]
mod control_blocks;
#[cfg(test)]
mod entries;
#[cfg(test)]
mod names;
#[cfg(test)]
mod opens;
#[cfg(test)]
mod passwords;
