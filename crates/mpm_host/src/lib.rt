//! The devices over the host: files, drives over files, and a sink over a writer; and what else a program gets from it.
#![tactic(auto)]

mod drives;
mod files;
mod image;
mod opening;
mod places;
mod reading;
mod sink;
mod words;

pub use drives::RealDrives;
pub use files::RealFiles;
pub use places::HeldPlaces;
pub use sink::RealSink;
pub use words::{WordsError, words_after_name};

#[cfg(test)]
mod tests;
