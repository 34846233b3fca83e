//! The core of one process of a machine: its registers, its segment and common memory, which a file keeps and which runs on by itself.
#![tactic(auto)]

mod puts;
mod saved;
mod taking;

pub use saved::Core;

#[cfg(test)]
mod tests;
