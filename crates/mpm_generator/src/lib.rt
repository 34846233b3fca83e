//! Machines that are made of a seed: two programs that read, write, lock and unlock records of one file, and write at their
//! consoles, on one drive. Every byte follows from the seed.
#![tactic(auto)]

mod block;
mod bytes;
mod draws;
mod imaging;
mod making;
mod programs;

pub use imaging::image;
pub use making::{Generated, generate};
