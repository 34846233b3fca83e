//! Scenes of kernels: what happens to one, line by line, and what is seen of it. It sees what any caller of a kernel does. Scenes of
//! file calls at a kernel's disk have lines of their own.
#![tactic(auto)]

pub mod disk;
mod scene;

pub use crate::scene::{BLOCK, Completion, Line, kernel_with_system_queue, play, play_on};
