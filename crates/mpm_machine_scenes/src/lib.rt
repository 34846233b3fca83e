//! Scenes of machines: what tests have in a machine, what happens there, and what is seen of it. A scene is played from a machine that
//! begins, and sees what any caller of a machine does.
#![tactic(auto)]

mod scene;

pub use crate::scene::{Behind, Register, Scene, Sight, TWO_SEGMENTS, alone, traced};
