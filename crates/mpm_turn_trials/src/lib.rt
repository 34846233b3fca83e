//! Tests of the jobs of file calls, turn by turn, as scenes of mpm_turn_scenes: what is left of a disk whichever call of its drive fails,
//! and what the calls come to. They stand above the crate that plays them, so that it isn't proved once more for its tests.
#![tactic(auto)]

#[cfg(test)]
mod calls;
#[cfg(test)]
mod entries;
#[cfg(test)]
mod records;
