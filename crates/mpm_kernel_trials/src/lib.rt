//! Tests of whole kernels, as scenes of mpm_kernel_scenes: what calls, events and ends come to, and what is seen after them. They stand
//! above the crate that plays them, so that it isn't proved once more for its tests.
#![tactic(auto)]

#[cfg(test)]
mod calls;
#[cfg(test)]
mod consoles;
#[cfg(test)]
mod disk;
#[cfg(test)]
mod ending;
#[cfg(test)]
mod queues;
