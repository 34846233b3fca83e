//! Tests of machines with one or two programs, whose calls are of the kernel: what happens in them, and what is seen of them from
//! outside. They stand above the crate that plays them, so that it isn't proved once more for its tests.
#![tactic(auto)]

#[cfg(test)]
mod aborts;
#[cfg(test)]
mod calls;
#[cfg(test)]
mod interrupts;
#[cfg(test)]
mod opening;
#[cfg(test)]
mod procedures;
#[cfg(test)]
mod residents;
