//! Tests of runs of whose drives or sink a call fails: each of their calls in turn, up to the last that they make. What files and outputs of
//! the system can fail in is tried of the built program (tests/endings.py).
#![tactic(auto)]

#[cfg(test)]
mod calls;
#[cfg(test)]
mod disk;
#[cfg(test)]
mod order;
#[cfg(test)]
mod placed;
#[cfg(test)]
mod play;
#[cfg(test)]
mod runs;
#[cfg(test)]
mod ways;
