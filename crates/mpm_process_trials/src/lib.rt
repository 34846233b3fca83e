//! Tests of processes and of what they wait for: their slots and lists, who runs, flags, the clock, queues and the disk. They stand
//! above the crates that they try, so that none of these is proved once more for its tests; each sees what any caller of them does.
#![tactic(auto)]

#[cfg(test)]
mod clocks;
#[cfg(test)]
mod flags;
#[cfg(test)]
mod lists;
#[cfg(test)]
mod processes;
#[cfg(test)]
mod queues;
#[cfg(test)]
mod service;
#[cfg(test)]
mod turns;
