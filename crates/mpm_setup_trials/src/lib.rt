//! Tests of what a machine is made of before it is booted: machine files, scripts, what a seed makes, the events that are due, and a sink that
//! counts lines. They stand above the crates that they try, so that none of these is proved once more for its tests; each sees what any
//! caller of them does. Drives that are mounted, and which of their calls fail, are tried in mpm_fault_trials and of the built program.
#![tactic(auto)]

#[cfg(test)]
mod devices;
#[cfg(test)]
mod events;
#[cfg(test)]
mod machine_files;
#[cfg(test)]
mod scripts;
#[cfg(test)]
mod seeds;
