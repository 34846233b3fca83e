//! Tests of what calls are made of (values, devices in memory, the memory of a machine, the gate) and of the file of a core. They stand above
//! the crates that they try, so that none of these is proved once more for its tests; each sees what any caller of them does.
#![tactic(auto)]

#[cfg(test)]
mod cores;
#[cfg(test)]
mod devices;
#[cfg(test)]
mod gate;
#[cfg(test)]
mod gates;
#[cfg(test)]
mod memory;
#[cfg(test)]
mod values;
