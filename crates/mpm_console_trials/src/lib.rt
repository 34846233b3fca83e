//! Tests of consoles: who has them, their keys and what is written to them, lines as they are typed, what a typed command means, the
//! terminal message processors, and the lines of a run's text. They stand above the crates that they try, so that none of these is
//! proved once more for its tests; each sees what any caller of them does.
#![tactic(auto)]

#[cfg(test)]
mod commands;
#[cfg(test)]
mod consoles;
#[cfg(test)]
mod lines;
#[cfg(test)]
mod terminals;
#[cfg(test)]
mod typing;
