//! Tests of programs and of the resident that starts them: how code is relocated, how programs are loaded, and the command line
//! interpreter; and of the processes that a program creates, ends and aborts. They stand above the crates that they try, so that
//! none of these is proved once more for its tests; each sees what any caller of them does.
#![tactic(auto)]

#[cfg(test)]
mod interpreting;
#[cfg(test)]
mod loading;
#[cfg(test)]
mod processes;
#[cfg(test)]
mod relocating;
