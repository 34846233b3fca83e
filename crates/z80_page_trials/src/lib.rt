//! Tests of the Z80's instructions after the prefixes CBh, EDh, DDh and FDh, whole over a memory. They stand above the crates that they
//! try, so that none of these is proved once more for its tests; each sees what any caller of them does.
#![tactic(auto)]

#[cfg(test)]
mod page_cases;
#[cfg(test)]
mod pages;
