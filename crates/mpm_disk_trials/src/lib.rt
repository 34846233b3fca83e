//! Tests of disks: the sizes of their kinds and which blocks are used, how they are mounted, the cache, and what is written. They
//! stand above the crates that they try, so that none of these is proved once more for its tests; each sees what any caller of them
//! does.
#![tactic(auto)]

#[cfg(test)]
mod blocks;
#[cfg(test)]
mod caches;
#[cfg(test)]
mod mounting;
#[cfg(test)]
mod sectors;
