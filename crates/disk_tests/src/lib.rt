//! The tests of a disk in memory (`disk_memory`).
//!
//! They call public functions alone, and stand in a crate of their own since a crate with tests is
//! proved twice, alone and with them.
#![tactic(auto)]

#[cfg(test)]
mod crashes;
