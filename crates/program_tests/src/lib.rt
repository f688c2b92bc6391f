//! The tests of the command (`myraft_run`) over files in memory.
//!
//! They call public functions alone, and stand in a crate of their own since a crate with tests is
//! proved twice, alone and with them. Want of memory ends a test.
#![tactic(auto)]

#[cfg(test)]
mod commands;
