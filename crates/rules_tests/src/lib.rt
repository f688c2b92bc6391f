//! The tests of the floor of rules, worked out by hand: needed regions (`flexi_quorum`), and what a
//! node does from its first start on (`node_unit`, and below it the rules): elections, commit counts,
//! writes and refusals.
//!
//! They call public functions alone, and stand in a crate of their own since a crate with tests is
//! proved twice, alone and with them. Want of memory ends a test. A rule asks for a lawful node, so a
//! test reaches its node by the steps of a unit, each of which leaves a fit one.
//!
//! Each test is a few calls of small functions that hand on what they make: the proof of a function
//! costs most where it lets go of several values or borrows them.
#![tactic(auto)]

#[cfg(test)]
mod elections;
#[cfg(test)]
mod fixtures;
#[cfg(test)]
mod needs;
#[cfg(test)]
mod refusals;
#[cfg(test)]
mod units;
#[cfg(test)]
mod views;
#[cfg(test)]
mod writes;
