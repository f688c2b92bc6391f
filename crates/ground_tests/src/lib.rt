//! The tests of the ground floor: rings and logs (`ring_types`), sizes and GTIDs (`ring_plain`), shelves,
//! sinks, links and views (`edge_traits`).
//!
//! They call public functions alone, and stand in a crate of their own since a crate with tests is
//! proved twice, alone and with them. Want of memory ends a test.
#![tactic(auto)]

#[cfg(test)]
mod fixtures;
#[cfg(test)]
mod links;
#[cfg(test)]
mod outside;
#[cfg(test)]
mod rings;
#[cfg(test)]
mod sizes;
#[cfg(test)]
mod views;
