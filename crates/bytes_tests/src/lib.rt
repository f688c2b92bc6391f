//! The tests of the floor of bytes: events (`event_frame`), the log's own events (`event_control`),
//! transactions (`event_txn`), the group of an entry (`entry_group`) and GTID sets (`gtid_set`).
//!
//! They call public functions alone, and stand in a crate of their own since a crate with tests is
//! proved twice, alone and with them. Want of memory ends a test.
#![tactic(auto)]

#[cfg(test)]
mod control;
#[cfg(test)]
mod fixtures;
#[cfg(test)]
mod frames;
#[cfg(test)]
mod groups;
#[cfg(test)]
mod sets;
#[cfg(test)]
mod transactions;
