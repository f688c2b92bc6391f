//! The tests of the floor of state: rows (`row_engine`), prepared transactions (`prepared_txns`) and votes
//! (`vote_history`).
//!
//! They call public functions alone, and stand in a crate of their own since a crate with tests is
//! proved twice, alone and with them. Want of memory ends a test.
#![tactic(auto)]

#[cfg(test)]
mod fixtures;
#[cfg(test)]
mod pairs;
#[cfg(test)]
mod rows;
#[cfg(test)]
mod votes;
