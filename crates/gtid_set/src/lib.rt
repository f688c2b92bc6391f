//! Sets of GTIDs: which transactions of which servers there are (the MySQL manual, "GTID Sets").
//!
//! A [`GtidSet`] keeps its servers in ascending order, each with its numbers as merged intervals, so
//! that a server with a million transactions takes one interval. Contracts see it as that list, and
//! say what a call does by the set's members: after [`GtidSet::add`] the set has what it had and one
//! GTID besides. That is exact, since two canonical lists with the same members are one
//! ([`law_one_set`]).
//!
//! The definition `gtids` of `ring_types` says the set of a log. [`law_has`], [`law_canonical`] and
//! [`law_grows`] tie a set to it: a set that stands for a log, grown by `add` of the next
//! transaction's GTID, stands for the longer log. [`law_next`] ties [`GtidSet::next_number`] to it.
//!
//! [`GtidSet::from_bytes`] and [`GtidSet::parse`] read loosely, write what they read again, and
//! compare. So they take exactly the one spelling that [`GtidSet::to_bytes`] and
//! [`GtidSet::to_text`] give.
//!
//! The intervals of a server stand in a map from each one's first number to its last, so that a
//! number is put in, taken out or looked up in time that grows with the logarithm of their count.
//! Servers are few, and stand in a list.
#![tactic(auto)]

mod bytes;
mod faults;
mod intervals;
mod laws;
mod servers;
mod sets;
mod texts;

pub use faults::SetError;
pub use laws::{law_canonical, law_grows, law_has, law_next, law_one_set};
pub use sets::{Exhausted, GtidSet};
