//! The transactions that an engine has prepared and not yet committed (MySQL's `XA PREPARE`, at which
//! a transaction's row locks are taken).
//!
//! A [`Prepared`] keeps pairs of an opid and a transaction, in the order in which they were prepared.
//! Contracts see it as that list. No two of its transactions write one key of one table; two changes
//! of one transaction may.
//!
//! [`Prepared::prepare`] adds a pair at the end, or refuses it as `Locked` and names the first change
//! whose key a kept transaction writes, counted from 0, and the opid of that transaction. A commit
//! takes the pair at the front ([`Prepared::take_front`]), and with it its locks go. A new leader's
//! engine drops the pairs after a position ([`Prepared::roll_back_after`]), and a restart those that
//! the log does not have ([`Prepared::drop_pairs`]). Only [`Prepared::prepare`] takes memory, and
//! without memory it leaves everything as it was.
//!
//! Beside the list there is a map from table and key to the holder's opid. So a test for a conflict
//! costs the keys of the transaction at hand, however many pairs are kept. [`law_no_conflict`] ties that
//! test to the action that prepares.
//!
//! An engine that keeps these pairs, its rows and the count of applied entries needs no log: an action
//! makes of it what it makes of the node's durable part ([`law_engine_follows`]).
#![tactic(auto)]

mod holders;
mod keeping;
mod laws;
mod moves;
mod refusals;
mod transactions;

pub use laws::{law_engine_follows, law_no_conflict};
pub use refusals::PrepareError;
pub use transactions::Prepared;
