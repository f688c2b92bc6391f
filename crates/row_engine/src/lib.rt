//! The tables of one node's engine, held so that a call costs what it touches.
//!
//! [`Tables`] keeps the rows of each table in a map by key. Contracts see them as the definitions
//! do: the schema, and for each of its tables the list of rows in key order.
//!
//! A transaction is checked before a row is written, and without memory: what a change meets at its
//! key is decided by the last earlier change of the transaction that names that key, or else by the
//! map. So [`Tables::check`] costs a look back and a look-up for each change, whatever the number of
//! rows, and [`Tables::apply`] writes in place. [`law_last_change`] says the same of a whole log.
#![tactic(auto)]

mod commits;
mod last_change;
mod laws;
mod table_rows;
mod tables;

pub use laws::law_last_change;
pub use tables::Tables;
