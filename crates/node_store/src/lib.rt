//! The durable part of one node, held in memory, with what a rule reads of it beside the log.
//!
//! A [`NodeStore`] keeps a node's term, its votes, its log, the count of applied entries and the
//! prepared pairs: what a crash leaves (Raft's persistent state; MySQL's binary log and `XA PREPARE`).
//! Beside the log stand the set of the GTIDs in it, the number of the binary log file that its last
//! entry leaves open, and, on a node with an engine, the tables that the applied entries make. So no
//! rule walks the log to learn one of them. Contracts see the durable part and the schema of the
//! tables; the store's invariant says that the rest is what the log makes of it.
//!
//! [`NodeStore::act`] does one durable action, and moves in what the action holds. Only a truncation
//! reads the log, since it makes the GTID set anew from what is left. [`NodeStore::recover`] is what a
//! restart does first: it drops the pairs whose entry the log lacks, after one look for each. The calls
//! that lend what is kept take no memory. A store whose action lacked memory is given up.
#![tactic(auto)]

mod fronts;
mod log_sets;
mod stores;
mod strays;

pub use stores::NodeStore;
