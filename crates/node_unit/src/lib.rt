//! A node: what it keeps, what it has in memory while it runs, and its step on an input.
//!
//! [`Unit::step`] plans over what the node's store keeps, and then does the plan's actions. The plan is
//! that of the input's rule: a foreign message is left aside (`foreign.rt`), a client's message is the
//! input of that name, and every other input has its rule in the crate of its subject
//! (`dispatch.rt`): `election_core`, `replicate_core`, `proxy_core`, `transfer_core`, or
//! `commit_pipeline` for a client's writes. Two rules are composed here: a reply to entries is
//! replication's rule and then the transfer's (`plans.rt`), and `TimeoutNow` is the transfer's test
//! and then an election.
//!
//! A step makes of a node what the definition in the model's `Dispatch` makes of it.
#![tactic(auto)]

mod dispatch;
mod foreign;
mod plans;
mod units;

pub use units::Unit;
