//! Replication (Raft): a leader's beat, what a member does with entries, and what the leader makes of
//! the reply.
//!
//! At a beat a leader sends each other member the entries after those that it has, or, for a member of
//! another region, their opids to that region's proxy ([`beat`]). A member holds an entry only if it
//! holds the one before it: it keeps what matches, cuts what differs, appends the rest, and follows
//! the leader's commit count ([`on_append`]). The reply tells the leader how far the member has
//! matched, and so what it may commit ([`on_ack`]); what the reply means to a transfer under way is
//! the transfer's part.
//!
//! Each rule is the definition of its name in the model's `Replication`, wherever the log is told. It
//! reads of the log only the entries that a message names or takes, so no step takes time that grows
//! with it.
#![tactic(auto)]

mod accepts;
mod appends;
mod beats;
mod matches;
mod replies;
mod tears;

pub use appends::on_append;
pub use beats::beat;
pub use replies::on_ack;
