//! What every rule of a node stands on, and how a leader's log comes to be committed.
//!
//! A rule is handed a node as [`Here`]: the durable part with its log as a view, and what the stores
//! keep of it beside. It answers a plan (durable actions in order, then messages, then sayings) and
//! sets the volatile part. [`Planned`] is the log as a view once a plan's actions are done.
//!
//! `counts.rt` is the rule that all depends on: a leader commits up to the greatest entry of its own
//! term that a commit quorum of its region has (Raft, with FlexiRaft's quorums). [`advance`] ends a
//! leader's step: the commit count rises, the engine follows ([`follow`]), and the clients are told;
//! [`advance_by`] is the same without the volatile part, and [`add_entry`] for a plan that adds one
//! entry. On these stand a client's write ([`write`]) and its command to end a binary log file
//! ([`rotate`]): the refusals in their order, and else the leader's entry.
//!
//! After a fault the volatile part is as it was. Of the log nothing is read but what a rule asks for
//! by position, so no step takes time that grows with it.
#![tactic(auto)]

mod adds;
mod advances;
mod counts;
mod faults;
mod follows;
mod heres;
mod parts;
mod planned;
mod reads;
mod refusals;
mod roles;
mod steps;
mod writes;

pub use adds::add_entry;
pub use advances::{Advanced, advance, advance_by};
pub use follows::follow;
pub use heres::{Engine, Here, Leader};
pub use planned::Planned;
pub use reads::{entry_at, last, region_at, term_at};
pub use refusals::{is_handing, refused};
pub use roles::{adopted, demote, is_leader, is_ready, unknowns};
pub use steps::{Begun, idle, message};
pub use writes::{rotate, write};
