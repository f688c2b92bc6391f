//! A ring run by a schedule: the world from its first state on, one event after the other.
//!
//! [`Replay`] holds the world, with a [`Unit`](node_unit::Unit) for each node, which keeps beside its
//! durable part what a rule reads of it, so that no event takes time that grows with a log. Beside the
//! messages it notes where a node has none, so that a search for a node's next message looks at none
//! that an earlier one passed. Its contract is the model's: an event makes of the world what
//! `world_step` makes of it.
#![tactic(auto)]

mod beginnings;
mod chosen;
mod lines;
mod messages;
mod replays;
mod sent;

pub use replays::{EventError, Replay};
