//! What `replay RING SCHEDULE` does: it takes a ring through the events of a schedule and writes
//! the report of the world that comes of it.
//!
//! [`run`] is the one public call, and its contract the theorem of this repository: `specs/Command.antt`
//! has its clauses, `specs/Inputs.antt` the order of work, `specs/Replays.antt` how a schedule ends.
//! The output is first touched when all events are taken; at any status but 0 the errors get a line.
#![tactic(auto)]

mod command;
mod fetching;
mod inputs;
mod lines;
mod reading;
mod replaying;
mod stops;
mod words;

pub use command::run;
pub use stops::{File, Status, Stop};
