//! The events of a binary log file that are not a transaction's: its head, the rotation that ends it,
//! and the event that names an entry's opid.
//!
//! A file begins with its head: the magic, FORMAT_DESCRIPTION, and PREVIOUS_GTIDS with the set of all
//! transactions in earlier files. [`write_head`] puts one, [`read_head`] finds one. Each entry's group
//! begins with an event of type IGNORABLE, which MySQL's own readers pass over: [`write_opid`],
//! [`read_opid`]. A ROTATE names the next file: [`write_rotate`], [`read_rotate`].
//!
//! The bodies stand in `specs/Bodies.antt`, the events in `specs/ControlEvents.antt`. A writer appends
//! exactly the event, or leaves the bytes as they were if memory is wanting. A reader takes no memory; it
//! tests the frame, then the type and the flags, then the body, and names the first that is at fault.
#![tactic(auto)]

mod due_events;
mod faults;
mod heads;
mod laws;
mod opid_events;
mod rotations;

pub use faults::ControlError;
pub use heads::{Head, read_head, write_head};
pub use laws::{law_head, law_opid, law_rotation};
pub use opid_events::{OpidEvent, read_opid, write_opid};
pub use rotations::{Rotation, read_rotate, six_digits, write_rotate};
