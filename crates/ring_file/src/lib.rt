//! Ring files: the TOML text that declares a ring.
//!
//! [`read_ring`] reads the text, tests each table of it in order and builds the ring. The first fault
//! is named by its place in the document, as `home` or `node[2].kind`.
#![tactic(auto)]

mod columns;
mod faults;
mod keys;
mod reading;
mod tables;
mod values;

pub use faults::RingError;
pub use keys::law_least_unknown;
pub use reading::read_ring;
