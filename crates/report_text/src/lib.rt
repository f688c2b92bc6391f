//! The report of a world, as text: what a replay prints, and one node's lines of it.
//!
//! The lines and words are defined in `specs/`; each function here writes one of them to the end of a
//! list of bytes.
#![tactic(auto)]

mod appending;
mod file_lines;
mod node_block;
mod reports;
mod sayings;
mod summaries;
mod table_text;
#[cfg(test)]
mod tests;
mod words;

pub use reports::{write_node, write_report};
pub use summaries::write_summary;
