//! The edge of the program that no proof reaches: real files, and the two outputs of the process.
//!
//! [`FileShelf`] and [`StdSink`] stand behind the traits of `edge_traits`. They tell nothing of content,
//! since nobody can know what another process does to a file or a pipe. Their count rises by one at each
//! answer `Failed` and at no other answer.
//!
//! What can be said is said of the part of the runtime that stands behind them, for it may be one in
//! memory: a reader that tells its bytes gives them whole or is refused, and a writer that tells what it
//! holds has all of the bytes after `Ok`.
#![tactic(auto)]

mod file_shelf;
mod reading;
mod std_sink;
#[cfg(test)]
mod tests;

pub use file_shelf::FileShelf;
pub use std_sink::StdSink;
