//! The outside, as the program knows it: shelves that give files, sinks that take bytes, a disk that
//! keeps a node's files, a view of its log, and a link to the other nodes.
//!
//! Each is a trait with two kinds of meaning. Its content may be told or not: a form in memory tells
//! it, a real file or pipe tells nothing, and a clause on content holds if it is told. Its count of
//! faults never falls and has a last value, 2^64 - 1, and `Failed` comes only from a call in which
//! that count rose (or was at its last value). So a caller that answers "the outside failed" has to
//! show that it did.
//!
//! [`MemoryShelf`] and [`MemorySink`] fail at the calls that they are told to fail at. [`SteadyShelf`]
//! and [`SteadySink`] never fail: their count is always 0, so whatever is proved of a generic caller's
//! faults says, at these forms, that there was none. So do [`MemoryLink`] and [`SteadyLink`].
//!
//! # Disks
//!
//! A [`Disk`] has the files that [`FileId`] names. Of each file it tells a state of five parts: what a
//! read gives, what it gave at the last sync, the places where a crash may leave any byte, and the least
//! and the greatest length since that sync. What a crash may leave is defined from it, once for all
//! disks. A write makes its range torn, and all that lies past the old end; a cut moves the least length;
//! a sync makes all of it stand. Each call that answers `Ok` is an equation between two such states; a
//! call that answers `Failed` may be done in part, and a call that answers `Memory` is not done.
//!
//! A function that works on a disk says under the name `crash` what a crash at any moment of it leaves,
//! whatever its answer is: of one file by `AtEachMoment`, of several by `Works`. [`put`] is such a
//! function, a write with its sync, and the form that every store above is made of.
//!
//! No call changes a disk's story, which is the record of its turns. A disk in memory begins a turn when
//! it is told at which call to stop or to fail (`CutAt` of `ring_types`).
//!
//! # Views
//!
//! A [`LogView`] reads a node's log by position, counted from 1. Its calls may fail, since there may be a
//! disk behind it, but they change nothing: what it tells, what lies behind it, and that this stands for
//! the log, are the same after each. [`ListView`] reads a list that lies in memory, and [`FailingView`]
//! is one that fails at chosen calls.
//!
//! # Links
//!
//! A [`Link`] tells what it received and what it was given to send, both in order. A message that is lost
//! outside was sent all the same, so a send never fails but for memory. [`MemoryLink`] and [`SteadyLink`]
//! give what they were made with, and then nothing.
#![tactic(auto)]

mod disks;
mod failing;
mod failing_views;
mod files;
mod links;
mod list_views;
mod memory_links;
mod memory_shelves;
mod memory_sinks;
mod messages;
mod puts;
mod shelves;
mod sinks;
mod steady_links;
mod steady_shelves;
mod steady_sinks;
mod views;

pub use disks::{Disk, DiskFault, FileId};
pub use failing_views::FailingView;
pub use files::ShelfFile;
pub use links::{Got, Link, LinkFault, Sent};
pub use list_views::ListView;
pub use memory_links::MemoryLink;
pub use memory_shelves::MemoryShelf;
pub use memory_sinks::MemorySink;
pub use puts::put;
pub use shelves::{FetchError, Shelf};
pub use sinks::{Sink, SinkFault};
pub use steady_links::SteadyLink;
pub use steady_shelves::SteadyShelf;
pub use steady_sinks::SteadySink;
pub use views::LogView;
