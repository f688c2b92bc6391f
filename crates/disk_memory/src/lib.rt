//! Disks in memory, which stop, fail and crash on demand, for replays and tests.
//!
//! A [`MemoryDisk`] is a `Disk` that tells its content. Its life is a list of turns, and a turn has one
//! setting or none: [`MemoryDisk::stop_at`] begins a turn of which one call and all later ones fail, until
//! a crash; [`MemoryDisk::fail_at`] one of which a single call fails; [`MemoryDisk::clear`] one of which
//! none does. The calls of a turn are counted from 1. A call that fails does nothing, and is counted like
//! any other; so is one that has no memory. Only a write that would pass 2^63 - 1 bytes is no call of the
//! turn: it never reaches the disk.
//!
//! [`MemoryDisk::crash`] leaves of each file what its last sync left, and of what was done since then
//! what the turn's stop says, if that has made a call fail: of each write nothing, the first half of its
//! bytes, rounded down, or all; a cut only if all is kept. What is kept is done in order, and a write
//! of which nothing is kept does not lengthen the file. In any other turn nothing is kept. What a crash
//! leaves is all on the disk, and is one of the contents that every disk might have left.
//!
//! Contracts see a disk as the record of what was done to it: the edits, syncs and crashes, and the turns
//! with their settings, their numbers of calls and what the files read at their ends. From it the disk
//! tells what a crash at each earlier moment might have left. The record is real, and grows with every
//! write by its bytes, and with every write, cut, sync, crash and turn by 56 bytes; a length and a read
//! leave nothing in it. A crash takes no time for the files that are not touched afterwards.
//!
//! A [`Rack`] has the disks of several nodes, and lends one at a time.
#![tactic(auto)]

mod edits;
mod file_tables;
mod held_files;
mod memory_disks;
mod meters;
mod racks;
mod recording;
mod steps;
mod stored_files;

pub use memory_disks::MemoryDisk;
pub use racks::Rack;
