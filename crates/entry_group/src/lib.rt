//! Groups of events: what an entry of the log becomes in the binary log, both ways; and the files that a
//! log makes.
//!
//! An entry's group is the event that tells its opid, and behind it what its payload adds: nothing, a
//! ROTATE, or the events of a transaction. [`write_entry`] puts the group of an entry at a place of the
//! files, [`read_entry`] reads one at the front of some bytes and names the first event that no group has
//! there; [`group_size`] says how many bytes a payload's group takes, and makes none.
//!
//! A file begins with a head, has groups in order, and ends with the group of a Rotate. So the files of a
//! log (`specs/Files.antt`) are a function of its entries.
#![tactic(auto)]

mod files;
mod groups;
mod laws;

pub use files::file_sizes;
pub use groups::{EntryError, EntryRead, read_entry, write_entry};
pub use laws::{
    law_file_sizes, law_files, law_group_again, law_group_front, law_group_length, law_group_takes,
};
pub use ring_plain::group_size;
