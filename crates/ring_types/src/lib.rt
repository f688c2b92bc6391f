//! The types of a ring: members, regions, entries of the log, schemas, and the built ring itself.
//!
//! A ring is declared once as [`RingParts`] and made by [`Ring::build`], which names the first fault
//! that the parts have. A built [`Ring`] never changes, and answers what a node asks of a number:
//! whose it is, whether that member votes and has an engine, and where it is.
//!
//! Everything that holds several items holds a [`List`], and every text is a [`Text`]. Contracts see
//! them as lists and as lists of bytes, so that values compare as data. A value is copied by
//! [`Duplicate`], whose one contract is that the copy equals its source.
//!
//! A log is a slice of [`Entry`]: [`term_at`], [`region_at`] and [`last`] read it by position, counted
//! from 1, and [`at_least`] compares two logs by their ends, as Raft's voters do.
//!
//! Each limit is one constant, as [`MOST_MEMBERS`]. The definitions cite it too, so that a contract
//! and the code cannot name two numbers.
#![tactic(auto)]

mod duplication;
mod entries;
mod gtid_sets;
mod limits;
mod lists;
mod logs;
mod lookups;
mod members;
mod names;
mod places;
mod ranges;
mod refusals;
mod rings;
mod schemas;
mod texts;
mod values;

pub use duplication::{Duplicate, Memory};
pub use entries::{
    Anchor, Conflict, CutAt, Entry, Grant, Keep, NodeId, Opid, Pair, Payload, Place, RegionId, Vote,
};
pub use gtid_sets::{Interval, ServerSet};
pub use limits::{
    ADDRESS_BYTES, BATCH_BYTES, BATCH_ENTRIES, CHANGES_IN_MESSAGE, FIRST_CLIENT, GROUP_BYTES,
    LAST_FILE, LAST_GTID, LAST_NODE, LAST_ROUND, MOCK_LAG, MOST_CLIENTS, MOST_COLUMNS,
    MOST_MEMBERS, MOST_REGIONS, MOST_TABLES, MOST_VOTES, NAME_BYTES, RING_FILE_BYTES,
    SCHEDULE_BYTES, SILENT_BEATS, TABLE_NAME_BYTES, TERM_END, TEXT_BYTES, TEXT_COLUMN_BYTES,
    VALUES_IN_CHANGE,
};
pub use lists::{List, after, first_of};
pub use logs::{
    at_least, entry_at, has_opid, is_rotate, last, region_at, rotates, same_opid, term_at,
};
pub use members::{Address, Kind, Member, MemberPart, RingParts};
pub use names::{is_address, is_name};
pub use rings::{BuildError, Ring};
pub use schemas::{Column, Schema, Shape, Table};
pub use texts::Text;
pub use values::{Change, Gtid, RowRefusal, Txn, Value};
