//! A transaction's events in MySQL's binary log, both ways.
//!
//! A transaction is a GTID event, a QUERY event with `BEGIN`, for each change a TABLE_MAP event that
//! describes its table and a WRITE, UPDATE or DELETE event with its row, and an XID event.
//! [`write_txn`] puts them behind what a vector holds, and [`read_txn`] reads them from the front of
//! some bytes, or names the first event with which none goes on. The definition of both is
//! `specs/Txns.antt`; the bodies stand in `specs/Bodies.antt`, `specs/Tables.antt` and
//! `specs/Rows.antt`, each with its table of fields.
//!
//! A body is a form, a list of fields in the words of `event_frame`: a field that is cut is `Field`,
//! one that is not allowed is the fault that stands beside it. A row that is read is the only thing
//! that takes memory.
#![tactic(auto)]

mod appending;
mod bodies;
mod faults;
mod fields;
mod images;
mod laws;
mod putting;
mod reading;
mod rows;
mod tables;
mod writing;

pub use faults::TxnError;
pub use laws::{law_txn_again, law_txn_front, law_txn_length, law_txn_takes};
pub use reading::{TxnRead, read_txn};
pub use writing::write_txn;
