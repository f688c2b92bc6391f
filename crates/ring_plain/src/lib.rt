//! Plain bodies of the definitions about which changes fit a schema, group sizes and the GTIDs of a
//! log, as functions over the types of a ring.
//!
//! They compute each definition case by case.
#![tactic(auto)]

mod fitting;
mod gtid_numbers;
mod sizes;

pub use fitting::{
    changes_fit, fits_table, has_this_key, is_null, payload_fits, place_in, same_value, table_name,
};
pub use gtid_numbers::{gtids, has, next_number};
pub use sizes::{group_size, rows_event_size, table_map_size};
