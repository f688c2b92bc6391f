ghost use Rattle.std.specs.Prelude.{◌≡◌, is_some};
ghost use Rattle.std.specs.Option.{option_copied};
ghost use Rattle.ring_types.specs.Rows.{change_key, same_value};
ghost use Rattle.row_engine.specs.LastChange as spec;

use ring_plain::{has_this_key, same_value, table_name};
use ring_types::{Change, RowRefusal, Text, Value};

/// Whether the change is of this key.
fn is_of_key(change: &Change, key: &Value) -> bool
    ensures { result ≡ same_value (change_key change.now) key.now }
{
    match change {
        Change::Insert { row, .. } => has_this_key(row.as_slice(), key),
        Change::Update { row, .. } => has_this_key(row.as_slice(), key),
        Change::Delete { key: named, .. } => same_value(named, key),
    }
}

/// Whether the change is of this key in the table of this name.
fn names(change: &Change, table: &Text, key: &Value) -> bool
    ensures { result ≡ spec.names table.now key.now change.now }
{
    *table_name(change) == *table && is_of_key(change, key)
}

/// The last of the changes that names this table and key.
pub fn last_change<'a>(changes: &'a [Change], table: &Text, key: &Value) -> Option<&'a Change>
    ensures { option_copied result ≡ spec.last_change table.now key.now changes.now }
{
    changes
        .iter()
        .rev()
        .find(|change| names(change, table, key))
}

/// Whether the change leaves a row at its key.
pub fn leaves_row(change: &Change) -> bool
    ensures { result ≡ is_some (spec.row_left change.now) }
{
    match change {
        Change::Insert { .. } => true,
        Change::Update { .. } => true,
        Change::Delete { .. } => false,
    }
}

/// Why the key of a change is refused: an insert wants it absent, an update or a delete wants it
/// there.
pub fn refused_key(there: bool, change: &Change) -> Option<RowRefusal>
    ensures { result ≡ spec.refused_key there change.now }
{
    match change {
        Change::Insert { .. } => {
            if there {
                Some(RowRefusal::KeyExists)
            } else {
                None
            }
        }
        Change::Update { .. } | Change::Delete { .. } => {
            if there { None } else { Some(RowRefusal::NoKey) }
        }
    }
}
