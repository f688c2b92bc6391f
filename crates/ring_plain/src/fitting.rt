ghost use Rattle.std.specs.Prelude.{◌≡◌};
ghost use Rattle.std.specs.List.{list_all};
ghost use Rattle.std.specs.Option.{option_copied};
ghost use Rattle.ring_types.specs.Rows as spec;

use ring_types::{Change, Column, LAST_GTID, Payload, Schema, Shape, Table, Text, Value};

/// Whether the value is Null.
pub fn is_null(value: &Value) -> bool
    ensures { result ≡ spec.is_null value.now }
{
    match value {
        Value::Null => true,
        _ => false,
    }
}

/// Whether the two are one value: one number, one text, or both Null.
pub fn same_value(a: &Value, b: &Value) -> bool
    ensures { result ≡ spec.same_value a.now b.now }
{
    match (a, b) {
        (Value::Null, Value::Null) => true,
        (Value::Int(a), Value::Int(b)) => a == b,
        (Value::Text(a), Value::Text(b)) => a == b,
        _ => false,
    }
}

/// Whether the row's key, which is its first value, is this one. A row without values has the key
/// Null.
pub fn has_this_key(row: &[Value], key: &Value) -> bool
    ensures { result ≡ spec.same_value (spec.key_of row.now) key.now }
{
    match row {
        [] => is_null(key),
        [first, ..] => same_value(first, key),
    }
}

/// Whether the row's key is Null.
fn has_null_key(row: &[Value]) -> bool
    ensures { result ≡ spec.is_null (spec.key_of row.now) }
{
    match row {
        [] => true,
        [key, ..] => is_null(key),
    }
}

/// Whether a column of this shape may hold the value.
fn value_fits(shape: Shape, value: &Value) -> bool
    ensures { result ≡ spec.value_fits shape value.now }
{
    match (shape, value) {
        (_, Value::Null) => true,
        (Shape::Int, Value::Int(_)) => true,
        (Shape::Text { limit }, Value::Text(text)) => text.len() <= limit as usize,
        _ => false,
    }
}

/// Whether values and columns pair off, and each value suits its column or is Null.
fn values_fit(columns: &[Column], row: &[Value]) -> bool
    ensures { result ≡ spec.values_fit columns.now row.now }
{
    match columns {
        [] => match row {
            [] => true,
            [_, ..] => false,
        },
        [column, columns @ ..] => match row {
            [] => false,
            [value, row @ ..] => value_fits(column.shape, value) && values_fit(columns, row),
        },
    }
}

/// Whether the row has a value for each column of the table, and a key that is not Null.
fn row_fits(table: &Table, row: &[Value]) -> bool
    ensures { result ≡ spec.row_fits table.now row.now }
{
    values_fit(table.columns.as_slice(), row) && !has_null_key(row)
}

/// Whether a row of the table could have this key.
fn key_fits(table: &Table, key: &Value) -> bool
    ensures { result ≡ spec.key_fits table.now key.now }
{
    match table.columns.as_slice() {
        [] => false,
        [column, ..] => value_fits(column.shape, key) && !is_null(key),
    }
}

/// The name of the table that a change is of.
pub fn table_name(change: &Change) -> &Text
    ensures { result.now ≡ spec.table_name change.now }
{
    match change {
        Change::Insert { table, .. } => table,
        Change::Update { table, .. } => table,
        Change::Delete { table, .. } => table,
    }
}

/// Whether the row or the key of a change fits the table.
pub fn fits_table(table: &Table, change: &Change) -> bool
    ensures { result ≡ spec.fits_table table.now change.now }
{
    match change {
        Change::Insert { row, .. } => row_fits(table, row.as_slice()),
        Change::Update { row, .. } => row_fits(table, row.as_slice()),
        Change::Delete { key, .. } => key_fits(table, key),
    }
}

/// The place in the schema, counted from 0, of the table of that name.
pub fn place_in(schema: &Schema, name: &Text) -> Option<usize>
    ensures { result ≡ spec.place_in schema.now name.now }
{
    schema
        .tables
        .as_slice()
        .iter()
        .position(|table| table.name == *name)
}

/// The table of that name.
pub(crate) fn table_of<'a>(schema: &'a Schema, name: &Text) -> Option<&'a Table>
    ensures { option_copied result ≡ spec.table_of schema.now name.now }
{
    schema
        .tables
        .as_slice()
        .iter()
        .find(|table| table.name == *name)
}

/// Whether the schema has the change's table, and the row or the key fits there.
fn change_fits(schema: &Schema, change: &Change) -> bool
    ensures { result ≡ spec.change_fits schema.now change.now }
{
    match table_of(schema, table_name(change)) {
        Some(table) => fits_table(table, change),
        None => false,
    }
}

fn each_fits(schema: &Schema, changes: &[Change]) -> bool
    ensures { result ≡ list_all (spec.change_fits schema.now) changes.now }
{
    changes.iter().all(|change| change_fits(schema, change))
}

/// Whether there are changes and all of them fit.
pub fn changes_fit(schema: &Schema, changes: &[Change]) -> bool
    ensures { result ≡ spec.changes_fit schema.now changes.now }
{
    1 <= changes.len() && each_fits(schema, changes)
}

/// Whether the number may be that of a GTID.
fn is_number(number: u64) -> bool
    ensures { result ≡ spec.is_number number }
{
    1 <= number && number <= LAST_GTID
}

/// Whether what an entry holds may stand in a log over this schema.
pub fn payload_fits(schema: &Schema, payload: &Payload) -> bool
    ensures { result ≡ spec.payload_fits schema.now payload.now }
{
    match payload {
        Payload::NoOp => true,
        Payload::Rotate => true,
        Payload::Txn(txn) => {
            changes_fit(schema, txn.changes.as_slice()) && is_number(txn.gtid.number)
        }
    }
}
