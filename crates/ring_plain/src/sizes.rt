ghost use Rattle.std.specs.Prelude.{◌≡◌, ◌-◌, ◌^◌, ◌∷◌, [], length, min, sum};
ghost use Rattle.ring_types.specs.Sizes as spec;
ghost use Rattle.ring_types.specs.declared.values.Change.TheVariants.{Update};

use crate::fitting::{table_name, table_of};
use ring_types::{Change, Column, Payload, Schema, Shape, Table, Value};

/// The sum of some numbers, or 2^64 - 1 where it is more.
fn total(parts: &[u64]) -> u64
    ensures { result ≡ min (sum parts.now) (2 ^ 64 - 1) }
{
    let mut so_far = 0u64;
    for part in parts {
        so_far = so_far.saturating_add(*part);
    }
    so_far
}

fn packed_size(number: u64) -> u64
    ensures { result ≡ spec.packed_size number }
{
    if number <= 250 {
        1
    } else if number < 65536 {
        3
    } else if number < 16777216 {
        4
    } else {
        9
    }
}

fn bitmap_size(bits: usize) -> u64
    ensures { result ≡ spec.bitmap_size bits }
{
    (bits as u64).div_ceil(8)
}

fn metadata_size(shape: Shape) -> u64
    ensures { result ≡ spec.metadata_size shape }
{
    match shape {
        Shape::Int => 0,
        Shape::Text { .. } => 2,
    }
}

fn all_metadata(table: &Table) -> u64
    ensures { result ≡ min (spec.all_metadata table.now) (2 ^ 64 - 1) }
{
    let mut so_far = 0u64;
    for column in table.columns.as_slice() {
        so_far = so_far.saturating_add(metadata_size(column.shape));
    }
    so_far
}

/// The bytes of the event that describes the table, or 2^64 - 1 where they are more.
pub fn table_map_size(schema: &Schema, table: &Table) -> u64
    ensures { result ≡ min (spec.table_map_size schema.now table.now) (2 ^ 64 - 1) }
{
    let columns = table.columns.len();
    let metadata = all_metadata(table);
    total(&[
        35,
        schema.database.len() as u64,
        table.name.len() as u64,
        packed_size(columns as u64),
        columns as u64,
        packed_size(metadata),
        metadata,
        bitmap_size(columns),
    ])
}

fn value_size(shape: Shape, value: &Value) -> u64
    ensures { result ≡ min (spec.value_size shape value.now) (2 ^ 64 - 1) }
{
    match (shape, value) {
        (_, Value::Null) => 0,
        (_, Value::Int(_)) => 8,
        (Shape::Int, Value::Text(_)) => 0,
        (Shape::Text { limit }, Value::Text(text)) => {
            let lead = if limit < 256 { 1u64 } else { 2 };
            lead.saturating_add(text.len() as u64)
        }
    }
}

fn values_size(columns: &[Column], row: &[Value]) -> u64
    ensures { result ≡ min (spec.values_size columns.now row.now) (2 ^ 64 - 1) }
{
    match columns {
        [] => 0,
        [column, columns @ ..] => match row {
            [] => 0,
            [value, row @ ..] => {
                value_size(column.shape, value).saturating_add(values_size(columns, row))
            }
        },
    }
}

fn image_size(columns: &[Column], row: &[Value]) -> u64
    ensures { result ≡ min (spec.image_size columns.now row.now) (2 ^ 64 - 1) }
{
    bitmap_size(row.len()).saturating_add(values_size(columns, row))
}

/// The size of a row image that has the key alone.
fn key_image_size(columns: &[Column], key: &Value) -> u64
    ensures { result ≡ min (spec.image_size columns.now (key.now ∷ [])) (2 ^ 64 - 1) }
{
    match columns {
        [] => 1,
        [column, ..] => 1u64.saturating_add(value_size(column.shape, key)),
    }
}

fn rows_head(table: &Table) -> u64
    ensures { result ≡ spec.rows_head table.now }
{
    33 + packed_size(table.columns.len() as u64)
}

fn update_size(table: &Table, row: &[Value]) -> u64
    ensures { result ≡ min (spec.rows_event_size table.now (Update [] row.now)) (2 ^ 64 - 1) }
{
    let columns = table.columns.as_slice();
    match row {
        [] => 0,
        [key, ..] => total(&[
            rows_head(table),
            bitmap_size(columns.len()),
            bitmap_size(columns.len()),
            key_image_size(columns, key),
            image_size(columns, row),
        ]),
    }
}

/// The bytes of the event that changes the table's rows, or 2^64 - 1 where they are more.
pub fn rows_event_size(table: &Table, change: &Change) -> u64
    ensures { result ≡ min (spec.rows_event_size table.now change.now) (2 ^ 64 - 1) }
{
    let columns = table.columns.as_slice();
    let bitmap = bitmap_size(columns.len());
    match change {
        Change::Insert { row, .. } => {
            total(&[
                rows_head(table),
                bitmap,
                image_size(columns, row.as_slice()),
            ])
        }
        Change::Update { row, .. } => update_size(table, row.as_slice()),
        Change::Delete { key, .. } => {
            total(&[rows_head(table), bitmap, key_image_size(columns, key)])
        }
    }
}

/// The bytes of a change's two events, or 2^64 - 1 where they are more; 0 where the schema lacks
/// its table.
fn change_size(schema: &Schema, change: &Change) -> u64
    ensures { result ≡ min (spec.change_size schema.now change.now) (2 ^ 64 - 1) }
{
    match table_of(schema, table_name(change)) {
        Some(table) => {
            table_map_size(schema, table).saturating_add(rows_event_size(table, change))
        }
        None => 0,
    }
}

/// The bytes of the events of some changes, or 2^64 - 1 where they are more.
fn changes_size(schema: &Schema, changes: &[Change]) -> u64
    ensures { result ≡ min (spec.changes_size schema.now changes.now) (2 ^ 64 - 1) }
{
    let mut so_far = 0u64;
    for change in changes {
        so_far = so_far.saturating_add(change_size(schema, change));
    }
    so_far
}

/// The bytes of a payload's group in the binary log, or 2^64 - 1 where they are more.
pub fn group_size(schema: &Schema, payload: &Payload) -> u64
    ensures { result ≡ spec.group_size schema.now payload.now }
{
    match payload {
        Payload::NoOp => 42,
        Payload::Rotate => 86,
        Payload::Txn(txn) => 180u64.saturating_add(changes_size(schema, txn.changes.as_slice())),
    }
}
