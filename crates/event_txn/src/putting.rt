//! The bodies of a change's two events, put in place behind what was written.
ghost use Rattle.std.specs.Prelude.{◌≡◌, ◌≤◌, ◌<◌, ◌++◌, ◌∷◌, ◌^◌, [], true, length, OnOk, OnErr};
ghost use Rattle.std.specs.Int.{to_le_bytes};
ghost use Rattle.ring_types.specs.Rows.{key_of, key_fits_in, value_fits, values_fit, fits_table};
ghost use Rattle.event_txn.specs.Tables.{description, columns_text, types_text, metadata_text, metadata_of};
ghost use Rattle.event_txn.specs.Rows.{nulls_of, lead_of, value_text, values_text, image_text, rows_text, rows_body};
ghost use Rattle.event_txn.specs.Writing.{Keeps};
ghost use Rattle.ring_types.specs.declared.values.Change.TheVariants.{Insert, Update, Delete};

use crate::appending::*;
use crate::tables::{metadata_size, ones, table_number, type_of};
use ring_plain::is_null;
use ring_types::{Change, Column, Schema, Shape, Table, Value};
use std::alloc::AllocError;

/// Puts what the body of the event says of the table.
#[tactic(auto, using(crate::proofs::Kept::kept_behind), unfolding(crate::specs::Tables::description))]
pub fn put_description(out: &mut Vec<u8>, schema: &Schema, table: &Table) -> Result<(), AllocError>
    requires database { length schema.now.database < 256 }
    requires name { length table.now.name < 256 }
    requires some { 1 ≤ length table.now.columns }
    requires few { length table.now.columns ≤ 64 }
    ensures ok { OnOk result (out.new.items ≡ out.old.items ++ description schema.now table.now) }
    ensures err { OnErr result (Keeps out.old.items out.new.items) }
{
    put(out, &[1, 0])?;
    put_name(out, schema.database.as_bytes())?;
    put_name(out, table.name.as_bytes())?;
    put_columns(out, table)
}

/// Puts what the body says of the table's columns.
#[tactic(auto, using(crate::proofs::Kept::kept_behind))]
fn put_columns(out: &mut Vec<u8>, table: &Table) -> Result<(), AllocError>
    requires some { 1 ≤ length table.now.columns }
    requires few { length table.now.columns ≤ 64 }
    ensures ok { OnOk result (out.new.items ≡ out.old.items ++ columns_text table.now) }
    ensures err { OnErr result (Keeps out.old.items out.new.items) }
{
    let columns = table.columns.as_slice();
    put_packed(out, columns.len() as u64)?;
    put_types(out, columns)?;
    put_packed(out, metadata_size(table) as u64)?;
    put_metadata(out, columns)?;
    put_bitmap(out, columns.len(), ones(columns.len()) - 1)
}

#[tactic(auto, using(crate::proofs::Kept::kept_on, crate::proofs::Kept::kept_more))]
fn put_types(out: &mut Vec<u8>, columns: &[Column]) -> Result<(), AllocError>
    ensures ok { OnOk result (out.new.items ≡ out.old.items ++ types_text columns.now) }
    ensures err { OnErr result (Keeps out.old.items out.new.items) }
{
    for column in columns {
        put(out, &[type_of(column.shape)])?;
    }
    Ok(())
}

#[tactic(auto, using(crate::proofs::Kept::kept_on, crate::proofs::Kept::kept_more))]
fn put_metadata(out: &mut Vec<u8>, columns: &[Column]) -> Result<(), AllocError>
    ensures ok { OnOk result (out.new.items ≡ out.old.items ++ metadata_text columns.now) }
    ensures err { OnErr result (Keeps out.old.items out.new.items) }
{
    for column in columns {
        put_limit(out, column.shape)?;
    }
    Ok(())
}

#[tactic(auto, using(crate::proofs::Kept::kept_same))]
fn put_limit(out: &mut Vec<u8>, shape: Shape) -> Result<(), AllocError>
    ensures ok { OnOk result (out.new.items ≡ out.old.items ++ metadata_of shape) }
    ensures err { OnErr result (Keeps out.old.items out.new.items) }
{
    match shape {
        Shape::Int => Ok(()),
        Shape::Text { limit } => put(out, &limit.to_le_bytes()),
    }
}

/// Which values are Null, as bits.
fn nulls_of(row: &[Value]) -> u64
    requires { length row.now ≤ 64 }
    ensures value { result ≡ nulls_of row.now }
    ensures small { result < 2 ^ length row.now }
{
    match row {
        [] => 0,
        [value, others @ ..] => is_null(value) as u64 + 2 * nulls_of(others),
    }
}

#[tactic(auto, using(crate::proofs::Kept::kept_behind))]
fn put_text(out: &mut Vec<u8>, limit: u16, text: &[u8]) -> Result<(), AllocError>
    requires { length text.now ≤ limit }
    ensures ok { OnOk result (out.new.items ≡ out.old.items ++ (to_le_bytes (lead_of limit) (length text.now) ++ text.now)) }
    ensures err { OnErr result (Keeps out.old.items out.new.items) }
{
    if limit < 256 {
        put(out, &[text.len() as u8])?;
        put(out, text)
    } else {
        put(out, &(text.len() as u16).to_le_bytes())?;
        put(out, text)
    }
}

fn put_value(out: &mut Vec<u8>, shape: Shape, value: &Value) -> Result<(), AllocError>
    requires { value_fits shape value.now ≡ true }
    ensures ok { OnOk result (out.new.items ≡ out.old.items ++ value_text shape value.now) }
    ensures err { OnErr result (Keeps out.old.items out.new.items) }
{
    match (value, shape) {
        (Value::Null, _) => Ok(()),
        (Value::Int(number), _) => put(out, &number.cast_unsigned().to_le_bytes()),
        (Value::Text(_), Shape::Int) => Ok(()),
        (Value::Text(text), Shape::Text { limit }) => put_text(out, limit, text.as_bytes()),
    }
}

#[tactic(auto, using(crate::proofs::Kept::kept_behind))]
fn put_values(out: &mut Vec<u8>, columns: &[Column], row: &[Value]) -> Result<(), AllocError>
    requires { values_fit columns.now row.now ≡ true }
    ensures ok { OnOk result (out.new.items ≡ out.old.items ++ values_text columns.now row.now) }
    ensures err { OnErr result (Keeps out.old.items out.new.items) }
{
    match columns {
        [] => Ok(()),
        [column, columns @ ..] => match row {
            [] => Ok(()),
            [value, row @ ..] => {
                put_value(out, column.shape, value)?;
                put_values(out, columns, row)
            }
        },
    }
}

/// Puts the image of all columns.
#[tactic(auto, using(crate::proofs::Kept::kept_behind, crate::proofs::KeyImages::one_each))]
fn put_image(out: &mut Vec<u8>, columns: &[Column], row: &[Value]) -> Result<(), AllocError>
    requires few { length columns.now ≤ 64 }
    requires fits { values_fit columns.now row.now ≡ true }
    ensures ok { OnOk result (out.new.items ≡ out.old.items ++ image_text columns.now row.now) }
    ensures err { OnErr result (Keeps out.old.items out.new.items) }
{
    put_bitmap(out, row.len(), nulls_of(row))?;
    put_values(out, columns, row)
}

/// Puts the image of the first column alone.
#[tactic(auto, using(crate::proofs::Kept::kept_behind))]
fn put_key(out: &mut Vec<u8>, columns: &[Column], key: &Value) -> Result<(), AllocError>
    requires { key_fits_in columns.now key.now ≡ true }
    ensures ok { OnOk result (out.new.items ≡ out.old.items ++ image_text columns.now (key.now ∷ [])) }
    ensures err { OnErr result (Keeps out.old.items out.new.items) }
{
    match columns {
        [] => unreachable!(),
        [first, ..] => {
            put(out, &[0])?;
            put_value(out, first.shape, key)
        }
    }
}

/// Puts what stands before the bitmaps of a row's event.
#[tactic(auto, using(crate::proofs::Kept::kept_behind))]
fn put_rows_head(out: &mut Vec<u8>, place: usize, table: &Table) -> Result<(), AllocError>
    requires { place < 256 }
    ensures ok { OnOk result (out.new.items ≡ out.old.items ++ rows_text place table.now) }
    ensures err { OnErr result (Keeps out.old.items out.new.items) }
{
    put(out, &table_number(place))?;
    put(out, &[1, 0, 2, 0])?;
    put_packed(out, table.columns.len() as u64)
}

#[tactic(auto, using(crate::proofs::Kept::kept_behind))]
fn put_insert(
    out: &mut Vec<u8>,
    place: usize,
    table: &Table,
    row: &[Value],
) -> Result<(), AllocError>
    requires place { place < 256 }
    requires some { 1 ≤ length table.now.columns }
    requires few { length table.now.columns ≤ 64 }
    requires fits { values_fit table.now.columns row.now ≡ true }
    ensures ok { OnOk result (out.new.items ≡ out.old.items ++ rows_body place table.now (Insert [] row.now)) }
    ensures err { OnErr result (Keeps out.old.items out.new.items) }
{
    let columns = table.columns.as_slice();
    put_rows_head(out, place, table)?;
    put_bitmap(out, columns.len(), ones(columns.len()))?;
    put_image(out, columns, row)
}

#[tactic(auto, using(crate::proofs::Kept::kept_behind))]
fn put_update(
    out: &mut Vec<u8>,
    place: usize,
    table: &Table,
    row: &[Value],
) -> Result<(), AllocError>
    requires place { place < 256 }
    requires some { 1 ≤ length table.now.columns }
    requires few { length table.now.columns ≤ 64 }
    requires fits { values_fit table.now.columns row.now ≡ true }
    requires key { key_fits_in table.now.columns (key_of row.now) ≡ true }
    ensures ok { OnOk result (out.new.items ≡ out.old.items ++ rows_body place table.now (Update [] row.now)) }
    ensures err { OnErr result (Keeps out.old.items out.new.items) }
{
    let columns = table.columns.as_slice();
    put_rows_head(out, place, table)?;
    put_bitmap(out, columns.len(), 1)?;
    put_bitmap(out, columns.len(), ones(columns.len()))?;
    put_first(out, columns, row)?;
    put_image(out, columns, row)
}

/// Puts the image of the row's key alone.
fn put_first(out: &mut Vec<u8>, columns: &[Column], row: &[Value]) -> Result<(), AllocError>
    requires { key_fits_in columns.now (key_of row.now) ≡ true }
    ensures ok { OnOk result (out.new.items ≡ out.old.items ++ image_text columns.now (key_of row.now ∷ [])) }
    ensures err { OnErr result (Keeps out.old.items out.new.items) }
{
    match row {
        [] => put_key(out, columns, &Value::Null),
        [key, ..] => put_key(out, columns, key),
    }
}

#[tactic(auto, using(crate::proofs::Kept::kept_behind))]
fn put_delete(out: &mut Vec<u8>, place: usize, table: &Table, key: &Value) -> Result<(), AllocError>
    requires place { place < 256 }
    requires few { length table.now.columns ≤ 64 }
    requires key { key_fits_in table.now.columns key.now ≡ true }
    ensures ok { OnOk result (out.new.items ≡ out.old.items ++ rows_body place table.now (Delete [] key.now)) }
    ensures err { OnErr result (Keeps out.old.items out.new.items) }
{
    let columns = table.columns.as_slice();
    put_rows_head(out, place, table)?;
    put_bitmap(out, columns.len(), 1)?;
    put_key(out, columns, key)
}

/// Puts the body that makes this change of the table.
pub fn put_change_body(
    out: &mut Vec<u8>,
    place: usize,
    table: &Table,
    change: &Change,
) -> Result<(), AllocError>
    requires place { place < 256 }
    requires some { 1 ≤ length table.now.columns }
    requires few { length table.now.columns ≤ 64 }
    requires fits { fits_table table.now change.now ≡ true }
    ensures ok { OnOk result (out.new.items ≡ out.old.items ++ rows_body place table.now change.now) }
    ensures err { OnErr result (Keeps out.old.items out.new.items) }
{
    match change {
        Change::Insert { row, .. } => put_insert(out, place, table, row.as_slice()),
        Change::Update { row, .. } => put_update(out, place, table, row.as_slice()),
        Change::Delete { key, .. } => put_delete(out, place, table, key),
    }
}
