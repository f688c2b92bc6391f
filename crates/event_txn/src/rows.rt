//! The bodies that change a row.
ghost use Rattle.std.specs.Prelude.{◌≤◌, ◌<◌, length};
ghost use Rattle.event_frame.specs.Forms.{body_of, front_of};
ghost use Rattle.event_frame.specs.Reading.{Gives};
ghost use Rattle.event_txn.specs.Rows.{rows_form, write_form, update_form, delete_form};
ghost use Rattle.event_txn.specs.Reading.{Reads};
ghost use Rattle.event_txn.specs.declared.faults.BodyFault.TheVariants as fault;

use crate::faults::{BodyFault, RowError};
use crate::fields::*;
use crate::images::{image_at, image_with, key_at};
use crate::tables::{ones, table_number};
use ring_types::{List, Table, Value};
use std::alloc::Global;

/// What stands before the bitmaps.
#[tactic(auto, unfolding(crate::specs::Rows::rows_form))]
fn rows_at<'a>(bytes: &'a [u8], place: usize, table: &Table) -> Result<&'a [u8], BodyFault>
    requires place { place < 256 }
    ensures { Gives (λ x. (tt, x.now)) result (front_of fault.Field (rows_form place table.now) bytes.now) }
{
    let rest = constant_at(bytes, &table_number(place), BodyFault::Table)?;
    let rest = constant_at(rest, &[1, 0], BodyFault::Field)?;
    let rest = constant_at(rest, &[2, 0], BodyFault::Field)?;
    let (count, rest) = packed_at(rest)?;
    agrees_at(rest, count == table.columns.len() as u64, BodyFault::Table)
}

/// The row that the body inserts into this table.
#[tactic(auto, unfolding(crate::specs::Rows::write_form))]
pub fn written_of(
    alloc: Global,
    body: &[u8],
    place: usize,
    table: &Table,
) -> Result<List<Value>, RowError>
    requires place { place < 256 }
    requires some { 1 ≤ length table.now.columns }
    requires few { length table.now.columns ≤ 64 }
    ensures { Reads (λ row. row) result (body_of fault.Field (write_form place table.now) body.now) }
{
    let columns = table.columns.as_slice();
    let rest = rows_at(body, place, table)?;
    let rest = bitmap_at(rest, columns.len(), ones(columns.len()), BodyFault::Field)?;
    let (row, rest) = image_at(alloc, rest, columns)?;
    ended(rest)?;
    Ok(row)
}

/// The row that the body puts in the place of the row with its key.
#[tactic(auto, unfolding(crate::specs::Rows::update_form))]
pub fn updated_of(
    alloc: Global,
    body: &[u8],
    place: usize,
    table: &Table,
) -> Result<List<Value>, RowError>
    requires place { place < 256 }
    requires some { 1 ≤ length table.now.columns }
    requires few { length table.now.columns ≤ 64 }
    ensures { Reads (λ row. row) result (body_of fault.Field (update_form place table.now) body.now) }
{
    let columns = table.columns.as_slice();
    let rest = rows_at(body, place, table)?;
    let rest = bitmap_at(rest, columns.len(), 1, BodyFault::Field)?;
    let rest = bitmap_at(rest, columns.len(), ones(columns.len()), BodyFault::Field)?;
    let (key, rest) = key_at(alloc, rest, columns)?;
    let (row, rest) = image_with(alloc, rest, columns, &key)?;
    ended(rest)?;
    Ok(row)
}

/// The key of the row that the body takes away from this table.
#[tactic(auto, unfolding(crate::specs::Rows::delete_form))]
pub fn deleted_of(
    alloc: Global,
    body: &[u8],
    place: usize,
    table: &Table,
) -> Result<Value, RowError>
    requires place { place < 256 }
    requires few { length table.now.columns ≤ 64 }
    ensures { Reads (λ key. key) result (body_of fault.Field (delete_form place table.now) body.now) }
{
    let columns = table.columns.as_slice();
    let rest = rows_at(body, place, table)?;
    let rest = bitmap_at(rest, columns.len(), 1, BodyFault::Field)?;
    let (key, rest) = key_at(alloc, rest, columns)?;
    ended(rest)?;
    Ok(key)
}
