//! Row images: which values are Null, and the others.
ghost use Rattle.std.specs.Prelude.{◌≤◌, length};
ghost use Rattle.event_frame.specs.Forms.{front_of};
ghost use Rattle.event_txn.specs.Rows.{image_form, image_with, key_form, values_form, values_with, cell_form};
ghost use Rattle.event_txn.specs.Reading.{Reads};
ghost use Rattle.event_txn.specs.declared.faults.BodyFault.TheVariants as fault;

use crate::faults::{BodyFault, RowError};
use crate::fields::*;
use ring_plain::same_value;
use ring_types::{Column, List, Shape, Text, Value};
use std::alloc::Global;

/// A value, or Null.
fn cell_at(
    alloc: Global,
    bytes: &[u8],
    null: bool,
    shape: Shape,
) -> Result<(Value, &[u8]), RowError>
    ensures { Reads (λ x. (x.0, x.1.now)) result (front_of fault.Field (cell_form null shape) bytes.now) }
{
    match (null, shape) {
        (true, _) => Ok((Value::Null, bytes)),
        (false, Shape::Int) => {
            let (number, rest) = long_at(bytes, BodyFault::Value)?;
            Ok((Value::Int(number.cast_signed()), rest))
        }
        (false, Shape::Text { limit }) => {
            let (text, rest) = text_at(bytes, limit)?;
            Ok((Value::Text(Text::copy_of(alloc, text)?), rest))
        }
    }
}

/// The values of these columns, of which the bits tell the Nulls.
fn values_at<'a>(
    alloc: Global,
    bytes: &'a [u8],
    columns: &[Column],
    bits: u64,
) -> Result<(List<Value>, &'a [u8]), RowError>
    ensures { Reads (λ x. (x.0, x.1.now)) result (front_of fault.Field (values_form columns.now bits) bytes.now) }
{
    let mut values = List::new(alloc);
    let mut rest = bytes;
    let mut left = bits;
    for column in columns {
        let (value, after) = cell_at(alloc, rest, left % 2 == 1, column.shape)?;
        values.push(value)?;
        rest = after;
        left = left / 2;
    }
    Ok((values, rest))
}

/// The values of these columns of a row that has this key.
fn values_with<'a>(
    alloc: Global,
    bytes: &'a [u8],
    columns: &[Column],
    bits: u64,
    key: &Value,
) -> Result<(List<Value>, &'a [u8]), RowError>
    ensures { Reads (λ x. (x.0, x.1.now)) result (front_of fault.Field (values_with key.now columns.now bits) bytes.now) }
{
    match columns {
        [] => Ok((List::new(alloc), bytes)),
        [first, others @ ..] => {
            let (value, rest) = cell_at(alloc, bytes, bits % 2 == 1, first.shape)?;
            let rest = agrees_at(rest, same_value(key, &value), BodyFault::Value)?;
            let mut row = List::of_one(alloc, value)?;
            let (values, rest) = values_at(alloc, rest, others, bits / 2)?;
            row.append(values)?;
            Ok((row, rest))
        }
    }
}

/// The row of these columns.
#[tactic(auto, unfolding(crate::specs::Rows::image_form))]
pub fn image_at<'a>(
    alloc: Global,
    bytes: &'a [u8],
    columns: &[Column],
) -> Result<(List<Value>, &'a [u8]), RowError>
    requires { length columns.now ≤ 64 }
    ensures { Reads (λ x. (x.0, x.1.now)) result (front_of fault.Field (image_form columns.now) bytes.now) }
{
    let (bits, rest) = nulls_at(bytes, columns.len())?;
    values_at(alloc, rest, columns, bits)
}

/// The row of these columns that has this key.
#[tactic(auto, unfolding(crate::specs::Rows::image_with))]
pub fn image_with<'a>(
    alloc: Global,
    bytes: &'a [u8],
    columns: &[Column],
    key: &Value,
) -> Result<(List<Value>, &'a [u8]), RowError>
    requires { length columns.now ≤ 64 }
    ensures { Reads (λ x. (x.0, x.1.now)) result (front_of fault.Field (image_with key.now columns.now) bytes.now) }
{
    let (bits, rest) = nulls_at(bytes, columns.len())?;
    values_with(alloc, rest, columns, bits, key)
}

/// The key, from an image of the first column alone.
pub fn key_at<'a>(
    alloc: Global,
    bytes: &'a [u8],
    columns: &[Column],
) -> Result<(Value, &'a [u8]), RowError>
    ensures { Reads (λ x. (x.0, x.1.now)) result (front_of fault.Field (key_form columns.now) bytes.now) }
{
    match columns {
        [] => Ok((Value::Null, bytes)),
        [first, ..] => {
            let (_, rest) = nulls_at(bytes, 1)?;
            cell_at(alloc, rest, false, first.shape)
        }
    }
}
