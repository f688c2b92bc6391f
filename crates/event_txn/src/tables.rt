//! The body that describes a table before its rows.
ghost use Rattle.std.specs.Prelude.{◌≡◌, ◌≤◌, ◌<◌, ◌∷◌, [], true, length, IfOk};
ghost use Rattle.event_frame.specs.Forms.{One, body_of, front_of};
ghost use Rattle.event_frame.specs.Fields.{constant};
ghost use Rattle.event_frame.specs.Reading.{Gives};
ghost use Rattle.std.specs.List.{list_all};
ghost use Rattle.ring_types.specs.Rings.{is_schema, column_fits};
ghost use Rattle.ring_types.specs.Sizes.{all_metadata};
ghost use Rattle.event_txn.specs.Tables.{map_form, table_at, table_number, described, name_form, types_form, type_of, metadata_form, metadata_of, all_ones};
ghost use Rattle.event_txn.specs.declared.faults.BodyFault.TheVariants as fault;

use crate::faults::BodyFault;
use crate::fields::*;
use ring_types::{Column, Schema, Shape, Table};

/// The place in the schema of the table that the body describes.
pub fn map_of(body: &[u8], schema: &Schema) -> Result<usize, BodyFault>
    requires { is_schema schema.now ≡ true }
    ensures given { Gives (λ place. place) result (body_of fault.Field (map_form schema.now) body.now) }
    ensures place { IfOk result (λ place. place < length schema.now.tables) }
{
    let tables = schema.tables.as_slice();
    let (place, rest) = table_at(body, tables.len())?;
    let table = table_in(schema, place);
    let rest = described_at(rest, schema, table)?;
    ended(rest)?;
    Ok(place)
}

/// The table at a place that a table has.
pub fn table_in(schema: &Schema, place: usize) -> &Table
    requires schema { is_schema schema.now ≡ true }
    requires within { place < length schema.now.tables }
    ensures value { result.now ≡ table_at schema.now place }
    ensures name { length result.now.name ≤ 64 }
    ensures fits { list_all column_fits result.now.columns ≡ true }
    ensures columns { length result.now.columns ≤ 64 }
    ensures some { 1 ≤ length result.now.columns }
{
    let tables = schema.tables.as_slice();
    &tables[place]
}

/// A table's number, in six bytes.
pub fn table_number(place: usize) -> [u8; 6]
    requires { place < 256 }
    ensures { result ≡ table_number place }
{
    let [a, b, c, d] = (place as u32 + 1).to_le_bytes();
    [a, b, c, d, 0, 0]
}

/// The length of a name, in one byte.
pub fn length_byte(name: &[u8]) -> [u8; 1]
    requires { length name.now < 256 }
    ensures { result ≡ length name.now ∷ [] }
{
    [name.len() as u8]
}

/// What the body says of the table.
#[tactic(auto, unfolding(crate::specs::Tables::described))]
fn described_at<'a>(bytes: &'a [u8], schema: &Schema, table: &Table) -> Result<&'a [u8], BodyFault>
    requires database { length schema.now.database < 256 }
    requires name { length table.now.name < 256 }
    requires columns { length table.now.columns ≤ 64 }
    requires some { 1 ≤ length table.now.columns }
    ensures { Gives (λ x. (tt, x.now)) result (front_of fault.Field (described schema.now table.now) bytes.now) }
{
    let columns = table.columns.as_slice();
    let rest = constant_at(bytes, &[1, 0], BodyFault::Field)?;
    let rest = name_at(rest, schema.database.as_bytes())?;
    let rest = name_at(rest, table.name.as_bytes())?;
    let (count, rest) = packed_at(rest)?;
    let rest = agrees_at(rest, count == columns.len() as u64, BodyFault::Table)?;
    let rest = types_at(rest, columns)?;
    let (size, rest) = packed_at(rest)?;
    let rest = agrees_at(rest, size == metadata_size(table) as u64, BodyFault::Table)?;
    let rest = metadata_at(rest, columns)?;
    bitmap_at(
        rest,
        columns.len(),
        ones(columns.len()) - 1,
        BodyFault::Table,
    )
}

/// A name that is due: its length, its bytes, a zero.
#[tactic(auto, unfolding(crate::specs::Tables::name_form))]
fn name_at<'a>(bytes: &'a [u8], name: &[u8]) -> Result<&'a [u8], BodyFault>
    requires { length name.now < 256 }
    ensures { Gives (λ x. (tt, x.now)) result (front_of fault.Field (name_form name.now) bytes.now) }
{
    let rest = constant_at(bytes, &length_byte(name), BodyFault::Table)?;
    let rest = constant_at(rest, name, BodyFault::Table)?;
    constant_at(rest, &[0], BodyFault::Table)
}

/// The type of each column.
fn types_at<'a>(bytes: &'a [u8], columns: &[Column]) -> Result<&'a [u8], BodyFault>
    ensures { Gives (λ x. (tt, x.now)) result (front_of fault.Field (types_form columns.now) bytes.now) }
{
    let mut rest = bytes;
    for column in columns {
        rest = constant_at(rest, &[type_of(column.shape)], BodyFault::Table)?;
    }
    Ok(rest)
}

/// The number by which MySQL names a column's type.
pub fn type_of(shape: Shape) -> u8
    ensures { result ≡ type_of shape }
{
    match shape {
        Shape::Int => 8,
        Shape::Text { .. } => 15,
    }
}

/// The metadata of each column.
fn metadata_at<'a>(bytes: &'a [u8], columns: &[Column]) -> Result<&'a [u8], BodyFault>
    ensures { Gives (λ x. (tt, x.now)) result (front_of fault.Field (metadata_form columns.now) bytes.now) }
{
    let mut rest = bytes;
    for column in columns {
        rest = limit_at(rest, column.shape)?;
    }
    Ok(rest)
}

fn limit_at(bytes: &[u8], shape: Shape) -> Result<&[u8], BodyFault>
    ensures { Gives (λ x. (tt, x.now)) result (front_of fault.Field (One fault.Table (constant (metadata_of shape))) bytes.now) }
{
    match shape {
        Shape::Int => constant_at(bytes, &[], BodyFault::Table),
        Shape::Text { limit } => constant_at(bytes, &limit.to_le_bytes(), BodyFault::Table),
    }
}

/// The bytes of a table's metadata.
pub fn metadata_size(table: &Table) -> usize
    requires { length table.now.columns ≤ 64 }
    ensures { result ≡ all_metadata table.now }
{
    let columns = table.columns.as_slice();
    let mut size = 0;
    for column in columns {
        size += match column.shape {
            Shape::Int => 0,
            Shape::Text { .. } => 2,
        };
    }
    size
}

/// A number of this many ones.
pub fn ones(columns: usize) -> u64
    requires some { 1 ≤ columns }
    requires few { columns ≤ 64 }
    ensures value { result ≡ all_ones columns }
    ensures some { 1 ≤ result }
{
    u64::MAX >> (64 - columns)
}
