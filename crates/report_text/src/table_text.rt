ghost use Rattle.std.specs.Prelude.{◌≡◌, ◌+◌, ◌^◌, ◌<◌, ◌≤◌, ◌++◌, ◌∷◌, IfOk, OnOk, drop, length, take};
ghost use Rattle.std.specs.List.{flat_map};
ghost use Rattle.ring_types.specs.Rows as made;
ghost use Rattle.row_engine.specs.Filled.{AreNamedOnce};
ghost use Rattle.report_text.specs.Report as spec;

use crate::appending::{put, put_field};
use crate::words::put_value;
use ring_model::Durable;
use ring_types::{List, MOST_TABLES, Memory, Schema, Table, Value};
use row_engine::Tables;
use std::alloc::Global;

fn put_values(out: &mut Vec<u8>, row: &[Value]) -> Result<(), Memory>
    ensures { OnOk result (out.new.items ≡ out.old.items ++ flat_map spec.after_space row.now) }
{
    for value in row {
        put(out, b" ")?;
        put_value(out, value)?;
    }
    Ok(())
}

#[tactic(auto, unfolding(crate::specs::Report::row_line))]
fn put_row_line(out: &mut Vec<u8>, row: &[Value]) -> Result<(), Memory>
    ensures { OnOk result (out.new.items ≡ out.old.items ++ spec.row_line row.now) }
{
    put(out, b"row")?;
    put_values(out, row)?;
    put(out, b"\n")
}

fn put_row_lines(out: &mut Vec<u8>, rows: &[List<Value>]) -> Result<(), Memory>
    ensures { OnOk result (out.new.items ≡ out.old.items ++ flat_map spec.row_line rows.now) }
{
    for row in rows {
        put_row_line(out, row.as_slice())?;
    }
    Ok(())
}

#[tactic(auto, unfolding(crate::specs::Report::table_line))]
fn put_table_line(out: &mut Vec<u8>, table: &Table, rows: &[List<Value>]) -> Result<(), Memory>
    ensures { OnOk result (out.new.items ≡ out.old.items ++ spec.table_line table.now rows.now) }
{
    put(out, b"table ")?;
    put(out, table.name.as_bytes())?;
    put_field(out, b" ", rows.len() as u64)?;
    put(out, b"\n")
}

fn put_table(out: &mut Vec<u8>, table: &Table, rows: &[List<Value>]) -> Result<(), Memory>
    ensures { OnOk result (out.new.items ≡ out.old.items ++ spec.table_text table.now rows.now) }
{
    put_table_line(out, table, rows)?;
    put_row_lines(out, rows)
}

/// The rows of the table at a place of the schema.
#[tactic(auto, using(crate::proofs::Declared::rows_there))]
fn rows_at(tables: &Tables, place: usize, table: &Table) -> Result<List<List<Value>>, Memory>
    requires once { AreNamedOnce tables.now.schema }
    requires there { drop place tables.now.schema.tables ≡ table.now ∷ drop (place + 1) tables.now.schema.tables }
    ensures { IfOk result (λ it. it ≡ made.rows_at tables.now.rows place) }
{
    tables.rows(&table.name)
}

fn put_tables(
    out: &mut Vec<u8>,
    declared: &[Table],
    tables: &Tables,
    place: usize,
) -> Result<(), Memory>
    requires once { AreNamedOnce tables.now.schema }
    requires declared { declared.now ≡ drop place tables.now.schema.tables }
    requires inside { place + length declared.now < 2 ^ 64 }
    ensures { OnOk result (out.new.items ≡ out.old.items ++ spec.tables_from place declared.now tables.now.rows) }
{
    match declared {
        [] => Ok(()),
        [table, others @ ..] => {
            let rows = rows_at(tables, place, table)?;
            put_table(out, table, rows.as_slice())?;
            put_tables(out, others, tables, place + 1)
        }
    }
}

/// The tables as a node's applied entries make them.
fn applied_tables(alloc: Global, schema: &Schema, durable: &Durable) -> Result<Tables, Memory>
    ensures { IfOk result (λ it. it ≡ record { schema = schema.now; rows = made.rows schema.now (take durable.now.applied durable.now.log) }) }
{
    Tables::of_entries(alloc, schema, durable.log.prefix(durable.applied))
}

/// Puts the tables, as a node's applied entries make them, at the end.
#[tactic(auto, unfolding(crate::specs::Report::applied_tables))]
pub(crate) fn put_applied_tables(
    alloc: Global,
    out: &mut Vec<u8>,
    schema: &Schema,
    durable: &Durable,
) -> Result<(), Memory>
    requires once { AreNamedOnce schema.now }
    requires few { length schema.now.tables ≤ MOST_TABLES }
    ensures { OnOk result (out.new.items ≡ out.old.items ++ spec.applied_tables schema.now durable.now) }
{
    let tables = applied_tables(alloc, schema, durable)?;
    put_tables(out, schema.tables.as_slice(), &tables, 0)
}

/// Puts a line for each of the declared tables, the first of which has this place.
fn put_table_lines(
    out: &mut Vec<u8>,
    declared: &[Table],
    tables: &Tables,
    place: usize,
) -> Result<(), Memory>
    requires once { AreNamedOnce tables.now.schema }
    requires declared { declared.now ≡ drop place tables.now.schema.tables }
    requires inside { place + length declared.now < 2 ^ 64 }
    ensures { OnOk result (out.new.items ≡ out.old.items ++ spec.table_lines place declared.now tables.now.rows) }
{
    match declared {
        [] => Ok(()),
        [table, others @ ..] => {
            let rows = rows_at(tables, place, table)?;
            put_table_line(out, table, rows.as_slice())?;
            put_table_lines(out, others, tables, place + 1)
        }
    }
}

/// Puts a line for each table, with how many rows a node's applied entries make, at the end.
#[tactic(auto, unfolding(crate::specs::Report::counted_tables))]
pub(crate) fn put_counted_tables(
    alloc: Global,
    out: &mut Vec<u8>,
    schema: &Schema,
    durable: &Durable,
) -> Result<(), Memory>
    requires once { AreNamedOnce schema.now }
    requires few { length schema.now.tables ≤ MOST_TABLES }
    ensures { OnOk result (out.new.items ≡ out.old.items ++ spec.counted_tables schema.now durable.now) }
{
    let tables = applied_tables(alloc, schema, durable)?;
    put_table_lines(out, schema.tables.as_slice(), &tables, 0)
}
