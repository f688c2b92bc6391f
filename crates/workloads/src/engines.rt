use crate::groups::ring;
use prepared_txns::Prepared;
use ring_types::{Change, Gtid, List, Memory, Opid, Text, Txn, Value};
use row_engine::Tables;
use std::alloc::Global;

/// How many rows the table has, and how many transactions are prepared, before the work begins.
const COUNT: u64 = 10_000;

fn key(number: u64) -> Value {
    Value::Int((number & 0xffff_ffff) as i64)
}

fn table(alloc: Global) -> Result<Text, Memory> {
    Text::copy_of(alloc, "t")
}

fn row(alloc: Global, number: u64) -> Result<List<Value>, Memory> {
    let mut row = List::of_one(alloc, key(number))?;
    row.push(Value::Text(Text::copy_of(alloc, "sixteen bytes of")?))?;
    Ok(row)
}

fn insert(alloc: Global, number: u64) -> Result<Change, Memory> {
    let table = table(alloc)?;
    let row = row(alloc, number)?;
    Ok(Change::Insert { table, row })
}

fn update(alloc: Global, number: u64) -> Result<Change, Memory> {
    let table = table(alloc)?;
    let row = row(alloc, number)?;
    Ok(Change::Update { table, row })
}

fn delete(alloc: Global, number: u64) -> Result<Change, Memory> {
    let table = table(alloc)?;
    Ok(Change::Delete {
        table,
        key: key(number),
    })
}

/// Inserts a new row, updates an old one, and deletes the row that was inserted, in turn.
fn change(alloc: Global, number: u64) -> Result<Change, Memory> {
    match number % 3 {
        0 => insert(alloc, number.saturating_add(COUNT)),
        1 => update(alloc, number % COUNT),
        _ => delete(alloc, number.saturating_add(COUNT - 2)),
    }
}

/// Checks and applies one change as a transaction; tells whether it was accepted.
fn took(alloc: Global, tables: &mut Tables, change: Change) -> Result<bool, Memory> {
    let changes = List::of_one(alloc, change)?;
    if tables.check(&changes).is_err() {
        return Ok(false);
    }
    tables.apply(&changes)
}

fn tables(alloc: Global) -> Result<Option<Tables>, Memory> {
    match ring(alloc)? {
        Some(ring) => Ok(Some(Tables::new(alloc, ring.schema())?)),
        None => Ok(None),
    }
}

fn fill(alloc: Global, tables: &mut Tables) -> Result<(), Memory> {
    for number in 0..COUNT {
        took(alloc, tables, insert(alloc, number)?)?;
    }
    Ok(())
}

fn work(alloc: Global, tables: &mut Tables, count: u64) -> Result<u64, Memory> {
    let mut taken = 0u64;
    for number in 0..count {
        if took(alloc, tables, change(alloc, number)?)? {
            taken = taken.saturating_add(1);
        }
    }
    Ok(taken)
}

/// How many of so many changes are accepted: all.
pub fn changed(alloc: Global, count: u64) -> Result<u64, Memory> {
    let Some(mut tables) = tables(alloc)? else {
        return Ok(0);
    };
    fill(alloc, &mut tables)?;
    work(alloc, &mut tables, count)
}

/// Prepares a transaction that inserts this key; tells whether it could.
fn prepare(alloc: Global, prepared: &mut Prepared, number: u64) -> Result<bool, Memory> {
    let opid = Opid {
        term: 1,
        position: number,
    };
    let gtid = Gtid { server: 1, number };
    let changes = List::of_one(alloc, insert(alloc, number)?)?;
    Ok(prepared.prepare(opid, Txn { gtid, changes }).is_ok())
}

fn prepare_all(alloc: Global, prepared: &mut Prepared) -> Result<(), Memory> {
    for number in 0..COUNT {
        prepare(alloc, prepared, number)?;
    }
    Ok(())
}

/// Whether a prepared transaction holds the key.
fn is_held(alloc: Global, prepared: &Prepared, number: u64) -> Result<bool, Memory> {
    let changes = List::of_one(alloc, delete(alloc, number)?)?;
    Ok(prepared.conflict(&changes).is_some())
}

/// How many of so many keys are held: of each 20,000, 10,000.
pub fn held(alloc: Global, count: u64) -> Result<u64, Memory> {
    let mut prepared = Prepared::new(alloc);
    prepare_all(alloc, &mut prepared)?;
    let mut found = 0u64;
    for number in 0..count {
        if is_held(alloc, &prepared, number % (2 * COUNT))? {
            found = found.saturating_add(1);
        }
    }
    Ok(found)
}
