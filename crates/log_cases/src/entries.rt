//! The log of the cases, and the ring whose table its transactions change.
use ring_file::read_ring;
use ring_types::{
    Change, Entry, Gtid, List, Memory, Opid, Payload, RegionId, Ring, Text, Txn, Value,
};
use std::alloc::Global;

const RING: &[u8] = b"version = 1
home = \"east\"
database = \"app\"
regions = [\"east\"]

[[node]]
id = 1
region = \"east\"
kind = \"full\"
uuid = \"3e11fa47-71ca-11e1-9e33-c80aa9429562\"

[[table]]
name = \"t\"
columns = [\"id int\", \"name text 20\"]
";

/// The ring of one node and one table.
pub fn ring(alloc: Global) -> Result<Option<Ring>, Memory> {
    match read_ring(alloc, RING) {
        Ok(ring) => Ok(Some(ring)),
        Err(_) => Ok(None),
    }
}

/// The transaction of this number: one insert, whose text has one byte.
fn insert(alloc: Global, number: u8) -> Result<Payload, Memory> {
    let mut row = List::of_one(alloc, Value::Int(i64::from(number)))?;
    row.push(Value::Text(Text::copy_of(alloc, "a")?))?;
    let change = Change::Insert {
        table: Text::copy_of(alloc, "t")?,
        row,
    };
    let gtid = Gtid {
        server: 1,
        number: u64::from(number),
    };
    Ok(Payload::Txn(Txn {
        gtid,
        changes: List::of_one(alloc, change)?,
    }))
}

fn payload(alloc: Global, position: u64) -> Result<Payload, Memory> {
    match position {
        2 => insert(alloc, 1),
        4 => insert(alloc, 2),
        7 => insert(alloc, 3),
        3 | 5 => Ok(Payload::Rotate),
        _ => Ok(Payload::NoOp),
    }
}

/// The entry of the log at a position: a NoOp, an insert and a Rotate, an insert and a Rotate, and then, of
/// the next term, a NoOp and an insert.
pub fn entry(alloc: Global, position: u64) -> Result<Entry, Memory> {
    let term = if position < 6 { 1 } else { 2 };
    Ok(Entry {
        opid: Opid { term, position },
        region: RegionId(1),
        payload: payload(alloc, position)?,
    })
}
