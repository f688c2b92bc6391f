use entry_group::{read_entry, write_entry};
use event_control::write_head;
use ring_file::read_ring;
use ring_plain::payload_fits;
use ring_types::{
    Change, Entry, Gtid, List, Memory, Opid, Payload, Place, RegionId, Ring, Schema, Text, Txn,
    Value,
};
use std::alloc::Global;

const RING: &[u8] = b"version = 1
home = \"east\"
database = \"app\"
regions = [\"east\"]

[[node]]
id = 1
region = \"east\"
kind = \"full\"
uuid = \"3e11fa47-71ca-11e1-9e33-c80aa9429562\"

[[table]]
name = \"t\"
columns = [\"id int\", \"name text 20\"]
";

/// The entry of a transaction with one insert.
fn entry(alloc: Global) -> Result<Entry, Memory> {
    let mut row = List::of_one(alloc, Value::Int(7))?;
    row.push(Value::Text(Text::copy_of(alloc, "sixteen bytes of")?))?;
    let change = Change::Insert {
        table: Text::copy_of(alloc, "t")?,
        row,
    };
    let txn = Txn {
        gtid: Gtid {
            server: 1,
            number: 1,
        },
        changes: List::of_one(alloc, change)?,
    };
    Ok(Entry {
        opid: Opid {
            term: 1,
            position: 1,
        },
        region: RegionId(1),
        payload: Payload::Txn(txn),
    })
}

/// Gives the transaction this number, in its position and in its GTID.
fn renumber(entry: &mut Entry, number: u64) {
    entry.opid.position = number;
    if let Payload::Txn(txn) = &mut entry.payload {
        txn.gtid.number = number;
    }
}

/// The place of the next group of a transaction in the same file.
fn behind(place: Place, size: u64) -> Place {
    Place {
        file: place.file,
        at: place.at.wrapping_add(size),
        sequence: place.sequence.saturating_add(1),
    }
}

const FIRST: Place = Place {
    file: 1,
    at: 157,
    sequence: 1,
};

/// Puts the group of a transaction, if it is one that can stand there.
fn put_group(out: &mut Vec<u8>, ring: &Ring, entry: &Entry, place: Place) -> Result<(), Memory> {
    ring.law_built();
    let schema = ring.schema();
    let Payload::Txn(_) = &entry.payload else {
        return Ok(());
    };
    if payload_fits(schema, &entry.payload) && 1 <= schema.tables.len() && 1 <= place.sequence {
        write_entry(out, schema, entry, place)?;
    }
    Ok(())
}

/// Puts the groups of so many transactions, numbered from 1, one behind another.
fn put_groups(alloc: Global, out: &mut Vec<u8>, ring: &Ring, count: u64) -> Result<(), Memory> {
    let mut entry = entry(alloc)?;
    let mut place = FIRST;
    for before in 0..count {
        let begin = out.len();
        renumber(&mut entry, before.saturating_add(1));
        put_group(out, ring, &entry, place)?;
        place = behind(place, (out.len() as u64).saturating_sub(begin as u64));
    }
    Ok(())
}

/// A binary log file with so many groups. The set of earlier transactions in its head is empty.
pub fn file(alloc: Global, count: u64) -> Result<Vec<u8>, Memory> {
    let mut out = Vec::new(alloc);
    if let Some(ring) = ring(alloc)? {
        write_head(&mut out, &[0; 8])?;
        put_groups(alloc, &mut out, &ring, count)?;
    }
    Ok(out)
}

/// The size of the group that the bytes begin with; 0 if there is none.
fn group_at(alloc: Global, ring: &Ring, bytes: &[u8], place: Place) -> u64 {
    ring.law_built();
    match read_entry(alloc, ring.schema(), bytes, place) {
        Ok(read) => read.size,
        Err(_) => 0,
    }
}

/// How many groups stand there, one behind another.
fn counted(alloc: Global, ring: &Ring, bytes: &[u8]) -> u64 {
    let mut place = FIRST;
    let mut begin = 0usize;
    let mut count = 0u64;
    for _ in 0..bytes.len() {
        let Some(rest) = bytes.get(begin..) else {
            return count;
        };
        let size = group_at(alloc, ring, rest, place);
        if size == 0 {
            return count;
        }
        place = behind(place, size);
        begin = begin.saturating_add(size as usize);
        count = count.saturating_add(1);
    }
    count
}

/// The ring of one node and one table.
pub(crate) fn ring(alloc: Global) -> Result<Option<Ring>, Memory> {
    match read_ring(alloc, RING) {
        Ok(ring) => Ok(Some(ring)),
        Err(_) => Ok(None),
    }
}

/// The bytes of so many groups.
pub fn written(alloc: Global, count: u64) -> Result<u64, Memory> {
    let mut out = Vec::new(alloc);
    if let Some(ring) = ring(alloc)? {
        put_groups(alloc, &mut out, &ring, count)?;
    }
    Ok(out.len() as u64)
}

/// How many of so many groups are read back.
pub fn read(alloc: Global, count: u64) -> Result<u64, Memory> {
    let mut out = Vec::new(alloc);
    let Some(ring) = ring(alloc)? else {
        return Ok(0);
    };
    put_groups(alloc, &mut out, &ring, count)?;
    Ok(counted(alloc, &ring, out.as_slice()))
}
