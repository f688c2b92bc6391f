//! The bytes of the log's three files, written group by group.
ghost use Rattle.std.specs.Prelude.{◌≡◌};
ghost use Rattle.entry_group.specs.Groups.{can_stand, kind_of};

use crate::entries::entry;
use entry_group::write_entry;
use event_control::write_head;
use event_frame::MOST_BODY_BYTES;
use ring_plain::payload_fits;
use ring_types::{Entry, LAST_FILE, Memory, Payload, Place, Ring, Schema};
use std::alloc::Global;

/// The set of so many transactions of one server, numbered from 1: one interval, the end exclusive.
fn set_of(alloc: Global, count: u64) -> Result<Vec<u8>, Memory> {
    let mut out = Vec::new(alloc);
    if count == 0 {
        out.extend_from_slice(&[0; 8])?;
        return Ok(out);
    }
    out.extend_from_slice(&1u64.to_le_bytes())?;
    out.extend_from_slice(&1u128.to_be_bytes())?;
    out.extend_from_slice(&1u64.to_le_bytes())?;
    out.extend_from_slice(&1u64.to_le_bytes())?;
    out.extend_from_slice(&count.saturating_add(1).to_le_bytes())?;
    Ok(out)
}

/// Puts the head of a file with so many transactions before it.
fn put_head(alloc: Global, out: &mut Vec<u8>, count: u64) -> Result<(), Memory> {
    let set = set_of(alloc, count)?;
    if set.len() as u64 <= MOST_BODY_BYTES {
        write_head(out, set.as_slice())?;
    }
    Ok(())
}

/// Whether an entry of this payload may stand there.
fn may_stand(schema: &Schema, payload: &Payload, place: Place) -> bool
    ensures { result ≡ can_stand schema.now place (kind_of payload.now) }
{
    match payload {
        Payload::NoOp => true,
        Payload::Rotate => u64::from(place.file) < LAST_FILE,
        Payload::Txn(_) => 1 <= place.sequence && 1 <= schema.tables.len(),
    }
}

/// Puts the group of an entry at the end of a file, if it is one that can stand there. A file of the cases
/// has one transaction.
fn put_group(out: &mut Vec<u8>, ring: &Ring, entry: &Entry, file: u32) -> Result<(), Memory> {
    ring.law_built();
    let schema = ring.schema();
    let place = Place {
        file,
        at: out.len() as u64,
        sequence: 1,
    };
    if payload_fits(schema, &entry.payload) && may_stand(schema, &entry.payload, place) {
        write_entry(out, schema, entry, place)?;
    }
    Ok(())
}

/// The bytes of a file of the log. The first has entries 1 to 3, the second 4 and 5, the third 6 and 7; so
/// many transactions are before it as there are files.
pub fn file(alloc: Global, ring: &Ring, number: u32) -> Result<Vec<u8>, Memory> {
    let (first, end) = match number {
        1 => (1, 4),
        2 => (4, 6),
        _ => (6, 8),
    };
    let mut out = Vec::new(alloc);
    put_head(alloc, &mut out, u64::from(number.saturating_sub(1)))?;
    for position in first..end {
        let entry = entry(alloc, position)?;
        put_group(&mut out, ring, &entry, number)?;
    }
    Ok(out)
}
