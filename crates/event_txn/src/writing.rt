//! Writing a transaction: its events in order, each body put in place behind its header.
ghost use Rattle.std.specs.Prelude.{◌≡◌, ℕ, ◌≤◌, ◌<◌, ◌+◌, ◌%◌, ◌^◌, ◌++◌, true, length, OnOk, OnErr, IfOk, Some};
ghost use Rattle.std.specs.List.{list_all};
ghost use Rattle.event_frame.specs.Events.{event, size_of};
ghost use Rattle.event_frame.specs.declared.frames.TheConstants.{MOST_BODY_BYTES};
ghost use Rattle.ring_types.specs.Rings.{is_schema, column_fits};
ghost use Rattle.ring_types.specs.Rows.{changes_fit, change_fits, fits_table, place_in, table_name};
ghost use Rattle.event_txn.specs.Bodies.{gtid_body, begin_body, xid_body};
ghost use Rattle.event_txn.specs.Tables.{map_body, table_at};
ghost use Rattle.event_txn.specs.Rows.{kind_of, rows_body};
ghost use Rattle.event_txn.specs.Txns.{txn_events, change_bodies, changes_bodies, events_from, behind};
ghost use Rattle.event_txn.specs.Writing.{Keeps};

use crate::appending::*;
use crate::putting::{put_change_body, put_description};
use crate::tables::{table_in, table_number};
use event_frame::{put_header, put_sum, write_event};
use ring_plain::{place_in, rows_event_size, table_map_size, table_name};
use ring_types::{Change, Gtid, Memory, Place, Schema, Table, Txn};

/// Puts the GTID event.
#[tactic(auto, using(crate::proofs::Kept::kept_same))]
fn put_gtid(out: &mut Vec<u8>, gtid: Gtid, sequence: u64, at: u64) -> Result<(), Memory>
    requires { 1 ≤ sequence }
    ensures ok { OnOk result (out.new.items ≡ out.old.items ++ event 33 0 (gtid_body sequence gtid) at) }
    ensures err { OnErr result (Keeps out.old.items out.new.items) }
{
    write_event(out, 33, 0, &gtid_body(gtid, sequence), at)
}

#[tactic(auto, unfolding(crate::specs::Bodies::gtid_body))]
fn gtid_body(gtid: Gtid, sequence: u64) -> [u8; 42]
    requires { 1 ≤ sequence }
    ensures { result ≡ gtid_body sequence gtid }
{
    let [a, b, c, d, e, f, g, h, i, j, k, l, m, n, o, p] = gtid.server.to_be_bytes();
    let [q, r, s, t, u, v, w, x] = gtid.number.to_le_bytes();
    let [a1, b1, c1, d1, e1, f1, g1, h1] = (sequence - 1).to_le_bytes();
    let [a2, b2, c2, d2, e2, f2, g2, h2] = sequence.to_le_bytes();
    [
        0, a, b, c, d, e, f, g, h, i, j, k, l, m, n, o, p, q, r, s, t, u, v, w, x, 2, a1, b1, c1,
        d1, e1, f1, g1, h1, a2, b2, c2, d2, e2, f2, g2, h2,
    ]
}

/// Puts the event that says BEGIN.
#[tactic(auto, using(crate::proofs::Kept::kept_same))]
fn put_begin(out: &mut Vec<u8>, at: u64) -> Result<(), Memory>
    ensures ok { OnOk result (out.new.items ≡ out.old.items ++ event 2 0 begin_body at) }
    ensures err { OnErr result (Keeps out.old.items out.new.items) }
{
    write_event(out, 2, 0, b"\0\0\0\0\0\0\0\0\0\0\0\0\0\0BEGIN", at)
}

/// Puts the event that ends the transaction.
#[tactic(auto, using(crate::proofs::Kept::kept_same))]
fn put_xid(out: &mut Vec<u8>, position: u64, at: u64) -> Result<(), Memory>
    ensures ok { OnOk result (out.new.items ≡ out.old.items ++ event 16 0 (xid_body position) at) }
    ensures err { OnErr result (Keeps out.old.items out.new.items) }
{
    write_event(out, 16, 0, &position.to_le_bytes(), at)
}

/// Puts the event that describes the table at this place, and gives its size.
#[tactic(auto, using(crate::proofs::Puts::event_put, crate::proofs::Kept::kept_behind, crate::proofs::Kept::kept_same))]
fn put_table(out: &mut Vec<u8>, schema: &Schema, place: usize, at: u64) -> Result<u64, Memory>
    requires schema { is_schema schema.now ≡ true }
    requires place { place < length schema.now.tables }
    ensures ok { OnOk result (out.new.items ≡ out.old.items ++ event 19 0 (map_body schema.now place) at) }
    ensures size { IfOk result (λ n. n ≡ size_of (map_body schema.now place)) }
    ensures err { OnErr result (Keeps out.old.items out.new.items) }
{
    let begin = out.len();
    let size = map_size(schema, place);
    put_header(out, 19, 0, size, at)?;
    put_map_body(out, schema, place)?;
    put_sum(out, begin)?;
    Ok(size as u64 + 23)
}

/// The bytes of the body that describes the table at this place.
#[tactic(auto, using(crate::proofs::Lengths::map_length, crate::proofs::Lengths::map_small))]
fn map_size(schema: &Schema, place: usize) -> u32
    requires schema { is_schema schema.now ≡ true }
    requires place { place < length schema.now.tables }
    ensures size { result ≡ length (map_body schema.now place) }
    ensures small { result ≤ MOST_BODY_BYTES }
{
    table_map_size(schema, table_in(schema, place)) as u32 - 23
}

#[tactic(auto, using(crate::proofs::Kept::kept_behind), unfolding(crate::specs::Tables::map_body))]
fn put_map_body(out: &mut Vec<u8>, schema: &Schema, place: usize) -> Result<(), Memory>
    requires schema { is_schema schema.now ≡ true }
    requires place { place < length schema.now.tables }
    ensures ok { OnOk result (out.new.items ≡ out.old.items ++ map_body schema.now place) }
    ensures err { OnErr result (Keeps out.old.items out.new.items) }
{
    put(out, &table_number(place))?;
    put_description(out, schema, table_in(schema, place))
}

/// The type of the event that makes a change.
fn kind_of(change: &Change) -> u8
    ensures { result ≡ kind_of change.now }
{
    match change {
        Change::Insert { .. } => 30,
        Change::Update { .. } => 31,
        Change::Delete { .. } => 32,
    }
}

/// Puts the event that makes a change of the table, and gives its size.
#[tactic(auto, using(crate::proofs::Puts::event_put, crate::proofs::Kept::kept_behind, crate::proofs::Kept::kept_same))]
fn put_row(
    out: &mut Vec<u8>,
    schema: &Schema,
    place: usize,
    change: &Change,
    at: u64,
) -> Result<u64, Memory>
    requires schema { is_schema schema.now ≡ true }
    requires place { place < length schema.now.tables }
    requires fits { fits_table (table_at schema.now place) change.now ≡ true }
    ensures ok { OnOk result (out.new.items ≡ out.old.items ++ event (kind_of change.now) 0 (rows_body place (table_at schema.now place) change.now) at) }
    ensures size { IfOk result (λ n. n ≡ size_of (rows_body place (table_at schema.now place) change.now)) }
    ensures err { OnErr result (Keeps out.old.items out.new.items) }
{
    let begin = out.len();
    let table = table_in(schema, place);
    let size = row_size(table, change);
    put_header(out, kind_of(change), 0, size, at)?;
    put_change_body(out, place, table, change)?;
    put_sum(out, begin)?;
    Ok(size as u64 + 23)
}

/// The bytes of the body that makes a change of the table.
#[tactic(auto, using(crate::proofs::Lengths::row_length, crate::proofs::Lengths::row_small))]
fn row_size(table: &Table, change: &Change) -> u32
    requires columns { list_all column_fits table.now.columns ≡ true }
    requires some { 1 ≤ length table.now.columns }
    requires few { length table.now.columns ≤ 64 }
    requires fits { fits_table table.now change.now ≡ true }
    ensures size { (place : ℕ) → result ≡ length (rows_body place table.now change.now) }
    ensures small { result ≤ MOST_BODY_BYTES }
{
    rows_event_size(table, change) as u32 - 23
}

/// Puts the two events of a change, and gives the offset behind them, modulo 2^64.
#[tactic(auto, using(crate::proofs::Kept::kept_behind, crate::proofs::Events::change_behind))]
fn put_change(out: &mut Vec<u8>, schema: &Schema, change: &Change, at: u64) -> Result<u64, Memory>
    requires schema { is_schema schema.now ≡ true }
    requires fits { change_fits schema.now change.now ≡ true }
    ensures ok { OnOk result (out.new.items ≡ out.old.items ++ events_from at (change_bodies schema.now change.now)) }
    ensures behind { IfOk result (λ n. n ≡ behind at (change_bodies schema.now change.now) % 2 ^ 64) }
    ensures err { OnErr result (Keeps out.old.items out.new.items) }
{
    let place = place_of(schema, change);
    let first = put_table(out, schema, place, at)?;
    let next = at.wrapping_add(first);
    let second = put_row(out, schema, place, change, next)?;
    Ok(next.wrapping_add(second))
}

/// The place in the schema of the table that the change names.
#[tactic(auto, using(crate::proofs::Places::is_place, crate::proofs::Places::no_place))]
fn place_of(schema: &Schema, change: &Change) -> usize
    requires { change_fits schema.now change.now ≡ true }
    ensures place { place_in schema.now (table_name change.now) ≡ Some result }
    ensures within { result < length schema.now.tables }
    ensures fits { fits_table (table_at schema.now result) change.now ≡ true }
{
    match place_in(schema, table_name(change)) {
        Some(place) => place,
        None => unreachable!(),
    }
}

/// Puts the events of the changes, and gives the offset behind them, modulo 2^64.
#[tactic(auto, using(crate::proofs::Kept::kept_on))]
fn put_changes(
    out: &mut Vec<u8>,
    schema: &Schema,
    changes: &[Change],
    at: u64,
) -> Result<u64, Memory>
    requires schema { is_schema schema.now ≡ true }
    requires fit { list_all (change_fits schema.now) changes.now ≡ true }
    ensures ok { OnOk result (out.new.items ≡ out.old.items ++ events_from at (changes_bodies schema.now changes.now)) }
    ensures behind { IfOk result (λ n. n ≡ behind at (changes_bodies schema.now changes.now) % 2 ^ 64) }
    ensures err { OnErr result (Keeps out.old.items out.new.items) }
{
    let mut offset = at;
    for change in changes {
        offset = put_change(out, schema, change, offset)?;
    }
    Ok(offset)
}

/// Without memory a part of them may be put.
#[tactic(auto, using(crate::proofs::Kept::kept_behind, crate::proofs::Events::txn_put))]
fn put_events(
    out: &mut Vec<u8>,
    schema: &Schema,
    txn: &Txn,
    position: u64,
    place: Place,
) -> Result<(), Memory>
    requires schema { is_schema schema.now ≡ true }
    requires changes { changes_fit schema.now txn.now.changes ≡ true }
    requires sequence { 1 ≤ place.sequence }
    ensures ok { OnOk result (out.new.items ≡ out.old.items ++ txn_events schema.now txn.now position place) }
    ensures err { OnErr result (Keeps out.old.items out.new.items) }
{
    let at = place.at;
    put_gtid(out, txn.gtid, place.sequence, at)?;
    put_begin(out, at.wrapping_add(65))?;
    let behind = put_changes(out, schema, txn.changes.as_slice(), at.wrapping_add(107))?;
    put_xid(out, position, behind)?;
    Ok(())
}

/// Puts the events of a transaction whose entry has this position. They stand at this place in the
/// binary log files, whose offset counts modulo 2^32 alone. Without memory nothing is put.
#[tactic(auto, using(crate::proofs::Kept::kept_front))]
pub fn write_txn(
    out: &mut Vec<u8>,
    schema: &Schema,
    txn: &Txn,
    position: u64,
    place: Place,
) -> Result<(), Memory>
    requires schema { is_schema schema.now ≡ true }
    requires changes { changes_fit schema.now txn.now.changes ≡ true }
    requires sequence { 1 ≤ place.sequence }
    ensures ok { OnOk result (out.new.items ≡ out.old.items ++ txn_events schema.now txn.now position place) }
    ensures err { OnErr result (out.new.items ≡ out.old.items) }
{
    let begin = out.len();
    match put_events(out, schema, txn, position, place) {
        Ok(()) => Ok(()),
        Err(error) => {
            out.truncate(begin);
            Err(error)
        }
    }
}
