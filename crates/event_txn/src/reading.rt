//! Reading a transaction: its events in order, each with the offset of the next.
ghost use Rattle.std.specs.Prelude.{◌≡◌, ◌≤◌, ◌<◌, ◌+◌, ◌^◌, true, length, take, drop, IfOk, IfSome};
ghost use Rattle.event_frame.specs.Forms.{front_of};
ghost use Rattle.event_frame.specs.Events.{event_at};
ghost use Rattle.event_frame.specs.Reading.{Gives};
ghost use Rattle.ring_types.specs.Rings.{is_schema};
ghost use Rattle.event_txn.specs.Reading.{FaultsBy, GivesTxn, Reads, offset_of};
ghost use Rattle.event_txn.specs.Txns.{event_of, due_gtid, due_begin, due_table, due_rows, due_more, changes_form, txn_at, refusal_of, change_in};
ghost use Rattle.event_txn.specs.declared.faults.TxnError.TheVariants as error;

use crate::bodies::*;
use crate::faults::{BodyFault, RowError, TxnError, fault_at};
use crate::rows::*;
use crate::tables::{map_of, table_in};
use event_frame::{Event, FrameError, read_event};
use ring_types::{Change, Duplicate, Gtid, List, Place, Schema, Table, Txn};
use std::alloc::Global;

/// A transaction that was read, and how many bytes its events take.
#[derive(Drop)]
pub struct TxnRead {
    pub txn: Txn,
    pub size: u64,
}

/// What a transaction's events must agree with: the tables, the position of the entry, and the
/// offset in the file of the first byte.
#[derive(Drop)]
struct Asked<'a> {
    schema: &'a Schema,
    position: u64,
    at: u64,
}

/// An event that was read: its body, the bytes behind it and their offset.
#[derive(Drop)]
struct Front<'a> {
    event: Event,
    body: &'a [u8],
    rest: &'a [u8],
    behind: u64,
}

/// The event at the front of the bytes, which stand at this offset of all that begins at `at` of
/// its file. Offsets in a file count modulo 2^32 alone, so the sum may wrap.
#[tactic(auto, using(crate::proofs::Offsets::wrapped))]
fn front_at(bytes: &[u8], at: u64, offset: u64) -> Result<Front, FrameError>
    requires { offset + length bytes.now < 2 ^ 64 }
    ensures exact { Gives (λ f. f.event) result (event_at bytes.now (at + offset)) }
    ensures body { IfOk result (λ f. f.body.now ≡ take f.event.body_len (drop 19 bytes.now)) }
    ensures rest { IfOk result (λ f. f.rest.now ≡ drop f.event.size bytes.now) }
    ensures behind { IfOk result (λ f. f.behind ≡ offset + f.event.size) }
    ensures size { IfOk result (λ f. f.behind + length f.rest.now ≡ offset + length bytes.now) }
{
    let event = read_event(bytes, at.wrapping_add(offset))?;
    let (_, behind) = bytes.split_at(19);
    let (body, _) = behind.split_at(event.body_len as usize);
    let (_, rest) = bytes.split_at(event.size as usize);
    Ok(Front {
        event,
        body,
        rest,
        behind: offset + event.size,
    })
}

/// The GTID event, which begins the transaction.
fn gtid_event<'a>(
    bytes: &'a [u8],
    schema: &Schema,
    place: Place,
) -> Result<(Gtid, u64, &'a [u8]), TxnError>
    ensures given { GivesTxn (λ x. ((x.0, x.1), x.2.now)) result (event_of place.at 0 (due_gtid schema.now place.sequence) bytes.now) }
    ensures size { IfOk result (λ x. x.1 + length x.2.now ≡ length bytes.now) }
    ensures fault { FaultsBy 0 result }
{
    let front = match front_at(bytes, place.at, 0) {
        Ok(front) => front,
        Err(fault) => return Err(TxnError::Frame { at: 0, fault }),
    };
    let some = place.sequence >= 1 && schema.tables.len() >= 1;
    if front.event.kind != 33 || front.event.flags != 0 || !some {
        return Err(TxnError::Order { at: 0 });
    }
    match gtid_of(front.body, place.sequence) {
        Ok(gtid) => Ok((gtid, front.behind, front.rest)),
        Err(fault) => Err(fault_at(0, fault)),
    }
}

/// The event that says BEGIN.
fn begin_event(bytes: &[u8], at: u64, offset: u64) -> Result<(u64, &[u8]), TxnError>
    requires { offset + length bytes.now < 2 ^ 64 }
    ensures given { GivesTxn (λ x. ((tt, x.0), x.1.now)) result (event_of at offset due_begin bytes.now) }
    ensures size { IfOk result (λ x. x.0 + length x.1.now ≡ offset + length bytes.now) }
    ensures fault { FaultsBy offset result }
{
    let front = match front_at(bytes, at, offset) {
        Ok(front) => front,
        Err(fault) => return Err(TxnError::Frame { at: offset, fault }),
    };
    if front.event.kind != 2 || front.event.flags != 0 {
        return Err(TxnError::Order { at: offset });
    }
    match begin_of(front.body) {
        Ok(()) => Ok((front.behind, front.rest)),
        Err(fault) => Err(fault_at(offset, fault)),
    }
}

/// The event that describes the first change's table, whose place is given.
fn table_event<'a>(
    bytes: &'a [u8],
    asked: &Asked,
    offset: u64,
) -> Result<(usize, u64, &'a [u8]), TxnError>
    requires schema { is_schema asked.now.schema.now ≡ true }
    requires offset { offset + length bytes.now < 2 ^ 64 }
    ensures given { GivesTxn (λ x. ((x.0, x.1), x.2.now)) result (event_of asked.now.at offset (due_table asked.now.schema.now) bytes.now) }
    ensures size { IfOk result (λ x. x.1 + length x.2.now ≡ offset + length bytes.now) }
    ensures place { IfOk result (λ x. x.0 < length asked.now.schema.now.tables) }
    ensures fault { FaultsBy offset result }
{
    let front = match front_at(bytes, asked.at, offset) {
        Ok(front) => front,
        Err(fault) => return Err(TxnError::Frame { at: offset, fault }),
    };
    if front.event.kind != 19 || front.event.flags != 0 {
        return Err(TxnError::Order { at: offset });
    }
    match map_of(front.body, asked.schema) {
        Ok(place) => Ok((place, front.behind, front.rest)),
        Err(fault) => Err(fault_at(offset, fault)),
    }
}

/// The event behind a change: the next change's table, whose place is given, or the end.
fn next_event<'a>(
    bytes: &'a [u8],
    asked: &Asked,
    offset: u64,
) -> Result<(Option<usize>, u64, &'a [u8]), TxnError>
    requires schema { is_schema asked.now.schema.now ≡ true }
    requires offset { offset + length bytes.now < 2 ^ 64 }
    ensures given { GivesTxn (λ x. ((x.0, x.1), x.2.now)) result (event_of asked.now.at offset (due_more asked.now.schema.now asked.now.position) bytes.now) }
    ensures size { IfOk result (λ x. x.1 + length x.2.now ≡ offset + length bytes.now) }
    ensures place { IfOk result (λ x. IfSome x.0 (λ place. place < length asked.now.schema.now.tables)) }
    ensures fault { FaultsBy offset result }
{
    let front = match front_at(bytes, asked.at, offset) {
        Ok(front) => front,
        Err(fault) => return Err(TxnError::Frame { at: offset, fault }),
    };
    if front.event.kind == 19 && front.event.flags == 0 {
        match map_of(front.body, asked.schema) {
            Ok(place) => Ok((Some(place), front.behind, front.rest)),
            Err(fault) => Err(fault_at(offset, fault)),
        }
    } else if front.event.kind == 16 && front.event.flags == 0 {
        match xid_of(front.body, asked.position) {
            Ok(()) => Ok((None, front.behind, front.rest)),
            Err(fault) => Err(fault_at(offset, fault)),
        }
    } else {
        Err(TxnError::Order { at: offset })
    }
}

/// Why a row's event is refused.
fn refused(offset: u64, error: RowError) -> TxnError
    ensures value { result ≡ refusal_of offset error }
    ensures fault { offset_of result ≤ offset }
{
    match error {
        RowError::Memory => TxnError::Memory,
        RowError::Fault(fault) => fault_at(offset, fault),
    }
}

/// The change that a body makes of this table.
#[tactic(auto, unfolding(crate::specs::Txns::change_in))]
fn change_of(
    alloc: Global,
    kind: u8,
    body: &[u8],
    place: usize,
    table: &Table,
) -> Result<Option<Change>, RowError>
    requires place { place < 256 }
    requires some { 1 ≤ length table.now.columns }
    requires few { length table.now.columns ≤ 64 }
    ensures { Reads (λ c. c) result (change_in kind body.now place table.now) }
{
    match kind {
        30 => {
            let row = written_of(alloc, body, place, table)?;
            let table = table.name.copy(alloc)?;
            Ok(Some(Change::Insert { table, row }))
        }
        31 => {
            let row = updated_of(alloc, body, place, table)?;
            let table = table.name.copy(alloc)?;
            Ok(Some(Change::Update { table, row }))
        }
        32 => {
            let key = deleted_of(alloc, body, place, table)?;
            let table = table.name.copy(alloc)?;
            Ok(Some(Change::Delete { table, key }))
        }
        _ => Ok(None),
    }
}

/// The event that changes a row of the table at this place.
#[tactic(auto, unfolding(crate::specs::Txns::change_in))]
fn row_event<'a>(
    alloc: Global,
    bytes: &'a [u8],
    asked: &Asked,
    place: usize,
    offset: u64,
) -> Result<(Change, u64, &'a [u8]), TxnError>
    requires schema { is_schema asked.now.schema.now ≡ true }
    requires place { place < length asked.now.schema.now.tables }
    requires offset { offset + length bytes.now < 2 ^ 64 }
    ensures given { GivesTxn (λ x. ((x.0, x.1), x.2.now)) result (event_of asked.now.at offset (due_rows asked.now.schema.now place) bytes.now) }
    ensures size { IfOk result (λ x. x.1 + length x.2.now ≡ offset + length bytes.now) }
    ensures fault { FaultsBy offset result }
{
    let front = match front_at(bytes, asked.at, offset) {
        Ok(front) => front,
        Err(fault) => return Err(TxnError::Frame { at: offset, fault }),
    };
    if front.event.flags != 0 {
        return Err(TxnError::Order { at: offset });
    }
    let table = table_in(asked.schema, place);
    match change_of(alloc, front.event.kind, front.body, place, table) {
        Ok(Some(change)) => Ok((change, front.behind, front.rest)),
        Ok(None) => Err(TxnError::Order { at: offset }),
        Err(error) => Err(refused(offset, error)),
    }
}

/// The changes from the row of the table at this place on, at most `limit`, and the offset behind
/// XID.
fn changes_of<'a>(
    alloc: Global,
    bytes: &'a [u8],
    asked: &Asked,
    first: usize,
    begin: u64,
    limit: usize,
) -> Result<(List<Change>, u64, &'a [u8]), TxnError>
    requires schema { is_schema asked.now.schema.now ≡ true }
    requires first { first < length asked.now.schema.now.tables }
    requires begin { begin + length bytes.now < 2 ^ 64 }
    ensures fault { FaultsBy (begin + length bytes.now) result }
    ensures end { IfOk result (λ x. x.1 ≤ begin + length bytes.now) }
    ensures given { GivesTxn (λ x. ((x.0, x.1), x.2.now)) result (front_of (error.Order 0) (changes_form limit asked.now.schema.now asked.now.position asked.now.at first begin) bytes.now) }
{
    let mut changes = List::new(alloc);
    let mut rest = bytes;
    let mut place = first;
    let mut offset = begin;
    for _ in 0..limit {
        let (change, behind, more) = row_event(alloc, rest, asked, place, offset)?;
        changes.push(change)?;
        let (next, behind, more) = next_event(more, asked, behind)?;
        match next {
            None => return Ok((changes, behind, more)),
            Some(table) => {
                place = table;
                offset = behind;
                rest = more;
            }
        }
    }
    Err(TxnError::Order { at: offset })
}

/// The transaction whose events the bytes begin with. The entry has this position, and the bytes
/// stand at this place in the binary log files; an error names the first event with which none
/// goes on.
#[tactic(auto, unfolding(crate::specs::Txns::txn_at))]
pub fn read_txn(
    alloc: Global,
    schema: &Schema,
    bytes: &[u8],
    position: u64,
    place: Place,
) -> Result<TxnRead, TxnError>
    requires { is_schema schema.now ≡ true }
    ensures given { GivesTxn (λ read. read) result (txn_at schema.now bytes.now position place) }
    ensures fault { FaultsBy (length bytes.now) result }
    ensures end { IfOk result (λ read. read.size ≤ length bytes.now) }
{
    let asked = Asked {
        schema,
        position,
        at: place.at,
    };
    let (gtid, offset, rest) = gtid_event(bytes, schema, place)?;
    let (offset, rest) = begin_event(rest, place.at, offset)?;
    let (first, offset, rest) = table_event(rest, &asked, offset)?;
    let (changes, size, _) = changes_of(alloc, rest, &asked, first, offset, bytes.len())?;
    Ok(TxnRead {
        txn: Txn { gtid, changes },
        size,
    })
}
