ghost use Rattle.std.specs.Prelude.{◌≡◌, true};
ghost use Rattle.ring_types.specs.Rings.{is_schema};

use super::fixtures::{SERVER, one, ring, ring_of_one, row, schema_of, table, text};
use event_frame::{FrameError, write_event};
use event_txn::{TxnError, read_txn, write_txn};
use ring_plain::changes_fit;
use ring_types::{Change, Gtid, List, Place, Schema, Table, Txn, Value};
use std::process::Abort;

/// Behind the first entry of the first file and the opid event of the second.
const PLACE: Place = Place {
    file: 1,
    at: 241,
    sequence: 1,
};

/// The server's first transaction, at position 2 of the log, if it inserts (7, 'a') into
/// `t (id int, name text 20)` of the database `app`.
const INSERTED: [u8; 230] = [
    0, 0, 0, 0, 33, 1, 0, 0, 0, 65, 0, 0, 0, 50, 1, 0, //
    0, 0, 0, 0, 62, 17, 0xfa, 71, 0x71, 0xca, 17, 0xe1, 0x9e, 51, 0xc8, 10, //
    0xa9, 66, 0x95, 98, 1, 0, 0, 0, 0, 0, 0, 0, 2, 0, 0, 0, //
    0, 0, 0, 0, 0, 1, 0, 0, 0, 0, 0, 0, 0, 18, 81, 0xd9, //
    71, 0, 0, 0, 0, 2, 1, 0, 0, 0, 42, 0, 0, 0, 92, 1, //
    0, 0, 0, 0, 0, 0, 0, 0, 0, 0, 0, 0, 0, 0, 0, 0, //
    0, 0, 66, 69, 71, 73, 78, 0xc9, 98, 0x66, 0xa7, 0, 0, 0, 0, 19, //
    1, 0, 0, 0, 46, 0, 0, 0, 0x8a, 1, 0, 0, 0, 0, 1, 0, //
    0, 0, 0, 0, 1, 0, 3, 97, 0x70, 0x70, 0, 1, 0x74, 0, 2, 8, //
    15, 2, 20, 0, 2, 0xd9, 94, 17, 0xcc, 0, 0, 0, 0, 30, 1, 0, //
    0, 0, 46, 0, 0, 0, 0xb8, 1, 0, 0, 0, 0, 1, 0, 0, 0, //
    0, 0, 1, 0, 2, 0, 2, 3, 0, 7, 0, 0, 0, 0, 0, 0, //
    0, 1, 97, 19, 0x8c, 0x71, 63, 0, 0, 0, 0, 16, 1, 0, 0, 0, //
    31, 0, 0, 0, 0xd7, 1, 0, 0, 0, 0, 2, 0, 0, 0, 0, 0, //
    0, 0, 8, 24, 0xfa, 0x8a, //
];

/// The events from the row on, if it updates row 1 to (1, null); those before are the same.
const UPDATED: [u8; 85] = [
    0, 0, 0, 0, 31, 1, 0, 0, 0, 54, 0, 0, 0, 0xc0, 1, 0, //
    0, 0, 0, 1, 0, 0, 0, 0, 0, 1, 0, 2, 0, 2, 1, 3, //
    0, 1, 0, 0, 0, 0, 0, 0, 0, 2, 1, 0, 0, 0, 0, 0, //
    0, 0, 92, 0x7c, 27, 83, 0, 0, 0, 0, 16, 1, 0, 0, 0, 31, //
    0, 0, 0, 0xdf, 1, 0, 0, 0, 0, 2, 0, 0, 0, 0, 0, 0, //
    0, 62, 6, 0xa3, 0xb9, //
];

/// The same, if it deletes row 1.
const DELETED: [u8; 75] = [
    0, 0, 0, 0, 32, 1, 0, 0, 0, 44, 0, 0, 0, 0xb6, 1, 0, //
    0, 0, 0, 1, 0, 0, 0, 0, 0, 1, 0, 2, 0, 2, 1, 0, //
    1, 0, 0, 0, 0, 0, 0, 0, 0xb5, 0x78, 59, 0x6e, 0, 0, 0, 0, //
    16, 1, 0, 0, 0, 31, 0, 0, 0, 0xd5, 1, 0, 0, 0, 0, 2, //
    0, 0, 0, 0, 0, 0, 0, 0xa5, 0xdc, 0x94, 0x6b, //
];

fn inserted() -> &'static [u8] {
    &INSERTED
}

fn updated() -> &'static [u8] {
    &UPDATED
}

fn deleted() -> &'static [u8] {
    &DELETED
}

fn txn(rt: &(impl AllocGlobal + Abort), change: Change) -> Txn {
    let gtid = Gtid {
        server: SERVER,
        number: 1,
    };
    Txn {
        gtid,
        changes: one(rt, change),
    }
}

fn insert(rt: &(impl AllocGlobal + Abort)) -> Change {
    Change::Insert {
        table: text(rt, "t"),
        row: row(rt, 7, Value::Text(text(rt, "a"))),
    }
}

fn update(rt: &(impl AllocGlobal + Abort)) -> Change {
    Change::Update {
        table: text(rt, "t"),
        row: row(rt, 1, Value::Null),
    }
}

fn delete(rt: &(impl AllocGlobal + Abort)) -> Change {
    Change::Delete {
        table: text(rt, "t"),
        key: Value::Int(1),
    }
}

fn written(rt: &(impl AllocGlobal + Abort), schema: &Schema, txn: &Txn) -> Vec<u8>
    requires { is_schema schema.now ≡ true }
{
    let mut out = Vec::new(rt.alloc());
    assert!(rt; changes_fit(schema, txn.changes.as_slice()));
    write_txn(&mut out, schema, txn, 2, PLACE).expect(rt, "memory");
    out
}

/// Expects the bytes to be read as this transaction.
fn reads(rt: &(impl AllocGlobal + Abort), schema: &Schema, bytes: &[u8], txn: &Txn)
    requires { is_schema schema.now ≡ true }
{
    let read = read_txn(rt.alloc(), schema, bytes, 2, PLACE).expect(rt, "a transaction");
    assert_eq!(rt; read.size, bytes.len() as u64);
    assert!(rt; read.txn == *txn);
}

/// The events of the transaction that inserts, with these from the row on.
fn events_with(rt: &(impl AllocGlobal + Abort), behind: &[u8]) -> Vec<u8> {
    let mut events = Vec::new(rt.alloc());
    let front = inserted().get(..153).unwrap_or(&[]);
    events.extend_from_slice(front).expect(rt, "memory");
    events.extend_from_slice(behind).expect(rt, "memory");
    events
}

/// Expects that the transaction of this change has these events from the row on, and no other.
fn goes_both_ways(rt: &(impl AllocGlobal + Abort), schema: &Schema, change: Change, behind: &[u8])
    requires { is_schema schema.now ≡ true }
{
    let events = events_with(rt, behind);
    let txn = txn(rt, change);
    let out = written(rt, schema, &txn);
    assert_eq!(rt; out.as_slice(), events.as_slice());
    reads(rt, schema, events.as_slice(), &txn);
}

#[test]
fn each_change_both_ways(rt: HostRuntime) {
    let ring = ring_of_one(&rt);
    let schema = schema_of(&ring);
    let behind = inserted().get(153..).unwrap_or(&[]);
    goes_both_ways(&rt, schema, insert(&rt), behind);
    goes_both_ways(&rt, schema, update(&rt), updated());
    goes_both_ways(&rt, schema, delete(&rt), deleted());
}

/// What kind of fault a change of a body makes.
#[derive(Clone, Copy)]
enum Fault {
    Field,
    Table,
    Value,
}

fn fault_at(at: u64, fault: Fault) -> TxnError {
    match fault {
        Fault::Field => TxnError::Field { at },
        Fault::Table => TxnError::Table { at },
        Fault::Value => TxnError::Value { at },
    }
}

/// A change of one of the bodies: the event, where in its body, how many bytes go, which come in
/// their place, and the fault that it makes.
type Edit = (usize, usize, usize, &'static [u8], Fault);

const EDITS: [Edit; 17] = [
    (0, 41, 1, &[1], Fault::Field),
    (1, 18, 1, b"n", Fault::Field),
    (2, 0, 1, &[0], Fault::Table),
    (2, 0, 1, &[2], Fault::Table),
    (2, 9, 1, b"b", Fault::Table),
    (2, 16, 1, &[252, 2, 0], Fault::Field),
    (2, 16, 1, &[252, 251, 0], Fault::Table),
    (2, 18, 1, &[8], Fault::Table),
    (2, 20, 1, &[21], Fault::Table),
    (2, 22, 1, &[3], Fault::Table),
    (3, 0, 1, &[2], Fault::Table),
    (3, 12, 1, &[1], Fault::Value),
    (3, 21, 2, b"\x15aaaaaaaaaaaaaaaaaaaaa", Fault::Value),
    (3, 22, 1, &[], Fault::Field),
    (3, 22, 1, &[0xff], Fault::Value),
    (3, 23, 0, &[0], Fault::Field),
    (4, 0, 1, &[3], Fault::Field),
];

fn edits() -> &'static [Edit] {
    &EDITS
}

/// The types of the events of [`INSERTED`], and where their bodies begin and end.
const BODIES: [(u8, usize, usize); 5] = [
    (33, 19, 61),
    (2, 84, 103),
    (19, 126, 149),
    (30, 172, 195),
    (16, 218, 226),
];

fn bodies() -> &'static [(u8, usize, usize)] {
    &BODIES
}

/// The bytes with these in the place of others.
fn edited(
    rt: &(impl AllocGlobal + Abort),
    body: &[u8],
    at: usize,
    gone: usize,
    put: &[u8],
) -> Vec<u8> {
    let mut out = Vec::new(rt.alloc());
    let front = body.get(..at).unwrap_or(&[]);
    out.extend_from_slice(front).expect(rt, "memory");
    out.extend_from_slice(put).expect(rt, "memory");
    let rest = body.get(at.wrapping_add(gone)..).unwrap_or(&[]);
    out.extend_from_slice(rest).expect(rt, "memory");
    out
}

/// Adds an event behind those that are there.
fn add(rt: &impl Abort, out: &mut Vec<u8>, kind: u8, body: &[u8]) {
    let at = PLACE.at.wrapping_add(out.len() as u64);
    assert!(rt; body.len() < 1000);
    write_event(out, kind, 0, body, at).expect(rt, "memory");
}

/// The events of [`INSERTED`] of which one has another type or body.
fn with(rt: &(impl AllocGlobal + Abort), event: usize, kind: u8, body: &[u8]) -> Vec<u8> {
    let mut out = Vec::new(rt.alloc());
    for (index, (due, begin, end)) in bodies().iter().enumerate() {
        if index == event {
            add(rt, &mut out, kind, body);
        } else {
            let body = inserted().get(*begin..*end).unwrap_or(&[]);
            add(rt, &mut out, *due, body);
        }
    }
    out
}

/// Expects this refusal of the bytes.
fn refuses(
    rt: &(impl AllocGlobal + Abort),
    schema: &Schema,
    bytes: &[u8],
    place: Place,
    wanted: TxnError,
)
    requires { is_schema schema.now ≡ true }
{
    let answer = read_txn(rt.alloc(), schema, bytes, 2, place).err();
    assert_eq!(rt; answer, Some(wanted));
}

/// The events with one changed body.
fn spoilt(rt: &(impl AllocGlobal + Abort), edit: &Edit) -> Vec<u8> {
    let (event, at, gone, put, _) = edit;
    let (kind, begin, end) = bodies().get(*event).copied().unwrap_or((0, 0, 0));
    let old = inserted().get(begin..end).unwrap_or(&[]);
    let body = edited(rt, old, *at, *gone, put);
    with(rt, *event, kind, body.as_slice())
}

/// The fault of a changed body, at its event.
fn fault_of(edit: &Edit) -> TxnError {
    let (_, begin, _) = bodies().get(edit.0).copied().unwrap_or((0, 0, 0));
    fault_at((begin as u64).wrapping_sub(19), edit.4)
}

#[test]
fn refuses_each_small_change(rt: HostRuntime) {
    let ring = ring_of_one(&rt);
    let schema = schema_of(&ring);
    for edit in edits() {
        refuses(
            &rt,
            schema,
            spoilt(&rt, edit).as_slice(),
            PLACE,
            fault_of(edit),
        );
    }
}

#[test]
fn refuses_each_event_of_another_type(rt: HostRuntime) {
    let ring = ring_of_one(&rt);
    let schema = schema_of(&ring);
    for (event, (_, begin, _)) in bodies().iter().enumerate() {
        let at = (*begin as u64).wrapping_sub(19);
        let bytes = with(&rt, event, 28, &[]);
        refuses(&rt, schema, bytes.as_slice(), PLACE, TxnError::Order { at });
    }
}

/// Expects that no transaction begins at this place in the log of a ring with these tables.
fn refuses_gtid(rt: &(impl AllocGlobal + Abort), tables: List<Table>, place: Place) {
    let ring = ring(rt, tables);
    let wanted = TxnError::Order { at: 0 };
    refuses(rt, schema_of(&ring), inserted(), place, wanted);
}

/// A transaction has a number within its file, from 1 on.
#[test]
fn refuses_a_transaction_without_a_number(rt: HostRuntime) {
    let place = Place {
        file: 1,
        at: 241,
        sequence: 0,
    };
    refuses_gtid(&rt, one(&rt, table(&rt)), place);
}

/// A transaction has a table to change.
#[test]
fn refuses_a_transaction_without_a_table(rt: HostRuntime) {
    refuses_gtid(&rt, List::new(rt.alloc()), PLACE);
}

#[test]
fn refuses_a_cut_event(rt: HostRuntime) {
    let ring = ring_of_one(&rt);
    let cut = inserted().get(..229).unwrap_or(&[]);
    let wanted = TxnError::Frame {
        at: 199,
        fault: FrameError::Short,
    };
    refuses(&rt, schema_of(&ring), cut, PLACE, wanted);
}
