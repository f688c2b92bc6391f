//! Sizes of groups, and the GTIDs of a log.
use super::fixtures::{one, pair, text, with};
use ring_plain::{group_size, gtids, has, next_number};
use ring_types::{
    Change, Column, Entry, Gtid, Interval, List, Opid, Payload, RegionId, Schema, ServerSet, Shape,
    Table, Text, Txn, Value,
};
use std::process::Abort;

/// A text of so many bytes.
fn long_text(rt: &(impl AllocGlobal + Abort), bytes: usize) -> Text {
    let mut long = String::new(rt.alloc());
    for _ in 0..bytes {
        long.push_str("x").expect(rt, "memory");
    }
    Text::from_string(long)
}

fn column(rt: &(impl AllocGlobal + Abort), name: &str, shape: Shape) -> Column {
    Column {
        name: text(rt, name),
        shape,
    }
}

/// A table with the columns `id int` and one of texts.
fn table(rt: &(impl AllocGlobal + Abort), name: &str, of_texts: &str, limit: u16) -> Table {
    let id = column(rt, "id", Shape::Int);
    let of_texts = column(rt, of_texts, Shape::Text { limit });
    Table {
        name: text(rt, name),
        columns: pair(rt, id, of_texts),
    }
}

/// The tables `t` and `b` of the database `app`.
fn schema(rt: &(impl AllocGlobal + Abort)) -> Schema {
    let names = table(rt, "t", "name", 20);
    let bodies = table(rt, "b", "body", 16000);
    Schema {
        database: text(rt, "app"),
        tables: pair(rt, names, bodies),
    }
}

/// The insert of a row with a text of so many bytes.
fn insert(rt: &(impl AllocGlobal + Abort), table: &str, id: i64, bytes: usize) -> Change {
    let body = Value::Text(long_text(rt, bytes));
    Change::Insert {
        table: text(rt, table),
        row: pair(rt, Value::Int(id), body),
    }
}

fn update_to_null(rt: &(impl AllocGlobal + Abort), id: i64) -> Change {
    Change::Update {
        table: text(rt, "t"),
        row: pair(rt, Value::Int(id), Value::Null),
    }
}

fn delete(rt: &(impl AllocGlobal + Abort), id: i64) -> Change {
    Change::Delete {
        table: text(rt, "t"),
        key: Value::Int(id),
    }
}

/// 62 inserts of bodies of 16000 bytes and one of so many.
fn bodies(rt: &(impl AllocGlobal + Abort), rest: usize) -> List<Change> {
    let mut changes = List::new(rt.alloc());
    for id in 0..62 {
        changes
            .push(insert(rt, "b", id, 16000))
            .expect(rt, "memory");
    }
    with(rt, changes, insert(rt, "b", 62, rest))
}

fn transaction(server: u128, number: u64, changes: List<Change>) -> Payload {
    Payload::Txn(Txn {
        gtid: Gtid { server, number },
        changes,
    })
}

/// Expects the group of a transaction of these changes to have this size.
fn has_size(rt: &impl Abort, schema: &Schema, changes: List<Change>, bytes: u64) {
    let payload = transaction(7, 1, changes);
    assert_eq!(rt; group_size(schema, &payload), bytes);
}

#[test]
fn group_sizes(rt: HostRuntime) {
    let schema = schema(&rt);
    assert_eq!(rt; group_size(&schema, &Payload::NoOp), 42);
    assert_eq!(rt; group_size(&schema, &Payload::Rotate), 86);
    has_size(&rt, &schema, List::new(rt.alloc()), 180);
    let insert_of_none = one(&rt, insert(&rt, "t", 1, 0));
    has_size(&rt, &schema, insert_of_none, 180 + 46 + 45);
    let insert_of_five = one(&rt, insert(&rt, "t", 1, 5));
    has_size(&rt, &schema, insert_of_five, 180 + 46 + 45 + 5);
    let update = one(&rt, update_to_null(&rt, 1));
    has_size(&rt, &schema, update, 180 + 46 + 54);
    has_size(&rt, &schema, one(&rt, delete(&rt, 1)), 180 + 46 + 44);
}

#[test]
fn sizes_around_the_greatest(rt: HostRuntime) {
    let schema = schema(&rt);
    has_size(&rt, &schema, bodies(&rt, 2024), 1000000);
    has_size(&rt, &schema, bodies(&rt, 2025), 1000001);
}

/// Puts an entry of term 1 at the end of the log, in region 2.
fn put(rt: &impl Abort, log: &mut List<Entry>, payload: Payload) {
    let position = (log.len() as u64).saturating_add(1);
    let entry = Entry {
        opid: Opid { term: 1, position },
        region: RegionId(2),
        payload,
    };
    log.push(entry).expect(rt, "memory");
}

/// Puts a transaction without changes, and a no-op behind it.
fn put_numbered(rt: &(impl AllocGlobal + Abort), log: &mut List<Entry>, server: u128, number: u64) {
    put(rt, log, transaction(server, number, List::new(rt.alloc())));
    put(rt, log, Payload::NoOp);
}

/// Transactions of two servers, not in the order of their numbers.
fn numbered(rt: &(impl AllocGlobal + Abort)) -> List<Entry> {
    let mut log = List::new(rt.alloc());
    put_numbered(rt, &mut log, 9, 4);
    put_numbered(rt, &mut log, 7, 3);
    put_numbered(rt, &mut log, 7, 1);
    put_numbered(rt, &mut log, 7, 5);
    put_numbered(rt, &mut log, 7, 2);
    log
}

/// 1-3 and 5 of server 7, and 4 of server 9.
fn numbered_sets(rt: &(impl AllocGlobal + Abort)) -> List<ServerSet> {
    let front = Interval { first: 1, last: 3 };
    let seven = ServerSet {
        server: 7,
        intervals: pair(rt, front, Interval { first: 5, last: 5 }),
    };
    let nine = ServerSet {
        server: 9,
        intervals: one(rt, Interval { first: 4, last: 4 }),
    };
    pair(rt, seven, nine)
}

#[test]
fn gtids_of_a_log(rt: HostRuntime) {
    let log = numbered(&rt);
    let sets = gtids(rt.alloc(), log.as_slice()).expect(&rt, "memory");
    assert_eq!(rt; sets, numbered_sets(&rt));
    assert!(rt; has(sets.as_slice(), 7, 2));
    assert!(rt; !has(sets.as_slice(), 7, 4));
    assert!(rt; has(sets.as_slice(), 9, 4));
    assert!(rt; !has(sets.as_slice(), 9, 5));
}

#[test]
fn next_numbers(rt: HostRuntime) {
    let mut log = numbered(&rt);
    put_numbered(&rt, &mut log, 5, 9223372036854775806);
    assert_eq!(rt; next_number(7, log.as_slice()), Some(6));
    assert_eq!(rt; next_number(8, log.as_slice()), Some(1));
    assert_eq!(rt; next_number(9, log.as_slice()), Some(5));
    assert_eq!(rt; next_number(5, log.as_slice()), None);
}
