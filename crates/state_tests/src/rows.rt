//! The tables of an engine.
//!
//! Each test is a few calls of small functions that hand on what they make: the proof of a function
//! grows with its exits.
use super::fixtures::{one, pair, text, with};
use ring_types::{
    Change, Column, Duplicate, Entry, Gtid, List, Opid, Payload, RegionId, RowRefusal, Schema,
    Shape, Table, Txn, Value,
};
use row_engine::Tables;
use std::process::Abort;

fn same<T: PartialEq + Drop>(rt: &impl Abort, got: T, wanted: T) {
    assert!(rt; got == wanted);
}

fn word(rt: &(impl AllocGlobal + Abort), of: &str) -> Value {
    Value::Text(text(rt, of))
}

// ---- tables

fn column(rt: &(impl AllocGlobal + Abort), name: &str, shape: Shape) -> Column {
    Column {
        name: text(rt, name),
        shape,
    }
}

/// A table with the columns `key` and `value`.
fn table(rt: &(impl AllocGlobal + Abort), name: &str, key: Shape, value: Shape) -> Table {
    let key = column(rt, "key", key);
    let value = column(rt, "value", value);
    Table {
        name: text(rt, name),
        columns: pair(rt, key, value),
    }
}

/// The tables `t`, of texts by number, and `w`, of numbers by text.
fn schema(rt: &(impl AllocGlobal + Abort)) -> Schema {
    let by_number = table(rt, "t", Shape::Int, Shape::Text { limit: 20 });
    let by_text = table(rt, "w", Shape::Text { limit: 20 }, Shape::Int);
    Schema {
        database: text(rt, "app"),
        tables: pair(rt, by_number, by_text),
    }
}

fn empty(rt: &(impl AllocGlobal + Abort)) -> Tables {
    Tables::new(rt.alloc(), &schema(rt)).expect(rt, "memory")
}

// ---- changes

fn row(rt: &(impl AllocGlobal + Abort), id: i64, value: &str) -> List<Value> {
    pair(rt, Value::Int(id), word(rt, value))
}

fn insert(rt: &(impl AllocGlobal + Abort), table: &str, row: List<Value>) -> Change {
    Change::Insert {
        table: text(rt, table),
        row,
    }
}

fn insert_number(rt: &(impl AllocGlobal + Abort), id: i64, value: &str) -> Change {
    insert(rt, "t", row(rt, id, value))
}

fn insert_word(rt: &(impl AllocGlobal + Abort), key: &str) -> Change {
    insert(rt, "w", pair(rt, word(rt, key), Value::Int(0)))
}

fn update(rt: &(impl AllocGlobal + Abort), id: i64, value: &str) -> Change {
    Change::Update {
        table: text(rt, "t"),
        row: row(rt, id, value),
    }
}

fn delete(rt: &(impl AllocGlobal + Abort), key: Value) -> Change {
    Change::Delete {
        table: text(rt, "t"),
        key,
    }
}

fn delete_number(rt: &(impl AllocGlobal + Abort), id: i64) -> Change {
    delete(rt, Value::Int(id))
}

/// The tables after a transaction that they accept.
fn after(rt: &(impl AllocGlobal + Abort), tables: Tables, changes: List<Change>) -> Tables {
    let mut tables = tables;
    let applied = tables.apply(&changes).expect(rt, "memory");
    assert!(rt; applied);
    tables
}

/// The rows 1 and 3 of `t`, put in in falling order.
fn two_rows(rt: &(impl AllocGlobal + Abort)) -> Tables {
    let changes = pair(
        rt,
        insert_number(rt, 3, "three"),
        insert_number(rt, 1, "one"),
    );
    after(rt, empty(rt), changes)
}

fn rows(rt: &(impl AllocGlobal + Abort), tables: &Tables, name: &str) -> List<List<Value>> {
    tables.rows(&text(rt, name)).expect(rt, "memory")
}

fn key_of(rt: &(impl AllocGlobal + Abort), row: &List<Value>) -> Value {
    match row.get(0) {
        Some(key) => key.copy(rt.alloc()).expect(rt, "memory"),
        None => Value::Null,
    }
}

/// The keys of a table, in the order of its rows.
fn keys(rt: &(impl AllocGlobal + Abort), tables: &Tables, name: &str) -> List<Value> {
    let mut keys = List::new(rt.alloc());
    for row in rows(rt, tables, name).as_slice() {
        keys = with(rt, keys, key_of(rt, row));
    }
    keys
}

fn numbers(rt: &(impl AllocGlobal + Abort), first: i64, second: i64) -> List<Value> {
    pair(rt, Value::Int(first), Value::Int(second))
}

#[test]
fn rows_in_key_order(rt: HostRuntime) {
    let both = pair(&rt, row(&rt, 1, "one"), row(&rt, 3, "three"));
    same(&rt, rows(&rt, &two_rows(&rt), "t"), both);
    same(
        &rt,
        rows(&rt, &two_rows(&rt), "none"),
        List::new(rt.alloc()),
    );
}

fn has_row(rt: &(impl AllocGlobal + Abort), tables: &Tables, name: &str, id: i64) -> bool {
    tables.get(&text(rt, name), &Value::Int(id)).is_some()
}

#[test]
fn a_row_by_its_key(rt: HostRuntime) {
    let tables = two_rows(&rt);
    same(&rt, has_row(&rt, &tables, "t", 3), true);
    same(&rt, has_row(&rt, &tables, "t", 2), false);
    same(&rt, has_row(&rt, &tables, "none", 3), false);
    same(&rt, tables.schema().tables.len(), 2);
}

#[test]
fn numbers_at_both_ends(rt: HostRuntime) {
    let greatest = insert_number(&rt, 9223372036854775807, "");
    let least = insert_number(&rt, -9223372036854775808, "");
    let tables = after(&rt, empty(&rt), pair(&rt, greatest, least));
    let ends = numbers(&rt, -9223372036854775808, 9223372036854775807);
    same(&rt, keys(&rt, &tables, "t"), ends);
}

#[test]
fn texts_in_byte_order(rt: HostRuntime) {
    let first = pair(&rt, insert_word(&rt, "ab"), insert_word(&rt, "a"));
    let second = pair(&rt, insert_word(&rt, "é"), insert_word(&rt, "Z"));
    let tables = after(&rt, after(&rt, empty(&rt), first), second);
    let front = pair(&rt, word(&rt, "Z"), word(&rt, "a"));
    let sorted = with(&rt, with(&rt, front, word(&rt, "ab")), word(&rt, "é"));
    same(&rt, keys(&rt, &tables, "w"), sorted);
}

// ---- refusals

/// A change by the number of its case.
fn change_of(rt: &(impl AllocGlobal + Abort), case: u8) -> Change {
    match case {
        0 => insert(rt, "none", row(rt, 1, "one")),
        1 => insert_number(rt, 2, "twenty-one bytes long"),
        2 => insert_number(rt, 1, "again"),
        3 => update(rt, 2, "two"),
        4 => delete_number(rt, 2),
        5 => insert_number(rt, 2, "twenty bytes of text"),
        6 => insert(rt, "t", pair(rt, Value::Null, Value::Null)),
        7 => delete(rt, word(rt, "one")),
        _ => delete_number(rt, 3),
    }
}

/// What a transaction of two changes of the rows 1 and 3 is refused for. The rows stay.
fn refusal_of(rt: &(impl AllocGlobal + Abort), first: u8, second: u8) -> Option<RowRefusal> {
    let mut tables = two_rows(rt);
    let changes = pair(rt, change_of(rt, first), change_of(rt, second));
    let applied = tables.apply(&changes).expect(rt, "memory");
    assert!(rt; !applied);
    same(rt, keys(rt, &tables, "t"), numbers(rt, 1, 3));
    tables.check(&changes).err()
}

#[test]
fn refusals_of_the_second_change(rt: HostRuntime) {
    for (first, second, refusal) in [
        (8, 0, RowRefusal::NoTable),
        (8, 1, RowRefusal::BadRow),
        (8, 2, RowRefusal::KeyExists),
        (8, 3, RowRefusal::NoKey),
        (8, 4, RowRefusal::NoKey),
        (8, 8, RowRefusal::NoKey),
        (5, 5, RowRefusal::KeyExists),
        (5, 6, RowRefusal::BadRow),
        (5, 7, RowRefusal::BadRow),
    ] {
        same(&rt, refusal_of(&rt, first, second), Some(refusal));
    }
}

// ---- transactions

/// Key 7 is put in, changed and taken away.
fn comes_and_goes(rt: &(impl AllocGlobal + Abort)) -> List<Change> {
    let changes = pair(rt, insert_number(rt, 7, "first"), update(rt, 7, "second"));
    with(rt, changes, delete_number(rt, 7))
}

#[test]
fn one_key_comes_changes_and_goes(rt: HostRuntime) {
    let tables = after(&rt, empty(&rt), comes_and_goes(&rt));
    same(&rt, keys(&rt, &tables, "t"), List::new(rt.alloc()));
    let again = with(&rt, comes_and_goes(&rt), insert_number(&rt, 7, "third"));
    let tables = after(&rt, tables, again);
    same(&rt, rows(&rt, &tables, "t"), one(&rt, row(&rt, 7, "third")));
}

fn copied(rt: &(impl AllocGlobal + Abort), tables: &Tables) -> Tables {
    tables.copy(rt.alloc()).expect(rt, "memory")
}

#[test]
fn a_copy_stands_apart(rt: HostRuntime) {
    let tables = two_rows(&rt);
    let copy = copied(&rt, &tables);
    let tables = after(&rt, tables, one(&rt, delete_number(&rt, 1)));
    same(&rt, keys(&rt, &tables, "t"), one(&rt, Value::Int(3)));
    same(&rt, keys(&rt, &copy, "t"), numbers(&rt, 1, 3));
}

// ---- logs

fn txn(changes: List<Change>) -> Payload {
    Payload::Txn(Txn {
        gtid: Gtid {
            server: 7,
            number: 1,
        },
        changes,
    })
}

fn entry(position: u64, payload: Payload) -> Entry {
    Entry {
        opid: Opid { term: 1, position },
        region: RegionId(1),
        payload,
    }
}

/// Two inserts; two of which the second is refused; a rotate; a delete.
fn log(rt: &(impl AllocGlobal + Abort)) -> List<Entry> {
    let two = pair(rt, insert_number(rt, 2, "two"), insert_number(rt, 1, "one"));
    let refused = pair(
        rt,
        insert_number(rt, 3, "three"),
        insert_number(rt, 2, "again"),
    );
    let front = pair(rt, entry(1, txn(two)), entry(2, txn(refused)));
    let front = with(rt, front, entry(3, Payload::Rotate));
    with(rt, front, entry(4, txn(one(rt, delete_number(rt, 2)))))
}

fn of_prefix(rt: &(impl AllocGlobal + Abort), count: u64) -> Tables {
    Tables::of_entries(rt.alloc(), &schema(rt), log(rt).prefix(count)).expect(rt, "memory")
}

#[test]
fn rows_of_a_log(rt: HostRuntime) {
    for count in [1, 2, 3] {
        same(
            &rt,
            keys(&rt, &of_prefix(&rt, count), "t"),
            numbers(&rt, 1, 2),
        );
    }
    same(
        &rt,
        keys(&rt, &of_prefix(&rt, 4), "t"),
        one(&rt, Value::Int(1)),
    );
}
