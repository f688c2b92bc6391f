//! Writes: values, and changes one behind the other.
use super::{at, fail, stop, takes};
use ring_model::Input;
use ring_types::{Change, CutAt, Keep, List, Text, Value};
use std::process::Abort;

fn text(rt: &(impl AllocGlobal + Abort), of: &str) -> Text {
    Text::copy_of(rt.alloc(), of).expect(rt, "memory")
}

fn quoted(rt: &(impl AllocGlobal + Abort), written: &str) -> Value {
    Value::Text(text(rt, written))
}

fn with<T: Drop>(rt: &(impl AllocGlobal + Abort), list: List<T>, item: T) -> List<T> {
    let mut list = list;
    list.push(item).expect(rt, "memory");
    list
}

fn one<T: Drop>(rt: &(impl AllocGlobal + Abort), item: T) -> List<T> {
    with(rt, List::new(rt.alloc()), item)
}

fn pair<T: Drop>(rt: &(impl AllocGlobal + Abort), first: T, second: T) -> List<T> {
    with(rt, one(rt, first), second)
}

fn insert(rt: &(impl AllocGlobal + Abort), table: &str, row: List<Value>) -> Change {
    Change::Insert {
        table: text(rt, table),
        row,
    }
}

fn update(rt: &(impl AllocGlobal + Abort), table: &str, row: List<Value>) -> Change {
    Change::Update {
        table: text(rt, table),
        row,
    }
}

fn delete(rt: &(impl AllocGlobal + Abort), table: &str, key: Value) -> Change {
    Change::Delete {
        table: text(rt, table),
        key,
    }
}

/// Expects the line to be the write of the changes at node 1.
fn writes(rt: &(impl AllocGlobal + Abort), line: &str, changes: List<Change>, cut: Option<CutAt>) {
    takes(rt, line, at(1, Input::Write { client: 0, changes }), cut);
}

/// Expects the word to be this value, inserted into `t` at node 1.
fn inserts(rt: &(impl AllocGlobal + Abort), word: &str, value: Value) {
    let line = format!(in rt.alloc(); "write 1 insert t {word}\n").expect(rt, "memory");
    let changes = one(rt, insert(rt, "t", one(rt, value)));
    writes(rt, line.as_str(), changes, None);
}

#[test]
fn integers(rt: HostRuntime) {
    inserts(&rt, "0", Value::Int(0));
    inserts(&rt, "7", Value::Int(7));
    inserts(&rt, "-7", Value::Int(-7));
    inserts(&rt, "1000", Value::Int(1000));
    inserts(&rt, "9223372036854775807", Value::Int(i64::MAX));
    inserts(&rt, "-9223372036854775808", Value::Int(i64::MIN));
    inserts(&rt, "null", Value::Null);
}

/// Expects the word to be a text.
fn quotes(rt: &(impl AllocGlobal + Abort), word: &str, written: &str) {
    inserts(rt, word, quoted(rt, written));
}

#[test]
fn texts(rt: HostRuntime) {
    quotes(&rt, "''", "");
    quotes(&rt, "'a'", "a");
    quotes(&rt, "'two words; and more'", "two words; and more");
    quotes(&rt, "' stop 1 none'", " stop 1 none");
    quotes(&rt, "'null'", "null");
    quotes(&rt, "'#'", "#");
}

#[test]
fn texts_beyond_plain_letters(rt: HostRuntime) {
    quotes(&rt, "'it\\x27s'", "it's");
    quotes(&rt, "'\\x5c\\x0a\\x7f\\x00'", "\\\n\u{7f}\u{0}");
    quotes(&rt, "'grün'", "grün");
    quotes(&rt, "'x5c'", "x5c");
}

/// An insert, an update and a delete, each of another table.
fn three(rt: &(impl AllocGlobal + Abort)) -> List<Change> {
    let first = insert(rt, "t", pair(rt, Value::Int(1), quoted(rt, "a; b")));
    let second = update(rt, "T_2", pair(rt, Value::Int(-1), Value::Null));
    let third = delete(rt, "9", quoted(rt, "k"));
    with(rt, pair(rt, first, second), third)
}

#[test]
fn several_changes(rt: HostRuntime) {
    let line = "write 1 insert t 1 'a; b'; update T_2 -1 null; delete 9 'k' stop 2 half\n";
    writes(&rt, line, three(&rt), stop(2, Keep::Half));
}

/// Expects the line to delete row 5 of a table that is called as a suffix is.
fn deletes(rt: &(impl AllocGlobal + Abort), line: &str, cut: Option<CutAt>) {
    writes(rt, line, one(rt, delete(rt, "fail", Value::Int(5))), cut);
}

#[test]
fn a_table_called_as_a_suffix(rt: HostRuntime) {
    deletes(&rt, "write 1 delete fail 5 fail 5\n", fail(5));
    deletes(&rt, "write 1 delete fail 5\n", None);
}
