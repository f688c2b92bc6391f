//! Prepared transactions: locks, the front, rolling back and dropping.
use super::fixtures::{one, pair, text};
use prepared_txns::{PrepareError, Prepared};
use ring_types::{Change, Gtid, List, Opid, Pair, Txn, Value};
use std::process::Abort;

fn opid(position: u64) -> Opid {
    Opid { term: 3, position }
}

/// A row of the table with this key.
fn row(rt: &(impl AllocGlobal + Abort), table: &str, key: Value) -> Change {
    Change::Insert {
        table: text(rt, table),
        row: pair(rt, key, Value::Int(8)),
    }
}

/// The taking away of a row with this key.
fn no_row(rt: &(impl AllocGlobal + Abort), table: &str, key: Value) -> Change {
    Change::Delete {
        table: text(rt, table),
        key,
    }
}

fn letter(rt: &(impl AllocGlobal + Abort)) -> Value {
    Value::Text(text(rt, "1"))
}

/// The answer to the preparing of these changes.
fn answer(
    prepared: &mut Prepared,
    position: u64,
    changes: List<Change>,
) -> Result<(), PrepareError> {
    let gtid = Gtid {
        server: 7,
        number: 1,
    };
    prepared.prepare(opid(position), Txn { gtid, changes })
}

/// Expects these changes to be prepared.
fn takes(rt: &impl Abort, prepared: &mut Prepared, position: u64, changes: List<Change>) {
    assert_eq!(rt; answer(prepared, position, changes), Ok(()));
}

/// Expects the change at this place to be refused for what the transaction at `holder` holds.
fn refuses(
    rt: &impl Abort,
    prepared: &mut Prepared,
    changes: List<Change>,
    change: u64,
    holder: u64,
) {
    let holder = opid(holder);
    let locked = PrepareError::Locked { change, holder };
    assert_eq!(rt; answer(prepared, 99, changes), Err(locked));
}

/// Prepares the insert of one row with a number for its key into the table `t`.
fn prepare(rt: &(impl AllocGlobal + Abort), prepared: &mut Prepared, position: u64, key: i64) {
    takes(
        rt,
        prepared,
        position,
        one(rt, row(rt, "t", Value::Int(key))),
    );
}

/// Expects that insert to be refused for what the transaction at `holder` holds.
fn refuses_key(rt: &(impl AllocGlobal + Abort), prepared: &mut Prepared, key: i64, holder: u64) {
    refuses(
        rt,
        prepared,
        one(rt, row(rt, "t", Value::Int(key))),
        0,
        holder,
    );
}

/// The transactions at positions 5, 6, 7 and 8, each with its position for its key.
fn four(rt: &(impl AllocGlobal + Abort)) -> Prepared {
    let mut prepared = Prepared::new(rt.alloc());
    prepare(rt, &mut prepared, 5, 5);
    prepare(rt, &mut prepared, 6, 6);
    prepare(rt, &mut prepared, 7, 7);
    prepare(rt, &mut prepared, 8, 8);
    prepared
}

fn stand_at(rt: &impl Abort, prepared: &Prepared, positions: &[u64]) {
    let pairs: &[Pair] = prepared.pairs().as_slice();
    assert_eq!(rt; pairs.len(), positions.len());
    for (pair, position) in pairs.iter().zip(positions) {
        assert_eq!(rt; pair.opid.position, *position);
    }
}

/// The place of the first change whose key is held, and the holder's position.
fn conflict(prepared: &Prepared, changes: &List<Change>) -> Option<(u64, u64)> {
    match prepared.conflict(changes) {
        Some(conflict) => Some((conflict.change, conflict.holder.position)),
        None => None,
    }
}

/// A new row, and the taking away of the row 5.
fn free_and_held(rt: &(impl AllocGlobal + Abort)) -> List<Change> {
    let free = row(rt, "t", Value::Int(4));
    pair(rt, free, no_row(rt, "t", Value::Int(5)))
}

#[test]
fn a_locked_key_is_told_with_its_change_and_its_holder(rt: HostRuntime) {
    let mut prepared = four(&rt);
    assert_eq!(rt; conflict(&prepared, &free_and_held(&rt)), Some((1, 5)));
    refuses(&rt, &mut prepared, free_and_held(&rt), 1, 5);
    stand_at(&rt, &prepared, &[5, 6, 7, 8]);
}

fn front(prepared: &Prepared) -> Option<u64> {
    match prepared.front() {
        Some(front) => Some(front.opid.position),
        None => None,
    }
}

fn take_front(prepared: &mut Prepared) -> Option<u64> {
    match prepared.take_front() {
        Some(front) => Some(front.opid.position),
        None => None,
    }
}

#[test]
fn the_front_frees_its_keys_and_no_others(rt: HostRuntime) {
    let mut prepared = four(&rt);
    assert_eq!(rt; front(&prepared), Some(5));
    assert_eq!(rt; take_front(&mut prepared), Some(5));
    stand_at(&rt, &prepared, &[6, 7, 8]);
    prepare(&rt, &mut prepared, 9, 5);
    refuses_key(&rt, &mut prepared, 6, 6);
    stand_at(&rt, &prepared, &[6, 7, 8, 9]);
}

#[test]
fn no_pair_is_at_the_front_of_none(rt: HostRuntime) {
    let mut prepared = Prepared::new(rt.alloc());
    assert_eq!(rt; front(&prepared), None);
    assert_eq!(rt; take_front(&mut prepared), None);
}

#[test]
fn a_roll_back_keeps_the_pair_at_the_position(rt: HostRuntime) {
    let mut prepared = four(&rt);
    prepared.roll_back_after(6);
    stand_at(&rt, &prepared, &[5, 6]);
    refuses_key(&rt, &mut prepared, 6, 6);
    prepare(&rt, &mut prepared, 7, 8);
    stand_at(&rt, &prepared, &[5, 6, 7]);
}

#[test]
fn a_number_and_a_text_are_two_keys(rt: HostRuntime) {
    let mut prepared = Prepared::new(rt.alloc());
    let number = row(&rt, "t", Value::Int(1));
    takes(&rt, &mut prepared, 5, one(&rt, number));
    let of_letter = row(&rt, "t", letter(&rt));
    takes(&rt, &mut prepared, 6, one(&rt, of_letter));
    let elsewhere = row(&rt, "u", Value::Int(1));
    takes(&rt, &mut prepared, 7, one(&rt, elsewhere));
    let again = no_row(&rt, "t", letter(&rt));
    refuses(&rt, &mut prepared, one(&rt, again), 0, 6);
}

/// Two opids of pairs, and one that names a position in another term.
fn strays(rt: &(impl AllocGlobal + Abort)) -> List<Opid> {
    let mut strays = pair(rt, opid(5), opid(7));
    let (term, position) = (2, 8);
    strays.push(Opid { term, position }).expect(rt, "memory");
    strays
}

#[test]
fn pairs_that_the_log_lacks_are_dropped(rt: HostRuntime) {
    let mut prepared = four(&rt);
    prepared.drop_pairs(&strays(&rt));
    stand_at(&rt, &prepared, &[6, 8]);
    prepare(&rt, &mut prepared, 9, 7);
}

#[test]
fn two_changes_of_one_transaction_may_write_one_key(rt: HostRuntime) {
    let mut prepared = Prepared::new(rt.alloc());
    let put = row(&rt, "t", Value::Int(1));
    let gone = no_row(&rt, "t", Value::Int(1));
    takes(&rt, &mut prepared, 5, pair(&rt, put, gone));
    assert_eq!(rt; take_front(&mut prepared), Some(5));
    prepare(&rt, &mut prepared, 6, 1);
}
