//! The map from table and key to the opid of the transaction that writes it.
ghost use Rattle.std.specs.Prelude.{◌≡◌, None, Some, OnErr, OnOk, bytes_eq};
ghost use Rattle.std.specs.Map.{lookup};
ghost use Rattle.ring_types.specs.Rows as rows;
ghost use Rattle.ring_types.specs.declared.values.Value.TheVariants as value;
ghost use Rattle.prepared_txns.specs.Holders.{ArePut, AreFree, IsPut, IsPutAt, SameHolders, SameOthers, first_conflict, held_by};

use ring_plain::table_name;
use ring_types::{Change, Conflict, Duplicate, Memory, Opid, Pair, Text, Value};
use std::alloc::Global;
use std::collections::BTreeMap;

/// The holders of one table's keys.
type Keys = BTreeMap<Value, Opid>;

/// The holders by table, then by key, so that a look-up copies neither name nor key. A table that
/// was written once stays in the map without keys: there are no more of them than the schema has.
pub(crate) type Holders = BTreeMap<Text, Keys>;

/// The key of a row, lent; `null` stands for that of a row without values.
fn row_key<'a>(row: &'a [Value], null: &'a Value) -> &'a Value
    requires { null.now ≡ value.Null }
    ensures { result.now ≡ rows.key_of row.now }
{
    match row {
        [] => null,
        [key, ..] => key,
    }
}

/// The key that a change names, lent, or `null`.
fn change_key<'a>(change: &'a Change, null: &'a Value) -> &'a Value
    requires { null.now ≡ value.Null }
    ensures { result.now ≡ rows.change_key change.now }
{
    match change {
        Change::Insert { row, .. } => row_key(row.as_slice(), null),
        Change::Update { row, .. } => row_key(row.as_slice(), null),
        Change::Delete { key, .. } => key,
    }
}

/// The transaction that holds the key of a change.
fn holder(holders: &Holders, change: &Change) -> Option<Opid>
    ensures { result ≡ held_by holders.now change.now }
{
    match holders.get(table_name(change)) {
        Some(keys) => keys.get(change_key(change, &Value::Null)).copied(),
        None => None,
    }
}

/// The first of the changes whose key is held.
pub(crate) fn conflict(holders: &Holders, changes: &[Change]) -> Option<Conflict>
    ensures { result ≡ first_conflict 0 holders.now changes.now }
{
    let mut place = 0;
    for change in changes {
        if let Some(holder) = holder(holders, change) {
            return Some(Conflict {
                change: place,
                holder,
            });
        }
        place += 1;
    }
    None
}

fn put_in(alloc: Global, keys: &mut Keys, key: &Value, opid: Opid) -> Result<(), Memory>
    ensures ok { OnOk result (IsPutAt key.now (Some opid) keys.old keys.new) }
    ensures err { OnErr result (keys.new.entries ≡ keys.old.entries) }
{
    keys.insert(key.copy(alloc)?, opid)?;
    Ok(())
}

fn put_table(
    alloc: Global,
    holders: &mut Holders,
    change: &Change,
    opid: Opid,
) -> Result<(), Memory>
    requires { lookup (bytes_eq (rows.table_name change.now)) holders.old.entries ≡ None }
    ensures ok { OnOk result (IsPut change.now (Some opid) holders.old holders.new) }
    ensures err { OnErr result (SameHolders holders.old holders.new) }
{
    let mut keys = BTreeMap::new(alloc);
    put_in(alloc, &mut keys, change_key(change, &Value::Null), opid)?;
    holders.insert(table_name(change).copy(alloc)?, keys)?;
    Ok(())
}

fn put_key(alloc: Global, holders: &mut Holders, change: &Change, opid: Opid) -> Result<(), Memory>
    ensures ok { OnOk result (IsPut change.now (Some opid) holders.old holders.new) }
    ensures err { OnErr result (SameHolders holders.old holders.new) }
{
    let Some(keys) = holders.get_mut(table_name(change)) else {
        return put_table(alloc, holders, change, opid);
    };
    put_in(alloc, keys, change_key(change, &Value::Null), opid)
}

fn take_from(keys: &mut Keys, key: &Value)
    ensures { IsPutAt key.now None keys.old keys.new }
{
    keys.remove(key);
}

fn take_key(holders: &mut Holders, change: &Change)
    ensures { IsPut change.now None holders.old holders.new }
{
    let Some(keys) = holders.get_mut(table_name(change)) else {
        return;
    };
    take_from(keys, change_key(change, &Value::Null));
}

/// Without memory some of the keys may be held.
fn put_keys(
    alloc: Global,
    holders: &mut Holders,
    changes: &[Change],
    opid: Opid,
) -> Result<(), Memory>
    ensures ok { OnOk result (ArePut changes.now (Some opid) holders.old holders.new) }
    ensures err { OnErr result (SameOthers changes.now holders.old holders.new) }
{
    for change in changes {
        put_key(alloc, holders, change, opid)?;
    }
    Ok(())
}

fn take_keys(holders: &mut Holders, changes: &[Change])
    ensures { ArePut changes.now None holders.old holders.new }
{
    for change in changes {
        take_key(holders, change);
    }
}

/// Locks the keys of a transaction that nobody holds. Without memory it holds none of them: taking
/// keys out again needs no memory.
pub(crate) fn lock(alloc: Global, holders: &mut Holders, pair: &Pair) -> Result<(), Memory>
    requires { AreFree pair.now.txn.changes holders.old }
    ensures ok { OnOk result (ArePut pair.now.txn.changes (Some pair.now.opid) holders.old holders.new) }
    ensures err { OnErr result (SameHolders holders.old holders.new) }
{
    let changes = pair.txn.changes.as_slice();
    match put_keys(alloc, holders, changes, pair.opid) {
        Ok(()) => Ok(()),
        Err(wanting) => {
            take_keys(holders, changes);
            Err(wanting)
        }
    }
}

/// Frees the keys of a transaction.
pub(crate) fn release(holders: &mut Holders, pair: &Pair)
    ensures { ArePut pair.now.txn.changes None holders.old holders.new }
{
    take_keys(holders, pair.txn.changes.as_slice());
}
