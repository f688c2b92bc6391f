ghost use Rattle.std.specs.Prelude.{◌≡◌, [], IfOk, OnOk};
ghost use Rattle.std.specs.Option.{option_copied};
ghost use Rattle.ring_types.specs.Rows as spec;

use ring_types::{Change, Duplicate, List, Memory, Value};
use std::alloc::Global;
use std::collections::BTreeMap;
use std::marker::Model;

/// The rows of one table, each under its key. Contracts see them as a list in key order.
#[derive(Drop)]
pub struct TableRows {
    by_key: BTreeMap<Value, List<Value>>,
}

impl Model for TableRows {
    ghost use Rattle.std.specs.BTreeMap.{values};
    ghost use Rattle.ring_types.specs.Rows.{Rows};
    ghost use Rattle.row_engine.specs.Keyed.{IsKeyed};

    ghost Value = { Rows };

    ghost view = { λ t. values t.by_key };

    ghost invariant = { λ t. IsKeyed t.by_key.entries };
}

impl TableRows {
    /// No rows. Takes no memory.
    pub fn new(alloc: Global) -> TableRows
        ensures { result ≡ [] }
    {
        TableRows {
            by_key: BTreeMap::new(alloc),
        }
    }

    /// The row with this key.
    pub fn row_of(&self, key: &Value) -> Option<&List<Value>>
        ensures { option_copied result ≡ spec.row_of self.now key.now }
    {
        self.by_key.get(key)
    }

    /// Whether there is a row with this key.
    #[tactic(auto, using(crate::proofs::RowAfter::has_row))]
    pub fn has_key(&self, key: &Value) -> bool
        ensures { result ≡ spec.has_key self.now key.now }
    {
        self.row_of(key).is_some()
    }

    /// Puts a row in its place, where it replaces the row with its key.
    fn put(&mut self, alloc: Global, row: List<Value>) -> Result<(), Memory>
        ensures { OnOk result (self.new ≡ spec.with_row self.old row) }
    {
        let key = copied_key(alloc, row.as_slice())?;
        self.by_key.insert(key, row)?;
        Ok(())
    }

    /// Takes away the row with this key, if there is one. Takes no memory.
    fn take(&mut self, key: &Value)
        ensures { self.new ≡ spec.without_key self.old key.now }
    {
        self.by_key.remove(key);
    }

    /// Makes a change of this table, which takes a copy of its row.
    pub fn change(&mut self, alloc: Global, change: &Change) -> Result<(), Memory>
        ensures { OnOk result (self.new ≡ spec.rows_after self.old change.now) }
    {
        match change {
            Change::Insert { row, .. } => self.put(alloc, row.copy(alloc)?),
            Change::Update { row, .. } => self.put(alloc, row.copy(alloc)?),
            Change::Delete { key, .. } => {
                self.take(key);
                Ok(())
            }
        }
    }

    /// Copies of the rows.
    pub fn listed(&self, alloc: Global) -> Result<List<List<Value>>, Memory>
        ensures { IfOk result (λ it. it ≡ self.now) }
    {
        let mut rows = List::new(alloc);
        for row in self.by_key.values() {
            rows.push(row.copy(alloc)?)?;
        }
        Ok(rows)
    }
}

/// A copy of the row's key. A row without values has the key Null.
fn copied_key(alloc: Global, row: &[Value]) -> Result<Value, Memory>
    ensures { IfOk result (λ key. key ≡ spec.key_of row.now) }
{
    match row {
        [] => Ok(Value::Null),
        [key, ..] => key.copy(alloc),
    }
}

impl Duplicate for TableRows {
    fn copy(&self, alloc: Global) -> Result<TableRows, Memory> {
        let mut rows = TableRows::new(alloc);
        for row in self.by_key.values() {
            rows.put(alloc, row.copy(alloc)?)?;
        }
        Ok(rows)
    }
}
