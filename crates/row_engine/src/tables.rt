ghost use Rattle.std.specs.Prelude.{◌≡◌, ℕ, List, IfOk, OnOk, OnErr, IfErr, Some, None, is_none, is_some};
ghost use Rattle.std.specs.HashMap.{get_by_text};
ghost use Rattle.std.specs.Option.{option_copied};
ghost use Rattle.std.specs.Result.{result_err};
ghost use Rattle.ring_types.specs.Rows as rows;
ghost use Rattle.row_engine.specs.Filled.{rows_named};
ghost use Rattle.row_engine.specs.LastChange as last;

use crate::last_change::{last_change, leaves_row, refused_key};
use crate::table_rows::TableRows;
use indexmap::IndexMap;
use ring_plain::{fits_table, table_name};
use ring_types::{Change, Duplicate, List, Memory, RowRefusal, Schema, Text, Value};
use std::alloc::Global;
use std::marker::Model;

/// The rows of each table of a schema. Contracts see the schema and the rows.
#[derive(Drop)]
pub struct Tables {
    alloc: Global,
    schema: Schema,
    /// For each name the place of its table, so that no look-up reads the schema.
    places: IndexMap<String, usize>,
    /// The rows of each table, in declared order.
    rows: Vec<TableRows>,
}

impl Model for Tables {
    ghost use Rattle.std.specs.Prelude.{◌≡◌, ℕ, List, length};
    ghost use Rattle.std.specs.HashMap.{get_by_text};
    ghost use Rattle.ring_types.specs.Rows.{place_in};
    ghost use Rattle.row_engine.specs.Filled.{Filled};

    ghost Value = { Filled };

    ghost view = { λ t. record { schema = t.schema; rows = t.rows.items } };

    ghost invariant = { λ t. (length t.rows.items ≡ length t.schema.tables) × ((name : List ℕ) → get_by_text t.places name ≡ place_in t.schema name) };
}

impl Tables {
    /// Empty tables of a schema, which is copied.
    pub fn new(alloc: Global, schema: &Schema) -> Result<Tables, Memory>
        ensures schema { IfOk result (λ it. it.schema ≡ schema.now) }
        ensures rows { IfOk result (λ it. it.rows ≡ rows.empty_tables schema.now) }
    {
        let places = places_of(alloc, schema)?;
        let rows = no_rows(alloc, schema)?;
        Ok(Tables {
            alloc,
            schema: schema.copy(alloc)?,
            places,
            rows,
        })
    }

    /// The schema that the tables are of.
    pub fn schema(&self) -> &Schema
        ensures { result.now ≡ self.now.schema }
    {
        &self.schema
    }

    /// The place of the table of that name.
    fn place(&self, table: &Text) -> Option<usize>
        ensures { result ≡ rows.place_in self.now.schema table.now }
    {
        self.places.get(table.as_str()).copied()
    }

    /// Copies of the rows of the table of that name.
    pub fn rows(&self, table: &Text) -> Result<List<List<Value>>, Memory>
        ensures { IfOk result (λ it. it ≡ rows_named self.now table.now) }
    {
        match self.place(table) {
            Some(place) => self.rows[place].listed(self.alloc),
            None => Ok(List::new(self.alloc)),
        }
    }

    /// The row of a key in the table of that name, lent. Takes no memory.
    pub fn get(&self, table: &Text, key: &Value) -> Option<&List<Value>>
        ensures { option_copied result ≡ rows.row_of (rows_named self.now table.now) key.now }
    {
        match self.place(table) {
            Some(place) => self.rows[place].row_of(key),
            None => None,
        }
    }

    /// Whether the table at that place has the key after these changes.
    fn has_key_after(&self, place: usize, earlier: &[Change], table: &Text, key: &Value) -> bool
        requires { rows.place_in self.now.schema table.now ≡ Some place }
        ensures { result ≡ rows.has_key (rows.rows_at (rows.all_changed self.now.schema self.now.rows earlier.now) place) key.now }
    {
        match last_change(earlier, table, key) {
            Some(change) => leaves_row(change),
            None => self.rows[place].has_key(key),
        }
    }

    /// Whether the change's table, which is at that place, has the change's key after the earlier
    /// changes.
    fn is_there(&self, place: usize, earlier: &[Change], change: &Change) -> bool
        requires { rows.place_in self.now.schema (rows.table_name change.now) ≡ Some place }
        ensures { result ≡ rows.has_key (rows.rows_at (rows.all_changed self.now.schema self.now.rows earlier.now) place) (rows.change_key change.now) }
    {
        match change {
            Change::Insert { table, row } | Change::Update { table, row } => match row.as_slice() {
                [] => self.has_key_after(place, earlier, table, &Value::Null),
                [key, ..] => self.has_key_after(place, earlier, table, key),
            },
            Change::Delete { table, key } => self.has_key_after(place, earlier, table, key),
        }
    }

    /// Why the change is refused after the earlier ones, if it is.
    #[tactic(auto, using(crate::proofs::Checked::key_decides, crate::proofs::Decided::place_within), unfolding(ring_types::specs::Rows::refusal_of))]
    fn refusal_after(&self, earlier: &[Change], change: &Change) -> Option<RowRefusal>
        ensures { result ≡ rows.refusal_of self.now.schema (rows.all_changed self.now.schema self.now.rows earlier.now) change.now }
    {
        let Some(place) = self.place(table_name(change)) else {
            return Some(RowRefusal::NoTable);
        };
        if fits_table(&self.schema.tables.as_slice()[place], change) {
            refused_key(self.is_there(place, earlier, change), change)
        } else {
            Some(RowRefusal::BadRow)
        }
    }

    /// The first refusal of the changes, each taken on the tables after those before it. Takes no
    /// memory.
    pub fn check(&self, changes: &List<Change>) -> Result<(), RowRefusal>
        ensures { result_err result ≡ rows.check self.now.schema self.now.rows changes.now }
    {
        let changes = changes.as_slice();
        for (at, change) in changes.iter().enumerate() {
            if let Some(refusal) = self.refusal_after(&changes[..at], change) {
                return Err(refusal);
            }
        }
        Ok(())
    }

    /// Makes one change, whether it was accepted or not.
    #[tactic(auto, unfolding(ring_types::specs::Rows::changed))]
    fn change(&mut self, change: &Change) -> Result<(), Memory>
        ensures schema { self.new.schema ≡ self.old.schema }
        ensures rows { OnOk result (self.new.rows ≡ rows.changed self.old.schema self.old.rows change.now) }
    {
        let Some(place) = self.place(table_name(change)) else {
            return Ok(());
        };
        self.rows[place].change(self.alloc, change)
    }

    /// Makes the changes of a transaction if none is refused, and says whether it did. Without
    /// memory some of them may be made.
    pub fn apply(&mut self, changes: &List<Change>) -> Result<bool, Memory>
        ensures done { IfOk result (λ done. done ≡ is_none (rows.check self.old.schema self.old.rows changes.now)) }
        ensures rows { OnOk result (self.new.rows ≡ rows.applied self.old.schema self.old.rows changes.now) }
        ensures schema { self.new.schema ≡ self.old.schema }
    {
        if self.check(changes).is_err() {
            return Ok(false);
        }
        for change in changes.as_slice() {
            self.change(change)?;
        }
        Ok(true)
    }
}

impl Duplicate for Tables {
    fn copy(&self, alloc: Global) -> Result<Tables, Memory> {
        let mut rows = Vec::new(alloc);
        for of_table in &self.rows {
            rows.push(of_table.copy(alloc)?)?;
        }
        Ok(Tables {
            alloc,
            schema: self.schema.copy(alloc)?,
            places: places_of(alloc, &self.schema)?,
            rows,
        })
    }
}

/// The place of each table of the schema, under its name. The last goes in first, so that a name
/// that stands twice has its first place.
fn places_of(alloc: Global, schema: &Schema) -> Result<IndexMap<String, usize>, Memory>
    ensures { IfOk result (λ it. (name : List ℕ) → get_by_text it name ≡ rows.place_in schema.now name) }
{
    let mut places = IndexMap::new(alloc);
    let tables = schema.tables.as_slice();
    let mut place = tables.len();
    while place > 0 {
        place -= 1;
        places.insert(String::from_str(alloc, tables[place].name.as_str())?, place)?;
    }
    Ok(places)
}

/// A table without rows for each table of the schema.
fn no_rows(alloc: Global, schema: &Schema) -> Result<Vec<TableRows>, Memory>
    ensures { IfOk result (λ it. it.items ≡ rows.empty_tables schema.now) }
{
    let mut all = Vec::new(alloc);
    for _ in schema.tables.as_slice() {
        all.push(TableRows::new(alloc))?;
    }
    Ok(all)
}
