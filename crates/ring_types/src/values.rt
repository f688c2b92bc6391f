use crate::duplication::{Duplicate, Memory};
use crate::lists::List;
use crate::texts::Text;
use std::alloc::Global;

/// A global transaction identifier of MySQL: the server's uuid as a number, big end first, and the
/// transaction's number on that server, from 1 to [`LAST_GTID`](crate::LAST_GTID).
#[derive(Clone, Copy, Debug, PartialEq, Eq)]
pub struct Gtid {
    pub server: u128,
    pub number: u64,
}

/// A value of a row. Values are ordered as numbers, or as bytes of text.
#[derive(Debug, PartialEq, Eq, PartialOrd, Ord, Drop)]
pub enum Value {
    Null,
    Int(i64),
    Text(Text),
}

/// One change of a table. A row's first value is its key.
#[derive(Debug, PartialEq, Eq, Drop)]
pub enum Change {
    /// A new row; its key must not be in the table.
    Insert { table: Text, row: List<Value> },
    /// Replaces the row with the same key.
    Update { table: Text, row: List<Value> },
    /// Takes away the row with this key.
    Delete { table: Text, key: Value },
}

/// A transaction: its identifier and its changes, in order.
#[derive(Debug, PartialEq, Eq, Drop)]
pub struct Txn {
    pub gtid: Gtid,
    pub changes: List<Change>,
}

/// Why the tables refuse a change, in the order of their numbers. A table that is not there is
/// tested first, then the fit of the row or key, then the key.
#[derive(Clone, Copy, Debug, PartialEq, Eq)]
pub enum RowRefusal {
    /// The schema has no table of that name.
    NoTable,
    /// An insert of a key that the table has.
    KeyExists,
    /// An update or a delete of a key that the table lacks.
    NoKey,
    /// The table is there and the row or the key does not fit it.
    BadRow,
}

impl Duplicate for Value {
    fn copy(&self, alloc: Global) -> Result<Value, Memory> {
        match self {
            Value::Null => Ok(Value::Null),
            Value::Int(number) => Ok(Value::Int(*number)),
            Value::Text(text) => Ok(Value::Text(text.copy(alloc)?)),
        }
    }
}

impl Duplicate for Change {
    fn copy(&self, alloc: Global) -> Result<Change, Memory> {
        match self {
            Change::Insert { table, row } => Ok(Change::Insert {
                table: table.copy(alloc)?,
                row: row.copy(alloc)?,
            }),
            Change::Update { table, row } => Ok(Change::Update {
                table: table.copy(alloc)?,
                row: row.copy(alloc)?,
            }),
            Change::Delete { table, key } => Ok(Change::Delete {
                table: table.copy(alloc)?,
                key: key.copy(alloc)?,
            }),
        }
    }
}

impl Duplicate for Txn {
    fn copy(&self, alloc: Global) -> Result<Txn, Memory> {
        Ok(Txn {
            gtid: self.gtid,
            changes: self.changes.copy(alloc)?,
        })
    }
}
