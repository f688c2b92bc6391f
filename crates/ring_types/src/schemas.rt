use crate::duplication::{Duplicate, Memory};
use crate::lists::List;
use crate::texts::Text;
use std::alloc::Global;

/// What a column holds: 64-bit signed numbers, or texts of at most `limit` UTF-8 bytes.
#[derive(Clone, Copy, Debug, PartialEq, Eq)]
pub enum Shape {
    Int,
    Text { limit: u16 },
}

/// A column of a table. Every column but the first may hold Null.
#[derive(Debug, PartialEq, Eq, Drop)]
pub struct Column {
    pub name: Text,
    pub shape: Shape,
}

/// A table: its name and its columns, of which the first is the key.
#[derive(Debug, PartialEq, Eq, Drop)]
pub struct Table {
    pub name: Text,
    pub columns: List<Column>,
}

/// The tables of the ring's one database, in declared order.
#[derive(Debug, PartialEq, Eq, Drop)]
pub struct Schema {
    pub database: Text,
    pub tables: List<Table>,
}

impl Duplicate for Column {
    fn copy(&self, alloc: Global) -> Result<Column, Memory> {
        Ok(Column {
            name: self.name.copy(alloc)?,
            shape: self.shape,
        })
    }
}

impl Duplicate for Table {
    fn copy(&self, alloc: Global) -> Result<Table, Memory> {
        Ok(Table {
            name: self.name.copy(alloc)?,
            columns: self.columns.copy(alloc)?,
        })
    }
}

impl Duplicate for Schema {
    fn copy(&self, alloc: Global) -> Result<Schema, Memory> {
        Ok(Schema {
            database: self.database.copy(alloc)?,
            tables: self.tables.copy(alloc)?,
        })
    }
}
