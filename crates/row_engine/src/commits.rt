ghost use Rattle.std.specs.Prelude.{◌≡◌, IfOk, OnOk};
ghost use Rattle.ring_types.specs.Rows as spec;

use crate::tables::Tables;
use ring_types::{Entry, Memory, Payload, Schema};
use std::alloc::Global;

impl Tables {
    /// Does a committed payload: a transaction is applied, and one that the tables refuse leaves them
    /// as they were. After `Memory` they are to be made anew.
    pub fn commit(&mut self, payload: &Payload) -> Result<(), Memory>
        ensures schema { self.new.schema ≡ self.old.schema }
        ensures rows { OnOk result (self.new.rows ≡ spec.after_payload self.old.schema self.old.rows payload.now) }
    {
        match payload {
            Payload::NoOp => Ok(()),
            Payload::Rotate => Ok(()),
            Payload::Txn(txn) => {
                let _was_accepted = self.apply(&txn.changes)?;
                Ok(())
            }
        }
    }

    /// The tables as these entries, in order, make them of empty ones.
    #[tactic(auto, unfolding(ring_types::specs::Rows::rows))]
    pub fn of_entries(alloc: Global, schema: &Schema, entries: &[Entry]) -> Result<Tables, Memory>
        ensures { IfOk result (λ it. it ≡ record { schema = schema.now; rows = spec.rows schema.now entries.now }) }
    {
        let mut tables = Tables::new(alloc, schema)?;
        for entry in entries {
            tables.commit(&entry.payload)?;
        }
        Ok(tables)
    }
}
