//! The end of a log: its GTID set, and where in its files the next entry begins.
ghost use Rattle.std.specs.Prelude.{◌≡◌, ◌≢◌, ◌++◌, ◌∷◌, ◌+◌, ◌^◌, ◌<◌, [], true, IfOk, List, OnOk, length};
ghost use Rattle.ring_types.specs.declared.entries.Entry.{Entry};
ghost use Rattle.ring_types.specs.declared.entries.Payload.TheVariants as kind;
ghost use Rattle.ring_types.specs.declared.schemas.Schema.{Schema};
ghost use Rattle.ring_types.specs.Gtids as sets;
ghost use Rattle.ring_types.specs.Rings.{is_schema};
ghost use Rattle.entry_group.specs.Groups.{group};
ghost use Rattle.entry_group.specs.Laws.{StandsAt};
ghost use Rattle.binlog_store.specs.Held.{IsBehind, IsEnd};
ghost use Rattle.binlog_store.specs.Stands.{IsWritten};

use crate::log_sets::{head_of, put_gtid};
use entry_group::group_size;
use gtid_set::GtidSet;
use ring_types::{Entry, Memory, Payload, Place, Schema};
use std::alloc::{AllocError, Global};

/// What a log's files need to go on: its transactions, and the place of the next entry.
#[derive(Drop)]
pub(crate) struct LogEnd {
    /// The transactions of the log.
    pub gtids: GtidSet,
    /// Where the next entry begins.
    pub place: Place,
}

/// The place behind a group of so many bytes that ends no file.
fn behind_group(place: Place, entry: &Entry, size: u64) -> Result<Place, Memory>
    requires counted { place.sequence + 1 < 2 ^ 64 }
    requires goes_on { entry.now.payload ≢ kind.Rotate }
    ensures { (schema : Schema) (before : List Entry) → size ≡ length (group schema entry.now place) → IfOk result (λ it. IsBehind schema place before entry.now it) }
{
    let sequence = match entry.payload {
        Payload::Txn(_) => place.sequence + 1,
        _ => place.sequence,
    };
    Ok(Place {
        file: place.file,
        at: place.at.checked_add(size).ok_or(AllocError)?,
        sequence,
    })
}

/// The place behind the head of the next file, if these are the transactions before it.
fn behind_head(alloc: Global, gtids: &GtidSet, entry: &Entry, place: Place) -> Result<Place, Memory>
    requires room { place.file + 1 < 2 ^ 32 }
    requires ends { entry.now.payload ≡ kind.Rotate }
    ensures { (schema : Schema) (before : List Entry) → gtids.now ≡ sets.gtids before → IfOk result (λ it. IsBehind schema place before entry.now it) }
{
    let head = head_of(alloc, gtids)?;
    Ok(Place {
        file: place.file + 1,
        at: head.len() as u64,
        sequence: 1,
    })
}

impl LogEnd {
    /// The end of the empty log.
    pub(crate) fn new(alloc: Global) -> Result<LogEnd, Memory>
        ensures { IfOk result (λ it. (schema : Schema) → IsEnd schema [] it) }
    {
        let gtids = GtidSet::new(alloc);
        let head = head_of(alloc, &gtids)?;
        let place = Place {
            file: 1,
            at: head.len() as u64,
            sequence: 1,
        };
        Ok(LogEnd { gtids, place })
    }

    /// The end of a log.
    pub(crate) fn of(alloc: Global, schema: &Schema, log: &[Entry]) -> Result<LogEnd, Memory>
        requires schema { is_schema schema.now ≡ true }
        requires written { IsWritten schema.now log.now }
        ensures { IfOk result (λ it. IsEnd schema.now log.now it) }
    {
        let mut end = LogEnd::new(alloc)?;
        for entry in log {
            end.put(alloc, schema, entry)?;
        }
        Ok(end)
    }

    /// The place behind an entry. `Memory` also where its file would have more than 2^64 - 1 bytes.
    fn place_behind(&self, alloc: Global, schema: &Schema, entry: &Entry) -> Result<Place, Memory>
        requires schema { is_schema schema.now ≡ true }
        requires stands { StandsAt schema.now self.now.place entry.now }
        requires counted { self.now.place.sequence + 1 < 2 ^ 64 }
        ensures { (before : List Entry) → self.now.gtids ≡ sets.gtids before → IfOk result (λ it. IsBehind schema.now self.now.place before entry.now it) }
    {
        match entry.payload {
            Payload::Rotate => behind_head(alloc, &self.gtids, entry, self.place),
            _ => {
                let size = group_size(schema, &entry.payload);
                if size == u64::MAX {
                    return Err(AllocError);
                }
                behind_group(self.place, entry, size)
            }
        }
    }

    /// An entry comes to the end of the log.
    pub(crate) fn put(
        &mut self,
        alloc: Global,
        schema: &Schema,
        entry: &Entry,
    ) -> Result<(), Memory>
        requires schema { is_schema schema.now ≡ true }
        requires stands { StandsAt schema.now self.old.place entry.now }
        requires counted { self.old.place.sequence + 1 < 2 ^ 64 }
        ensures { OnOk result ((log : List Entry) → IsEnd schema.now log self.old → IsEnd schema.now (log ++ entry.now ∷ []) self.new) }
    {
        self.place = self.place_behind(alloc, schema, entry)?;
        put_gtid(&mut self.gtids, entry)
    }
}
