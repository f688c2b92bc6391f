//! A log in memory, with its end, and the bytes that entries add to its files.
ghost use Rattle.std.specs.Prelude.{◌≡◌, ◌≤◌, ◌++◌, ◌∷◌, ◌^◌, ◌<◌, [], true, IfOk, List, OnOk, length, take};
ghost use Rattle.ring_types.specs.declared.entries.Entry.{Entry};
ghost use Rattle.ring_types.specs.Gtids as sets;
ghost use Rattle.ring_types.specs.declared.schemas.Schema.{Schema};
ghost use Rattle.ring_types.specs.Rings.{is_schema};
ghost use Rattle.entry_group.specs.Files.{files_from, head_after};
ghost use Rattle.entry_group.specs.Laws.{StandsAt};
ghost use Rattle.binlog_store.specs.Added.{added, continued};
ghost use Rattle.binlog_store.specs.Held.{IsHeldLog, files_of, point_of};
ghost use Rattle.binlog_store.specs.Stands.{IsWritten};

use crate::ends::LogEnd;
use crate::log_sets::head_of;
use crate::points::LogPoint;
use entry_group::write_entry;
use ring_types::{Entry, List, Memory, Payload, Place, Schema};
use std::alloc::Global;
use std::mem::replace;

/// A log in memory, with its end.
#[derive(Drop)]
pub(crate) struct HeldLog {
    pub entries: List<Entry>,
    pub end: LogEnd,
}

/// The bytes of files that are made one after the other: those that are ended, and the one that goes on.
#[derive(Drop)]
pub(crate) struct Growing {
    ended: List<List<u8>>,
    current: Vec<u8>,
}

impl Growing {
    /// A file that goes on, and nothing of it yet.
    fn new(alloc: Global) -> Growing
        ensures { files_of result ≡ [] ∷ [] }
    {
        Growing {
            ended: List::new(alloc),
            current: Vec::new(alloc),
        }
    }

    /// Ends the file, and begins the next one with this head.
    fn begin(&mut self, head: Vec<u8>) -> Result<(), Memory>
        ensures { OnOk result (files_of self.new ≡ files_of self.old ++ head.items ∷ []) }
    {
        let ended = replace(&mut self.current, head);
        self.ended.push(List::from_vec(ended))
    }

    /// Puts an entry behind the files so far: its group, and behind a Rotate the head of the next file.
    #[tactic(auto, using(crate::proofs::Standing::payload_fits_there))]
    fn put(
        &mut self,
        alloc: Global,
        schema: &Schema,
        end: &LogEnd,
        entry: &Entry,
    ) -> Result<(), Memory>
        requires schema { is_schema schema.now ≡ true }
        requires stands { StandsAt schema.now end.now.place entry.now }
        ensures { OnOk result ((before : List Entry) → end.now.gtids ≡ sets.gtids before → files_of self.new ≡ continued (files_of self.old) (files_from schema.now end.now.place before (entry.now ∷ []))) }
    {
        write_entry(&mut self.current, schema, entry, end.place)?;
        match entry.payload {
            Payload::Rotate => {
                let head = head_of(alloc, &end.gtids)?;
                self.begin(head)
            }
            _ => Ok(()),
        }
    }

    /// The files, the one that goes on last.
    fn into_files(self) -> Result<List<List<u8>>, Memory>
        ensures { IfOk result (λ it. it ≡ files_of self) }
    {
        let Growing { ended, current } = self;
        let mut files = ended;
        files.push(List::from_vec(current))?;
        Ok(files)
    }
}

impl HeldLog {
    /// The empty log.
    pub(crate) fn new(alloc: Global) -> Result<HeldLog, Memory>
        ensures empty { IfOk result (λ it. it.entries ≡ []) }
        ensures held { IfOk result (λ it. (schema : Schema) → IsHeldLog schema it) }
        ensures begun { IfOk result (λ it. (it.end.place.file ≡ 1) × (it.end.place.at ≡ length (head_after []))) }
    {
        Ok(HeldLog {
            entries: List::new(alloc),
            end: LogEnd::new(alloc)?,
        })
    }

    /// The point at which the log ends. `highest` is that of the point before; the log's last file may have
    /// a greater number.
    pub(crate) fn point(&self, highest: u32) -> LogPoint
        ensures is { result ≡ point_of self.now highest }
        ensures end { result.end < 2 ^ 64 }
        ensures count { result.count < 2 ^ 64 }
    {
        let Place { file, at, .. } = self.end.place;
        LogPoint::new(self.entries.len() as u64, file, at, highest.max(file))
    }

    /// Moves entries to the end of the log, and gives what they add to its files: the rest of the last
    /// file, and the files behind it. After `Memory` the log is given up.
    pub(crate) fn extend(
        &mut self,
        alloc: Global,
        schema: &Schema,
        more: List<Entry>,
    ) -> Result<List<List<u8>>, Memory>
        requires schema { is_schema schema.now ≡ true }
        requires held { IsHeldLog schema.now self.old }
        requires written { IsWritten schema.now (self.old.entries ++ more) }
        ensures entries { OnOk result (self.new.entries ≡ self.old.entries ++ more) }
        ensures held { OnOk result (IsHeldLog schema.now self.new) }
        ensures gives { IfOk result (λ it. it ≡ added schema.now self.old.entries more) }
    {
        let mut growing = Growing::new(alloc);
        for entry in more.as_slice() {
            growing.put(alloc, schema, &self.end, entry)?;
            self.end.put(alloc, schema, entry)?;
        }
        self.entries.append(more)?;
        growing.into_files()
    }

    /// Leaves the first `count` entries of the log. After `Memory` the log is given up.
    pub(crate) fn cut(&mut self, alloc: Global, schema: &Schema, count: u64) -> Result<(), Memory>
        requires schema { is_schema schema.now ≡ true }
        requires written { IsWritten schema.now self.old.entries }
        ensures entries { OnOk result (self.new.entries ≡ take count self.old.entries) }
        ensures held { OnOk result (IsHeldLog schema.now self.new) }
    {
        self.entries.truncate(count);
        self.end = LogEnd::of(alloc, schema, self.entries.as_slice())?;
        Ok(())
    }
}
