//! Reading a log from its files: group by group, each behind those that were read.
ghost use Rattle.std.specs.Prelude.{◌≡◌, ◌≢◌, ◌≤◌, ◌<◌, ◌-◌, ◌^◌, true, Err, IfErr, IfOk, IsTrue, OnErr, OnOk, length};
ghost use Rattle.edge_traits.specs.FileStates.{Contents};
ghost use Rattle.edge_traits.specs.declared.disks.FileId.TheVariants as id;
ghost use Rattle.ring_types.specs.Rings.{is_schema};
ghost use Rattle.binlog_store.specs.Following.{Fits, IfRefused, IsInside, IsWalked, ReadsNext, fault_behind, read_fault};
ghost use Rattle.binlog_store.specs.Held.{IsHeldLog, IsNextFile};
ghost use Rattle.binlog_store.specs.Longest.{Tells, begins_next, follows};
ghost use Rattle.event_control.specs.ControlEvents.{opid_event_at};
ghost use Rattle.binlog_store.specs.Stands.{IsWritten};
ghost use Rattle.ring_types.specs.declared.limits.TheConstants.{TERM_END};
ghost use Rattle.binlog_store.specs.declared.reading.ReadFault.TheVariants as fault;

use crate::held::HeldLog;
use entry_group::{EntryError, read_entry};
use event_control::read_opid;
use ring_types::{Opid, Schema, TERM_END, after, last};
use std::alloc::{AllocError, Global};

/// Why bytes are not the next group of a log.
#[derive(Clone, Copy)]
pub(crate) enum ReadFault {
    /// At offset `group` of the bytes the next group is due, and at offset `at` begins the first event that
    /// it does not have there.
    NotNext { group: u64, at: u64 },
    /// Memory was wanting.
    Memory,
}

impl ReadFault {
    /// The same fault, its offsets counted from `begin` bytes further in front.
    fn behind(self, begin: u64) -> ReadFault
        requires { Fits (2 ^ 64 - 1 - begin) self }
        ensures { result ≡ fault_behind begin self }
    {
        match self {
            ReadFault::NotNext { group, at } => ReadFault::NotNext {
                group: begin + group,
                at: begin + at,
            },
            ReadFault::Memory => ReadFault::Memory,
        }
    }
}

impl From<EntryError> for ReadFault {
    ghost from_gives = { λ e f. f ≡ read_fault e };

    fn from(error: EntryError) -> Self {
        match error {
            EntryError::NotAnEntry { at, .. } => ReadFault::NotNext { group: 0, at },
            EntryError::Memory => ReadFault::Memory,
        }
    }
}

impl From<AllocError> for ReadFault {
    ghost from_gives = { λ _ f. f ≡ fault.Memory };

    fn from(_: AllocError) -> Self {
        ReadFault::Memory
    }
}

impl HeldLog {
    /// Whether an entry of this opid may come behind the log: its position is the next one, its term does
    /// not fall, and the log is not at its greatest length.
    fn may_follow(&self, opid: Opid) -> bool
        requires { length self.now.entries < TERM_END }
        ensures { result ≡ follows self.now.entries opid }
    {
        let last = last(self.entries.as_slice());
        let position = last.position + 1;
        opid.position == position && position < TERM_END && last.term <= opid.term
    }

    /// Whether these bytes of its last file begin with an opid event of an entry that may come behind the log.
    fn begins_next(&self, bytes: &[u8]) -> bool
        requires { length self.now.entries < TERM_END }
        ensures { result ≡ begins_next self.now.entries (opid_event_at bytes.now self.now.end.place.at) }
    {
        match read_opid(bytes, self.end.place.at) {
            Ok(event) => self.may_follow(event.opid),
            Err(_) => false,
        }
    }

    /// Reads the group behind the log from these bytes of its last file, adds its entry to the log, and tells
    /// how many bytes it has. Where no next group stands, the log stays as it was; after `Memory` it is given
    /// up.
    pub(crate) fn read_next(
        &mut self,
        alloc: Global,
        schema: &Schema,
        bytes: &[u8],
    ) -> Result<u64, ReadFault>
        requires schema { is_schema schema.now ≡ true }
        requires held { IsHeldLog schema.now self.old }
        requires written { IsWritten schema.now self.old.entries }
        ensures held { OnOk result (IsHeldLog schema.now self.new) }
        ensures written { OnOk result (IsWritten schema.now self.new.entries) }
        ensures within { IfOk result (λ it. (1 ≤ it) × (it ≤ length bytes.now)) }
        ensures given { ReadsNext schema.now self.old.entries bytes.now self.old.end.place result self.new.entries }
        ensures same { result ≢ Err fault.Memory → OnErr result (self.new ≡ self.old) }
    {
        if !self.begins_next(bytes) {
            return Err(ReadFault::NotNext { group: 0, at: 0 });
        }
        let read = read_entry(alloc, schema, bytes, self.end.place)?;
        let size = read.size;
        self.end.put(alloc, schema, &read.entry)?;
        self.entries.push(read.entry)?;
        Ok(size)
    }

    /// Reads the groups of the file in which the log ends, of which these are the bytes, up to their end or
    /// behind a Rotate; tells how many bytes of them it read. Where a group is due that does not stand there,
    /// the log has the entries before it; after `Memory` it is given up.
    pub(crate) fn read_groups(
        &mut self,
        alloc: Global,
        schema: &Schema,
        bytes: &[u8],
    ) -> Result<u64, ReadFault>
        requires schema { is_schema schema.now ≡ true }
        requires held { IsHeldLog schema.now self.old }
        requires written { IsWritten schema.now self.old.entries }
        requires long { self.old.end.place.at ≤ length bytes.now }
        ensures held { OnOk result (IsHeldLog schema.now self.new) }
        ensures written { OnOk result (IsWritten schema.now self.new.entries) }
        ensures within { IfOk result (λ it. it ≤ length bytes.now) }
        ensures on { IfOk result (λ it. self.new.end.place.file ≡ self.old.end.place.file → (it ≡ length bytes.now) × (self.new.end.place.at ≡ it)) }
        ensures next { OnOk result (self.new.end.place.file ≢ self.old.end.place.file → IsNextFile self.old.end.place self.new) }
        ensures walked { (c : Contents) → c (id.Binlog self.old.end.place.file) ≡ bytes.now → Tells schema.now c self.old.entries → IfOk result (λ it. IsWalked schema.now c self.old.end.place.file self.new.entries it) }
        ensures refused { (c : Contents) → c (id.Binlog self.old.end.place.file) ≡ bytes.now → Tells schema.now c self.old.entries → IfRefused schema.now c self.old.end.place.file self.new.entries result }
        ensures sizes { IfErr result (IsInside (length bytes.now)) }
    {
        let number = self.end.place.file;
        let mut at = self.end.place.at;
        while self.end.place.file == number && at < bytes.len() as u64 {
            match self.read_next(alloc, schema, after(bytes, at)) {
                Ok(size) => at += size,
                Err(fault) => return Err(fault.behind(at)),
            }
        }
        Ok(at)
    }
}
