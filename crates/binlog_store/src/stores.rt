//! The store: the log in memory, and the calls that change it on the disk.
ghost use Rattle.std.specs.Prelude.{◌≡◌, ◌≤◌, ◌++◌, ◌+◌, [], true, OnOk, Some, length, take, ℕ, ◌<◌, max, Ok};
ghost use Rattle.ring_types.specs.Gtids.{gtids};
ghost use Rattle.ring_types.specs.declared.schemas.Schema.{Schema};
ghost use Rattle.ring_types.specs.Logs.{entry_at, rotates};
ghost use Rattle.ring_types.specs.Rings.{is_schema};
ghost use Rattle.edge_traits.specs.Moments.{AtEachMoment};
ghost use Rattle.edge_traits.specs.Works.{HoldsOn, Switches};
ghost use Rattle.edge_traits.specs.declared.disks.FileId.TheVariants as id;
ghost use Rattle.control_block.specs.Blocks.{Stands};
ghost use Rattle.control_block.specs.ControlFiles.{IsEither};
ghost use Rattle.binlog_store.specs.Faults.{StoreFails};
ghost use Rattle.binlog_store.specs.Groups.{log_files};
ghost use Rattle.binlog_store.specs.Mounted.{IsMounted, IsStore, log_of};
ghost use Rattle.binlog_store.specs.Points.{point_bytes};
ghost use Rattle.binlog_store.specs.Stands.{IsWritten, LogStands};
ghost use Rattle.binlog_store.specs.declared.points.LogPoint.{LogPoint};

use crate::faults::StoreFault;
use crate::files::{cut_behind, write_added};
use crate::held::HeldLog;
use crate::points::{LogPoint, bytes_of};
use control_block::{ControlBlock, ControlFault};
use edge_traits::Disk;
use gtid_set::GtidSet;
use ring_types::{Entry, List, Schema};
use std::alloc::Global;

/// A log on the disk on which it is mounted. After a fault, let the store go and mount the log again: the
/// disk holds the log from before the call, or the one that the call makes.
#[derive(Drop)]
pub struct BinlogStore {
    pub(crate) alloc: Global,
    pub(crate) held: HeldLog,
    /// The greatest number that the last file of a log had which the control file told.
    pub(crate) highest: u32,
    pub(crate) control: ControlBlock,
}

impl BinlogStore {
    /// How many entries the log has.
    pub fn length(&self) -> u64
        ensures { result ≡ length (log_of self.now) }
    {
        self.held.entries.len() as u64
    }

    /// The entries of the log, in order, lent.
    pub fn entries(&self) -> &[Entry]
        ensures { result.now ≡ log_of self.now }
    {
        self.held.entries.as_slice()
    }

    /// The entry at a position, counted from 1, lent.
    pub fn entry(&self, position: u64) -> &Entry
        requires first { 1 ≤ position }
        requires within { position ≤ length (log_of self.now) }
        ensures { entry_at (log_of self.now) position ≡ Some result.now }
    {
        &self.held.entries.as_slice()[position as usize - 1]
    }

    /// The transactions of the log.
    pub fn gtids(&self) -> &GtidSet
        ensures { (schema : Schema) → IsStore schema self.now → result.now ≡ gtids (log_of self.now) }
    {
        &self.held.end.gtids
    }

    /// The number of the file in which the next entry comes to stand, counted from 1.
    pub fn file(&self) -> u32
        ensures { (schema : Schema) → IsStore schema self.now → result ≡ rotates (log_of self.now) + 1 }
    {
        self.held.end.place.file
    }

    /// Writes this point into the control file: from then on it says where the log ends.
    fn switch<D: Disk>(&mut self, disk: &mut D, point: LogPoint) -> Result<(), StoreFault>
        requires { D.tells disk.old ≡ true → Stands self.old.control (D.files disk.old self.old.control.file) }
        ensures held { self.new.held ≡ self.old.held }
        ensures file { self.new.control.file ≡ self.old.control.file }
        ensures stands { D.tells disk.old ≡ true → OnOk result (Stands self.new.control (D.files disk.new self.new.control.file)) }
        ensures bytes { OnOk result (self.new.control.bytes ≡ Some (point_bytes point)) }
        ensures highest { OnOk result (self.new.highest ≡ point.highest) }
        ensures crash { D.tells disk.old ≡ true → AtEachMoment D.files D.moment D.left_since self.old.control.file disk.old disk.new (IsEither self.old.control.bytes (point_bytes point)) }
        ensures story { D.story disk.new ≡ D.story disk.old }
        ensures tells { D.tells disk.new ≡ D.tells disk.old }
        ensures later { D.faults disk.old ≤ D.faults disk.new }
        ensures failed { StoreFails (D.faults disk.old) (D.faults disk.new) result }
    {
        let bytes = bytes_of(self.alloc, point)?;
        match self.control.switch(disk, bytes.as_slice()) {
            Ok(()) => {
                self.highest = point.highest;
                Ok(())
            }
            Err(ControlFault::Disk) => Err(StoreFault::Disk),
            Err(ControlFault::Memory) => Err(StoreFault::Memory),
            Err(ControlFault::TooLong) | Err(ControlFault::Damaged) => unreachable!(),
        }
    }

    /// Puts entries at the end of the log: writes what they add to its files behind the end, syncs it, and
    /// then switches the control file. Without entries it does not call the disk.
    pub fn append<D: Disk>(
        &mut self,
        schema: &Schema,
        disk: &mut D,
        entries: List<Entry>,
    ) -> Result<(), StoreFault>
        requires schema { is_schema schema.now ≡ true }
        requires store { IsStore schema.now self.old }
        requires log { IsWritten schema.now (log_of self.old ++ entries) }
        requires mounted { D.tells disk.old ≡ true → IsMounted schema.now self.old (D.files disk.old) }
        ensures log { OnOk result (log_of self.new ≡ log_of self.old ++ entries) }
        ensures store { OnOk result (IsStore schema.now self.new) }
        ensures mounted { D.tells disk.old ≡ true → OnOk result (IsMounted schema.now self.new (D.files disk.new)) }
        ensures holds { D.tells disk.old ≡ true → OnOk result (HoldsOn log_files D.files D.moment D.left_since disk.new (LogStands schema.now (log_of self.old ++ entries))) }
        ensures crash { D.tells disk.old ≡ true → Switches log_files D.files D.moment D.left_since disk.old disk.new (LogStands schema.now (log_of self.old)) (LogStands schema.now (log_of self.old ++ entries)) }
        ensures highest { OnOk result (self.new.highest ≡ max self.old.highest (rotates (log_of self.new) + 1)) }
        ensures above { D.tells disk.old ≡ true → OnOk result ((n : ℕ) → rotates (log_of self.new) + 1 < n → D.files disk.new (id.Binlog n) ≡ D.files disk.old (id.Binlog n)) }
        ensures nothing { entries ≡ [] → (result ≡ Ok tt) × (disk.new ≡ disk.old) × (self.new ≡ self.old) }
        ensures story { D.story disk.new ≡ D.story disk.old }
        ensures tells { D.tells disk.new ≡ D.tells disk.old }
        ensures later { D.faults disk.old ≤ D.faults disk.new }
        ensures failed { StoreFails (D.faults disk.old) (D.faults disk.new) result }
    {
        if entries.is_empty() {
            return Ok(());
        }
        let end = self.held.point(self.highest);
        let added = self.held.extend(self.alloc, schema, entries)?;
        write_added(disk, end.file, end.end, added.as_slice())?;
        let point = self.held.point(self.highest);
        self.switch(disk, point)?;
        Ok(())
    }

    /// Leaves the first `position` entries of the log: switches the control file, and then cuts off what
    /// stands behind the new end, and empties the files above. A stop before the cuts leaves bytes there
    /// that no log reads.
    pub fn truncate<D: Disk>(
        &mut self,
        schema: &Schema,
        disk: &mut D,
        position: u64,
    ) -> Result<(), StoreFault>
        requires schema { is_schema schema.now ≡ true }
        requires store { IsStore schema.now self.old }
        requires within { position ≤ length (log_of self.old) }
        requires mounted { D.tells disk.old ≡ true → IsMounted schema.now self.old (D.files disk.old) }
        ensures log { OnOk result (log_of self.new ≡ take position (log_of self.old)) }
        ensures store { OnOk result (IsStore schema.now self.new) }
        ensures mounted { D.tells disk.old ≡ true → OnOk result (IsMounted schema.now self.new (D.files disk.new)) }
        ensures holds { D.tells disk.old ≡ true → OnOk result (HoldsOn log_files D.files D.moment D.left_since disk.new (LogStands schema.now (take position (log_of self.old)))) }
        ensures highest { OnOk result (self.new.highest ≡ max self.old.highest (rotates (log_of self.new) + 1)) }
        ensures above { D.tells disk.old ≡ true → OnOk result ((n : ℕ) → rotates (take position (log_of self.old)) + 1 < n → n ≤ self.old.highest → (D.files disk.new (id.Binlog n)).bytes ≡ []) }
        ensures crash { D.tells disk.old ≡ true → Switches log_files D.files D.moment D.left_since disk.old disk.new (LogStands schema.now (log_of self.old)) (LogStands schema.now (take position (log_of self.old))) }
        ensures story { D.story disk.new ≡ D.story disk.old }
        ensures tells { D.tells disk.new ≡ D.tells disk.old }
        ensures later { D.faults disk.old ≤ D.faults disk.new }
        ensures failed { StoreFails (D.faults disk.old) (D.faults disk.new) result }
    {
        self.held.cut(self.alloc, schema, position)?;
        let point = self.held.point(self.highest);
        self.switch(disk, point)?;
        cut_behind(disk, point.file, point.end, point.highest)?;
        Ok(())
    }
}
