//! The engine: what an action does in memory, and on the disk.
ghost use Rattle.std.specs.Prelude.{◌≡◌, ◌≤◌, ◌+◌, true, IfSome, OnOk, Some};
ghost use Rattle.control_block.specs.Blocks.{Stands};
ghost use Rattle.control_block.specs.ControlFiles.{IsEither};
ghost use Rattle.edge_traits.specs.Moments.{AtEachMoment};
ghost use Rattle.edge_traits.specs.Works.{HoldsOn, Switches};
ghost use Rattle.engine_redo.specs.Faults.{EngineFails};
ghost use Rattle.engine_redo.specs.Groups.{engine_files};
ghost use Rattle.engine_redo.specs.Mounted.{HasAdded, IsEngine, IsMounted, schema_of, state_of};
ghost use Rattle.engine_redo.specs.Points.{PointFits, is_redo_file, point_bytes};
ghost use Rattle.engine_redo.specs.Stands.{EngineStands, MayRedo};
ghost use Rattle.engine_redo.specs.Writing.{MayBeItem};
ghost use Rattle.prepared_txns.specs.Engines.{engine_done};
ghost use Rattle.ring_model.specs.declared.effects.Action.TheVariants as action;

use crate::faults::EngineFault;
use crate::points::{RedoPoint, bytes_of};
use crate::writing::item_of;
use control_block::{ControlBlock, ControlFault};
use edge_traits::{Disk, FileId, put};
use prepared_txns::Prepared;
use ring_model::Action;
use ring_types::Memory;
use row_engine::Tables;
use std::alloc::Global;

/// An engine on the disk on which it is mounted: its tables, the transactions that are prepared, and how many
/// entries are applied. After a fault, let it go and mount it again: the disk holds the engine from before
/// the call, or the one that the call makes, and this one may be either or neither.
#[derive(Drop)]
pub struct Engine {
    pub(crate) alloc: Global,
    pub(crate) applied: u64,
    pub(crate) prepared: Prepared,
    pub(crate) tables: Tables,
    /// Where the redo ends.
    pub(crate) point: RedoPoint,
    pub(crate) control: ControlBlock,
}

impl Engine {
    /// How many entries of the log are applied.
    pub fn applied(&self) -> u64
        ensures { result ≡ (state_of self.now).applied }
    {
        self.applied
    }

    /// The transactions that are prepared, lent.
    pub fn prepared(&self) -> &Prepared
        ensures { result.now ≡ (state_of self.now).prepared }
    {
        &self.prepared
    }

    /// The tables, lent.
    pub fn tables(&self) -> &Tables
        ensures rows { result.now.rows ≡ (state_of self.now).rows }
        ensures schema { result.now.schema ≡ schema_of self.now }
    {
        &self.tables
    }

    /// Applies the entry at a position: it is the front pair's transaction if that has the position.
    fn commit_in_memory(&mut self, position: u64) -> Result<(), Memory>
        ensures done { OnOk result (state_of self.new ≡ engine_done (schema_of self.old) (state_of self.old) (action.Commit position)) }
        ensures schema { schema_of self.new ≡ schema_of self.old }
        ensures point { self.new.point ≡ self.old.point }
        ensures control { self.new.control ≡ self.old.control }
    {
        let is_front = match self.prepared.front() {
            Some(pair) => pair.opid.position == position,
            None => false,
        };
        self.applied = position;
        if is_front && let Some(pair) = self.prepared.take_front() {
            let _was_accepted = self.tables.apply(&pair.txn.changes)?;
        }
        Ok(())
    }

    /// Does an action in memory.
    pub(crate) fn redo(&mut self, action: Action) -> Result<(), Memory>
        requires { MayRedo (schema_of self.old) (state_of self.old) action }
        ensures done { OnOk result (state_of self.new ≡ engine_done (schema_of self.old) (state_of self.old) action) }
        ensures schema { schema_of self.new ≡ schema_of self.old }
        ensures point { self.new.point ≡ self.old.point }
        ensures control { self.new.control ≡ self.old.control }
    {
        match action {
            Action::Prepare(pair) => self.prepared.keep(pair)?,
            Action::Commit(position) => self.commit_in_memory(position)?,
            Action::RollBackAfter(position) => self.prepared.roll_back_after(position),
            Action::DropPairs(opids) => self.prepared.drop_pairs(&opids),
            _ => unreachable!(),
        }
        Ok(())
    }

    /// Writes this point into the control file: from then on it says where the redo ends.
    fn switch<D: Disk>(&mut self, disk: &mut D, point: RedoPoint) -> Result<(), EngineFault>
        requires { D.tells disk.old ≡ true → Stands self.old.control (D.files disk.old self.old.control.file) }
        ensures state { state_of self.new ≡ state_of self.old }
        ensures schema { schema_of self.new ≡ schema_of self.old }
        ensures file { self.new.control.file ≡ self.old.control.file }
        ensures stands { D.tells disk.old ≡ true → OnOk result (Stands self.new.control (D.files disk.new self.new.control.file)) }
        ensures bytes { OnOk result (self.new.control.bytes ≡ Some (point_bytes point)) }
        ensures point { OnOk result (self.new.point ≡ point) }
        ensures crash { D.tells disk.old ≡ true → AtEachMoment D.files D.moment D.left_since self.old.control.file disk.old disk.new (IsEither self.old.control.bytes (point_bytes point)) }
        ensures story { D.story disk.new ≡ D.story disk.old }
        ensures tells { D.tells disk.new ≡ D.tells disk.old }
        ensures later { D.faults disk.old ≤ D.faults disk.new }
        ensures failed { EngineFails (D.faults disk.old) (D.faults disk.new) result }
    {
        let bytes = bytes_of(self.alloc, point)?;
        match self.control.switch(disk, bytes.as_slice()) {
            Ok(()) => {
                self.point = point;
                Ok(())
            }
            Err(ControlFault::Disk) => Err(EngineFault::Disk),
            Err(ControlFault::Memory) => Err(EngineFault::Memory),
            Err(ControlFault::TooLong) | Err(ControlFault::Damaged) => unreachable!(),
        }
    }

    /// Where the redo ends with so many more bytes.
    fn point_behind(&self, size: usize) -> Option<RedoPoint>
        requires { is_redo_file self.now.point.number ≡ true }
        ensures number { IfSome result (λ it. it.number ≡ self.now.point.number) }
        ensures end { IfSome result (λ it. it.end ≡ self.now.point.end + size) }
        ensures fits { IfSome result PointFits }
    {
        let end = self.point.end.checked_add(size as u64)?;
        Some(RedoPoint {
            number: self.point.number,
            end,
        })
    }

    /// Does an action: writes its item behind the end of the redo and syncs it, and then switches the control
    /// file.
    pub(crate) fn act<D: Disk>(&mut self, disk: &mut D, action: Action) -> Result<(), EngineFault>
        requires engine { IsEngine self.old }
        requires may { MayRedo (schema_of self.old) (state_of self.old) action }
        requires item { MayBeItem (schema_of self.old) action }
        requires mounted { D.tells disk.old ≡ true → IsMounted self.old (D.files disk.old) }
        ensures state { OnOk result (state_of self.new ≡ engine_done (schema_of self.old) (state_of self.old) action) }
        ensures schema { schema_of self.new ≡ schema_of self.old }
        ensures engine { OnOk result (IsEngine self.new) }
        ensures mounted { D.tells disk.old ≡ true → OnOk result (IsMounted self.new (D.files disk.new)) }
        ensures item { D.tells disk.old ≡ true → OnOk result (HasAdded self.old self.new action (D.files disk.old) (D.files disk.new)) }
        ensures holds { D.tells disk.old ≡ true → OnOk result (HoldsOn engine_files D.files D.moment D.left_since disk.new (EngineStands (schema_of self.old) (engine_done (schema_of self.old) (state_of self.old) action))) }
        ensures crash { D.tells disk.old ≡ true → Switches engine_files D.files D.moment D.left_since disk.old disk.new (EngineStands (schema_of self.old) (state_of self.old)) (EngineStands (schema_of self.old) (engine_done (schema_of self.old) (state_of self.old) action)) }
        ensures story { D.story disk.new ≡ D.story disk.old }
        ensures tells { D.tells disk.new ≡ D.tells disk.old }
        ensures later { D.faults disk.old ≤ D.faults disk.new }
        ensures failed { EngineFails (D.faults disk.old) (D.faults disk.new) result }
    {
        let item = item_of(self.alloc, self.tables.schema(), &action)?;
        self.redo(action)?;
        let Some(point) = self.point_behind(item.len()) else {
            return Err(EngineFault::Memory);
        };
        let file = FileId::Redo(point.number);
        put(disk, file, self.point.end, item.as_slice())?;
        self.switch(disk, point)?;
        Ok(())
    }
}
