//! Mounting an engine: the control file says where the redo ends, and up to there its items are done.
ghost use Rattle.std.specs.Prelude.{◌≡◌, ◌≤◌, ◌<◌, ◌+◌, ℕ, [], true, false, IfOk, OnOk, List, drop, length, take};
ghost use Rattle.control_block.specs.Blocks.{Stands};
ghost use Rattle.control_block.specs.ControlFiles.{control_of};
ghost use Rattle.edge_traits.specs.DiskCalls.{Elsewhere};
ghost use Rattle.edge_traits.specs.FileStates.{MayLeave, settled};
ghost use Rattle.edge_traits.specs.Moments.{AtEachMoment};
ghost use Rattle.edge_traits.specs.Works.{HoldsOn};
ghost use Rattle.edge_traits.specs.declared.disks.FileId.TheVariants as id;
ghost use Rattle.event_frame.specs.Forms.{front_of};
ghost use Rattle.event_frame.specs.declared.field_readers.FieldFault.TheVariants as field;
ghost use Rattle.engine_redo.specs.Damages.{IsDamaged, IsLongest, RedoDamaged};
ghost use Rattle.engine_redo.specs.Faults.{EngineFails, IfDamaged, IsNoDisk, MountFails};
ghost use Rattle.engine_redo.specs.Groups.{engine_files};
ghost use Rattle.engine_redo.specs.Items.{IsItem, item_form};
ghost use Rattle.engine_redo.specs.Mounted.{IsEngine, IsMounted, schema_of, state_of};
ghost use Rattle.engine_redo.specs.Mounting.{HasRedone, HaveTheirBytes, IsNamed, Keeps, Names, PointTold, seen_of};
ghost use Rattle.engine_redo.specs.Points.{is_redo_file};
ghost use Rattle.engine_redo.specs.Reading.{Reads};
ghost use Rattle.engine_redo.specs.Stands.{EngineStands, MayRedo, empty_engine};
ghost use Rattle.engine_redo.specs.declared.faults.EngineFault.TheVariants as fault;
ghost use Rattle.ring_types.specs.Rings.{is_schema};

use crate::engines::Engine;
use crate::faults::{EngineFault, ItemFault};
use crate::points::{RedoPoint, named_point};
use crate::reading::item_at;
use control_block::{ControlBlock, ControlFault};
use edge_traits::{Disk, FileId};
use prepared_txns::Prepared;
use ring_model::Action;
use ring_types::{Memory, Schema};
use row_engine::Tables;
use std::alloc::Global;

/// Mounts the control file.
fn mount_control<D: Disk>(alloc: Global, disk: &mut D) -> Result<ControlBlock, EngineFault>
    ensures stands { D.tells disk.old ≡ true → IfOk result (λ it. Stands it (D.files disk.new id.EngineCtl)) }
    ensures holds { D.tells disk.old ≡ true → IfOk result (λ it. control_of (D.files disk.old id.EngineCtl).bytes ≡ Some it.bytes) }
    ensures file { IfOk result (λ it. it.file ≡ id.EngineCtl) }
    ensures damaged { D.tells disk.old ≡ true → IfDamaged (λ f at. (f ≡ id.EngineCtl) × (at ≡ 0) × (control_of (D.files disk.old id.EngineCtl).bytes ≡ None)) result }
    ensures elsewhere { D.tells disk.old ≡ true → Elsewhere id.EngineCtl (D.files disk.old) (D.files disk.new) }
    ensures keeps { D.tells disk.old ≡ true → Keeps D.files D.moment D.left_since disk.old disk.new }
    ensures story { D.story disk.new ≡ D.story disk.old }
    ensures tells { D.tells disk.new ≡ D.tells disk.old }
    ensures later { D.faults disk.old ≤ D.faults disk.new }
    ensures failed { MountFails (D.faults disk.old) (D.faults disk.new) result }
{
    match ControlBlock::mount(alloc, disk, FileId::EngineCtl) {
        Ok(control) => Ok(control),
        Err(ControlFault::Damaged) => Err(EngineFault::Damaged {
            file: FileId::EngineCtl,
            at: 0,
        }),
        Err(ControlFault::Disk) => Err(EngineFault::Disk),
        Err(ControlFault::Memory) => Err(EngineFault::Memory),
        Err(ControlFault::TooLong) => unreachable!(),
    }
}

/// The point that the control file names, if it has bytes.
fn told_point(control: &ControlBlock) -> Result<Option<RedoPoint>, EngineFault>
    ensures { PointTold control.now.bytes result }
{
    let Some(bytes) = control.get() else {
        return Ok(None);
    };
    match named_point(bytes.as_slice()) {
        Some(point) => Ok(Some(point)),
        None => Err(EngineFault::Damaged {
            file: FileId::EngineCtl,
            at: 0,
        }),
    }
}

/// All bytes of a redo file. It is synced first, so what is read is what a crash leaves from then on.
fn read_file<D: Disk>(disk: &mut D, alloc: Global, number: u32) -> Result<Vec<u8>, EngineFault>
    ensures told { D.tells disk.old ≡ true → IfOk result (λ it. it.items ≡ (D.files disk.old (id.Redo number)).bytes) }
    ensures settled { D.tells disk.old ≡ true → IfOk result (λ it. D.files disk.new (id.Redo number) ≡ settled it.items) }
    ensures same { D.tells disk.old ≡ true → (D.files disk.new (id.Redo number)).bytes ≡ (D.files disk.old (id.Redo number)).bytes }
    ensures crash { D.tells disk.old ≡ true → AtEachMoment D.files D.moment D.left_since (id.Redo number) disk.old disk.new (MayLeave (D.files disk.old (id.Redo number))) }
    ensures story { D.story disk.new ≡ D.story disk.old }
    ensures tells { D.tells disk.new ≡ D.tells disk.old }
    ensures later { D.faults disk.old ≤ D.faults disk.new }
    ensures failed { EngineFails (D.faults disk.old) (D.faults disk.new) result }
{
    let file = FileId::Redo(number);
    disk.sync(file)?;
    let length = disk.length(file)?;
    let mut bytes = vec![in alloc; 0u8; length as usize]?;
    disk.read(file, 0, bytes.as_mut_slice())?;
    Ok(bytes)
}

/// All bytes of a redo file, as [`read_file`] reads them; what the engine's files held, they hold.
fn read_redo<D: Disk>(disk: &mut D, alloc: Global, number: u32) -> Result<Vec<u8>, EngineFault>
    ensures told { D.tells disk.old ≡ true → IfOk result (λ it. it.items ≡ (D.files disk.old (id.Redo number)).bytes) }
    ensures settled { D.tells disk.old ≡ true → IfOk result (λ it. D.files disk.new (id.Redo number) ≡ settled it.items) }
    ensures bytes { D.tells disk.old ≡ true → HaveTheirBytes (D.files disk.old) (D.files disk.new) }
    ensures control { D.tells disk.old ≡ true → D.files disk.new id.EngineCtl ≡ D.files disk.old id.EngineCtl }
    ensures keeps { D.tells disk.old ≡ true → Keeps D.files D.moment D.left_since disk.old disk.new }
    ensures story { D.story disk.new ≡ D.story disk.old }
    ensures tells { D.tells disk.new ≡ D.tells disk.old }
    ensures later { D.faults disk.old ≤ D.faults disk.new }
    ensures failed { EngineFails (D.faults disk.old) (D.faults disk.new) result }
{
    read_file(disk, alloc, number)
}

impl Engine {
    /// The empty engine, whose redo begins in this file.
    fn empty(
        alloc: Global,
        schema: &Schema,
        control: ControlBlock,
        number: u32,
    ) -> Result<Engine, Memory>
        ensures state { IfOk result (λ it. state_of it ≡ empty_engine schema.now) }
        ensures schema { IfOk result (λ it. schema_of it ≡ schema.now) }
        ensures control { IfOk result (λ it. it.control ≡ control) }
        ensures point { IfOk result (λ it. it.point ≡ record { number = number; end = 0 }) }
    {
        Ok(Engine {
            alloc,
            applied: 0,
            prepared: Prepared::new(alloc),
            tables: Tables::new(alloc, schema)?,
            point: RedoPoint { number, end: 0 },
            control,
        })
    }

    /// Whether an item that was read is possible now.
    fn may_redo(&self, item: &Action) -> bool
        requires { (text : List ℕ) × IsItem (schema_of self.now) text item.now }
        ensures may { result ≡ true → MayRedo (schema_of self.now) (state_of self.now) item.now }
        ensures refused { result ≡ false → MayRedo (schema_of self.now) (state_of self.now) item.now → ⊥ }
    {
        match item {
            Action::Prepare(pair) => self.prepared.conflict(&pair.txn.changes).is_none(),
            Action::Commit(position) => 1 <= *position && *position - 1 == self.applied,
            Action::RollBackAfter(_) | Action::DropPairs(_) => true,
            _ => false,
        }
    }

    /// The damage of a redo whose items end here.
    fn damage(&self) -> EngineFault
        ensures { result ≡ fault.Damaged (id.Redo self.now.point.number) self.now.point.end }
    {
        EngineFault::Damaged {
            file: FileId::Redo(self.point.number),
            at: self.point.end,
        }
    }

    /// The item behind the end of what is done of the bytes of a redo, and the bytes behind it.
    fn next_item<'a>(&self, bytes: &'a [u8]) -> Result<(Action, &'a [u8]), ItemFault>
        requires schema { is_schema (schema_of self.now) ≡ true }
        requires within { self.now.point.end < length bytes.now }
        ensures { Reads (λ x. (x.0, x.1.now)) result (front_of field.Cut (item_form (schema_of self.now)) (drop self.now.point.end bytes.now)) }
    {
        let (_, rest) = bytes.split_at(self.point.end as usize);
        item_at(self.alloc, self.tables.schema(), rest)
    }

    /// Does the next item of the bytes of a redo.
    fn redo_next(&mut self, bytes: &[u8]) -> Result<(), EngineFault>
        requires schema { is_schema (schema_of self.old) ≡ true }
        requires within { self.old.point.end < length bytes.now }
        requires redone { HasRedone bytes.now self.old }
        ensures redone { OnOk result (HasRedone bytes.now self.new) }
        ensures schema { schema_of self.new ≡ schema_of self.old }
        ensures control { self.new.control ≡ self.old.control }
        ensures number { self.new.point.number ≡ self.old.point.number }
        ensures within { OnOk result (self.new.point.end ≤ length bytes.now) }
        ensures further { OnOk result (self.old.point.end < self.new.point.end) }
        ensures damaged { IfDamaged (λ f at. (f ≡ id.Redo self.old.point.number) × (at < length bytes.now) × IsLongest (schema_of self.old) bytes.now at) result }
        ensures no_disk { IsNoDisk result }
    {
        match self.next_item(bytes) {
            Ok((item, behind)) => {
                if !self.may_redo(&item) {
                    return Err(self.damage());
                }
                self.redo(item)?;
                self.point.end = (bytes.len() - behind.len()) as u64;
                Ok(())
            }
            Err(ItemFault::Field(_)) => Err(self.damage()),
            Err(ItemFault::Memory) => Err(EngineFault::Memory),
        }
    }

    /// Does the items of a redo, one behind another, until its bytes end.
    fn redo_all(&mut self, bytes: &[u8]) -> Result<(), EngineFault>
        requires schema { is_schema (schema_of self.old) ≡ true }
        requires front { self.old.point.end ≡ 0 }
        requires redone { HasRedone bytes.now self.old }
        ensures redone { OnOk result (HasRedone bytes.now self.new) }
        ensures schema { schema_of self.new ≡ schema_of self.old }
        ensures control { self.new.control ≡ self.old.control }
        ensures number { self.new.point.number ≡ self.old.point.number }
        ensures end { OnOk result (self.new.point.end ≡ length bytes.now) }
        ensures damaged { IfDamaged (λ f at. (f ≡ id.Redo self.old.point.number) × (at < length bytes.now) × IsLongest (schema_of self.old) bytes.now at) result }
        ensures no_disk { IsNoDisk result }
    {
        while self.point.end < bytes.len() as u64 {
            self.redo_next(bytes)?;
        }
        Ok(())
    }

    /// Does the items of a redo file up to an end that is recorded.
    fn redo_to(&mut self, bytes: &[u8], end: u64) -> Result<(), EngineFault>
        requires schema { is_schema (schema_of self.old) ≡ true }
        requires front { self.old.point.end ≡ 0 }
        requires empty { state_of self.old ≡ empty_engine (schema_of self.old) }
        ensures redone { OnOk result (HasRedone bytes.now self.new) }
        ensures schema { schema_of self.new ≡ schema_of self.old }
        ensures control { self.new.control ≡ self.old.control }
        ensures number { self.new.point.number ≡ self.old.point.number }
        ensures end { OnOk result (self.new.point.end ≡ end) }
        ensures reaches { OnOk result (end ≤ length bytes.now) }
        ensures damaged { IfDamaged (λ f at. (f ≡ id.Redo self.old.point.number) × (at < end) × IsLongest (schema_of self.old) (take end bytes.now) at) result }
        ensures no_disk { IsNoDisk result }
    {
        if bytes.len() as u64 >= end {
            return self.redo_all(&bytes[..end as usize]);
        }
        self.redo_all(bytes)?;
        Err(self.damage())
    }
}

/// Mounts an engine whose redo ends at the point.
fn mount_redo<D: Disk>(
    alloc: Global,
    schema: &Schema,
    disk: &mut D,
    control: ControlBlock,
    point: RedoPoint,
) -> Result<Engine, EngineFault>
    requires schema { is_schema schema.now ≡ true }
    requires named { Names control.bytes point }
    requires file { control.file ≡ id.EngineCtl }
    requires stands { D.tells disk.old ≡ true → Stands control (D.files disk.old id.EngineCtl) }
    ensures engine { IfOk result (λ it. IsEngine it) }
    ensures schema { IfOk result (λ it. schema_of it ≡ schema.now) }
    ensures control { IfOk result (λ it. it.control ≡ control) }
    ensures point { IfOk result (λ it. it.point ≡ point) }
    ensures reaches { D.tells disk.old ≡ true → IfOk result (λ it. point.end ≤ length (D.files disk.old (id.Redo point.number)).bytes) }
    ensures redone { D.tells disk.old ≡ true → IfOk result (λ it. HasRedone (D.files disk.old (id.Redo point.number)).bytes it) }
    ensures mounted { D.tells disk.old ≡ true → IfOk result (λ it. IsMounted it (D.files disk.new)) }
    ensures damaged { D.tells disk.old ≡ true → IfDamaged (RedoDamaged schema.now point (seen_of (D.files disk.old))) result }
    ensures bytes { D.tells disk.old ≡ true → HaveTheirBytes (D.files disk.old) (D.files disk.new) }
    ensures keeps { D.tells disk.old ≡ true → Keeps D.files D.moment D.left_since disk.old disk.new }
    ensures story { D.story disk.new ≡ D.story disk.old }
    ensures tells { D.tells disk.new ≡ D.tells disk.old }
    ensures later { D.faults disk.old ≤ D.faults disk.new }
    ensures failed { MountFails (D.faults disk.old) (D.faults disk.new) result }
{
    let bytes = read_redo(disk, alloc, point.number)?;
    let mut engine = Engine::empty(alloc, schema, control, point.number)?;
    engine.redo_to(bytes.as_slice(), point.end)?;
    Ok(engine)
}

impl Engine {
    /// Mounts the engine of a disk: reads the control file, and does again what the items of the redo say up
    /// to the end that it names. The engine keeps a copy of the schema.
    pub fn mount<D: Disk>(
        alloc: Global,
        schema: &Schema,
        disk: &mut D,
    ) -> Result<Engine, EngineFault>
        requires { is_schema schema.now ≡ true }
        ensures engine { IfOk result (λ it. IsEngine it) }
        ensures schema { IfOk result (λ it. schema_of it ≡ schema.now) }
        ensures state { D.tells disk.old ≡ true → IfOk result (λ it. EngineStands schema.now (state_of it) (seen_of (D.files disk.old))) }
        ensures mounted { D.tells disk.old ≡ true → IfOk result (λ it. IsMounted it (D.files disk.new)) }
        ensures holds { D.tells disk.old ≡ true → IfOk result (λ it. HoldsOn engine_files D.files D.moment D.left_since disk.new (EngineStands schema.now (state_of it))) }
        ensures crash { D.tells disk.old ≡ true → Keeps D.files D.moment D.left_since disk.old disk.new }
        ensures damaged { D.tells disk.old ≡ true → IfDamaged (IsDamaged schema.now (seen_of (D.files disk.old))) result }
        ensures bytes { D.tells disk.old ≡ true → HaveTheirBytes (D.files disk.old) (D.files disk.new) }
        ensures story { D.story disk.new ≡ D.story disk.old }
        ensures tells { D.tells disk.new ≡ D.tells disk.old }
        ensures later { D.faults disk.old ≤ D.faults disk.new }
        ensures failed { MountFails (D.faults disk.old) (D.faults disk.new) result }
    {
        let control = mount_control(alloc, disk)?;
        match told_point(&control)? {
            None => Ok(Engine::empty(alloc, schema, control, 1)?),
            Some(point) => mount_redo(alloc, schema, disk, control, point),
        }
    }
}
