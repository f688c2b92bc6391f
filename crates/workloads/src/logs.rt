//! Logs on a disk in memory: mounted, and appended to.
ghost use Rattle.std.specs.Prelude.{◌≡◌, ◌++◌, ◌∷◌, [], true, IfOk, OnOk};
ghost use Rattle.ring_types.specs.Rings.{is_schema};
ghost use Rattle.disk_memory.specs.Pasts.{states};
ghost use Rattle.binlog_store.specs.Mounted.{IsMounted, IsStore, log_of};
ghost use Rattle.binlog_store.specs.Stands.{IsWritten};

use crate::groups::{file, ring};
use binlog_store::{BinlogStore, StoreFault};
use control_block::{ControlBlock, ControlFault};
use disk_memory::MemoryDisk;
use edge_traits::{FileId, put};
use ring_types::{Duplicate, Entry, List, Memory, Schema};
use std::alloc::Global;

/// The bytes that say in a control file that a log of so many entries ends there in its only file.
fn point(alloc: Global, count: u64, end: u64) -> Result<Vec<u8>, Memory> {
    let mut out = Vec::new(alloc);
    out.extend_from_slice(&count.to_le_bytes())?;
    out.extend_from_slice(&1u32.to_le_bytes())?;
    out.extend_from_slice(&end.to_le_bytes())?;
    out.extend_from_slice(&1u32.to_le_bytes())?;
    Ok(out)
}

/// Writes the file of a log of so many transactions, and the control file that says where it ends.
fn write_log(alloc: Global, disk: &mut MemoryDisk, count: u64) -> Result<(), ControlFault> {
    let bytes = file(alloc, count)?;
    let point = point(alloc, count, bytes.len() as u64)?;
    put(disk, FileId::Binlog(1), 0, bytes.as_slice())?;
    let mut control = ControlBlock::mount(alloc, disk, FileId::LogCtl)?;
    control.switch(disk, point.as_slice())
}

/// Mounts a log of so many transactions on a disk.
fn mount(
    alloc: Global,
    schema: &Schema,
    disk: &mut MemoryDisk,
    count: u64,
) -> Result<BinlogStore, StoreFault>
    requires { is_schema schema.now ≡ true }
    ensures store { IfOk result (λ it. IsStore schema.now it) }
    ensures mounted { IfOk result (λ it. IsMounted schema.now it (states disk.new.past.records)) }
{
    let Ok(()) = write_log(alloc, disk, count) else {
        return Err(StoreFault::Disk);
    };
    BinlogStore::mount(alloc, schema, disk)
}

/// Appends a copy of the next entry.
fn append_one(
    alloc: Global,
    schema: &Schema,
    disk: &mut MemoryDisk,
    store: &mut BinlogStore,
    entry: &Entry,
) -> Result<(), StoreFault>
    requires schema { is_schema schema.now ≡ true }
    requires store { IsStore schema.now store.old }
    requires log { IsWritten schema.now (log_of store.old ++ entry.now ∷ []) }
    requires mounted { IsMounted schema.now store.old (states disk.old.past.records) }
    ensures log { OnOk result (log_of store.new ≡ log_of store.old ++ entry.now ∷ []) }
    ensures store { OnOk result (IsStore schema.now store.new) }
    ensures mounted { OnOk result (IsMounted schema.now store.new (states disk.new.past.records)) }
{
    let entries = List::of_one(alloc, entry.copy(alloc)?)?;
    store.append(schema, disk, entries)
}

/// Appends the entries of a whole log to the empty one, each by itself.
fn append_each(
    alloc: Global,
    schema: &Schema,
    disk: &mut MemoryDisk,
    store: &mut BinlogStore,
    whole: &[Entry],
) -> Result<(), StoreFault>
    requires schema { is_schema schema.now ≡ true }
    requires written { IsWritten schema.now whole.now }
    requires empty { log_of store.old ≡ [] }
    requires store { IsStore schema.now store.old }
    requires mounted { IsMounted schema.now store.old (states disk.old.past.records) }
    ensures { OnOk result (log_of store.new ≡ whole.now) }
{
    for entry in whole {
        append_one(alloc, schema, disk, store, entry)?;
    }
    Ok(())
}

/// Truncates the log to nothing and appends its entries again.
fn append_again(
    alloc: Global,
    schema: &Schema,
    disk: &mut MemoryDisk,
    store: &mut BinlogStore,
) -> Result<(), StoreFault>
    requires schema { is_schema schema.now ≡ true }
    requires store { IsStore schema.now store.old }
    requires mounted { IsMounted schema.now store.old (states disk.old.past.records) }
    ensures { OnOk result (log_of store.new ≡ log_of store.old) }
{
    let mut whole = List::new(alloc);
    whole.extend_copies(alloc, store.entries())?;
    store.truncate(schema, disk, 0)?;
    append_each(alloc, schema, disk, store, whole.as_slice())
}

/// Mounts a log of so many entries. Answers how many it has.
pub fn mounted(alloc: Global, count: u64) -> Result<u64, Memory> {
    let Some(ring) = ring(alloc)? else {
        return Ok(0);
    };
    ring.law_built();
    let mut disk = MemoryDisk::new(alloc);
    match mount(alloc, ring.schema(), &mut disk, count) {
        Ok(store) => Ok(store.length()),
        Err(_) => Ok(0),
    }
}

/// Mounts a log of so many entries, truncates it to nothing, and appends them again, each by itself. Answers
/// how many it has then.
pub fn appended(alloc: Global, count: u64) -> Result<u64, Memory> {
    let Some(ring) = ring(alloc)? else {
        return Ok(0);
    };
    ring.law_built();
    let mut disk = MemoryDisk::new(alloc);
    let Ok(mut store) = mount(alloc, ring.schema(), &mut disk, count) else {
        return Ok(0);
    };
    match append_again(alloc, ring.schema(), &mut disk, &mut store) {
        Ok(()) => Ok(store.length()),
        Err(_) => Ok(0),
    }
}
