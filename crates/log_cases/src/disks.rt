//! Disks that hold the log, and what a mount of one finds.
use crate::files::file;
use binlog_store::{BinlogStore, LogPoint, StoreFault};
use control_block::{ControlBlock, ControlFault};
use disk_memory::MemoryDisk;
use edge_traits::{Disk, FileId};
use ring_types::{Memory, Ring};
use std::alloc::Global;

/// Where the whole log ends.
pub const WHOLE: LogPoint = LogPoint {
    count: 7,
    file: 3,
    end: 511,
    highest: 3,
};

/// The 24 bytes of a point.
pub fn point_bytes(alloc: Global, point: LogPoint) -> Result<Vec<u8>, Memory> {
    let mut out = Vec::new(alloc);
    out.extend_from_slice(&point.count.to_le_bytes())?;
    out.extend_from_slice(&point.file.to_le_bytes())?;
    out.extend_from_slice(&point.end.to_le_bytes())?;
    out.extend_from_slice(&point.highest.to_le_bytes())?;
    Ok(out)
}

/// Writes a file anew, and syncs it.
pub fn write_file(disk: &mut MemoryDisk, number: u32, bytes: &[u8]) -> Result<(), StoreFault> {
    let file = FileId::Binlog(number);
    disk.cut(file, 0)?;
    disk.write(file, 0, bytes)?;
    disk.sync(file)?;
    Ok(())
}

/// Switches the control file to these bytes, twice: then both of its gates are open, and the next switch
/// has all of its stages.
fn switch_twice(alloc: Global, disk: &mut MemoryDisk, bytes: &[u8]) -> Result<(), ControlFault> {
    let mut control = ControlBlock::mount(alloc, disk, FileId::LogCtl)?;
    control.switch(disk, bytes)?;
    control.switch(disk, bytes)
}

/// Gives the control file these bytes.
pub fn name_end(alloc: Global, disk: &mut MemoryDisk, bytes: &[u8]) -> Result<(), StoreFault> {
    match switch_twice(alloc, disk, bytes) {
        Ok(()) => Ok(()),
        Err(ControlFault::Memory) => Err(StoreFault::Memory),
        Err(_) => Err(StoreFault::Disk),
    }
}

/// A disk with the three files of the log, and no control file yet.
pub fn with_files(alloc: Global, ring: &Ring) -> Result<MemoryDisk, StoreFault> {
    let mut disk = MemoryDisk::new(alloc);
    for number in 1..4 {
        let bytes = file(alloc, ring, number)?;
        write_file(&mut disk, number, bytes.as_slice())?;
    }
    Ok(disk)
}

/// A disk with the three files of the log, whose control file says that it ends at this point.
pub fn with_end(alloc: Global, ring: &Ring, point: LogPoint) -> Result<MemoryDisk, StoreFault> {
    let mut disk = with_files(alloc, ring)?;
    let bytes = point_bytes(alloc, point)?;
    name_end(alloc, &mut disk, bytes.as_slice())?;
    Ok(disk)
}

/// Mounts the log of a disk, and says what it finds.
pub fn find(alloc: Global, ring: &Ring, disk: &mut MemoryDisk) -> Result<String, StoreFault> {
    ring.law_built();
    match BinlogStore::mount(alloc, ring.schema(), disk) {
        Ok(store) => Ok(counted(alloc, store.length())?),
        Err(StoreFault::Damaged { file, at }) => Ok(damaged(alloc, file, at)?),
        Err(fault) => Err(fault),
    }
}

fn counted(alloc: Global, entries: u64) -> Result<String, Memory> {
    if entries == 1 {
        return format!(in alloc; "1 entry");
    }
    format!(in alloc; "{entries} entries")
}

fn damaged(alloc: Global, file: FileId, at: u64) -> Result<String, Memory> {
    match file {
        FileId::Binlog(number) => format!(in alloc; "damaged binlog.{number:06} at {at}"),
        FileId::LogCtl => format!(in alloc; "damaged log.ctl at {at}"),
        _ => format!(in alloc; "damaged at {at}"),
    }
}
