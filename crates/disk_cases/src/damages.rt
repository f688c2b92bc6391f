use crate::found::{FILE, Found, NEW, OLD, find};
use control_block::{ControlBlock, ControlFault};
use disk_memory::MemoryDisk;
use edge_traits::Disk;
use std::alloc::Global;

/// Where the second slot begins.
const SECOND: u64 = 32_776;

/// A disk whose control file has the old bytes in its first slot and the new ones in the second, both open.
fn with_both(alloc: Global) -> Result<MemoryDisk, ControlFault> {
    let mut disk = MemoryDisk::new(alloc);
    let mut block = ControlBlock::mount(alloc, &mut disk, FILE)?;
    block.switch(&mut disk, OLD)?;
    block.switch(&mut disk, NEW)?;
    Ok(disk)
}

/// What is found under these tags.
pub fn with_tags(alloc: Global, first: u8, second: u8) -> Result<Found, ControlFault> {
    let mut disk = with_both(alloc)?;
    disk.write(FILE, 1, &[first])?;
    disk.write(FILE, SECOND + 1, &[second])?;
    find(alloc, &mut disk)
}

/// What is found where the second slot, which wins, has this size.
pub fn with_size(alloc: Global, size: u32) -> Result<Found, ControlFault> {
    let mut disk = with_both(alloc)?;
    disk.write(FILE, SECOND + 4, &size.to_le_bytes())?;
    find(alloc, &mut disk)
}
