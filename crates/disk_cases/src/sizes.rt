use crate::found::FILE;
use control_block::{ControlBlock, ControlFault};
use disk_memory::MemoryDisk;
use std::alloc::Global;

/// A switch to so many bytes: what it answers, and how many calls of the disk it makes.
pub fn switched(alloc: Global, size: usize) -> Result<(&'static str, u64), ControlFault> {
    let mut disk = MemoryDisk::new(alloc);
    let mut block = ControlBlock::mount(alloc, &mut disk, FILE)?;
    let bytes = vec![in alloc; 7u8; size]?;
    let before = disk.calls();
    let answer = block.switch(&mut disk, bytes.as_slice());
    let calls = disk.calls().saturating_sub(before);
    match answer {
        Ok(()) => Ok(("taken", calls)),
        Err(ControlFault::TooLong) => Ok(("too long", calls)),
        Err(fault) => Err(fault),
    }
}
