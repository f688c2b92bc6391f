use crate::found::{FILE, Found, find};
use control_block::ControlFault;
use disk_memory::MemoryDisk;
use edge_traits::Disk;
use ring_types::Keep;
use std::alloc::Global;

/// A mount of a new file that is stopped, and a crash: how many bytes that leaves, and what the file holds
/// when it is mounted again.
pub fn stopped(alloc: Global, call: u64, keep: Keep) -> Result<(u64, Found), ControlFault> {
    let mut disk = MemoryDisk::new(alloc);
    disk.stop_at(call, keep)?;
    let _ = find(alloc, &mut disk);
    disk.crash()?;
    disk.clear()?;
    let left = disk.length(FILE)?;
    Ok((left, find(alloc, &mut disk)?))
}
