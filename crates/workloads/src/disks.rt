use control_block::ControlBlock;
use disk_memory::MemoryDisk;
use edge_traits::{Disk, DiskFault, FileId};
use ring_types::Memory;
use std::alloc::Global;

/// Writes 100 bytes at the end of a file that has `end` bytes, or syncs it after four such writes.
fn add(disk: &mut MemoryDisk, call: u64, end: u64) -> Result<u64, DiskFault> {
    if call % 5 == 4 {
        disk.sync(FileId::Binlog(1))?;
        return Ok(end);
    }
    disk.write(FileId::Binlog(1), end, &[7; 100])?;
    Ok(end.saturating_add(100))
}

/// `count` calls of a disk. Answers how long the file is after them, or when the first one failed.
pub fn written(alloc: Global, count: u64) -> u64 {
    let mut disk = MemoryDisk::new(alloc);
    let mut end = 0;
    for call in 0..count {
        let Ok(length) = add(&mut disk, call, end) else {
            return end;
        };
        end = length;
    }
    end
}

/// `count` switches of a control file to 1,000 bytes. Answers how many were done.
pub fn switched(alloc: Global, count: u64) -> Result<u64, Memory> {
    let bytes = vec![in alloc; 7u8; 1_000]?;
    let mut disk = MemoryDisk::new(alloc);
    let Ok(mut block) = ControlBlock::mount(alloc, &mut disk, FileId::LogCtl) else {
        return Ok(0);
    };
    for done in 0..count {
        let Ok(()) = block.switch(&mut disk, &bytes) else {
            return Ok(done);
        };
    }
    Ok(count)
}
