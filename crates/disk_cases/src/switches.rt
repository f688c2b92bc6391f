ghost use Rattle.std.specs.Prelude.{◌≡◌, IfOk, OnOk};
ghost use Rattle.control_block.specs.Blocks.{Stands};
ghost use Rattle.disk_memory.specs.Pasts.{states};

use crate::found::{FILE, Found, NEW, OLD, find};
use control_block::{ControlBlock, ControlFault};
use disk_memory::MemoryDisk;
use ring_types::{Keep, Memory};
use std::alloc::Global;

/// Gives the file the old bytes, after older ones: both gates are open, so that the next switch has all of
/// its stages.
fn with_old(alloc: Global, disk: &mut MemoryDisk) -> Result<ControlBlock, ControlFault>
    ensures { IfOk result (λ block. Stands block (states disk.new.past.records block.file)) }
{
    let mut block = ControlBlock::mount(alloc, disk, FILE)?;
    block.switch(disk, b"older")?;
    block.switch(disk, OLD)?;
    Ok(block)
}

fn stop(disk: &mut MemoryDisk, call: u64, keep: Keep) -> Result<(), Memory>
    ensures { OnOk result (disk.new.past.records ≡ disk.old.past.records) }
{
    disk.stop_at(call, keep)
}

fn fail(disk: &mut MemoryDisk, call: u64) -> Result<(), Memory>
    ensures { OnOk result (disk.new.past.records ≡ disk.old.past.records) }
{
    disk.fail_at(call)
}

/// A switch that is stopped, and a crash.
pub fn stopped(alloc: Global, call: u64, keep: Keep) -> Result<Found, ControlFault> {
    let mut disk = MemoryDisk::new(alloc);
    let mut block = with_old(alloc, &mut disk)?;
    stop(&mut disk, call, keep)?;
    let _ = block.switch(&mut disk, NEW);
    disk.crash()?;
    disk.clear()?;
    find(alloc, &mut disk)
}

/// A switch of which one call fails, and a crash.
pub fn failed(alloc: Global, call: u64) -> Result<Found, ControlFault> {
    let mut disk = MemoryDisk::new(alloc);
    let mut block = with_old(alloc, &mut disk)?;
    fail(&mut disk, call)?;
    let _ = block.switch(&mut disk, NEW);
    disk.crash()?;
    disk.clear()?;
    find(alloc, &mut disk)
}

/// A switch of which one call fails, and no crash.
pub fn failed_and_mounted(alloc: Global, call: u64) -> Result<Found, ControlFault> {
    let mut disk = MemoryDisk::new(alloc);
    let mut block = with_old(alloc, &mut disk)?;
    fail(&mut disk, call)?;
    let _ = block.switch(&mut disk, NEW);
    disk.clear()?;
    find(alloc, &mut disk)
}
