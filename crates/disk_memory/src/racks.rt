ghost use Rattle.std.specs.Prelude.{◌≡◌, ◌<◌, ◌++◌, ◌∷◌, [], Some, OnOk, OnErr, length, slice_get};
ghost use Rattle.std.specs.Borrow.{sem};

use crate::memory_disks::MemoryDisk;
use ring_types::Memory;
use std::alloc::Global;
use std::marker::Model;

/// The disks in memory of several nodes. Contracts see a list of them.
#[derive(Drop)]
pub struct Rack {
    disks: Vec<MemoryDisk>,
}

impl Model for Rack {
    ghost use Rattle.std.specs.Prelude.{List};
    ghost use Rattle.disk_memory.specs.Pasts.{DiskState};

    ghost Value = { List DiskState };

    ghost view = { λ r. r.disks.items };
}

impl Rack {
    ghost use Rattle.disk_memory.specs.Racks.{LendsDisk};

    /// An empty rack.
    pub fn new(alloc: Global) -> Rack
        ensures { result ≡ [] }
    {
        Rack {
            disks: Vec::new(alloc),
        }
    }

    /// Puts a disk behind the others. Without memory the rack stays as it was, and the disk is let go.
    pub fn add(&mut self, disk: MemoryDisk) -> Result<(), Memory>
        ensures ok { OnOk result (self.new ≡ self.old ++ disk ∷ []) }
        ensures err { OnErr result (self.new ≡ self.old) }
    {
        self.disks.push(disk)?;
        Ok(())
    }

    /// How many disks there are.
    pub fn length(&self) -> u64
        ensures { result ≡ length self.now }
    {
        self.disks.len() as u64
    }

    /// The disk at a place counted from 0, lent. The others stay as they are.
    pub fn disk(&mut self, index: u64) -> &mut MemoryDisk
        requires { index < length self.old }
        ensures disk { slice_get self.old index ≡ Some result.now }
        ensures* lends { sem 𝓛 (LendsDisk self.entry index result) }
    {
        &mut self.disks[index as usize]
    }
}
