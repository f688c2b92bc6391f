use control_block::{ControlBlock, ControlFault};
use disk_memory::MemoryDisk;
use edge_traits::FileId;
use std::alloc::Global;
use std::fmt::{self, Display, Formatter, Write};

/// The control file of every case.
pub const FILE: FileId = FileId::VoteCtl;

/// The bytes of a file before the switch of a case.
pub const OLD: &[u8] = b"old bytes";

/// The bytes to which the case switches.
pub const NEW: &[u8] = b"new";

/// What a control file was found to hold.
#[derive(Clone, Copy)]
pub enum Found {
    Nothing,
    Old,
    New,
    Other,
    Damaged,
}

impl Display for Found {
    fn fmt<W: Write>(&self, f: &mut Formatter<W>) -> fmt::Result {
        f.write_str(match self {
            Found::Nothing => "nothing",
            Found::Old => "old",
            Found::New => "new",
            Found::Other => "other bytes",
            Found::Damaged => "damaged",
        })
    }
}

fn held(block: &ControlBlock) -> Found {
    match block.get() {
        None => Found::Nothing,
        Some(bytes) if bytes.as_slice() == OLD => Found::Old,
        Some(bytes) if bytes.as_slice() == NEW => Found::New,
        Some(_) => Found::Other,
    }
}

/// Mounts the file, and answers what it holds.
pub fn find(alloc: Global, disk: &mut MemoryDisk) -> Result<Found, ControlFault> {
    match ControlBlock::mount(alloc, disk, FILE) {
        Ok(block) => Ok(held(&block)),
        Err(ControlFault::Damaged) => Ok(Found::Damaged),
        Err(fault) => Err(fault),
    }
}
