ghost use Rattle.std.specs.Prelude.{◌≡◌};
ghost use Rattle.engine_redo.specs.Faults.{fault_of};
ghost use Rattle.engine_redo.specs.declared.faults.EngineFault.TheVariants as fault;
ghost use Rattle.engine_redo.specs.declared.faults.ItemFault.TheVariants as item;

use edge_traits::{DiskFault, FileId};
use event_frame::FieldFault;
use std::alloc::{AllocError, AllocFailed};
use thiserror::Error;

/// Why a call on an engine failed. Of a call that changes it the disk holds the engine from before the call
/// or the one that the call makes.
#[derive(Clone, Copy, Debug, PartialEq, Eq, Error)]
pub enum EngineFault {
    /// The disk failed.
    #[error("the disk failed")]
    Disk,
    /// Memory was wanting, here or at the disk, or the redo would be longer than the disk or a u64 allows.
    #[error("out of memory")]
    Memory,
    /// At a mount alone: the files stand for no engine. At this offset of the redo begins the first item that
    /// is none, or is not possible there; of the control file the offset is 0.
    #[error("the engine is damaged: {file:?} at {at}")]
    Damaged { file: FileId, at: u64 },
}

impl From<DiskFault> for EngineFault {
    ghost from_gives = { λ d f. f ≡ fault_of d };

    fn from(fault: DiskFault) -> Self {
        match fault {
            DiskFault::Failed => EngineFault::Disk,
            DiskFault::Memory => EngineFault::Memory,
        }
    }
}

impl<T: Drop> From<AllocFailed<T>> for EngineFault {
    ghost from_gives = { λ _ f. f ≡ fault.Memory };

    fn from(_: AllocFailed<T>) -> Self {
        EngineFault::Memory
    }
}

impl From<AllocError> for EngineFault {
    ghost from_gives = { λ _ f. f ≡ fault.Memory };

    fn from(_: AllocError) -> Self {
        EngineFault::Memory
    }
}

/// Why no item was read.
#[derive(Clone, Copy)]
pub(crate) enum ItemFault {
    Memory,
    /// A field is cut, or is not allowed there.
    Field(FieldFault),
}

impl From<AllocError> for ItemFault {
    ghost from_gives = { λ _ f. f ≡ item.Memory };

    fn from(_: AllocError) -> Self {
        ItemFault::Memory
    }
}

impl From<FieldFault> for ItemFault {
    ghost from_gives = { λ field f. f ≡ item.Field field };

    fn from(fault: FieldFault) -> Self {
        ItemFault::Field(fault)
    }
}
