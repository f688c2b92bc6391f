ghost use Rattle.std.specs.Prelude.{◌≡◌};
ghost use Rattle.binlog_store.specs.Faults.{fault_of};
ghost use Rattle.binlog_store.specs.declared.faults.StoreFault.TheVariants as fault;

use edge_traits::{DiskFault, FileId};
use std::alloc::{AllocError, AllocFailed};
use thiserror::Error;

/// Why a call on a store failed. Of an append or a truncation the disk holds the old log or the new one.
#[derive(Clone, Copy, Debug, PartialEq, Eq, Error)]
pub enum StoreFault {
    /// The disk failed.
    #[error("the disk failed")]
    Disk,
    /// Memory was wanting, here or at the disk, or a file would be longer than the disk or a u64 allows.
    #[error("out of memory")]
    Memory,
    /// At a mount alone: the files are damaged. At this offset of this file begins the first event with which
    /// no log goes on, or the group that the log's end leaves unfinished; of the control file it is 0.
    #[error("the log is damaged: {file:?} at {at}")]
    Damaged { file: FileId, at: u64 },
}

impl From<DiskFault> for StoreFault {
    ghost from_gives = { λ d f. f ≡ fault_of d };

    fn from(fault: DiskFault) -> Self {
        match fault {
            DiskFault::Failed => StoreFault::Disk,
            DiskFault::Memory => StoreFault::Memory,
        }
    }
}

impl<T: Drop> From<AllocFailed<T>> for StoreFault {
    ghost from_gives = { λ _ f. f ≡ fault.Memory };

    fn from(_: AllocFailed<T>) -> Self {
        StoreFault::Memory
    }
}

impl From<AllocError> for StoreFault {
    ghost from_gives = { λ _ f. f ≡ fault.Memory };

    fn from(_: AllocError) -> Self {
        StoreFault::Memory
    }
}
