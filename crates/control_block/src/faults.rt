ghost use Rattle.std.specs.Prelude.{◌≡◌};
ghost use Rattle.control_block.specs.Faults.{fault_of};
ghost use Rattle.control_block.specs.declared.faults.ControlFault.TheVariants as fault;

use edge_traits::DiskFault;
use std::alloc::{AllocError, AllocFailed};
use thiserror::Error;

/// Why a control file was not mounted or switched.
#[derive(Clone, Copy, Debug, PartialEq, Eq, Error)]
pub enum ControlFault {
    /// More than 32,768 bytes were given to a switch. Nothing was done.
    #[error("more than 32,768 bytes for a control file")]
    TooLong,
    /// The disk failed.
    #[error("the disk failed")]
    Disk,
    /// At mount: both gates are open and neither tag follows the other, or the slot that wins has a size
    /// above 32,768.
    #[error("the control file is damaged")]
    Damaged,
    /// Memory was wanting, here or at the disk.
    #[error("out of memory")]
    Memory,
}

impl From<DiskFault> for ControlFault {
    ghost from_gives = { λ d c. c ≡ fault_of d };

    fn from(fault: DiskFault) -> Self {
        match fault {
            DiskFault::Failed => ControlFault::Disk,
            DiskFault::Memory => ControlFault::Memory,
        }
    }
}

impl From<AllocError> for ControlFault {
    ghost from_gives = { λ _ c. c ≡ fault.Memory };

    fn from(_: AllocError) -> Self {
        ControlFault::Memory
    }
}

impl<T: Drop> From<AllocFailed<T>> for ControlFault {
    ghost from_gives = { λ _ c. c ≡ fault.Memory };

    fn from(_: AllocFailed<T>) -> Self {
        ControlFault::Memory
    }
}
