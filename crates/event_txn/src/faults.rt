ghost use Rattle.std.specs.Prelude.{◌≡◌};
ghost use Rattle.event_txn.specs.Reading.{fault_of, offset_of};
ghost use Rattle.event_txn.specs.Txns.{fault_at};
ghost use Rattle.event_txn.specs.declared.faults.RowError.TheVariants.{Memory, Fault};
ghost use Rattle.event_txn.specs.declared.faults.TxnError.TheVariants as error;

use event_frame::{FieldFault, FrameError};
use std::alloc::AllocError;
use thiserror::Error;

/// Why a body is not one that may stand there: what kind of field its first fault is.
#[derive(Clone, Copy)]
pub enum BodyFault {
    /// A field that is cut, a packed integer that is not the shortest, bytes left over, and every
    /// field that is none of those below.
    Field,
    /// A table id, a name, a count of columns, a column's type, metadata or a bitmap of nullability.
    Table,
    /// A bitmap of nulls or a value of a row.
    Value,
}

/// Why a row was not read.
#[derive(Drop)]
pub enum RowError {
    Memory,
    Fault(BodyFault),
}

/// Why no transaction's events stand there. `at` is the offset of the first event at fault, counted
/// from the beginning of the bytes.
#[derive(Debug, PartialEq, Eq, Drop, Error)]
pub enum TxnError {
    /// The event's type or flags are not those of an event that is due there.
    #[error("the event at {at} is not due")]
    Order { at: u64 },
    /// A field of its body is cut, packed in a longer form, left over, or another than is due.
    #[error("the event at {at} has a bad field")]
    Field { at: u64 },
    /// Its body describes or names a table otherwise than the schema.
    #[error("the event at {at} has another table")]
    Table { at: u64 },
    /// Its body has a value or nulls that its table does not allow.
    #[error("the event at {at} has a bad value")]
    Value { at: u64 },
    /// No event stands there.
    #[error("no event at {at}: {fault}")]
    Frame { at: u64, fault: FrameError },
    #[error("out of memory")]
    Memory,
}

impl From<AllocError> for RowError {
    ghost from_gives = { λ _ e. e ≡ Memory };

    fn from(_error: AllocError) -> RowError {
        RowError::Memory
    }
}

impl From<BodyFault> for RowError {
    ghost from_gives = { λ fault e. e ≡ Fault fault };

    fn from(fault: BodyFault) -> RowError {
        RowError::Fault(fault)
    }
}

impl From<AllocError> for TxnError {
    ghost from_gives = { λ _ e. e ≡ error.Memory };

    fn from(_error: AllocError) -> TxnError {
        TxnError::Memory
    }
}

/// The fault that a field is, by the kind that its body's table names.
pub fn fault_of(wrong: BodyFault, fault: FieldFault) -> BodyFault
    ensures { result ≡ fault_of wrong fault }
{
    match fault {
        FieldFault::Cut => BodyFault::Field,
        FieldFault::Wrong => wrong,
    }
}

/// The fault of a body, with its event's offset.
pub fn fault_at(offset: u64, fault: BodyFault) -> TxnError
    ensures value { result ≡ fault_at offset fault }
    ensures offset { offset_of result ≡ offset }
{
    match fault {
        BodyFault::Field => TxnError::Field { at: offset },
        BodyFault::Table => TxnError::Table { at: offset },
        BodyFault::Value => TxnError::Value { at: offset },
    }
}
