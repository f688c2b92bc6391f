use ring_types::Opid;
use thiserror::Error;

/// Why a transaction was not prepared.
#[derive(Clone, Copy, Debug, PartialEq, Eq, Error)]
pub enum PrepareError {
    /// The change at this place, counted from 0, is the first whose key a prepared transaction
    /// writes, and this is that transaction's opid.
    #[error("a prepared transaction writes the key of change {change}")]
    Locked { change: u64, holder: Opid },
    /// Memory was wanting.
    #[error("out of memory")]
    Memory,
}
